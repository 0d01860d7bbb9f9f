// A word that the scanner found against a derivation's, as laws; this crate has no code.
#![tactic(auto)]
