// When a program is finishing, as definitions with a theorem; this crate has no code.
#![tactic(auto)]
