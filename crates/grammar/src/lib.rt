// What was read from where, for the passes behind the syntax pass, as definitions and laws; this crate has no code.
#![tactic(auto)]
