// A program's declarations in one row, as definitions and laws; this crate has no code.
#![tactic(auto)]
