// The program as numbers and its table, as definitions; this crate has no code.
#![tactic(auto)]
