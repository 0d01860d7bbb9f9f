// The rules' own walk, as definitions; this crate has no code.
#![tactic(auto)]
