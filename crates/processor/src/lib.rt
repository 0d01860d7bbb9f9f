// The whole processor, from text to table and verdict, as definitions; this crate has no code.
#![tactic(auto)]
