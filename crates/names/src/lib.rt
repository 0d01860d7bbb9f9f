// From the tree of words to the program as numbers, as definitions; this crate has no code.
#![tactic(auto)]
