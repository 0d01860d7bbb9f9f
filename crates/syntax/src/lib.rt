// From words to the tree, as definitions; this crate has no code.
#![tactic(auto)]
