// Forward jumps while their targets are not yet known, as definitions; this crate has no code.
#![tactic(auto)]
