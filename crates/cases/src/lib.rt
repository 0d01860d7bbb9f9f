// The cases of the papers, proved by computation; this crate has no code.
#![tactic(auto)]
