// What acceptance by the processor implies, as theorems; this crate has no code.
#![tactic(auto)]
