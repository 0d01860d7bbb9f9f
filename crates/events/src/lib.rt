// What both kinds of walk read and write, as definitions; this crate has no code.
#![tactic(auto)]
