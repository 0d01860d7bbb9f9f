// The character filter of publishers: its definitions and what they promise; this crate has no code.
#![tactic(auto)]
