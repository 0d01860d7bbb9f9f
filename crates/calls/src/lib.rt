// A rule with its calls under other numbers: definitions and theorems; this crate has no code.
#![tactic(auto)]
