// Parts translated separately and linked: definitions and theorems; this crate has no code.
#![tactic(auto)]
