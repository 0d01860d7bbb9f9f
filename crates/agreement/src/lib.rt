// Demand 3, as one statement and its proof; this crate has no code.
#![tactic(auto)]
