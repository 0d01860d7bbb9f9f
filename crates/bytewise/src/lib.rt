// Demand 3 at the C entries: definitions and theorems only.
#![tactic(auto)]
