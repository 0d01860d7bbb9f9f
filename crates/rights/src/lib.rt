// Rights over the operations: the granted set, which tables are admitted, and what is proved of it; this crate has no code.
#![tactic(auto)]
