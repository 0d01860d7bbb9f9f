// The map of a text's rules: where each rule's name stands in the text, and where its words begin in the table; this crate has no code.
#![tactic(auto)]
