// The screen of two books: definitions and laws only.
#![tactic(auto)]
