// Definitions only: table files and the check on loading.
#![tactic(auto)]
