// What the check on loading promises of walks and of the processor: theorems only.
#![tactic(auto)]
