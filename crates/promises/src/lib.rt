// The promises: theorems alone, no code.
#![tactic(auto)]
