// Lists: definitions and laws that the other crates share. There is no code here.
#![tactic(auto)]
