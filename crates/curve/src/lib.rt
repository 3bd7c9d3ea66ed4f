// The figures of a placement for every number of failures: definitions and laws. The code is in curve_code.
#![tactic(auto)]
