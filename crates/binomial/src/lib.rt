// Binomial coefficients: definition and laws; the table is in binomial_table.
#![tactic(auto)]
