// Pairs of nodes counted in a table, a cell for each pair.
#![tactic(auto)]

mod count;
mod rows;

pub use rows::{most_of, most_pairs};
