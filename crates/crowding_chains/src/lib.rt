// Chains of positions, one for each node: how they are linked.
#![tactic(auto)]

mod linking;
mod rows;
mod tails;

pub use rows::link_rows;
pub use tails::link_tails;
