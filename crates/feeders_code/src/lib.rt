// Feeders: reading the numbers after the rows, and rows of feeders in place of nodes.
#![tactic(auto)]

mod list;
mod rows;

pub use list::read_feeders;
pub use rows::feeder_rows;
