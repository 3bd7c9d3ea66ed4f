// Lines of a text of numbers, put into a slice that a caller lends: a word and numbers, rows, the nodes out of service. Each answers the
// place after it.
#![tactic(auto)]

mod parts;
mod rows;

pub use parts::put_line;
pub use rows::{put_out, put_rows};
