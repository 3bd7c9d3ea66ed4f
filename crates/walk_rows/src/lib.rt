// Where a walk stands, the row there, and the place past it.
#![tactic(auto)]

mod place;
mod rows;

pub use place::opened_place;
pub use rows::{has_row, moved, row_at};
