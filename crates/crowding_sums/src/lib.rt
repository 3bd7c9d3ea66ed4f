// Rows that may hold a crowded set, told by the sums of the nodes' weights.
#![tactic(auto)]

mod count;
mod most;
mod rows;
mod weights;

pub use rows::keep_rows;

// In c rows, sets of x+1 nodes that may stand together in `bound` of the rows.
#[derive(Clone, Copy)]
pub struct Sets {
    pub c: usize,
    pub x: usize,
    pub bound: usize,
}
