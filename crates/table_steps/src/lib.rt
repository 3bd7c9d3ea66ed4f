// What each line of a block table's head adds to the pack that is made of it, and the order of the nodes that a line names.
#![tactic(auto)]

mod heads;
mod nodes;

pub use heads::{add_layer, add_out, add_table};
pub use nodes::in_order;
