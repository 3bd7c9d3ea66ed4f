// What a block's line adds to the pack that is made of a table.
#![tactic(auto)]

mod blocks;
mod nodes;

pub use blocks::add_block;
