// Reading numbers of one to four groups of seven bits.
#![tactic(auto)]

mod reader;
mod within;

pub use reader::read_number;
pub use within::{read_within, refusal_of};
