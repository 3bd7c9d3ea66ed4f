// A block table as text, read line after line.
#![tactic(auto)]

mod lines;
mod reader;

pub use reader::read_text;
