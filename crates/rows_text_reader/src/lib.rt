// Bare rows as text, read line after line.
#![tactic(auto)]

mod lines;
mod order;
mod reader;
mod words;

pub use reader::read_text;
