// An outage log as text, read line after line.
#![tactic(auto)]

mod lines;
mod reader;
mod words;

pub use reader::read_log;
