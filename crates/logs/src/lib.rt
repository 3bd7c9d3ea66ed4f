// An outage log as text: definitions and laws, and what reading it gives. The code is in logs_code.
#![tactic(auto)]

use replay::Event;
use text::TextRefusal;

// A text of so many bytes is longer than `replay` holds.
pub const TEXT_MOST: usize = 131_072;

// A word read as a node's new state.
#[derive(Clone, Copy)]
pub enum State {
    Down,
    Up,
    Other,
}

// A line of a log: an event, or nothing, or a line that can't be read.
#[derive(Clone, Copy)]
pub enum LogLine {
    Happens(Event),
    Nothing,
    Unreadable,
}

// The events that were read, at the start of the array, and where reading ended.
#[derive(Clone, Copy)]
pub struct Log {
    pub end: Result<(), TextRefusal>,
    pub count: usize,
    pub events: [Event; 2_048],
}
