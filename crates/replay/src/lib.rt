// Replaying an outage log: definitions and laws, an event of a log, what the replay answers, and what it carries from event to
// event. The code is in replay_code.
#![tactic(auto)]

use packing::Node;
use refusal::Refusal;

// An event of a log: at a time, in 32-bit seconds, a node goes down or comes up.
#[derive(Clone, Copy)]
pub struct Event {
    pub time: u32,
    pub node: Node,
    pub down: bool,
}

// What a replay gives: the lowest number of usable records and the first event after which it stood; for an empty log the number
// alone; or the refusal.
#[derive(Clone, Copy)]
pub enum Replayed {
    Lowest(usize, usize),
    Quiet(usize),
    Refused(Refusal),
}

// A replay between two events: the placement's n, s and b, the time of the event before, how many records are usable now, and the
// answer of the log so far.
#[derive(Clone, Copy)]
pub struct Progress {
    pub n: usize,
    pub s: usize,
    pub b: usize,
    pub time: u32,
    pub usable: usize,
    pub answer: Replayed,
}
