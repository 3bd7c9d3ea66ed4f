// What reading and writing numbers of one to four groups of seven bits gives.
#![tactic(auto)]

use refusal::Refusal;

// A number that was read, and the next place.
#[derive(Clone, Copy)]
pub struct Reading {
    pub value: usize,
    pub next: usize,
}
