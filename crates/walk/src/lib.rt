// What opening a row walk gives, and its place in the bytes.
#![tactic(auto)]

use refusal::Refusal;

// A walk's place in the caller's bytes: the next row's start, a row's length, and how many rows are left.
#[derive(Clone, Copy)]
pub struct Cursor {
    pub at: usize,
    pub r: usize,
    pub left: usize,
}
