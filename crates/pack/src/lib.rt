// What checking a pack gives.
#![tactic(auto)]

use layers::{Dark, LayerHead};
use refusal::Refusal;

// An accepted pack's numbers: its nodes, its replicas and the place of its first block.
#[derive(Clone, Copy)]
pub struct PackHead {
    pub n: usize,
    pub r: usize,
    pub first: usize,
}

// The answer, with mu and m of each layer below r, and the nodes out of service; entries from r on are 0. Beside a refusal all
// are 0, and the list is empty.
#[derive(Clone, Copy)]
pub struct PackCheck {
    pub answer: Result<PackHead, Refusal>,
    pub layers: [LayerHead; 5],
    pub dark: Dark,
}
