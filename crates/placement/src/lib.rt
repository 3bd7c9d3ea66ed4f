// What checking a placement gives.
#![tactic(auto)]

use layers::{Dark, LayerHead};
use refusal::Refusal;

// The rule of a layer's loss: one floor of document 01, or the nested floors of request (d).
#[derive(Clone, Copy)]
pub enum Rule {
    OneFloor,
    NestedFloors,
}

// The threshold s, the number of failures k and the number of records b: what a figure is taken for, and what is planned.
#[derive(Clone, Copy)]
pub struct Order {
    pub s: usize,
    pub k: usize,
    pub b: usize,
}

// A placement's s, k, b and F, and the place where F starts.
#[derive(Clone, Copy)]
pub struct Terms {
    pub s: usize,
    pub k: usize,
    pub b: usize,
    pub figure: usize,
    pub place: usize,
}

// What reading these numbers gives, with the next place.
#[derive(Clone, Copy)]
pub struct TermsRead {
    pub terms: Terms,
    pub next: usize,
}

// An accepted placement's numbers, and the place of its first row.
#[derive(Clone, Copy)]
pub struct PlacementHead {
    pub kind: usize,
    pub n: usize,
    pub r: usize,
    pub s: usize,
    pub k: usize,
    pub b: usize,
    pub figure: usize,
    pub first: usize,
}

// The feeders of a placement of kind 6: their number g, and the feeder of each node; entries past the nodes are 0, and all are 0
// in a placement without feeders.
#[derive(Clone, Copy)]
pub struct FeederTable {
    pub number: usize,
    pub each: [u8; 255],
}

// What reading them gives, with the next place.
#[derive(Clone, Copy)]
pub struct FeedersRead {
    pub table: FeederTable,
    pub next: usize,
}

// The answer, with lambda and c of each layer below s, the nodes out of service, and the feeders; entries from s on are 0. Beside a
// refusal all are 0, and there is no node in the list and no feeder.
#[derive(Clone, Copy)]
pub struct PlacementCheck {
    pub answer: Result<PlacementHead, Refusal>,
    pub layers: [LayerHead; 5],
    pub dark: Dark,
    pub feeders: FeederTable,
}
