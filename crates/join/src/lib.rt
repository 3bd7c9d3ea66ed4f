// What joining packs gives, and what its code goes by.
#![tactic(auto)]

use layers::{Dark, LayerHead};
use refusal::Refusal;

// A pack that is joined: its nodes, the place of its first block, mu and m of each layer, and the nodes out of service.
#[derive(Clone, Copy)]
pub struct Piece {
    pub nodes: usize,
    pub place: usize,
    pub layers: [LayerHead; 5],
    pub dark: Dark,
}

// Three packs of one r; one that is not there has no node and no block.
#[derive(Clone, Copy)]
pub struct Estate {
    pub r: usize,
    pub a: Piece,
    pub b: Piece,
    pub c: Piece,
}

// The joined pack's mu and m of each layer, the largest mu, and all m's together. A mu above 4,096 is given as 4,097.
#[derive(Clone, Copy)]
pub struct JointHeads {
    pub most: usize,
    pub rows: usize,
    pub heads: [LayerHead; 5],
}

// One layer: the joined mu, each pack's own, and how many nodes come before those of the second and of the third.
#[derive(Clone, Copy)]
pub struct Layering {
    pub mu: usize,
    pub a: usize,
    pub b: usize,
    pub c: usize,
    pub second: usize,
    pub third: usize,
}
