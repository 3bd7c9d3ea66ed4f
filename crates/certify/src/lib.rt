// Certifying rows that somebody else placed: what reading a file of bare rows gives, and the layers to choose from.
#![tactic(auto)]

use layers::Base;
use placement::Order;

// What reading s, k and b gives, with the next place.
#[derive(Clone, Copy)]
pub struct OrderRead {
    pub order: Order,
    pub next: usize,
}

// What checking a file of bare rows gives: n, r and the nodes out of service, s, k and b, and the place of the first row.
#[derive(Clone, Copy)]
pub struct BareRead {
    pub base: Base,
    pub order: Order,
    pub first: usize,
}

// A layer for all rows: the least lambda that holds there, and the figure.
#[derive(Clone, Copy)]
pub struct Choice {
    pub layer: usize,
    pub lambda: usize,
    pub figure: usize,
}
