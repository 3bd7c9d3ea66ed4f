// What a search for crowded sets carries from function to function.
#![tactic(auto)]

use packing::Node;

// The positions from `from` to `to`: places of bytes in the rows.
#[derive(Clone, Copy)]
pub struct Span {
    pub from: usize,
    pub to: usize,
}

// The positions of one node: the first of them, and how many they are. Each names the next in a slice beside it.
#[derive(Clone, Copy)]
pub struct Chain {
    pub head: u16,
    pub count: u16,
}

// A level of the search: in rows of r nodes, sets that have w more nodes to come.
#[derive(Clone, Copy)]
pub struct Level {
    pub r: usize,
    pub w: usize,
}

// What is searched for at a level: sets that stand in more than `bound` rows, whose next node is from `low` to `high`.
#[derive(Clone, Copy)]
pub struct Search {
    pub level: Level,
    pub bound: usize,
    pub low: Node,
    pub high: Node,
}
