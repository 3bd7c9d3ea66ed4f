// The true worst case of a placement: definitions and laws, what the call answers, and what a search carries from node to
// node. The code is in worst_records, worst_hits, worst_last, worst_two, worst_rest, worst_search and worst_code.
#![tactic(auto)]

use packing::Node;
use refusal::Refusal;

// What rows are made of: nodes below n, r in each row.
#[derive(Clone, Copy)]
pub struct Shape {
    pub n: usize,
    pub r: usize,
}

// A search through the sets of k of n nodes: `chosen` nodes are chosen, and `next` is to be chosen or left. With those that are
// chosen failed, `usable` records have fewer than s replicas on failed nodes; `least` is the fewest that a whole set has left so
// far.
#[derive(Clone, Copy)]
pub struct Search {
    pub n: usize,
    pub k: usize,
    pub s: usize,
    pub next: Node,
    pub chosen: usize,
    pub usable: usize,
    pub least: usize,
}

// The entries of an index that name the records on one node.
#[derive(Clone, Copy)]
pub struct Entries {
    pub from: usize,
    pub count: usize,
}
