// Two operators who keep records on the same nodes.
#![tactic(auto)]

// One operator's order: s and k, the records that it wants, and those that the other wants.
#[derive(Clone, Copy)]
pub struct SharedOrder {
    pub s: usize,
    pub k: usize,
    pub wish: usize,
    pub other: usize,
}
