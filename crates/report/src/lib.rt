// The programs' lines and what `check` writes: the definitions, their laws, and the types of the answers.
#![tactic(auto)]

use refusal::Refusal;

// The bytes that `check` asks for: every line is shorter.
pub const LINE_NEEDED: usize = 200;

// What `check` prints of an accepted placement: F, b, k, n, and the largest and the mean load of a node.
#[derive(Clone, Copy)]
pub struct Summary {
    pub figure: usize,
    pub b: usize,
    pub k: usize,
    pub n: usize,
    pub most: usize,
    pub mean: usize,
}
