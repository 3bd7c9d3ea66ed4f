// Seeing a plan before anything is written, and committing the counts of any split.
#![tactic(auto)]

use refusal::Refusal;

// The answer, with the count and the copies of each layer below s; entries from s on are 0, and so are all beside a refusal.
#[derive(Clone, Copy)]
pub struct AskResult {
    pub answer: Result<usize, Refusal>,
    pub counts: [usize; 5],
    pub copies: [usize; 5],
}
