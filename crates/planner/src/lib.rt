// What planning gives: the placement that document 01 names, or a refusal.
#![tactic(auto)]

use refusal::Refusal;

// An accepted plan: the placement's length in bytes and its figure.
#[derive(Clone, Copy)]
pub struct PlannedFile {
    pub length: usize,
    pub figure: usize,
}

// The answer, the plan or the refusal, with the count of each layer below s; entries from s on are 0, and so are all beside a refusal.
#[derive(Clone, Copy)]
pub struct PlanResult {
    pub answer: Result<PlannedFile, Refusal>,
    pub counts: [usize; 5],
}
