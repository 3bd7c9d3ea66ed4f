// The search for a crowded set: sets grow a node at a time, along chains of positions.
#![tactic(auto)]

mod least;
mod long;
mod visits;

pub use least::least_crowded;
