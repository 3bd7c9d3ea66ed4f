// The largest number of rows that hold one set: sets grow a node at a time, along chains of positions.
#![tactic(auto)]

mod most;
mod visits;

pub use most::most_held;
