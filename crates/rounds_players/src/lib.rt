// The two sides of the game over states: the storm cuts, the crew repairs.
#![tactic(auto)]

mod players;
mod states;

pub use players::storm;
