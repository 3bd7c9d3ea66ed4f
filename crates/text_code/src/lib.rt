// The numbers that a program takes, as arguments or at the start of its input.
#![tactic(auto)]

mod decimal;
mod given;

pub use decimal::read_decimal;
pub use given::read_given;
