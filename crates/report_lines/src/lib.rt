// The lines that the programs print, of a refusal and of an accepted placement, and the parts that lines are made of.
#![tactic(auto)]

mod decimal;
mod lines;
mod numbers;

pub use decimal::put_decimal;
pub use lines::{accepted_line, line, refused_line};
pub use numbers::put_rest;
