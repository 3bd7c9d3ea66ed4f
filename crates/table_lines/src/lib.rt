// The lines of a block table: where they end, the word that each begins with, and its numbers.
#![tactic(auto)]

mod bytes;
mod numbers;
mod words;

pub use bytes::first_of;
pub use numbers::read_numbers;
pub use words::{starts_with, word_of};
