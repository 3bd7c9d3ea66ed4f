// Writing numbers of one to four groups of seven bits.
#![tactic(auto)]

mod numbers;
mod writer;

pub use numbers::write_numbers;
pub use writer::write_number;
