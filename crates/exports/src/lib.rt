// What the calls for C and Rust give: definitions and laws alone.
#![tactic(auto)]

// What a call returns where a lent slice has not the length that the call states: no refusal's number.
pub const BAD_LENGTH: usize = 255;
