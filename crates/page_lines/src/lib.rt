// The lines of the cabinet page, put into a slice that a caller lends.
#![tactic(auto)]

mod fields;
mod lines;

pub use fields::put_fields;
pub use lines::{put_last_line, put_record_line};
