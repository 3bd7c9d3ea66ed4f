// A pack as text, and the reply of the program `table`, put into a slice that a caller lends.
#![tactic(auto)]

mod layers_text;
mod reply;

pub use reply::table_reply;
