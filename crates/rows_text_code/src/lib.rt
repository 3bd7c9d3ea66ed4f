// Bare rows from a text: it is read, written and checked, and the reply is put into a slice that a caller lends.
#![tactic(auto)]

mod maker;
mod reply;

pub use reply::rows_reply;
