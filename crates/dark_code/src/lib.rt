// Nodes out of service: reading their list, and the first row that names one.
#![tactic(auto)]

mod list;
mod naming;

pub use list::read_dark;
pub use naming::first_naming;
