// The figures for every number of failures.
#![tactic(auto)]

mod binomials;
mod figures;

pub use figures::write_figures;
