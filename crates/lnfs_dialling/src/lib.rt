//! The client of the program: a script that is talked through over a link, which is dialled.
#![tactic(auto)]

mod visit;

pub use visit::run_visit;
