//! The command that judges recorded replies: whether they are those of a server without flows from above.
#![tactic(auto)]

mod anew;
mod judge;

pub use judge::run_audit;
