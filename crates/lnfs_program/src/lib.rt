//! What the program does: a command, or the service of links.
//!
//! `start::start` does what words say, and is proved against what is due for these words, the files that
//! they name, and what a service came to. It makes the codecs of labels, and `run::run` is the same with
//! given ones. What waits for nobody is in `lnfs_commands`, and the service in `lnfs_service`.
#![tactic(auto)]

pub mod laws;
pub mod run;
pub mod start;

pub use lnfs_stage::Status;
