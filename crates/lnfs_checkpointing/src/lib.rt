//! The commands over checkpoints: one that serves a recording and writes a checkpoint of the state then, and one that goes on
//! from a checkpoint with another recording.
#![tactic(auto)]

pub mod laws;
mod resuming;
mod saving;
mod serving;

pub use resuming::run_resumption;
pub use saving::run_saving;
