//! Checkpoints: a server's state as bytes, and a server that goes on from them.
//!
//! `write_checkpoint` tells a state, with all levels' data and locks, in the layout of `lnfs_layout`; `read_checkpoint` takes bytes
//! that are the layout of a state that a server of the policy may have. What is served then is what would have been served without
//! the break: the law `laws::resumed`.
#![tactic(auto)]

mod errors;
mod fit;
pub mod laws;
mod lists;
mod reading;
mod resumed;
mod telling;
mod verdicts;

pub use errors::CheckpointError;
pub use reading::read_checkpoint;
pub use resumed::Resumed;
pub use telling::write_checkpoint;
pub use verdicts::one_verdict;
