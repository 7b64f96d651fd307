//! The rows of a server's world: what stands, level by level.
//!
//! Definitions and laws, and next to no code. `specs/` says what a world is, what a level sees of it,
//! which changes there are, what holds of every world that is kept, and what an operation has to keep;
//! `proofs/` has the laws of what is seen, once for all changes.
#![tactic(auto)]

mod laws;
pub mod numbers;
mod stored;

pub use laws::{changes, erasure, first, tree};
pub use stored::{DirSpec, Stored};
