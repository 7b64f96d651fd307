//! Whether rows of byte-range locks are those that a server may have beside a world.
//!
//! Of the world, which is sound, opens alone are looked at: a lock is of a client and of an open file.
#![tactic(auto)]

mod apart;
mod fits;
mod given;
mod limits;
mod openings;
mod rows;
mod whole;

pub use whole::locks_fit;
