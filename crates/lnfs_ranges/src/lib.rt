//! The ranges of one byte-range lock (RFC 8881 sections 18.10 to 18.12): rising, disjoint, and each as long as its kind lasts.
//!
//! An owner may lock a part of a file anew, for read or for write, and unlock any part of what it has (RFC 8881 section 9.2).
//! `specs/Modes.antt` says what is locked at an offset, and what a change leaves.
#![tactic(auto)]

mod joining;
mod laws;
mod list;
mod range;
mod runs;
mod tally;

pub use laws::runs_are_told_by_their_modes;
pub use list::RangeList;
pub use range::LockRange;
pub use runs::are_runs;
