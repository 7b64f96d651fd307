//! What the servers of the program serve beside the table of operations: byte-range locks (RFC 8881 sections 18.10 to 18.12), and
//! sparse files and clones (RFC 7862 section 15) beside them.
//!
//! `specs/Further.antt` says which they are, and what their rows are: those of the locks alone.
#![tactic(auto)]

mod further;

pub use further::{Further, new_further, with_locks};
