//! The arguments of LOCK, LOCKT and LOCKU, read (RFC 8881 sections 18.10.1, 18.11.1 and 18.12.1), and what is asked of a range.
//!
//! `lnfs_locks` has the formats. `specs/Values.antt` says which of their values those of this crate stand for.
#![tactic(auto)]

mod asked;
mod blocks;
mod grammar;
mod reading;
mod values;

pub use asked::{Asked, check_range};
pub use grammar::LockGrammar;
pub use reading::{read_lock, read_lockt, read_locku};
pub use values::{LockArgs, LockTArgs, LockUArgs, Locker};
