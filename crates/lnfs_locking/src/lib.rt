//! Byte-range locks as they are kept (RFC 8881 sections 18.10 to 18.12): rows by their identifier, those of a level beside each
//! other, and those of a node found without a look at those of others.
//!
//! `lnfs_locks` says what is kept and what changes. `specs/Rows.antt` says what the rows stand for, `specs/Indexed.antt` how
//! they are found.
#![tactic(auto)]

mod changing;
mod entering;
mod groups;
mod keys;
mod lasts;
mod locks;
mod lookups;
mod making;
mod rivals;
mod rows;
mod search;
mod tests;
mod told;
mod usage;
mod walks;

pub use keys::{Key, LockRow};
pub use locks::Locks;
pub use rivals::Rival;
pub use search::{Denied, Wanted};
pub use tests::LockTest;
pub use usage::Usage;
