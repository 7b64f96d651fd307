//! LOCK, LOCKT and LOCKU as they are served (RFC 8881 sections 18.10 to 18.12): further operations with the locks of all levels
//! as rows of their own, which look at the world by public calls alone.
//!
//! `lnfs_locks` says what each of them tests, answers and changes, and `lnfs_locking` keeps the locks. A lock lasts as long as its
//! open: one whose open has ended counts for nothing, and goes with the next LOCK or LOCKU of its level.
#![tactic(auto)]

mod answers;
mod asking;
mod asks;
mod denials;
mod holders;
mod limits;
mod lock;
mod lockt;
mod locku;
mod naming;
mod openings;
mod ranges;
mod serving;
mod standing;
mod states;
mod taking;

pub use ranges::Ranges;
