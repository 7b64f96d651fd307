//! Further operations of two kinds served as one: a number that the first serves goes to the first, another to the second.
//!
//! `lnfs_beside` says what they are together, and that they meet what further operations owe where each does.
#![tactic(auto)]

mod sides;

pub use sides::Beside;
