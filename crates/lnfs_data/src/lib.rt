//! The data of files, set with the totals of what levels use: a change of the tree and that of the totals come together.
//! `lnfs_tree` says what each call does to the rows of nodes. Whether a level's limit allows it, the caller asks before.
#![tactic(auto)]

mod charges;
mod laws;
mod setting;

pub use laws::law_worlds;
pub use setting::{copy, copy_within, set_size, touch, write, zero};
