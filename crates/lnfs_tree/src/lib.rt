//! Nodes and their names: found by identifier, by name and by cookie.
#![tactic(auto)]

mod contents;
mod copying;
mod directory;
mod first;
mod homes;
mod inserting;
mod laws;
mod linking;
mod node;
mod removing;
mod renaming;
mod restoring;
mod setting;
mod stepping;
mod store;
mod telling;
mod tree;
mod tying;

pub use laws::makes_tree;
pub use node::{Dropped, Entry, Facts, Fresh, Info, NodeId, NodeKind, TreeError};
pub use tree::Tree;
