//! Translation of labels from one format of a site to another.
#![tactic(auto)]

pub mod laws;
mod table;

pub use lnfs_format::Pair;
pub use table::{MapError, TranslationTable};
