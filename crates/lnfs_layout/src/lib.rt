//! The layout of a checkpoint: a state as bytes, and bytes as a state.
//!
//! `specs/Grammar.antt` has a table for each row, `specs/Texts.antt` its one spelling, `specs/Whole.antt` the whole of it.
//! The rows that are read lend the bytes.
#![tactic(auto)]

mod columns;
mod errors;
mod files;
mod lasts;
pub mod laws;
mod lists;
mod locks;
mod numbers;
mod people;
mod put_columns;
mod put_files;
mod put_lists;
mod put_locks;
mod put_people;
mod reading;
mod writing;

pub use errors::LayoutError;
pub use numbers::{MAGIC, MOST_EVENTS};
pub use reading::{Laid, read_layout};
pub use writing::write_layout;
