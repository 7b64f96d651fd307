//! CALIPSO sensitivity labels (RFC 5570), their dominance, and the levels of a site.
#![tactic(auto)]

mod bitmap;
mod body;
mod label;
mod lattice;
pub mod laws;

pub use bitmap::COMPARTMENTS;
pub use body::{read_label, write_label};
pub use label::{Label, LabelError};
pub use lattice::{Lattice, LatticeError, MAX_LEVELS};

/// A level: the place of a label in the site's list.
#[derive(Clone, Copy, Debug, PartialEq, Eq, PartialOrd, Ord)]
pub struct Level(pub u32);
