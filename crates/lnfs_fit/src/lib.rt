//! Whether rows of nodes and of their names are those of a world that a server may have: a tree with its labels, its names and
//! its numbers.
//!
//! What is asked of identifiers alone is asked once, for every kind of row.
#![tactic(auto)]

mod apart;
mod bounds;
mod fits;
mod homes;
mod ids;
mod names;
mod rows;
mod tree;
mod whole;

pub use apart::names_differ;
pub use ids::{few_of_a_level, id_at, ids_fit, place_of};
pub use tree::is_tree_by_places;
pub use whole::are_fit;
