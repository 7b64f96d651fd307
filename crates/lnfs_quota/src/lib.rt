//! What each level uses, kept as totals. Its limits stand in the site alone, and who charges a level asks them there.
//!
//! A level is charged a node where it is the node's home, and a file's bytes where it is the file's label.
//! `specs/Quota.antt` says what each call does to a level's totals, and `specs/Totals.antt` that they are the usage of a
//! world's nodes; the laws say which calls keep that under which change of the world.
#![tactic(auto)]

mod counted;
mod laws;
mod quota;

pub use laws::{law_fitting, law_totals, usage};
pub use quota::{Quota, Row};
