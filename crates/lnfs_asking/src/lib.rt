//! A request, from what it asks for to the record that is sent.
//!
//! `specs/Sending.antt` says which record it is, `specs/Labels.antt` how labels are spelled in it.
#![tactic(auto)]

mod attributes;
mod labels;
mod plan;
mod sending;
mod sent;

pub use attributes::{ERROR_AND_LABEL, LABEL_ALONE, as_attributes};
pub use labels::{copy_label, level_of, spell, unspelled};
pub use plan::{Plan, Speaker};
pub use sending::send;
pub use sent::{Sent, Sought};
