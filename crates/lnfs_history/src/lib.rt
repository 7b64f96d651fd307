//! One history of events and replies, that several threads know parts of.
//!
//! A keeper knows the history whole. A place belongs to one link, and knows the entries of that
//! link. An entry is added by the keeper and the place of its link together, in one step, so that
//! the whole and its parts agree at every moment.
#![tactic(auto)]

mod entry;
mod history;

pub use entry::{Entry, View};
pub use history::{History, Law, LinkView, Opened, Recorder, Room, Saying};
