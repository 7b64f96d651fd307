//! The law of what bounds byte-range locks: the locks of every state that a server comes to are within their bounds.
#![tactic(auto)]

mod laws;

pub use laws::locks_are_bounded;
