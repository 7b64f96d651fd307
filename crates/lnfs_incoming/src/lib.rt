//! Records that come over a link, and how that ends.
//!
//! A link is read in pieces, whatever they are, and its records (RFC 5531 section 11) are cut off the front of what was
//! read. No length of a peer makes the buffer grow before its bytes are there, and each byte is moved once at most.
#![tactic(auto)]

mod buffer;
mod ending;
mod reading;

pub use ending::{BUDGET, Ending};
pub use reading::{Incoming, next_record, read_on};
