//! What all crates above share: small types over `Vec` and `String` that contracts see as the list
//! of their elements, the limits of a record and of a label, the time of a lease, and events with
//! their moments.
//!
//! Two values with equal elements are equal in a contract, whatever room their buffers have. So a
//! struct or an enum that holds them can be compared with the value that a definition gives.
#![tactic(auto)]

mod event;
mod items;
mod limits;
mod octets;
mod text;

pub use event::{Event, Moment};
pub use items::Items;
pub use limits::{LABEL_LIMIT, LEASE, RECORD_LIMIT};
pub use octets::Octets;
pub use text::Text;
