//! The items of XDR (RFC 4506), read from bytes and appended to bytes.
//!
//! A reader takes an item in any of its spellings, whatever its pad bytes are. A writer appends the
//! one spelling whose pad bytes are zero.
#![tactic(auto)]

mod buffer;
mod error;
mod flavors;
mod limits;
mod promises;
mod reader;
mod slices;
mod writer;

pub use error::XdrError;
pub use flavors::{AUTH_NONE, AUTH_SYS, RPCSEC_GSS};
pub use limits::{GROUP_LIMIT, MACHINE_LIMIT};
pub use promises::{canonical, refusals, spellings};
pub use reader::XdrReader;
pub use writer::XdrWriter;
