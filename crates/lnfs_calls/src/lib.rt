//! Writing calls of NFS version 4 (RFC 5531 section 9), as a client does.
#![tactic(auto)]

pub mod laws;
mod users;
mod writing;

pub use users::sys_body;
pub use writing::{end_call, write_call, write_header};
