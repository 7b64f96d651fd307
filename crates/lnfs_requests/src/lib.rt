//! Writing the arguments of a COMPOUND, as a client does (RFC 8881 section 16.2, RFC 7862).
#![tactic(auto)]

pub mod laws;
mod write_files;
mod write_names;
mod write_sessions;
mod write_table;
mod writing;

pub use write_sessions::put_sys;
pub use writing::write_compound;
