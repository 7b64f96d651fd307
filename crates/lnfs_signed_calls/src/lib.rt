//! Writing calls by RPCSEC_GSS version 3, as a client does (RFC 2203 section 5, RFC 7861 section 2, in this project's own layout).
//!
//! A context is made by CREATE, calls in it are DATA, and DESTROY ends it. The sequence number of each is its transaction, and the
//! service is that of signed arguments.
#![tactic(auto)]

mod call;
pub mod laws;
mod writing;

pub use call::SignedCall;
pub use writing::{write_create, write_data, write_destroy};
