//! What the answer to a request is, and its reader.
//!
//! A reply is read against the request that it answers: numbers, counts, masks and signatures are
//! those that are awaited, so that the first item which no answer to this request has is refused.
//!
//! `specs/Grammar.antt` says what answers a list of operations, `specs/Replies.antt` what a whole
//! record is to a request, plain or signed, and `specs/Hearing.antt` the same as a relation.
#![tactic(auto)]

mod awaits;
mod content;
mod label;
pub mod laws;
mod names;
mod numbers;
mod read;
mod reply;
mod request;
mod results;
mod signed;
mod types;

pub use lnfs_arguments::CompoundError;
pub use numbers::HANDLE_SIZE;
pub use read::read_answer;
pub use reply::hear;
pub use request::{Heard, Request, Wants};
pub use types::{Awaits, Named, Said, Told};
