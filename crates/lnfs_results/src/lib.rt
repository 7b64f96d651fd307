//! The results of a COMPOUND (RFC 8881 section 16.2, RFC 7862).
#![tactic(auto)]

mod bound;
mod limits;
mod read_dir;
mod read_files;
mod read_names;
mod read_sessions;
mod read_table;
mod read_whole;
mod types;
mod write_dir;
mod write_fields;
mod write_whole;

pub use bound::{answers_are_bounded, reply_bound};
pub use limits::{MOST_DATA, READ_HEAD, RESULT_HEAD, result_bound, result_bounds};
pub use read_table::read_fields;
pub use read_whole::read_results;
pub use types::{DirEntry, OpResult, Results};
pub use write_whole::{append_head, append_result, write_results};
