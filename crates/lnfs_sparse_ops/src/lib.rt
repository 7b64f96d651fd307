//! Sparse files and clones: the definitions of ALLOCATE, DEALLOCATE, SEEK and CLONE (RFC 7862 sections 15.1, 15.4, 15.11 and
//! 15.13) as further operations, which have no rows of their own, and their laws.
//!
//! `specs/Allocate.antt`, `specs/Deallocate.antt`, `specs/Seek.antt` and `specs/Clone.antt` have each operation's tests in order;
//! what becomes of the bytes of a file, and what is data and what a hole, `lnfs_content` says.
#![tactic(auto)]

mod laws;
pub mod numbers;

pub use laws::{law_holes, sparse_files_are_lawful, sparse_grammar_is_lawful};
