//! ALLOCATE, DEALLOCATE, SEEK and CLONE as they are served (RFC 7862 sections 15.1, 15.4, 15.11 and 15.13): further operations
//! without rows of their own, which look at the world and set the data of files by public calls alone.
//!
//! `lnfs_sparse_ops` says what each of them tests, answers and changes.
#![tactic(auto)]

mod access;
mod allocate;
mod answers;
mod clone;
mod copying;
mod deallocate;
mod files;
mod made;
mod ranges;
mod seek;
mod serving;
mod sparse;

pub use sparse::Sparse;
