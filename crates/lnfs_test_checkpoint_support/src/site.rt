//! The site of the trials.
use lnfs_format::Codecs;
use lnfs_policy::{Policy, read_policy};
use lnfs_test_support::flaw::{Flaw, read_of};
use std::alloc::Global;

/// The policy that a text spells.
///
/// # Errors
///
/// A flaw where it spells none.
pub fn policy_of(alloc: Global, codecs: &Codecs, text: &str) -> Result<Policy, Flaw> {
    let read = read_policy(alloc, text.as_bytes(), codecs);
    read_of(alloc, read.ok(), text)
}
