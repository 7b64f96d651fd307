//! What the results of a request tell.
ghost use Rattle.std.specs.Prelude.{◌≡◌, IfOk};
ghost use Rattle.std.specs.Option.{option_copied};
ghost use Rattle.lnfs_client.specs.Told.{count_of, data_of, is_end, label_in, last_cookie};

use lnfs_answers::{Named, Told};
use lnfs_attrs::LabelValue;
use lnfs_results::OpResult;
use lnfs_types::Octets;
use std::alloc::{AllocError, Global};

/// The label that GETATTR tells.
pub fn label_in(results: &[Told]) -> Option<&LabelValue>
    ensures { option_copied result ≡ label_in results.now }
{
    let mut left = results;
    while let Some((first, more)) = left.split_first() {
        if let Told::Label(label) = first {
            return Some(label);
        }
        left = more;
    }
    None
}

/// The bytes that READ gives.
pub fn data_of(alloc: Global, last: Option<&Told>) -> Result<Octets, AllocError>
    ensures { IfOk result (λ bytes. bytes ≡ data_of (option_copied last.entry)) }
{
    match last {
        Some(Told::Other(OpResult::Read { content, .. })) => {
            Octets::from_slice(alloc, content.as_slice())
        }
        _ => Ok(Octets::new(Vec::new(alloc))),
    }
}

/// Whether READDIR has given the last entry.
pub fn is_end(last: Option<&Told>) -> bool
    ensures { result ≡ is_end (option_copied last.entry) }
{
    match last {
        Some(Told::Names { eof, .. }) => *eof,
        _ => false,
    }
}

/// How many bytes WRITE has taken.
pub fn count_of(last: Option<&Told>) -> u32
    ensures { result ≡ count_of (option_copied last.entry) }
{
    match last {
        Some(Told::Other(OpResult::Write { count, .. })) => *count,
        _ => 0,
    }
}

/// The cookie of the last entry, or the one before where there is no entry.
pub fn last_cookie(before: u64, entries: &[Named]) -> u64
    ensures { result ≡ last_cookie before entries.now }
{
    let mut cookie = before;
    for entry in entries {
        cookie = entry.cookie;
    }
    cookie
}
