//! The readers of a directory's entries where `rdattr_error` and `sec_label` are what was asked.
ghost use Rattle.lnfs_xdr.specs.Format.{Linked};
ghost use Rattle.lnfs_xdr.specs.Reading.{read};
ghost use Rattle.lnfs_arguments.specs.Parsing.{ParsesInMemory};
ghost use Rattle.lnfs_answers.specs.Grammar.{named, names};

use crate::label::{label_in_of, list_size_of, mask_of};
use crate::numbers::{BEFORE_LABEL_OF_ENTRY, RDATTR_ERROR_WORD, VERIFIER_SIZE};
use crate::types::{Named, Told};
use lnfs_arguments::Halt;
use lnfs_arguments::numbers::LONG_LIMIT;
use lnfs_types::{Items, Octets};
use lnfs_xdr::XdrReader;
use std::alloc::Global;

/// An entry. `Fault` where an item isn't there.
#[tactic(auto, unfolding(crate::specs::Grammar::named))]
fn named_of(alloc: Global, reader: &mut XdrReader<'_>) -> Result<Named, Halt>
    ensures { ParsesInMemory (λ x. x) result reader.old reader.new (read named reader.old.rest) }
{
    let cookie = reader.u64()?;
    let name = Octets::from_slice(alloc, reader.opaque(LONG_LIMIT)?)?;
    mask_of(reader, RDATTR_ERROR_WORD)?;
    let size = list_size_of(reader, BEFORE_LABEL_OF_ENTRY)?;
    let error = reader.u32()?;
    let label = label_in_of(alloc, reader, BEFORE_LABEL_OF_ENTRY, size)?;
    Ok(Named {
        cookie,
        name,
        error,
        label,
    })
}

/// The entries, each behind the word for TRUE.
fn entries_of(alloc: Global, reader: &mut XdrReader<'_>) -> Result<Items<Named>, Halt>
    ensures { ParsesInMemory (λ x. x) result reader.old reader.new
        (read (Linked named) reader.old.rest) }
{
    let mut entries = Vec::new(alloc);
    while reader.boolean()? {
        entries.push(named_of(alloc, reader)?)?;
    }
    Ok(Items::new(entries))
}

/// What follows the status 0 of READDIR where `rdattr_error` and `sec_label` were asked (RFC 8881
/// section 18.23). `Fault` where an item isn't there.
#[tactic(auto, unfolding(crate::specs::Grammar::names))]
pub fn names_of(alloc: Global, reader: &mut XdrReader<'_>) -> Result<Told, Halt>
    ensures { ParsesInMemory (λ x. x) result reader.old reader.new (read names reader.old.rest) }
{
    reader.fixed(VERIFIER_SIZE)?;
    let entries = entries_of(alloc, reader)?;
    let eof = reader.boolean()?;
    Ok(Told::Names { entries, eof })
}
