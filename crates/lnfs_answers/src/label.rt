//! The readers of `sec_label` where it is what was asked.
ghost use Rattle.std.specs.Prelude.{◌≡◌, ◌==◌, ◌≤◌, ◌-◌};
ghost use Rattle.lnfs_xdr.specs.Cursor.{Gives, Parses};
ghost use Rattle.lnfs_xdr.specs.Reading.{among_at, opaque_of_at, read};
ghost use Rattle.lnfs_arguments.specs.Parsing.{ParsesInMemory};
ghost use Rattle.lnfs_answers.specs.Grammar.{fills, is_list_size, is_mask_count, label, label_in, mask, zeros};

use crate::numbers::{BEFORE_LABEL, FEWEST_WORDS, MOST_WORDS, SEC_LABEL_WORD};
use crate::types::Told;
use lnfs_arguments::Halt;
use lnfs_arguments::numbers::LONG_LIMIT;
use lnfs_attrs::LabelValue;
use lnfs_types::Octets;
use lnfs_xdr::{XdrError, XdrReader};
use std::alloc::Global;

/// So many words that are 0.
#[tactic(auto, unfolding(crate::specs::Grammar::zeros))]
fn zeros_of(reader: &mut XdrReader<'_>, count: u32) -> Result<(), XdrError>
    ensures { Parses (λ x. x) result reader.old reader.new (read (zeros count) reader.old.rest) }
{
    for _ in 0..count {
        reader.constant(0)?;
    }
    Ok(())
}

/// How many words a mask has.
fn mask_count_of(reader: &mut XdrReader<'_>) -> Result<u32, XdrError>
    ensures { Gives (λ n. n) result reader.old reader.new
        (among_at is_mask_count reader.old.rest) }
{
    let count = XdrReader::new(reader.rest()).u32()?;
    if count < FEWEST_WORDS || count > MOST_WORDS {
        return Err(XdrError::BadBool);
    }
    reader.u32()
}

/// A mask of these attributes in its first word, and of `sec_label`. An error where another word
/// stands there.
#[tactic(auto, unfolding(crate::specs::Grammar::mask))]
pub fn mask_of(reader: &mut XdrReader<'_>, first: u32) -> Result<(), XdrError>
    ensures { Parses (λ x. x) result reader.old reader.new (read (mask first) reader.old.rest) }
{
    let count = mask_count_of(reader)?;
    reader.constant(first)?;
    reader.constant(0)?;
    reader.constant(SEC_LABEL_WORD)?;
    zeros_of(reader, count - FEWEST_WORDS)
}

/// The length of a list of attributes, with so many bytes before those of `sec_label`.
pub fn list_size_of(reader: &mut XdrReader<'_>, before: u32) -> Result<u32, XdrError>
    ensures { Gives (λ n. n) result reader.old reader.new
        (among_at (is_list_size before) reader.old.rest) }
{
    let size = XdrReader::new(reader.rest()).u32()?;
    if size < before || size > LONG_LIMIT || size % 4 != 0 {
        return Err(XdrError::BadBool);
    }
    reader.u32()
}

/// The bytes of `sec_label`, which fill the list. They are one item with their length word, so an
/// error leaves the reader before that word.
fn label_bytes_of<'a>(
    reader: &mut XdrReader<'a>,
    before: u32,
    size: u32,
) -> Result<&'a [u8], XdrError>
    requires before { before ≤ 16 }
    requires size { size ≤ 65536 }
    ensures { Gives (λ v. v.now) result reader.old reader.new
        (opaque_of_at (fills before size) reader.old.rest) }
{
    let count = XdrReader::new(reader.rest()).u32()?;
    if count > size || before + count + (4 - count % 4) % 4 != size {
        return Err(XdrError::BadBool);
    }
    reader.opaque(size)
}

/// `sec_label` at the end of a list. `Fault` where an item isn't there, or its bytes don't fill the
/// list.
#[tactic(auto, unfolding(crate::specs::Grammar::label_in))]
pub fn label_in_of(
    alloc: Global,
    reader: &mut XdrReader<'_>,
    before: u32,
    size: u32,
) -> Result<LabelValue, Halt>
    requires before { before ≤ 16 }
    requires size { size ≤ 65536 }
    ensures { ParsesInMemory (λ x. x) result reader.old reader.new
        (read (label_in before size) reader.old.rest) }
{
    let lfs = reader.u32()?;
    let pi = reader.u32()?;
    let bytes = Octets::from_slice(alloc, label_bytes_of(reader, before, size)?)?;
    Ok(LabelValue { lfs, pi, bytes })
}

/// What follows the status 0 of GETATTR where `sec_label` alone was asked (RFC 8881 section 18.7).
/// `Fault` where an item isn't there.
#[tactic(auto, unfolding(crate::specs::Grammar::label))]
pub fn label_of(alloc: Global, reader: &mut XdrReader<'_>) -> Result<Told, Halt>
    ensures { ParsesInMemory (λ x. x) result reader.old reader.new (read label reader.old.rest) }
{
    mask_of(reader, 0)?;
    let size = list_size_of(reader, BEFORE_LABEL)?;
    let label = label_in_of(alloc, reader, BEFORE_LABEL, size)?;
    Ok(Told::Label(label))
}
