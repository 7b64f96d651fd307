ghost use Rattle.std.specs.Prelude.{◌≡◌, ◌↔◌, IsTrue};
ghost use Rattle.lnfs_xdr.specs.Format.{Word, Long};
ghost use Rattle.lnfs_xdr.specs.Cursor.{Parses};
ghost use Rattle.lnfs_xdr.specs.Reading.{read};
ghost use Rattle.lnfs_xdr.specs.Message.{parse};
ghost use Rattle.lnfs_attrs.specs.Attributes.{AllAsked, is_settable};
ghost use Rattle.lnfs_attrs.specs.Settable.{label, given, values, list_values, Exactly, Judged, Gets, Lists};
ghost use Rattle.lnfs_attrs.specs.declared.settable.AttrError.TheVariants.{BadXdr, Memory};

use crate::asked::supported;
use crate::bitmap::Bitmap;
use crate::numbers::{LIST_LIMIT, MODE, SEC_LABEL, SETTABLE_WORDS, SIZE};
use crate::raw::RawAttrs;
use crate::settable::{AttrError, AttrSet};
use crate::view::LabelValue;
use lnfs_types::Octets;
use lnfs_xdr::{XdrError, XdrReader};
use std::alloc::{AllocError, Global};

impl From<XdrError> for AttrError {
    ghost from_gives = { λ _ e. e ≡ BadXdr };

    fn from(_cause: XdrError) -> AttrError {
        AttrError::BadXdr
    }
}

impl From<AllocError> for AttrError {
    ghost from_gives = { λ _ e. e ≡ Memory };

    fn from(_e: AllocError) -> AttrError {
        AttrError::Memory
    }
}

/// Whether every attribute can be set.
fn all_settable(mask: &Bitmap) -> bool
    ensures { IsTrue result ↔ AllAsked mask.now is_settable }
{
    mask.is_within(&Bitmap::of_words(SETTABLE_WORDS))
}

#[tactic(auto, unfolding(crate::specs::Settable::label))]
fn label_of(alloc: Global, reader: &mut XdrReader<'_>) -> Result<LabelValue, AttrError>
    ensures { Gets result reader.new (read label reader.old.rest) }
{
    let lfs = reader.u32()?;
    let pi = reader.u32()?;
    let bytes = Octets::from_slice(alloc, reader.opaque(LIST_LIMIT)?)?;
    Ok(LabelValue { lfs, pi, bytes })
}

fn size_if(reader: &mut XdrReader<'_>, is_there: bool) -> Result<Option<u64>, XdrError>
    ensures { Parses (λ x. x) result reader.old reader.new
        (read (given is_there Long) reader.old.rest) }
{
    if !is_there {
        return Ok(None);
    }
    Ok(Some(reader.u64()?))
}

fn mode_if(reader: &mut XdrReader<'_>, is_there: bool) -> Result<Option<u32>, XdrError>
    ensures { Parses (λ x. x) result reader.old reader.new
        (read (given is_there Word) reader.old.rest) }
{
    if !is_there {
        return Ok(None);
    }
    Ok(Some(reader.u32()?))
}

fn label_if(
    alloc: Global,
    reader: &mut XdrReader<'_>,
    is_there: bool,
) -> Result<Option<LabelValue>, AttrError>
    ensures { Gets result reader.new (read (given is_there label) reader.old.rest) }
{
    if !is_there {
        return Ok(None);
    }
    Ok(Some(label_of(alloc, reader)?))
}

#[tactic(auto, unfolding(crate::specs::Settable::values))]
fn values_of(alloc: Global, reader: &mut XdrReader<'_>, mask: &Bitmap) -> Result<AttrSet, AttrError>
    ensures { Gets result reader.new (read (values mask.now) reader.old.rest) }
{
    let size = size_if(reader, mask.has(SIZE))?;
    let mode = mode_if(reader, mask.has(MODE))?;
    let label = label_if(alloc, reader, mask.has(SEC_LABEL))?;
    Ok(AttrSet { size, mode, label })
}

#[tactic(auto, unfolding(crate::specs::Settable::list_values))]
fn list_in(alloc: Global, mask: &Bitmap, bytes: &[u8]) -> Result<AttrSet, AttrError>
    ensures { Lists result (parse (list_values mask.now) bytes.now) }
{
    let mut reader = XdrReader::new(bytes);
    let found = values_of(alloc, &mut reader, mask)?;
    if !reader.rest().is_empty() {
        return Err(AttrError::BadXdr);
    }
    Ok(found)
}

/// The values that a list is exactly.
fn list_of(alloc: Global, mask: &Bitmap, bytes: &[u8]) -> Result<AttrSet, AttrError>
    ensures { Exactly result mask.now bytes.now }
{
    list_in(alloc, mask, bytes)
}

/// The attributes that are to be set. The refusals, in this order: `AttrNotSupp` where one is
/// outside of the table, `Inval` where one can't be set, `BadXdr` where the list isn't exactly the
/// values, whatever their pad bytes are.
pub fn read_settable(alloc: Global, raw: &RawAttrs) -> Result<AttrSet, AttrError>
    ensures { Judged result raw.now }
{
    if !supported(&raw.mask) {
        return Err(AttrError::AttrNotSupp);
    }
    if !all_settable(&raw.mask) {
        return Err(AttrError::Inval);
    }
    list_of(alloc, &raw.mask, raw.list.as_slice())
}
