//! Names of labels.

ghost use Rattle.std.specs.Prelude.{◌≡◌, IfOk};
ghost use Rattle.std.specs.Option.{option_map};
ghost use Rattle.lnfs_format.specs.Kinds.{reads_name, writes_name};

use crate::kind::NameRow;
use lnfs_calipso::Label;
use std::alloc::{AllocError, Global};

/// The label of the first row with these bytes.
///
/// # Errors
///
/// `AllocError` where there is no memory.
pub fn read_name(
    _alloc: Global,
    rows: &[NameRow],
    bytes: &[u8],
) -> Result<Option<Label>, AllocError>
    ensures { IfOk result (λ label. label ≡ reads_name rows.now bytes.now) }
{
    for row in rows {
        if row.bytes.as_slice() == bytes {
            return Ok(Some(row.label.clone()?));
        }
    }
    Ok(None)
}

/// The bytes of the first row with this label.
///
/// # Errors
///
/// `AllocError` where there is no memory.
pub fn write_name(
    alloc: Global,
    rows: &[NameRow],
    label: &Label,
) -> Result<Option<Vec<u8>>, AllocError>
    ensures { IfOk result (λ text. option_map (λ v. v.items) text
        ≡ writes_name rows.now label.now) }
{
    for row in rows {
        if row.label == *label {
            let bytes = Vec::from_slice(alloc, row.bytes.as_slice())?;
            return Ok(Some(bytes));
        }
    }
    Ok(None)
}
