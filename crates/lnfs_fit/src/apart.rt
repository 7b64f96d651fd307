//! Whether names differ.
ghost use Rattle.std.specs.Prelude.{◌≡◌, ◌↔◌, true, IfOk};
ghost use Rattle.lnfs_world.specs.Rows.{Apart};
ghost use Rattle.lnfs_world.specs.Facts.{same_name};
ghost use Rattle.lnfs_fit.specs.RowsOf.{entries_of};

use crate::rows::{dir_at, name_at};
use lnfs_rows::EntryRow;
use std::alloc::{AllocError, Global};
use std::collections::BTreeSet;

/// Whether no two entries have the same name in one directory.
pub fn names_differ(alloc: Global, entries: &[EntryRow<'_>]) -> Result<bool, AllocError>
    ensures { IfOk result (λ differ. (differ ≡ true) ↔ Apart same_name (entries_of entries.now)) }
{
    let mut seen: BTreeSet<(u32, u64, Vec<u8>)> = BTreeSet::new(alloc);
    for place in 0..entries.len() {
        let directory = dir_at(entries, place);
        let name = Vec::from_slice(alloc, name_at(entries, place))?;
        if !seen.insert((directory.level, directory.number, name))? {
            return Ok(false);
        }
    }
    Ok(true)
}
