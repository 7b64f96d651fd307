//! Whether an entry's cookie and its name are such as are given (RFC 8881 sections 14.4 and 18.23.3).
ghost use Rattle.std.specs.Prelude.{◌≡◌, ◌<◌, ◌↔◌, ℕ, true, length};
ghost use Rattle.std.specs.Str.{is_utf8};
ghost use Rattle.lnfs_operations.specs.Names.{has_bad_byte, is_dots};
ghost use Rattle.lnfs_operations.specs.Bounds.{is_well_formed, EntryBounds};
ghost use Rattle.lnfs_fit.specs.Places.{nth_entry};
ghost use Rattle.lnfs_fit.specs.RowsOf.{entries_of};

use crate::rows::{cookie_at, name_at};
use lnfs_operations::numbers::LONGEST_NAME;
use lnfs_rows::EntryRow;
use lnfs_world::numbers::FIRST_COOKIE;

fn has_bad_byte(name: &[u8]) -> bool
    ensures { result ≡ has_bad_byte name.now }
{
    name.iter().any(|byte| *byte == b'/' || *byte == 0)
}

fn is_dots(name: &[u8]) -> bool
    ensures { result ≡ is_dots name.now }
{
    name == b".".as_slice() || name == b"..".as_slice()
}

fn is_utf8(name: &[u8]) -> bool
    ensures { result ≡ is_utf8 name.now }
{
    str::from_utf8(name).is_ok()
}

fn is_well_formed(name: &[u8]) -> bool
    ensures { result ≡ is_well_formed name.now }
{
    !name.is_empty()
        && name.len() <= LONGEST_NAME as usize
        && is_utf8(name)
        && !has_bad_byte(name)
        && !is_dots(name)
}

fn is_fit(entries: &[EntryRow<'_>], place: usize) -> bool
    requires { place < length entries.now }
    ensures { (result ≡ true) ↔ EntryBounds (nth_entry (entries_of entries.now) place) }
{
    FIRST_COOKIE as u64 <= cookie_at(entries, place) && is_well_formed(name_at(entries, place))
}

pub(crate) fn entries_fit(entries: &[EntryRow<'_>]) -> bool
    ensures { (result ≡ true) ↔ ((t : ℕ) → t < length entries.now → EntryBounds (nth_entry (entries_of entries.now) t)) }
{
    for place in 0..entries.len() {
        if !is_fit(entries, place) {
            return false;
        }
    }
    true
}
