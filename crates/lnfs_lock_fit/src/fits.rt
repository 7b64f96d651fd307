//! Whether each lock is within its bounds.
ghost use Rattle.std.specs.Prelude.{◌≡◌, ◌≤◌, ◌<◌, ◌↔◌, ℕ, true, length, nat_le};
ghost use Rattle.std.specs.List.{AllByRecursion, list_all};
ghost use Rattle.lnfs_world.specs.Rows.{Rising};
ghost use Rattle.lnfs_world.specs.World.{id_order};
ghost use Rattle.lnfs_rows.specs.World.{world_of};
ghost use Rattle.lnfs_site.specs.Site.{site_of};
ghost use Rattle.lnfs_fit.specs.RowsOf.{ids_of, AreIdsOf};
ghost use Rattle.lnfs_ranges.specs.Modes.{AreRuns};
ghost use Rattle.lnfs_locks.specs.declared.numbers.TheConstants.{LAST_OFFSET};
ghost use Rattle.lnfs_lock_rows.specs.Told.{lock_of};
ghost use Rattle.lnfs_lock_fit.specs.Parts.{HasNumbers, HasRanges, IsFitLock};
ghost use Rattle.lnfs_lock_fit.specs.RowsOf.{locks_of, nth_lock};

use crate::given::is_of_site;
use crate::openings::has_opening;
use crate::rows::row_at;
use lnfs_arguments::numbers::OWNER_LIMIT;
use lnfs_lock_rows::LockRow;
use lnfs_locks::numbers::LAST_OFFSET;
use lnfs_ranges::{LockRange, are_runs};
use lnfs_rows::{Id, Lists};
use lnfs_site::Site;
use lnfs_world::numbers::{LAST_NUMBER, LAST_SEQUENCE};

fn has_numbers(row: &LockRow<'_>) -> bool
    ensures { (result ≡ true) ↔ HasNumbers (lock_of row.now) }
{
    1 <= row.client
        && row.client <= LAST_NUMBER as u64
        && 1 <= row.opening
        && row.opening <= LAST_NUMBER as u64
        && 1 <= row.sequence
        && row.sequence <= LAST_SEQUENCE
        && row.owner.len() <= OWNER_LIMIT as usize
}

/// Whether no range goes past the last offset. By its type none does.
fn ends_fit(ranges: &[LockRange]) -> bool
    ensures { result ≡ list_all (λ r. nat_le r.last LAST_OFFSET) ranges.now }
{
    ranges.iter().all(|range| range.last <= LAST_OFFSET)
}

fn ranges_fit(ranges: &[LockRange]) -> bool
    ensures { (result ≡ true) ↔ (AreRuns ranges.now × AllByRecursion (λ r. r.last ≤ LAST_OFFSET) ranges.now) }
{
    if !are_runs(ranges) {
        return false;
    }
    ends_fit(ranges)
}

fn has_ranges(row: &LockRow<'_>) -> bool
    ensures { (result ≡ true) ↔ HasRanges (lock_of row.now) }
{
    ranges_fit(&row.ranges)
}

/// Whether a lock is within its bounds, but for its identifier. The identifiers are those of the opens.
fn is_fit(site: &Site<'_>, lists: &Lists<'_>, open_ids: &[Id], row: &LockRow<'_>) -> bool
    requires ids { AreIdsOf (λ o. o.id) (world_of lists.now).opens open_ids.now }
    requires rise { Rising id_order (ids_of open_ids.now) }
    ensures { (result ≡ true) ↔ IsFitLock (site_of site.now) (world_of lists.now) (lock_of row.now) }
{
    if !has_numbers(row) {
        return false;
    }
    if !is_of_site(site, row.node) {
        return false;
    }
    if !has_ranges(row) {
        return false;
    }
    has_opening(lists, open_ids, row)
}

fn is_fit_at(
    site: &Site<'_>,
    lists: &Lists<'_>,
    open_ids: &[Id],
    rows: &[LockRow<'_>],
    place: usize,
) -> bool
    requires ids { AreIdsOf (λ o. o.id) (world_of lists.now).opens open_ids.now }
    requires rise { Rising id_order (ids_of open_ids.now) }
    requires place { place < length rows.now }
    ensures { (result ≡ true) ↔ IsFitLock (site_of site.now) (world_of lists.now)
        (nth_lock (locks_of rows.now) place) }
{
    is_fit(site, lists, open_ids, row_at(rows, place))
}

/// Whether each lock is within its bounds.
pub(crate) fn each_fits(
    site: &Site<'_>,
    lists: &Lists<'_>,
    open_ids: &[Id],
    rows: &[LockRow<'_>],
) -> bool
    requires ids { AreIdsOf (λ o. o.id) (world_of lists.now).opens open_ids.now }
    requires rise { Rising id_order (ids_of open_ids.now) }
    ensures { (result ≡ true) ↔ ((k : ℕ) → k < length rows.now →
        IsFitLock (site_of site.now) (world_of lists.now) (nth_lock (locks_of rows.now) k)) }
{
    for place in 0..rows.len() {
        if !is_fit_at(site, lists, open_ids, rows, place) {
            return false;
        }
    }
    true
}
