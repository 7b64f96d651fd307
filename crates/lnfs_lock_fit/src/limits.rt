//! Whether no level has too many ranges.
ghost use Rattle.std.specs.Prelude.{◌≡◌, ◌≤◌, ◌<◌, ◌+◌, ◌↔◌, ℕ, true, length, IfOk};
ghost use Rattle.std.specs.List.{AllByRecursion};
ghost use Rattle.lnfs_site.specs.Site.{site_of};
ghost use Rattle.lnfs_operations.specs.Bounds.{IsGivenBy};
ghost use Rattle.lnfs_locks.specs.declared.numbers.TheConstants.{RANGES_OF_A_LEVEL};
ghost use Rattle.lnfs_locks.specs.Facts.{ranges_at};
ghost use Rattle.lnfs_lock_fit.specs.RowsOf.{locks_of, nth_lock};

use crate::rows::row_at;
use lnfs_lock_rows::LockRow;
use lnfs_locks::numbers::RANGES_OF_A_LEVEL;
use lnfs_site::Site;
use std::alloc::{AllocError, Global};

/// The level of a lock.
fn level_at(site: &Site<'_>, rows: &[LockRow<'_>], place: usize) -> usize
    requires site { AllByRecursion (λ l. IsGivenBy (site_of site.now) l.id) (locks_of rows.now) }
    requires place { place < length rows.now }
    ensures level { result ≡ (nth_lock (locks_of rows.now) place).id.level }
    ensures within { result < (site_of site.now).levels + 1 }
{
    // Where labels are carried alone the levels of the site aren't looked at, and all rows are of level 0.
    let _levels = site.levels();
    row_at(rows, place).id.level as usize
}

/// How many ranges a lock has.
fn ranges_at(rows: &[LockRow<'_>], place: usize) -> usize
    requires { place < length rows.now }
    ensures { result ≡ length (nth_lock (locks_of rows.now) place).ranges }
{
    row_at(rows, place).ranges.len()
}

/// Whether no level has more ranges than it may.
pub(crate) fn ranges_are_few(
    alloc: Global,
    site: &Site<'_>,
    rows: &[LockRow<'_>],
) -> Result<bool, AllocError>
    requires { AllByRecursion (λ l. IsGivenBy (site_of site.now) l.id) (locks_of rows.now) }
    ensures { IfOk result (λ few. (few ≡ true) ↔ ((level : ℕ) → ranges_at level (locks_of rows.now) ≤ RANGES_OF_A_LEVEL)) }
{
    let most = RANGES_OF_A_LEVEL as usize;
    let mut sums: Vec<usize> = vec![in alloc; 0; site.levels() as usize + 1]?;
    for place in 0..rows.len() {
        let level = level_at(site, rows, place);
        let ranges = ranges_at(rows, place);
        let sum = sums[level];
        if ranges > most.saturating_sub(sum) {
            return Ok(false);
        }
        sums[level] = sum + ranges;
    }
    Ok(true)
}
