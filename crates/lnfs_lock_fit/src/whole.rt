//! Whether rows are all locks that a server may have beside a world.
ghost use Rattle.std.specs.Prelude.{◌≡◌, ◌↔◌, true, IfOk};
ghost use Rattle.lnfs_operations.specs.Bounds.{IsSound};
ghost use Rattle.lnfs_rows.specs.Lasts.{given_of};
ghost use Rattle.lnfs_rows.specs.World.{world_of};
ghost use Rattle.lnfs_site.specs.Site.{site_of};
ghost use Rattle.lnfs_fit.specs.RowsOf.{AreIdsOf};
ghost use Rattle.lnfs_lock_rows.specs.Told.{locks_told};
ghost use Rattle.lnfs_lock_rows.specs.Bounds.{LocksFit};
ghost use Rattle.lnfs_lock_fit.specs.RowsOf.{locks_of};

use crate::apart::doubles_differ;
use crate::fits::each_fits;
use crate::limits::ranges_are_few;
use crate::openings::ids_of_opens;
use crate::rows::ids_of_locks;
use lnfs_fit::{few_of_a_level, ids_fit};
use lnfs_lock_rows::{LockRow, LockRows};
use lnfs_locks::numbers::LOCKS_OF_A_LEVEL;
use lnfs_rows::{Id, Lists};
use lnfs_site::Site;
use std::alloc::{AllocError, Global};

/// Whether locks fit, with the identifiers of the opens and of the locks, and the last numbers of levels.
fn fit_by_ids(
    alloc: Global,
    site: &Site<'_>,
    lists: &Lists<'_>,
    open_ids: &[Id],
    ids: &[Id],
    last: &[u64],
    rows: &[LockRow<'_>],
) -> Result<bool, AllocError>
    requires open_ids { AreIdsOf (λ o. o.id) (world_of lists.now).opens open_ids.now }
    requires ids { AreIdsOf (λ l. l.id) (locks_of rows.now) ids.now }
    requires sound { IsSound (site_of site.now) (world_of lists.now) }
    ensures { IfOk result (λ fit. (fit ≡ true) ↔ LocksFit (site_of site.now) (world_of lists.now)
        (record { lasts = given_of last.now; locks = locks_of rows.now })) }
{
    if !ids_fit(site, last, ids) {
        return Ok(false);
    }
    let few = few_of_a_level(alloc, site, ids, LOCKS_OF_A_LEVEL as usize)?;
    if !few {
        return Ok(false);
    }
    if !each_fits(site, lists, open_ids, rows) {
        return Ok(false);
    }
    let ranges_few = ranges_are_few(alloc, site, rows)?;
    if !ranges_few {
        return Ok(false);
    }
    doubles_differ(alloc, lists, open_ids, rows)
}

/// Whether rows are all locks that a server of this site may have beside a world: within their bounds, each under an open that
/// is gone or is of its client and its node, and no level has more locks or ranges than it may.
///
/// # Errors
///
/// `AllocError` where there is no memory.
pub fn locks_fit(
    alloc: Global,
    site: &Site<'_>,
    lists: &Lists<'_>,
    rows: &LockRows<'_>,
) -> Result<bool, AllocError>
    requires sound { IsSound (site_of site.now) (world_of lists.now) }
    ensures { IfOk result (λ fit. (fit ≡ true) ↔ LocksFit (site_of site.now) (world_of lists.now) (locks_told rows.now)) }
{
    let open_ids = ids_of_opens(alloc, &lists.opens)?;
    let ids = ids_of_locks(alloc, &rows.locks)?;
    fit_by_ids(
        alloc,
        site,
        lists,
        &open_ids,
        &ids,
        &rows.lasts,
        &rows.locks,
    )
}
