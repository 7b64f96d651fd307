//! Whether no two locks are of one open and owner.
ghost use Rattle.std.specs.Prelude.{◌≡◌, ◌↔◌, ◌++◌, ◌∷◌, [], true, false, List, IfOk};
ghost use Rattle.lnfs_world.specs.Rows.{Rising, Apart};
ghost use Rattle.lnfs_world.specs.World.{id_order};
ghost use Rattle.lnfs_rows.specs.World.{world_of};
ghost use Rattle.lnfs_fit.specs.RowsOf.{ids_of, AreIdsOf};
ghost use Rattle.lnfs_locks.specs.Locks.{Lock};
ghost use Rattle.lnfs_locks.specs.Facts.{are_doubles};
ghost use Rattle.lnfs_lock_rows.specs.Told.{lock_of};
ghost use Rattle.lnfs_lock_fit.specs.Keys.{AreHolders};
ghost use Rattle.lnfs_lock_fit.specs.RowsOf.{locks_of};

use crate::openings::is_live;
use crate::rows::row_at;
use lnfs_lock_rows::LockRow;
use lnfs_rows::{Id, Lists};
use std::alloc::{AllocError, Global};
use std::collections::BTreeSet;

/// Takes note of the open and the owner of a lock whose open is there. Whether they weren't noted before.
fn is_alone(
    alloc: Global,
    seen: &mut BTreeSet<(u32, u64, Vec<u8>)>,
    lists: &Lists<'_>,
    open_ids: &[Id],
    row: &LockRow<'_>,
) -> Result<bool, AllocError>
    requires ids { AreIdsOf (λ o. o.id) (world_of lists.now).opens open_ids.now }
    requires rise { Rising id_order (ids_of open_ids.now) }
    ensures seen { IfOk result (λ alone. alone ≡ true → (locks : List Lock) →
        AreHolders (world_of lists.now) seen.old locks →
        AreHolders (world_of lists.now) seen.new (locks ++ lock_of row.now ∷ [])) }
    ensures apart { IfOk result (λ alone. alone ≡ true → (locks : List Lock) →
        AreHolders (world_of lists.now) seen.old locks → Apart (are_doubles (world_of lists.now)) locks →
        Apart (are_doubles (world_of lists.now)) (locks ++ lock_of row.now ∷ [])) }
    ensures clash { IfOk result (λ alone. alone ≡ false → (locks : List Lock) →
        AreHolders (world_of lists.now) seen.old locks →
        Apart (are_doubles (world_of lists.now)) (locks ++ lock_of row.now ∷ []) → ⊥) }
{
    if !is_live(lists, open_ids, row) {
        return Ok(true);
    }
    let owner = Vec::from_slice(alloc, row.owner)?;
    Ok(seen.insert((row.id.level, row.opening, owner))?)
}

/// Whether no two locks are of one open and owner, but those whose open is gone.
pub(crate) fn doubles_differ(
    alloc: Global,
    lists: &Lists<'_>,
    open_ids: &[Id],
    rows: &[LockRow<'_>],
) -> Result<bool, AllocError>
    requires ids { AreIdsOf (λ o. o.id) (world_of lists.now).opens open_ids.now }
    requires rise { Rising id_order (ids_of open_ids.now) }
    ensures { IfOk result (λ differ. (differ ≡ true) ↔ Apart (are_doubles (world_of lists.now)) (locks_of rows.now)) }
{
    let mut seen: BTreeSet<(u32, u64, Vec<u8>)> = BTreeSet::new(alloc);
    for place in 0..rows.len() {
        let row = row_at(rows, place);
        let alone = is_alone(alloc, &mut seen, lists, open_ids, row)?;
        if !alone {
            return Ok(false);
        }
    }
    Ok(true)
}
