//! A state is written as bytes.
ghost use Rattle.std.specs.Prelude.{◌≡◌, ◌≤◌, IfOk, Some, length};
ghost use Rattle.lnfs_rows.specs.World.{AreOf, world_of};
ghost use Rattle.lnfs_lock_rows.specs.Told.{locks_told};
ghost use Rattle.lnfs_layout.specs.Texts.{layout_text};
ghost use Rattle.lnfs_layout.specs.Fits.{AreLongs, LastsFit, RowsFit, LockRowsFit};
ghost use Rattle.lnfs_layout.specs.Whole.{Told, layout};
ghost use Rattle.lnfs_layout.specs.declared.numbers.TheConstants.{MOST_EVENTS};
ghost use Rattle.lnfs_xdr.specs.Message.{Tells};

use crate::lasts::{are_longs, lasts_fit, put_lasts};
use crate::numbers::MAGIC;
use crate::put_lists::put_lists;
use crate::put_locks::put_locks;
use lnfs_lock_rows::LockRows;
use lnfs_rows::Lists;
use lnfs_xdr::XdrWriter;
use std::alloc::{AllocError, Global};

#[tactic(auto, unfolding(crate::specs::Texts::layout_text))]
fn text_of(
    alloc: Global,
    levels: u32,
    digest: &[u8; 32],
    events: u64,
    lists: &Lists<'_>,
    locks: &LockRows<'_>,
) -> Result<Vec<u8>, AllocError>
    ensures text { IfOk result (λ v. v.items
        ≡ layout_text levels digest.now events (world_of lists.now) (locks_told locks.now)) }
    ensures fits { IfOk result (λ v. LastsFit lists.now.lasts × RowsFit (world_of lists.now)) }
    ensures locks_fit { IfOk result (λ v. AreLongs locks.now.lasts.items
        × LockRowsFit (locks_told locks.now)) }
{
    lasts_fit(&lists.lasts);
    are_longs(locks.lasts.as_slice());
    let mut out = XdrWriter::new(alloc);
    out.u64(MAGIC)?;
    out.raw(digest)?;
    out.u64(events)?;
    put_lasts(&mut out, &lists.lasts, locks.lasts.as_slice(), levels)?;
    put_lists(&mut out, lists)?;
    put_locks(&mut out, locks.locks.as_slice())?;
    Ok(out.into_bytes())
}

/// The one layout of a state under a policy of so many levels and of this digest, after so many events. A level that a list of
/// last numbers has none of gave none.
///
/// # Errors
///
/// Only for want of memory.
pub fn write_layout(
    alloc: Global,
    levels: u32,
    digest: &[u8; 32],
    events: u64,
    lists: &Lists<'_>,
    locks: &LockRows<'_>,
) -> Result<Vec<u8>, AllocError>
    ensures text { IfOk result (λ v. v.items
        ≡ layout_text levels digest.now events (world_of lists.now) (locks_told locks.now)) }
    // It is read again, where there is a last number for each level, of the world's identifiers and of locks.
    ensures again { events ≤ MOST_EVENTS → AreOf levels lists.now.lasts →
        length locks.now.lasts.items ≡ levels → IfOk result (λ v.
        Tells (layout levels digest.now)
        (Some (record { events = events; world = world_of lists.now; locks = locks_told locks.now }))
        v.items) }
{
    text_of(alloc, levels, digest, events, lists, locks)
}
