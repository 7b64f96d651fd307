//! Writers of locks.
ghost use Rattle.std.specs.Prelude.{◌≡◌, ◌++◌, OnOk, map};
ghost use Rattle.lnfs_lock_rows.specs.Told.{lock_of};
ghost use Rattle.lnfs_layout.specs.Texts.{many_text, range_text, lock_text};
ghost use Rattle.lnfs_layout.specs.Fits.{ListFits, RangeFits, LockFits};

use crate::put_columns::{put_flag, put_id, put_run};
use lnfs_lock_rows::LockRow;
use lnfs_ranges::LockRange;
use lnfs_xdr::XdrWriter;
use std::alloc::AllocError;

#[tactic(auto, unfolding(crate::specs::Texts::range_text))]
fn put_range(out: &mut XdrWriter, range: &LockRange) -> Result<(), AllocError>
    ensures text { OnOk result (out.new ≡ out.old ++ range_text range.now) }
    ensures fits { OnOk result (RangeFits range.now) }
{
    out.u64(range.first)?;
    out.u64(range.last)?;
    put_flag(out, range.write)
}

fn put_ranges(out: &mut XdrWriter, ranges: &[LockRange]) -> Result<(), AllocError>
    ensures text { OnOk result (out.new ≡ out.old ++ many_text range_text ranges.now) }
    ensures fits { OnOk result (ListFits RangeFits ranges.now) }
{
    out.u64(ranges.len() as u64)?;
    for range in ranges {
        put_range(out, range)?;
    }
    Ok(())
}

#[tactic(auto, unfolding(crate::specs::Texts::lock_text))]
fn put_lock(out: &mut XdrWriter, row: &LockRow<'_>) -> Result<(), AllocError>
    ensures text { OnOk result (out.new ≡ out.old ++ lock_text (lock_of row.now)) }
    ensures fits { OnOk result (LockFits (lock_of row.now)) }
{
    put_id(out, row.id)?;
    out.u64(row.client)?;
    out.u64(row.opening)?;
    put_run(out, row.owner)?;
    put_id(out, row.node)?;
    out.u32(row.sequence)?;
    put_ranges(out, row.ranges.as_slice())
}

pub fn put_locks(out: &mut XdrWriter, rows: &[LockRow<'_>]) -> Result<(), AllocError>
    ensures text { OnOk result (out.new ≡ out.old
        ++ many_text lock_text (map lock_of rows.now)) }
    ensures fits { OnOk result (ListFits LockFits (map lock_of rows.now)) }
{
    out.u64(rows.len() as u64)?;
    for row in rows {
        put_lock(out, row)?;
    }
    Ok(())
}
