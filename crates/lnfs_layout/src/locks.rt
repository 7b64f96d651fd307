//! Readers of locks.
ghost use Rattle.std.specs.Prelude.{map};
ghost use Rattle.lnfs_xdr.specs.Reading.{read};
ghost use Rattle.lnfs_xdr.specs.Cursor.{Parses};
ghost use Rattle.lnfs_lock_rows.specs.Told.{lock_of};
ghost use Rattle.lnfs_layout.specs.Grammar.{many, range_row, lock_row};
ghost use Rattle.lnfs_layout.specs.Parsing.{ParsesInMemory};

use crate::columns::{read_flag, read_id, read_run};
use crate::errors::Halt;
use lnfs_lock_rows::LockRow;
use lnfs_ranges::LockRange;
use lnfs_xdr::{XdrError, XdrReader};
use std::alloc::Global;

#[tactic(auto, unfolding(crate::specs::Grammar::range_row))]
fn read_range(reader: &mut XdrReader<'_>) -> Result<LockRange, XdrError>
    ensures { Parses (λ r. r) result reader.old reader.new (read range_row reader.old.rest) }
{
    let first = reader.u64()?;
    let last = reader.u64()?;
    let write = read_flag(reader)?;
    Ok(LockRange { first, last, write })
}

fn read_ranges(alloc: Global, reader: &mut XdrReader<'_>) -> Result<Vec<LockRange>, Halt>
    ensures { ParsesInMemory (λ v. v.items) result reader.old reader.new
        (read (many range_row) reader.old.rest) }
{
    let count = reader.u64()?;
    let mut ranges = Vec::new(alloc);
    for _ in 0..count {
        ranges.push(read_range(reader)?)?;
    }
    Ok(ranges)
}

#[tactic(auto, unfolding(crate::specs::Grammar::lock_row))]
fn read_lock<'a>(alloc: Global, reader: &mut XdrReader<'a>) -> Result<LockRow<'a>, Halt>
    ensures { ParsesInMemory lock_of result reader.old reader.new
        (read lock_row reader.old.rest) }
{
    let id = read_id(reader)?;
    let client = reader.u64()?;
    let opening = reader.u64()?;
    let owner = read_run(reader)?;
    let node = read_id(reader)?;
    let sequence = reader.u32()?;
    let ranges = read_ranges(alloc, reader)?;
    Ok(LockRow {
        id,
        client,
        opening,
        owner,
        node,
        sequence,
        ranges,
    })
}

pub fn read_locks<'a>(alloc: Global, reader: &mut XdrReader<'a>) -> Result<Vec<LockRow<'a>>, Halt>
    ensures { ParsesInMemory (λ v. map lock_of v.items) result reader.old reader.new
        (read (many lock_row) reader.old.rest) }
{
    let count = reader.u64()?;
    let mut rows = Vec::new(alloc);
    for _ in 0..count {
        rows.push(read_lock(alloc, reader)?)?;
    }
    Ok(rows)
}
