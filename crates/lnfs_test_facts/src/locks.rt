//! Edits of locks.
use crate::arranged::{moved, put_at};
use crate::people::set_id;
use crate::words::{Stock, digits_at, set_bytes, set_u32, set_u64};
use lnfs_lock_rows::LockRow;
use lnfs_ranges::LockRange;
use lnfs_rows::Id;
use std::alloc::{AllocError, Global};

/// The range that words tell: its first offset and its last, and `w` where it is for write, or `r`.
fn range_in(words: &str) -> Option<LockRange> {
    let (first, rest) = words.trim().split_once(' ')?;
    let (last, kind) = rest.split_once(' ')?;
    Some(LockRange {
        first: first.parse::<u64>().ok()?,
        last: last.parse::<u64>().ok()?,
        write: kind == "w",
    })
}

/// Puts the ranges that words between commas tell, or none.
fn set_ranges(ranges: &mut Vec<LockRange>, words: &str) -> Result<bool, AllocError> {
    ranges.truncate(0);
    if words == "none" {
        return Ok(true);
    }
    for words in words.split(',') {
        match range_in(words) {
            Some(range) => ranges.push(range)?,
            None => return Ok(false),
        }
    }
    Ok(true)
}

/// Puts so many ranges of a byte each, with a byte between every two.
fn spread(ranges: &mut Vec<LockRange>, count: u64) -> Result<bool, AllocError> {
    ranges.truncate(0);
    for place in 0..count {
        let offset = place.saturating_mul(2);
        ranges.push(LockRange {
            first: offset,
            last: offset,
            write: true,
        })?;
    }
    Ok(true)
}

/// Puts a column of a lock.
fn set_lock<'a>(
    row: &mut LockRow<'a>,
    stock: Stock<'a>,
    column: &str,
    word: &'a str,
) -> Result<bool, AllocError> {
    match column {
        "ranges" => set_ranges(&mut row.ranges, word),
        "spread" => spread(&mut row.ranges, word.parse::<u64>().unwrap_or(0)),
        "client" => Ok(set_u64(&mut row.client, word)),
        "opening" => Ok(set_u64(&mut row.opening, word)),
        "owner" => Ok(set_bytes(&mut row.owner, stock, word)),
        "home" => Ok(set_u32(&mut row.node.level, word)),
        "node" => Ok(set_u64(&mut row.node.number, word)),
        "sequence" => Ok(set_u32(&mut row.sequence, word)),
        _ => Ok(set_id(&mut row.id, column, word)),
    }
}

/// A lock like another one, of a number that is so much higher.
fn lock_like<'a>(
    alloc: Global,
    row: &LockRow<'a>,
    higher: u64,
    owner: &'a [u8],
) -> Result<LockRow<'a>, AllocError> {
    Ok(LockRow {
        id: Id {
            level: row.id.level,
            number: row.id.number.saturating_add(higher),
        },
        client: row.client,
        opening: row.opening,
        owner,
        node: row.node,
        sequence: row.sequence,
        ranges: Vec::from_slice(alloc, &row.ranges)?,
    })
}

/// Puts a lock behind itself once more.
fn again(alloc: Global, rows: &mut Vec<LockRow<'_>>, place: usize) -> Result<bool, AllocError> {
    let Some(row) = rows.get(place) else {
        return Ok(false);
    };
    let row = lock_like(alloc, row, 0, row.owner)?;
    put_at(rows, place.saturating_add(1), row)
}

/// Puts so many further locks behind one, each of the next number and of an owner of its own.
fn add_locks<'a>(
    alloc: Global,
    rows: &mut Vec<LockRow<'a>>,
    stock: Stock<'a>,
    place: usize,
    count: usize,
) -> Result<bool, AllocError> {
    for step in 0..count {
        let before = place.saturating_add(step);
        let (Some(row), Some(owner)) = (rows.get(before), digits_at(stock, step)) else {
            return Ok(false);
        };
        let row = lock_like(alloc, row, 1, owner)?;
        if !put_at(rows, before.saturating_add(1), row)? {
            return Ok(false);
        }
    }
    Ok(true)
}

/// Edits a lock: a column, or where it stands.
pub fn edit_lock<'a>(
    alloc: Global,
    rows: &mut Vec<LockRow<'a>>,
    stock: Stock<'a>,
    place: usize,
    column: &str,
    word: &'a str,
) -> Result<bool, AllocError> {
    match column {
        "many" => add_locks(
            alloc,
            rows,
            stock,
            place,
            word.parse::<usize>().unwrap_or(0),
        ),
        "again" => again(alloc, rows, place),
        "drop" | "swap" => Ok(moved(rows, place, column, word)),
        _ => match rows.get_mut(place) {
            Some(row) => set_lock(row, stock, column, word),
            None => Ok(false),
        },
    }
}
