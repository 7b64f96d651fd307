//! Rows of recordings: what is recorded, the replies to it, and the lines of the audit stream.
use crate::flaw::{Flaw, read_of};
use crate::rows::{Due, cells_of, counted_rows, frames_of, lines_in, recording_of};
use crate::runs::{Runtime, gives, run_under};
use crate::site::POLICY;
use std::alloc::{AllocError, Global};

/// What cells say is due after a run with a status, where they can be read.
pub fn due_of(alloc: Global, status: u8, cells: &[&str]) -> Result<Option<Due>, AllocError> {
    let Some((replies, told)) = cells.split_first() else {
        return Ok(None);
    };
    let Some(out) = frames_of(alloc, replies)? else {
        return Ok(None);
    };
    let lines = lines_in(alloc, told)?;
    Ok(Some(Due { status, out, lines }))
}

/// The name of a row, what it has recorded, and what is due.
///
/// # Errors
///
/// A flaw where the row can't be read.
pub fn read_row<'a>(alloc: Global, row: &'a str) -> Result<(&'a str, Vec<u8>, Due), Flaw> {
    let cells = cells_of(alloc, row)?;
    if cells.len() < 3 {
        return Err(Flaw::new(alloc, "cells", row));
    }
    let due = read_of(alloc, due_of(alloc, 0, &cells[2..])?, row)?;
    let traffic = read_of(alloc, recording_of(alloc, cells[1])?, row)?;
    Ok((cells[0], traffic, due))
}

/// Plays what a row has recorded under a policy, and compares what that gives with what is due.
///
/// # Errors
///
/// A flaw where the row can't be read, or something else is given.
pub fn check_row_under(
    rt: &impl Runtime,
    alloc: Global,
    policy: &str,
    row: &str,
) -> Result<(), Flaw> {
    let (name, traffic, due) = read_row(alloc, row)?;
    gives(alloc, name, &run_under(rt, alloc, policy, &traffic)?, &due)
}

/// The same under the policy of all trials.
///
/// # Errors
///
/// Those of `check_row_under`.
pub fn check_row(rt: &impl Runtime, alloc: Global, row: &str) -> Result<(), Flaw> {
    check_row_under(rt, alloc, POLICY, row)
}

/// Plays each row of a table, which has so many.
///
/// # Errors
///
/// The flaw of the first row that has one, and another where the table has more rows or fewer.
pub fn check(rt: &impl Runtime, alloc: Global, table: &str, count: usize) -> Result<(), Flaw> {
    for row in &counted_rows(alloc, table, count)? {
        check_row(rt, alloc, row)?;
    }
    Ok(())
}
