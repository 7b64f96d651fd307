//! Rows of recordings behind a client and its session.
use crate::flaw::{Flaw, read_of};
use crate::records::check_row_under;
use crate::rows::counted_rows;
use crate::runs::Runtime;
use crate::site::POLICY;
use std::alloc::{AllocError, Global};

/// A client and its session, both the first of level 0.
const OPENING: &str = "CALL SYS EXCHANGE 'c1' REST / CALL SYS CREATE 0 1 1 0 CHANNEL CHANNEL 0 0";

/// The replies to these two.
const OPENED: &str = "EXCHANGED 0 1 SERVER / CREATED 0 0 1 0 1 0 CHANNEL CHANNEL";

/// A row with the two events before its own, and their replies before its own, where it can be read.
pub fn opened(alloc: Global, row: &str) -> Result<Option<String>, AllocError> {
    let Some((name, behind)) = row.split_once(" | ") else {
        return Ok(None);
    };
    let Some((events, due)) = behind.split_once(" | ") else {
        return Ok(None);
    };
    let whole = format!(in alloc; "{name} | {OPENING} / {events} | {OPENED} / {due}")?;
    Ok(Some(whole))
}

/// Plays each row of a table behind the two events, which has so many, under a policy.
///
/// # Errors
///
/// The flaw of the first row that has one, and another where the table has more rows or fewer.
pub fn check_opened_under(
    rt: &impl Runtime,
    alloc: Global,
    policy: &str,
    table: &str,
    count: usize,
) -> Result<(), Flaw> {
    for row in &counted_rows(alloc, table, count)? {
        let whole = read_of(alloc, opened(alloc, row)?, row)?;
        check_row_under(rt, alloc, policy, &whole)?;
    }
    Ok(())
}

/// The same under the policy of all trials.
///
/// # Errors
///
/// Those of `check_opened_under`.
pub fn check_opened(
    rt: &impl Runtime,
    alloc: Global,
    table: &str,
    count: usize,
) -> Result<(), Flaw> {
    check_opened_under(rt, alloc, POLICY, table, count)
}
