//! Rows of operations behind the SEQUENCE of a session.
use crate::flaw::{Flaw, read_of};
use crate::rows::rows_of;
use crate::runs::Runtime;
use crate::sessions::check_opened_under;
use crate::site::POLICY;
use std::alloc::{AllocError, Global};

/// Adds the row of a name, operations, results and a line, as an event of a session's first slot: of a COMPOUND with as
/// many operations as it has results.
fn put_event(rows: &mut String, alloc: Global, row: &str) -> Result<Option<()>, AllocError> {
    let Some((name, behind)) = row.split_once(" | ") else {
        return Ok(None);
    };
    let Some((operations, due)) = behind.split_once(" | ") else {
        return Ok(None);
    };
    let (results, line) = due.split_once(" | ").unwrap_or((due, ""));
    let Some((status, results)) = results.split_once(' ') else {
        return Ok(None);
    };
    let Some((count, results)) = results.split_once(' ') else {
        return Ok(None);
    };
    let event = if line.is_empty() { "" } else { "3 " };
    rows.push_str(&format!(in alloc;
        "{name} | CALL SYS 0 2 {count} SEQUENCE 1 0 0 1 {operations} | \
ACCEPTED 0 {status} 0 {count} SEQUENCED 1 0 SLOTS {results} | {event}{line}\n"
    )?)?;
    Ok(Some(()))
}

/// Plays each row of a table of operations behind the client and its session, which has so many, under a policy. In a row
/// stand a name; the operations behind a SEQUENCE; the status of the COMPOUND, the count of its results and the results
/// behind that of SEQUENCE; and the line of the audit stream, without the event's place, where there is one.
///
/// # Errors
///
/// The flaw of the first row that has one, and another where the table has more rows or fewer.
pub fn check_operations_under(
    rt: &impl Runtime,
    alloc: Global,
    policy: &str,
    table: &str,
    count: usize,
) -> Result<(), Flaw> {
    let mut rows = String::new(alloc);
    for row in &rows_of(alloc, table)? {
        read_of(alloc, put_event(&mut rows, alloc, row)?, row)?;
    }
    check_opened_under(rt, alloc, policy, &rows, count)
}

/// The same under the policy of all trials.
///
/// # Errors
///
/// Those of `check_operations_under`.
pub fn check_operations(
    rt: &impl Runtime,
    alloc: Global,
    table: &str,
    count: usize,
) -> Result<(), Flaw> {
    check_operations_under(rt, alloc, POLICY, table, count)
}
