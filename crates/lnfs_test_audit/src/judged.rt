//! Runs that judge recorded replies: what is shown and told, by the words of both forms.
use lnfs_test_support::flaw::{Flaw, demand, read_of};
use lnfs_test_support::rows::{Due, cells_of, counted_rows, frames_of, recording_of};
use lnfs_test_support::runs::{NONE, Runtime, gives, run_files};
use lnfs_test_support::site::{POLICY, file};
use std::alloc::{AllocError, Global};

/// In a table: a name; the names of the three files, which are p, t and r; the events, and the bytes behind their recording;
/// the replies, each of which is framed; the line that is shown, and the one that tells the ending.
///
/// All is well.
const FOUND: &str = "
as it was | p t r | CALL SYS EXCHANGE 'c1' REST | | EXCHANGED 0 1 SERVER | faithful 1 |
another client | p t r | CALL SYS EXCHANGE 'c1' REST | | EXCHANGED 0 2 SERVER | differs 1 |
one record more | p t r | CALL SYS EXCHANGE 'c1' REST | | EXCHANGED 0 1 SERVER / EXCHANGED 0 1 SERVER | surplus 112 |
no reply is due | p t r | 1 2 | | | faithful 1 |
";

/// The recording is damaged. The replies aren't looked for then.
const DAMAGED: &str = "
behind an event | p t r | CALL SYS EXCHANGE 'c1' REST | 0x00 | EXCHANGED 0 1 SERVER | | fault 4 traffic damaged at 140
before the replies | p t x | CALL SYS EXCHANGE 'c1' REST | 0x00 | EXCHANGED 0 1 SERVER | | fault 4 traffic damaged at 140
";

/// A file isn't there.
const MISSING: &str = "
no policy | x t r | CALL SYS EXCHANGE 'c1' REST | | EXCHANGED 0 1 SERVER | | fault 9 no file x
no recording | p x r | CALL SYS EXCHANGE 'c1' REST | | EXCHANGED 0 1 SERVER | | fault 9 no file x
no replies | p t x | CALL SYS EXCHANGE 'c1' REST | | EXCHANGED 0 1 SERVER | | fault 9 no file x
";

/// Under a limited policy one vault tells.
const LIMITED: &str = "
a limited policy | p t r | @1 CALL SYS_300 EXCHANGE 'c1' REST | | EXCHANGED 0 1 SERVER | faithful 1 |
";

/// There levels don't, whatever the other files are.
const PURGED: &str = "
purged under a limited policy | p t r | CALL SYS EXCHANGE 'c1' REST | | EXCHANGED 0 1 SERVER | | fault 2 usage
before the recording | p x r | CALL SYS EXCHANGE 'c1' REST | | EXCHANGED 0 1 SERVER | | fault 2 usage
";

/// Behind the names stands another word than the one of the second form.
const OTHERS: &str = "
another word | p t r | CALL SYS EXCHANGE 'c1' REST | | EXCHANGED 0 1 SERVER | | fault 2 usage
";

/// A line, if there is one.
fn line_of(alloc: Global, cell: &str) -> Result<String, AllocError> {
    let mut line = String::from_str(alloc, cell)?;
    if !cell.is_empty() {
        line.push_str("\n")?;
    }
    Ok(line)
}

/// What a row says is due after a run with a status.
fn due_of(alloc: Global, status: u8, out: &str, line: &str) -> Result<Due, AllocError> {
    let out = line_of(alloc, out)?;
    Ok(Due {
        status,
        out: Vec::from_slice(alloc, out.as_bytes())?,
        lines: line_of(alloc, line)?,
    })
}

/// Judges what a row has recorded, under a policy and by one of the two forms.
fn check_row(
    rt: &impl Runtime,
    alloc: Global,
    policy: &str,
    row: &str,
    status: u8,
    last: &str,
) -> Result<(), Flaw> {
    let cells = cells_of(alloc, row)?;
    let [name, names, events, behind, replies, out, line] = cells.as_slice() else {
        return demand(alloc, false, "cells", row);
    };
    let mut traffic = read_of(alloc, recording_of(alloc, events)?, row)?;
    let behind = read_of(alloc, frames_of(alloc, behind)?, row)?;
    // what stands behind the recording has no frame
    traffic.extend_from_slice(behind.get(4..).unwrap_or(&[]))?;
    let replies = read_of(alloc, frames_of(alloc, replies)?, row)?;
    let mut files = Vec::new(alloc);
    files.push(file(alloc, "p", policy.as_bytes())?)?;
    files.push(file(alloc, "t", &traffic)?)?;
    files.push(file(alloc, "r", &replies)?)?;
    let words = format!(in alloc; "audit {names} {last}")?;
    let ran = run_files(rt, alloc, &words, files, NONE)?;
    gives(alloc, name, &ran, &due_of(alloc, status, out, line)?)
}

/// The same of each row of a table, which has so many.
fn check_rows(
    rt: &impl Runtime,
    alloc: Global,
    policy: &str,
    table: &str,
    count: usize,
    status: u8,
    last: &str,
) -> Result<(), Flaw> {
    for row in &counted_rows(alloc, table, count)? {
        check_row(rt, alloc, policy, row, status, last)?;
    }
    Ok(())
}

/// The same by both forms.
fn check_both(
    rt: &impl Runtime,
    alloc: Global,
    table: &str,
    count: usize,
    status: u8,
) -> Result<(), Flaw> {
    check_rows(rt, alloc, POLICY, table, count, status, "")?;
    check_rows(rt, alloc, POLICY, table, count, status, "purged")
}

#[test]
fn found(rt: HostRuntime) -> Result<(), Flaw> {
    check_both(&rt, rt.alloc(), FOUND, 4, 0)
}

#[test]
fn damaged(rt: HostRuntime) -> Result<(), Flaw> {
    check_both(&rt, rt.alloc(), DAMAGED, 2, 4)
}

#[test]
fn missing(rt: HostRuntime) -> Result<(), Flaw> {
    check_both(&rt, rt.alloc(), MISSING, 3, 9)
}

#[test]
fn limited(rt: HostRuntime) -> Result<(), Flaw> {
    let alloc = rt.alloc();
    let limited = POLICY.replace(alloc, "mode enforcing", "mode limited")?;
    check_rows(&rt, alloc, &limited, LIMITED, 1, 0, "")?;
    check_rows(&rt, alloc, &limited, PURGED, 2, 2, "purged")
}

#[test]
fn other_words(rt: HostRuntime) -> Result<(), Flaw> {
    check_rows(&rt, rt.alloc(), POLICY, OTHERS, 1, 2, "all")
}
