//! Rows of command lines: how they are read and run.
//!
//! In a row stand the words, of which `''` has no bytes, and behind `!` the call that fails; the status; what standard output
//! gets: a line, `=` and the name of a file with its text, or `:` and the replies; and the lines of the audit stream.
use lnfs_outside::MemFile;
use lnfs_test_support::flaw::Flaw;
use lnfs_test_support::rows::{Due, cells_of, frames_of, lines_in, rows_of};
use lnfs_test_support::runs::{Failing, NONE, Ran, Runtime, gives, run_files};
use lnfs_test_support::site::file;
use std::alloc::{AllocError, Global};
use std::process::Abort;

/// The bytes of a file, and none where it isn't there.
pub fn content_of<'a>(files: &'a [MemFile], name: &str) -> &'a [u8] {
    for file in files {
        if file.name.as_str() == name {
            return file.content.as_slice();
        }
    }
    b""
}

/// What a cell says of standard output, where it can be read.
fn out_of(alloc: Global, files: &[MemFile], cell: &str) -> Result<Option<Vec<u8>>, AllocError> {
    if let Some(name) = cell.strip_prefix("= ") {
        let content = content_of(files, name);
        if content.is_empty() {
            return Ok(None);
        }
        return Ok(Some(Vec::from_slice(alloc, content)?));
    }
    if let Some(replies) = cell.strip_prefix(": ") {
        return frames_of(alloc, replies);
    }
    let line = lines_in(alloc, &[cell])?;
    Ok(Some(Vec::from_slice(alloc, line.as_bytes())?))
}

/// The calls of a kind that fail, where there is such a kind.
fn failing<'a>(kind: &str, calls: &'a [u64]) -> Option<Failing<'a>> {
    match kind {
        "open" => Some(Failing {
            opens: calls,
            ..NONE
        }),
        "read" => Some(Failing {
            reads: calls,
            ..NONE
        }),
        "out" => Some(Failing {
            outs: calls,
            ..NONE
        }),
        "audit" => Some(Failing {
            audits: calls,
            ..NONE
        }),
        _ => None,
    }
}

/// What the cells of a row say is due, where they can be read.
fn due_of(alloc: Global, files: &[MemFile], cells: &[&str]) -> Result<Option<Due>, AllocError> {
    if cells.len() < 3 {
        return Ok(None);
    }
    let Ok(status) = cells[1].parse::<u8>() else {
        return Ok(None);
    };
    let Some(out) = out_of(alloc, files, cells[2])? else {
        return Ok(None);
    };
    let lines = lines_in(alloc, &cells[3..])?;
    Ok(Some(Due { status, out, lines }))
}

/// What the words of a cell give.
fn run_cell(
    rt: &(impl Runtime + Abort),
    alloc: Global,
    cell: &str,
    files: Vec<MemFile>,
) -> Result<Ran, AllocError> {
    let Some((line, fault)) = cell.split_once(" ! ") else {
        return run_files(rt, alloc, cell, files, NONE);
    };
    let (kind, call) = fault.split_once(' ').expect(rt, cell);
    let calls = [call.parse::<u64>().ok().expect(rt, cell)];
    run_files(
        rt,
        alloc,
        line,
        files,
        failing(kind, &calls).expect(rt, cell),
    )
}

/// Files of the same names and contents.
fn copy_of(alloc: Global, files: &[MemFile]) -> Result<Vec<MemFile>, AllocError> {
    let mut copies = Vec::new(alloc);
    for it in files {
        copies.push(file(alloc, it.name.as_str(), it.content.as_slice())?)?;
    }
    Ok(copies)
}

/// Runs a row over files.
fn check_row(
    rt: &(impl Runtime + Abort),
    alloc: Global,
    files: &[MemFile],
    row: &str,
) -> Result<(), Flaw> {
    let cells = cells_of(alloc, row)?;
    let due = due_of(alloc, files, &cells)?.expect(rt, row);
    assert!(rt; !cells.is_empty());
    let ran = run_cell(rt, alloc, cells[0], copy_of(alloc, files)?)?;
    gives(alloc, row, &ran, &due)
}

/// Runs each row of a table, which has so many, over files.
pub fn check(
    rt: &(impl Runtime + Abort),
    alloc: Global,
    files: &[MemFile],
    table: &str,
    count: usize,
) -> Result<(), Flaw> {
    let rows = rows_of(alloc, table)?;
    assert_eq!(rt; rows.len(), count, "rows");
    for row in &rows {
        check_row(rt, alloc, files, row)?;
    }
    Ok(())
}
