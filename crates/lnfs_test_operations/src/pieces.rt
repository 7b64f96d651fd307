//! Recordings that are read in several pieces, of 65,536 bytes but for the last.
use lnfs_test_support::flaw::Flaw;
use lnfs_test_support::records::due_of;
use lnfs_test_support::rows::{Due, cells_of, recording_of, rows_of};
use lnfs_test_support::runs::{Failing, NONE, Ran, Runtime, gives, run_files};
use lnfs_test_support::site::{POLICY, file};
use std::alloc::{AllocError, Global};
use std::process::Abort;

/// What is recorded: four calls, behind the first of which stands a long record that is no call. The events begin at the
/// places 8, 140, 65,364, 65,496 and 65,628, and the recording ends at 65,760. The third call is in two pieces.
const CALL: &str = "CALL SYS EXCHANGE 'c1' REST";

/// The words behind the first two of the long record, and its length.
const ZEROS: usize = 16_298;

const LONG: usize = 65_200;

const WHOLE: usize = 65_760;

/// In a table: how many bytes of the recording are there; the place of a byte that is changed, and of a read that fails,
/// or `-`; the status, the replies, and the lines of the audit stream. The policy takes the first two reads.
///
/// Fronts of the recording.
const FRONTS: &str = "
65760 | - | - | 0 | EXCHANGED 0 1 SERVER / EXCHANGED 0 2 SERVER / EXCHANGED 0 3 SERVER / EXCHANGED 0 4 SERVER
65759 | - | - | 4 | EXCHANGED 0 1 SERVER / EXCHANGED 0 2 SERVER / EXCHANGED 0 3 SERVER | fault 4 traffic damaged at 65628
65628 | - | - | 0 | EXCHANGED 0 1 SERVER / EXCHANGED 0 2 SERVER / EXCHANGED 0 3 SERVER
65537 | - | - | 4 | EXCHANGED 0 1 SERVER / EXCHANGED 0 2 SERVER | fault 4 traffic damaged at 65496
65536 | - | - | 4 | EXCHANGED 0 1 SERVER / EXCHANGED 0 2 SERVER | fault 4 traffic damaged at 65496
65535 | - | - | 4 | EXCHANGED 0 1 SERVER / EXCHANGED 0 2 SERVER | fault 4 traffic damaged at 65496
65496 | - | - | 0 | EXCHANGED 0 1 SERVER / EXCHANGED 0 2 SERVER
";

/// Reads that fail. The replies to the events that are whole in the pieces before are written.
const FAULTS: &str = "
65760 | - | 3 | 5 |
65760 | - | 4 | 5 | EXCHANGED 0 1 SERVER / EXCHANGED 0 2 SERVER
65760 | - | 5 | 5 | EXCHANGED 0 1 SERVER / EXCHANGED 0 2 SERVER / EXCHANGED 0 3 SERVER / EXCHANGED 0 4 SERVER
65536 | - | 4 | 5 | EXCHANGED 0 1 SERVER / EXCHANGED 0 2 SERVER
271 | - | 4 | 5 | EXCHANGED 0 1 SERVER
8 | - | 4 | 5 |
0 | - | 3 | 5 |
";

/// Changed bytes: of the beginning, of the nanoseconds of an event, and of the length of a record. No piece is read behind
/// the damage.
const DAMAGES: &str = "
65760 | 0 | - | 4 | | fault 4 traffic damaged at 0
65760 | 7 | 4 | 4 | | fault 4 traffic damaged at 0
4 | 3 | 4 | 4 | | fault 4 traffic damaged at 0
65760 | 24 | 4 | 4 | | fault 4 traffic damaged at 8
65760 | 160 | 4 | 4 | EXCHANGED 0 1 SERVER | fault 4 traffic damaged at 140
65760 | 65512 | 4 | 4 | EXCHANGED 0 1 SERVER / EXCHANGED 0 2 SERVER | fault 4 traffic damaged at 65496
65760 | 65644 | - | 4 | EXCHANGED 0 1 SERVER / EXCHANGED 0 2 SERVER / EXCHANGED 0 3 SERVER | fault 4 traffic damaged at 65628
65760 | 65648 | 5 | 4 | EXCHANGED 0 1 SERVER / EXCHANGED 0 2 SERVER / EXCHANGED 0 3 SERVER | fault 4 traffic damaged at 65628
";

/// The recording.
fn recording(rt: &impl Abort, alloc: Global) -> Result<Vec<u8>, AllocError> {
    let zeros = " 0".repeat(alloc, ZEROS)?;
    let events = format!(in alloc; "{CALL} / 1 1{zeros} / {CALL} / {CALL} / {CALL}")?;
    let traffic = recording_of(alloc, &events)?.expect(rt, "a recording");
    assert_eq!(rt; traffic.len(), WHOLE);
    Ok(traffic)
}

/// The number in a cell, where one stands there.
fn number_in(cell: &str) -> Option<usize> {
    cell.parse::<usize>().ok()
}

/// So many bytes of the recording, one of which may be changed: all its bits.
fn changed(
    alloc: Global,
    whole: &[u8],
    size: &str,
    place: &str,
) -> Result<Option<Vec<u8>>, AllocError> {
    let Some(size) = number_in(size) else {
        return Ok(None);
    };
    let Some(front) = whole.get(..size) else {
        return Ok(None);
    };
    let mut traffic = Vec::from_slice(alloc, front)?;
    if let Some(place) = number_in(place) {
        if let Some(byte) = traffic.get_mut(place) {
            *byte ^= 0xff;
        }
    }
    Ok(Some(traffic))
}

/// What `replay p t` gives, where `t` is the recording and a read may fail.
fn run_reading(
    rt: &impl Runtime,
    alloc: Global,
    traffic: &[u8],
    read: &str,
) -> Result<Ran, AllocError> {
    let policy = file(alloc, "p", POLICY.as_bytes())?;
    let files = vec![in alloc; policy, file(alloc, "t", traffic)?]?;
    match read.parse::<u64>() {
        Ok(read) => {
            let reads = [read];
            let failing = Failing {
                reads: &reads,
                ..NONE
            };
            run_files(rt, alloc, "replay p t", files, failing)
        }
        Err(_) => run_files(rt, alloc, "replay p t", files, NONE),
    }
}

fn check_row(
    rt: &(impl Runtime + Abort),
    alloc: Global,
    whole: &[u8],
    row: &str,
) -> Result<(), Flaw> {
    let cells = cells_of(alloc, row)?;
    assert!(rt; cells.len() >= 5, "cells of {row}");
    let traffic = changed(alloc, whole, cells[0], cells[1])?.expect(rt, row);
    let status = cells[3].parse::<u8>().ok().expect(rt, row);
    let due: Due = due_of(alloc, status, &cells[4..])?.expect(rt, row);
    let ran = run_reading(rt, alloc, &traffic, cells[2])?;
    gives(alloc, row, &ran, &due)
}

/// Plays each row of a table, which has so many.
fn check(
    rt: &(impl Runtime + Abort),
    alloc: Global,
    table: &str,
    count: usize,
) -> Result<(), Flaw> {
    let whole = recording(rt, alloc)?;
    let rows = rows_of(alloc, table)?;
    assert_eq!(rt; rows.len(), count, "rows");
    for row in &rows {
        check_row(rt, alloc, &whole, row)?;
    }
    Ok(())
}

#[test]
fn fronts_of_a_long_recording(rt: HostRuntime) -> Result<(), Flaw> {
    check(&rt, rt.alloc(), FRONTS, 7)
}

#[test]
fn pieces_that_fail(rt: HostRuntime) -> Result<(), Flaw> {
    check(&rt, rt.alloc(), FAULTS, 7)
}

#[test]
fn damage_in_each_piece(rt: HostRuntime) -> Result<(), Flaw> {
    check(&rt, rt.alloc(), DAMAGES, 8)
}
