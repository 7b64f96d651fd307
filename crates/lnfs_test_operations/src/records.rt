//! Records in recordings: their replies and their lines. All are laid out by hand, in words, from
//! RFC 5531, RFC 4506, RFC 8881 and RFC 7862.
use lnfs_test_support::flaw::Flaw;
use lnfs_test_support::records::{check, check_row, due_of};
use lnfs_test_support::rows::{cells_of, recording_of, rows_of};
use lnfs_test_support::runs::{Runtime, gives, run_over};
use std::alloc::{AllocError, Global};
use std::process::Abort;

/// In a table: a name, what is recorded, the replies, and the lines of the audit stream.
///
/// Programs, procedures and credentials.
const CALLS: &str = "
another version of RPC | 1 0 3 100003 4 1 SYS | 1 1 1 0 2 2 | 1 0 0 V 0
another program | 1 0 2 100005 4 1 SYS | ACCEPTED 1 | 1 0 0 P 1
another version of NFS | 1 0 2 100003 3 1 SYS | ACCEPTED 2 4 4 | 1 0 0 P 2
another procedure | 1 0 2 100003 4 2 SYS | ACCEPTED 3 | 1 0 0 P 3
NULL | 1 0 2 100003 4 0 SYS | ACCEPTED 0
NULL with an argument | 1 0 2 100003 4 0 SYS 0 | ACCEPTED 4 | 1 0 0 P 4
a reply | ACCEPTED 0 |
seven bytes | 0x00000000000000 |
a flavor that isn't served | CALL 2 0 0 0 0 2 1 | DENIED 5 | 1 0 0 C 5
RPCSEC_GSS without a credential | CALL 6 0 0 0 0 2 1 | DENIED 13 | 1 0 0 C 13
a credential of 401 bytes | CALL 1 401 0 0 0 2 1 | DENIED 1 | 1 0 0 C 1
an AUTH_SYS body that ends early | CALL 1 4 0 0 0 0 2 0 | DENIED 1 | 1 0 0 C 1
a caller by AUTH_NONE | CALL 0 0 0 0 0 2 0 | ACCEPTED 0 0 0 0
user 5 of class 1 | @1 CALL SYS_5 EXCHANGE 'c1' REST | DENIED 5 | 1 0 0 C 5
";

/// Operations, their arguments and their number.
const COMPOUNDS: &str = "
EXCHANGE_ID | CALL SYS EXCHANGE 'c1' REST | EXCHANGED 0 1 SERVER
EXCHANGE_ID with a flag that isn't one | CALL SYS EXCHANGE 'c1' 0x0000 0x80000000 0 0 | ACCEPTED 0 22 0 1 42 22 | 1 1 42 S 22
minor version 1 | CALL SYS 0 1 1 42 | ACCEPTED 0 10021 0 0 | 1 0 0 X 10021
minor version 1, and no count | CALL SYS 0 1 | ACCEPTED 0 10021 0 0 | 1 0 0 X 10021
an operation of the protocol that isn't served | CALL SYS 0 2 1 68 | ACCEPTED 0 10004 0 1 68 10004 | 1 1 68 X 10004
an operation that the protocol hasn't | CALL SYS 0 2 1 72 | ACCEPTED 0 10044 0 1 10044 10044 | 1 1 72 X 10044
COMMIT without a session, and GETFH | CALL SYS 3 0x61626300 2 2 5 0 0 0 10 | ACCEPTED 0 10071 3 0x61626300 1 5 10071 | 1 1 5 S 10071
SETATTR, whose result has a bitmap | CALL SYS 0 2 1 34 0 0 0 0 0 0 | ACCEPTED 0 10071 0 1 34 10071 0 | 1 1 34 S 10071
a boolean of 2 in SEQUENCE | CALL SYS 0 2 1 53 0 0 0 0 0 0 0 2 | ACCEPTED 4 | 1 0 0 P 4
a word after the last operation | CALL SYS 0 2 1 24 0 | ACCEPTED 4 | 1 0 0 P 4
an EXCHANGE_ID and a count without end | CALL SYS 0 2 0xffffffff 42 0 0 2 0x63310000 0 0 0 7 | ACCEPTED 0 10081 0 1 42 10081 | 1 1 42 S 10081
no operation | CALL SYS 0 2 0 | ACCEPTED 0 0 0 0
";

/// Three clients of a high level leave no trace in the reply to a low one.
const HIGH_AND_LOW: &str = "
three of level 3, and one of level 0 | \
@1 CALL SYS_300 EXCHANGE 'xx' REST / @1 CALL SYS_300 EXCHANGE 'yy' REST / \
@1 CALL SYS_300 EXCHANGE 'zz' REST / CALL SYS EXCHANGE 'c1' REST | \
EXCHANGED 3 1 SERVER / EXCHANGED 3 2 SERVER / EXCHANGED 3 3 SERVER / EXCHANGED 0 1 SERVER
";

/// Parts of a recording of two events, 272 bytes: how many of its first bytes are there, the status,
/// the replies and the lines.
const PREFIXES: &str = "
0 | 4 | | fault 4 traffic damaged at 0
7 | 4 | | fault 4 traffic damaged at 0
8 | 0 |
271 | 4 | EXCHANGED 0 1 SERVER | fault 4 traffic damaged at 140
272 | 0 | EXCHANGED 0 1 SERVER / EXCHANGED 0 2 SERVER
";

#[test]
fn records(rt: HostRuntime) -> Result<(), Flaw> {
    check(&rt, rt.alloc(), CALLS, 14)?;
    check(&rt, rt.alloc(), COMPOUNDS, 12)?;
    check(&rt, rt.alloc(), HIGH_AND_LOW, 1)
}

/// The first bytes of a recording, of which a row tells the number.
fn prefix<'a>(whole: &'a [u8], cells: &[&str]) -> Option<&'a [u8]> {
    let size = cells.first()?.parse::<usize>().ok()?;
    whole.get(..size)
}

fn check_prefix(
    rt: &(impl Runtime + Abort),
    alloc: Global,
    whole: &[u8],
    row: &str,
) -> Result<(), Flaw> {
    let cells = cells_of(alloc, row)?;
    assert!(rt; cells.len() >= 3, "cells of {row}");
    let traffic = prefix(whole, &cells).expect(rt, row);
    let status = cells[1].parse::<u8>().ok().expect(rt, row);
    let due = due_of(alloc, status, &cells[2..])?.expect(rt, row);
    gives(alloc, row, &run_over(rt, alloc, traffic)?, &due)
}

#[test]
fn parts_of_a_recording(rt: HostRuntime) -> Result<(), Flaw> {
    let events = "CALL SYS EXCHANGE 'c1' REST / CALL SYS EXCHANGE 'c1' REST";
    let whole = recording_of(rt.alloc(), events)?.expect(&rt, events);
    assert_eq!(rt; whole.len(), 272);
    let rows = rows_of(rt.alloc(), PREFIXES)?;
    assert_eq!(rt; rows.len(), 5, "rows");
    for row in &rows {
        check_prefix(&rt, rt.alloc(), &whole, row)?;
    }
    Ok(())
}

/// The row of a level that is full.
fn full_level(alloc: Global) -> Result<String, AllocError> {
    let mut row = String::from_str(alloc, "a full level | ")?;
    for i in 1..65u8 {
        write!(row, "CALL SYS EXCHANGE 0x63{i:02x} REST / ")?;
    }
    row.push_str("CALL SYS EXCHANGE 0x6401 REST / CALL SYS EXCHANGE 0x6301 REST | ")?;
    for i in 1..65u8 {
        write!(row, "EXCHANGED 0 {i} SERVER / ")?;
    }
    row.push_str("ACCEPTED 0 28 0 1 42 28 / EXCHANGED 0 65 SERVER | 65 1 42 S 28")?;
    Ok(row)
}

/// The sixty-fifth owner of a level finds no room, and an owner that was there does.
#[test]
fn a_level_is_full(rt: HostRuntime) -> Result<(), Flaw> {
    check_row(&rt, rt.alloc(), &full_level(rt.alloc())?)
}
