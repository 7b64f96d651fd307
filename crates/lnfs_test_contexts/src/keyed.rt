//! Signed records in recordings, each byte of which is changed once: the program's own signatures cover all of a call.
//!
//! They were made with Python's hashlib, the policy's secret of 32 bytes of 1, and what is covered as it stands here in words:
//! `sha256(secret + sha256(secret + covered).digest()).digest()`. A call's verifier covers the bytes from its xid through its
//! credential, a reply's these bytes with 1 as the second word, and a checksum the databody.
use lnfs_test_support::flaw::Flaw;
use lnfs_test_support::rows::{Due, cells_of, frames_of, put, recording_of, rows_of};
use lnfs_test_support::runs::{Runtime, gives, run_over};
use std::alloc::{AllocError, Global};
use std::process::Abort;

/// A CREATE that asserts level 3, and the reply to it.
const CREATE: &str = "\
NULL BY_7 6 32 0xea35be5431d37e25153700ceb8b42b53734b403377a4f608672d3b192024d65f \
44 9 ASSERT_3 32 0xced24dfa393107a746ad8ea2ad77bc616391552a194e94e48050606eee8b19d1";

const CREATED: &str = "\
KEYED_56 0 64 9 16 7 3 0 1 ASSERT_3 32 0xf17487d484483206ae6033bb2a0d85a18c02ead13d9065173de9ae61c09432cf";

/// An EXCHANGE_ID in the context of that, and the reply where it makes the first client of level 3.
const DATA: &str = "\
DATA 7 3 0 1 6 32 0xb9c1c31f92e2484f3cdc623261f58ab1dc1edd778fefae1e11561b3fe4b02ab1 \
48 10 EXCHANGE 'c1' REST 32 0x2b6a283f6d4a6e715213f5a4d7edb2ce942a9b598921eb80e08fc367d2f28c20";

const CALLED: &str = "\
KEYED_68 0 88 10 0 0 1 42 0 3 1 SERVER 32 0xc35932cf7e5be39ee36d6b87bf254840050ae6b3aa4e093f24e551c97ac35b5b";

/// The end of the context, and the reply where it is there.
const DESTROY: &str = "\
DESTROY 7 3 0 1 6 32 0x2e30d28334d7d1e15de63a21aa4101d3845afa9bd88b010810efb8292f6f9d20";

const ENDED: &str = "\
1 1 0 6 32 0x9fa626ba289f53b0195084b2c22164304b0cfc9f10750f652dd4f0b03d1fce04 0";

/// In each of these tables: the first and the last of some bytes of a record; what is due where one of them has another last
/// bit, the reply and the line without the event's place and the zeros, both of which aren't there where the record is no
/// call any more.
///
/// The words of every call: xid, type, version of RPC, program, its version, procedure, flavor, and the credential's length.
const FRONT: &str = "
0 0 | 0x01000001 1 1 1 13 | C 13
1 1 | 0x00010001 1 1 1 13 | C 13
2 2 | 0x00000101 1 1 1 13 | C 13
3 3 | 0x00000000 1 1 1 13 | C 13
4 7
8 11 | 1 1 1 0 2 2 | V 0
12 15 | ACCEPTED 1 | P 1
16 19 | ACCEPTED 2 4 4 | P 2
20 22 | ACCEPTED 3 | P 3
23 23 | DENIED 13 | C 13
24 27 | DENIED 5 | C 5
28 31 | DENIED 1 | C 1
";

/// What follows these in CREATE: the credential and the flavor of the verifier, the verifier's length, which is too long for
/// the record or takes in what follows, the verifier, and the arguments.
const OF_CREATE: &str = "
32 59 | DENIED 13 | C 13
60 62 | DENIED 1 | C 1
63 95 | DENIED 13 | C 13
96 179 | KEYED_56 4 | P 4
";

/// The same in DATA.
const OF_DATA: &str = "
32 71 | DENIED 13 | C 13
72 74 | DENIED 1 | C 1
75 107 | DENIED 13 | C 13
108 195 | KEYED_68 4 | P 4
";

/// The same in DESTROY, behind whose verifier nothing stands.
const OF_DESTROY: &str = "
32 71 | DENIED 13 | C 13
72 75 | DENIED 1 | C 1
76 107 | DENIED 13 | C 13
";

/// A record that stands twice in a recording, first changed and then as it was signed.
#[derive(Clone, Copy)]
struct Signed<'a> {
    /// The event before it, and the reply to that.
    before: &'a str,
    told_before: &'a str,
    /// The record, its bytes, and the reply to it as it was signed.
    record: &'a str,
    size: usize,
    told: &'a str,
    /// The place of the first of the two among the events.
    event: usize,
    /// What is due for each changed byte behind the words of every call.
    table: &'a str,
}

const SIGNED_CREATE: Signed<'static> = Signed {
    before: "",
    told_before: "",
    record: CREATE,
    size: 180,
    told: CREATED,
    event: 1,
    table: OF_CREATE,
};

const SIGNED_DATA: Signed<'static> = Signed {
    before: CREATE,
    told_before: CREATED,
    record: DATA,
    size: 196,
    told: CALLED,
    event: 2,
    table: OF_DATA,
};

const SIGNED_DESTROY: Signed<'static> = Signed {
    before: CREATE,
    told_before: CREATED,
    record: DESTROY,
    size: 108,
    told: ENDED,
    event: 2,
    table: OF_DESTROY,
};

/// The bytes before a record in a recording: its class, link and moment, and its length.
const HEAD: usize = 24;

/// The recording of a record twice, behind what stands before it.
fn recorded(alloc: Global, signed: &Signed<'_>) -> Result<Option<Vec<u8>>, AllocError> {
    let mut events = String::new(alloc);
    put(&mut events, signed.before)?;
    put(&mut events, signed.record)?;
    put(&mut events, signed.record)?;
    recording_of(alloc, &events)
}

/// What is due where the first of the two is answered as cells say, where they can be read.
fn due_of(alloc: Global, signed: &Signed<'_>, cells: &[&str]) -> Result<Option<Due>, AllocError> {
    let mut replies = String::new(alloc);
    let mut lines = String::new(alloc);
    put(&mut replies, signed.told_before)?;
    if let Some(reply) = cells.get(1) {
        put(&mut replies, reply)?;
    }
    put(&mut replies, signed.told)?;
    if let Some(line) = cells.get(2) {
        let event = signed.event;
        write!(lines, "{event} 0 0 ")?;
        lines.push_str(line)?;
        lines.push_str("\n")?;
    }
    let Some(out) = frames_of(alloc, &replies)? else {
        return Ok(None);
    };
    Ok(Some(Due {
        status: 0,
        out,
        lines,
    }))
}

/// The first and the last byte that a row speaks of.
fn bounds(cells: &[&str]) -> Option<(usize, usize)> {
    let (first, last) = cells.first()?.split_once(' ')?;
    Some((first.parse::<usize>().ok()?, last.parse::<usize>().ok()?))
}

/// A recording with another last bit in the byte at a place, where there is one.
fn changed(alloc: Global, traffic: &[u8], place: usize) -> Result<Option<Vec<u8>>, AllocError> {
    if place >= traffic.len() {
        return Ok(None);
    }
    let mut bytes = Vec::from_slice(alloc, traffic)?;
    if let Some(byte) = bytes.get_mut(place) {
        *byte ^= 1;
    }
    Ok(Some(bytes))
}

/// Plays a recording once for each of some bytes behind a place, which is changed.
fn check_bytes(
    rt: &(impl Runtime + Abort),
    alloc: Global,
    traffic: &[u8],
    at: usize,
    bytes: (usize, usize),
    due: &Due,
) -> Result<(), Flaw> {
    let (first, last) = bytes;
    for byte in first..last.saturating_add(1) {
        let name = format!(in alloc; "byte {byte}")?;
        let other = changed(alloc, traffic, at.saturating_add(byte))?.expect(rt, "a byte");
        gives(alloc, &name, &run_over(rt, alloc, &other)?, due)?;
    }
    Ok(())
}

/// Plays the recording of a record once for each of its bytes. The changed record is refused, or no reply is due, and the one
/// behind it is answered as if the other weren't there.
fn check_changes(
    rt: &(impl Runtime + Abort),
    alloc: Global,
    signed: &Signed<'_>,
) -> Result<(), Flaw> {
    let traffic = recorded(alloc, signed)?.expect(rt, signed.record);
    let twice = signed.size.saturating_mul(2).saturating_add(HEAD);
    let at = traffic.len().saturating_sub(twice);
    let table = signed.table;
    let table = format!(in alloc; "{FRONT}{table}")?;
    let mut next = 0usize;
    for row in &rows_of(alloc, &table)? {
        let cells = cells_of(alloc, row)?;
        let (first, last) = bounds(&cells).expect(rt, row);
        assert_eq!(rt; first, next, "the first byte of a row");
        let due = due_of(alloc, signed, &cells)?.expect(rt, row);
        check_bytes(rt, alloc, &traffic, at, (first, last), &due)?;
        next = last.saturating_add(1);
    }
    assert_eq!(rt; next, signed.size, "bytes of the record");
    Ok(())
}

#[test]
fn bytes_of_a_create(rt: HostRuntime) -> Result<(), Flaw> {
    check_changes(&rt, rt.alloc(), &SIGNED_CREATE)
}

#[test]
fn bytes_of_a_call_in_a_context(rt: HostRuntime) -> Result<(), Flaw> {
    check_changes(&rt, rt.alloc(), &SIGNED_DATA)
}

#[test]
fn bytes_of_a_destroy(rt: HostRuntime) -> Result<(), Flaw> {
    check_changes(&rt, rt.alloc(), &SIGNED_DESTROY)
}
