//! Who calls come from, by the rows of the order of refusals.
use crate::codecs::codecs_of;
use crate::drafts::{Draft, ENFORCING, LIMITED, bytes_in, number_in, policy, put_words, record_of};
use lnfs_format::Codecs;
use lnfs_gss3::{Caller, TestMechanism, who};
use lnfs_policy::Policy;
use lnfs_rpc::read_call;
use lnfs_xdr::XdrWriter;
use std::alloc::Global;
use std::process::Abort;
use std::test::Fail;

/// A caller, with the length of the label that is asserted.
#[derive(Clone, Copy, Debug)]
enum Told {
    Null,
    Nobody(u32),
    Garbage(u32, u32),
    Guest(u32),
    Create(u32, u32, u32, u32, u32, usize),
    Data(u32, u32, u64, u32, bool),
    Destroy(u32, u32, u64),
}

fn in_short(caller: &Caller) -> Told {
    match caller {
        Caller::Null => Told::Null,
        Caller::Nobody { auth } => Told::Nobody(*auth),
        Caller::Garbage { parent, seq } => Told::Garbage(*parent, *seq),
        Caller::Guest { level } => Told::Guest(level.0),
        Caller::Create {
            level,
            parent,
            seq,
            lfs,
            pi,
            label,
        } => { Told::Create(level.0, *parent, *seq, *lfs, *pi, label.len()) }
        Caller::Data {
            level,
            parent,
            number,
            seq,
            aligned,
        } => { Told::Data(level.0, *parent, *number, *seq, *aligned) }
        Caller::Destroy {
            level,
            parent,
            number,
        } => Told::Destroy(level.0, *parent, *number),
    }
}

/// What is told of the caller of a record, as it is printed.
fn asked(
    alloc: Global,
    policy: &Policy,
    codecs: &Codecs,
    class: u32,
    record: &[u8],
) -> Result<String, Fail> {
    let call = read_call(record).ok().ok_or("no call")?;
    let caller = who(alloc, policy, codecs, &TestMechanism, class, &call)?;
    let told = in_short(&caller);
    Ok(format!(in alloc; "{told:?}")?)
}

/// The word of a cell at a place, from 0.
fn word(cell: &str, place: usize) -> &str {
    cell.split(' ').nth(place).unwrap_or("")
}

/// The arguments of a CREATE that asserts a label in a format.
fn assertion(alloc: Global, lfs: u32, pi: u32, label: &[u8]) -> Result<Vec<u8>, Fail> {
    let mut content = XdrWriter::new(alloc);
    let length = (label.len() % 65_536) as u32;
    put_words(&mut content, &[0, 0, 1, 0, lfs, pi, length])?;
    content.fixed(label)?;
    Ok(content.into_bytes())
}

/// What a cell says behind its first word: a CREATE under a parent, which asserts a label in a format.
fn asserting(alloc: Global, cell: &str) -> Result<Draft, Fail> {
    let label = bytes_in(alloc, word(cell, 4))?;
    let mut draft = Draft::create(alloc)?;
    draft.content = assertion(
        alloc,
        number_in(word(cell, 2))?,
        number_in(word(cell, 3))?,
        &label,
    )?;
    draft.signer = number_in(word(cell, 1))?;
    draft.body_signer = draft.signer;
    draft.handle = Vec::from_slice(alloc, &draft.signer.to_be_bytes())?;
    Ok(draft)
}

/// The draft of a cell: its name, and then each part that is otherwise, with what it is.
fn draft_of(alloc: Global, cell: &str) -> Result<Draft, Fail> {
    if cell.starts_with("ASSERT ") {
        return asserting(alloc, cell);
    }
    let mut words = cell.split(' ');
    let mut draft = match words.next() {
        Some("CREATE") => Draft::create(alloc)?,
        Some("DATA") => Draft::data(alloc)?,
        Some("DESTROY") => Draft::destroy(alloc)?,
        _ => return Err(Fail::from("no draft")),
    };
    while let Some(name) = words.next() {
        draft.set(alloc, name, words.next().unwrap_or(""))?;
    }
    Ok(draft)
}

/// What stands in a row before `=>`, and behind it.
fn cells_of(row: &str) -> Result<(&str, &str), Fail> {
    Ok(row.split_once(" => ").ok_or("no row")?)
}

/// Compares what is told of the draft of a row with what stands behind it.
fn expect_row(
    rt: &impl Abort,
    alloc: Global,
    policy: &Policy,
    codecs: &Codecs,
    row: &str,
) -> Result<(), Fail> {
    let (draft, wanted) = cells_of(row)?;
    let record = record_of(alloc, &draft_of(alloc, draft)?)?;
    let told = asked(alloc, policy, codecs, 0, &record)?;
    assert!(rt; told.as_str() == wanted, "{row}");
    Ok(())
}

/// The same for each row of a table, which has so many.
fn expect_rows(
    rt: &impl Abort,
    alloc: Global,
    policy: &Policy,
    codecs: &Codecs,
    table: (&str, usize),
) -> Result<(), Fail> {
    let (table, count) = table;
    let mut rows = 0usize;
    for row in table.lines() {
        if row.is_empty() {
            continue;
        }
        expect_row(rt, alloc, policy, codecs, row)?;
        rows = rows.saturating_add(1);
    }
    assert_eq!(rt; rows, count, "rows");
    Ok(())
}

/// The same under the enforcing policy.
fn expect(rt: &impl Abort, alloc: Global, table: &str, count: usize) -> Result<(), Fail> {
    let codecs = codecs_of(alloc)?;
    let policy = policy(alloc, &codecs, ENFORCING)?;
    expect_rows(rt, alloc, &policy, &codecs, (table, count))
}

/// The service of DESTROY isn't looked at, and a DATA whose sequence numbers differ has a level.
const TAKEN: &str = "
CREATE => Create(3, 7, 9, 101, 1, 10)
DATA => Data(3, 7, 2, 10, true)
DESTROY => Destroy(3, 7, 2)
DESTROY service 7 => Destroy(3, 7, 2)
DATA seq 12 => Data(3, 7, 2, 12, false)
";

#[test]
fn callers_who_are_known(rt: HostRuntime) -> Result<(), Fail> {
    expect(&rt, rt.alloc(), TAKEN, 5)
}

/// Credential and handle.
const UNKNOWN: &str = "
CREATE version 1 => Nobody(13)
CREATE procedure 1 => Nobody(13)
DATA procedure 6 => Nobody(13)
CREATE service 1 => Nobody(13)
DATA service 3 => Nobody(13)
CREATE proc 1 => Nobody(13)
DATA proc 0 => Nobody(13)
DESTROY proc 1 => Nobody(13)
CREATE behind 00000000 => Nobody(13)
DATA behind 00 => Nobody(13)
CREATE handle 00000008 => Nobody(13)
CREATE handle 000007 => Nobody(13)
CREATE handle 00000007000000030000000000000002 => Nobody(13)
DATA handle 00000007 => Nobody(13)
DESTROY handle 00000007 => Nobody(13)
";

/// No such parent, no such level, and a level that the parent may not assert; then the verifier, which is looked at before the
/// arguments.
const UNSIGNED: &str = "
DATA handle 00000008000000030000000000000002 signer 8 => Nobody(13)
DATA handle 00000007000000040000000000000002 => Nobody(13)
DATA handle 00000005000000020000000000000002 signer 5 => Nobody(13)
DESTROY handle 00000005000000030000000000000002 signer 5 => Nobody(13)
CREATE flavor 0 => Nobody(13)
CREATE signer 5 => Nobody(13)
DATA longer 1 => Nobody(13)
DESTROY signer 6 => Nobody(13)
DATA longer 1 plain 01 => Nobody(13)
";

#[test]
fn callers_who_are_unknown(rt: HostRuntime) -> Result<(), Fail> {
    expect(&rt, rt.alloc(), UNKNOWN, 15)?;
    expect(&rt, rt.alloc(), UNSIGNED, 9)
}

/// Wrapping and checksum, of which the second row is a databody of three bytes, signed well; the arguments of DESTROY; and those
/// of CREATE.
const GARBAGE: &str = "
DATA plain  => Garbage(7, 10)
DATA plain 0000000301020300000000200000000700000003000000000000000000000000000000000000000000000000 => Garbage(7, 10)
DATA body_longer 1 => Garbage(7, 10)
DATA body_signer 5 => Garbage(7, 10)
DATA body_behind 00000000 => Garbage(7, 10)
DESTROY plain 00 => Garbage(7, 11)
CREATE plain  => Garbage(7, 9)
CREATE body_longer 1 => Garbage(7, 9)
CREATE body_behind 00 => Garbage(7, 9)
CREATE body_seq 8 => Garbage(7, 9)
";

/// Arguments of CREATE that are none: a second principal, a binding, two assertions, another kind of assertion, the label cut,
/// a label of 1,025 bytes that isn't there, and something behind the label.
const ARGUMENTS: &str = "
CREATE content 0000000100000000000000010000000000000066000000010000000273300000 => Garbage(7, 9)
CREATE content 0000000000000001000000010000000000000066000000010000000273300000 => Garbage(7, 9)
CREATE content 0000000000000000000000020000000000000066000000010000000273300000 => Garbage(7, 9)
CREATE content 0000000000000000000000010000000100000066000000010000000273300000 => Garbage(7, 9)
CREATE content 00000000000000000000000100000000000000660000000100000002733000 => Garbage(7, 9)
CREATE content 0000000000000000000000010000000000000066000000010000040173300000 => Garbage(7, 9)
CREATE content 000000000000000000000001000000000000006600000001000000027330000000000000 => Garbage(7, 9)
";

#[test]
fn bodies_that_are_none(rt: HostRuntime) -> Result<(), Fail> {
    expect(&rt, rt.alloc(), GARBAGE, 10)?;
    expect(&rt, rt.alloc(), ARGUMENTS, 7)
}

/// Labels that a parent asserts: the parent, the format, the bytes, and what is told.
///
/// The first five can be read; then no such format, another spelling, no label, and a label of no level; and then the clearance
/// equal, above, below, and not to be compared.
const LABELS: &str = "
ASSERT 7 101 1 000000010000 => Create(0, 7, 9, 101, 1, 6)
ASSERT 7 102 1 's0' => Create(0, 7, 9, 102, 1, 2)
ASSERT 7 102 1 's1:c1' => Create(2, 7, 9, 102, 1, 5)
ASSERT 7 102 1 's3:c0.c2,c5' => Create(3, 7, 9, 102, 1, 11)
ASSERT 7 103 0 'open' => Create(0, 7, 9, 103, 0, 4)
ASSERT 7 104 0 'open' => Nobody(16)
ASSERT 7 101 2 000000010000 => Nobody(16)
ASSERT 7 102 1 's3:c0,c1,c2,c5' => Nobody(16)
ASSERT 7 103 0 'top' => Nobody(16)
ASSERT 7 102 1 's2' => Nobody(16)
ASSERT 5 102 1 's1:c0' => Create(1, 5, 9, 102, 1, 5)
ASSERT 5 102 1 's0' => Create(0, 5, 9, 102, 1, 2)
ASSERT 5 102 1 's3:c0.c2,c5' => Nobody(16)
ASSERT 5 102 1 's1:c1' => Nobody(16)
ASSERT 6 102 1 's0' => Create(0, 6, 9, 102, 1, 2)
ASSERT 6 102 1 's1:c0' => Nobody(16)
";

#[test]
fn labels_that_are_asserted(rt: HostRuntime) -> Result<(), Fail> {
    expect(&rt, rt.alloc(), LABELS, 16)
}

/// Guests by flavor, class, procedure and body, and what is told under an enforcing policy and under a limited one. The bodies of
/// AUTH_SYS are of the users 100, 300 and 5.
const GUESTS: &str = "
0 0 1 0102 => Guest(0) Guest(0)
0 1 1  => Nobody(5) Guest(0)
0 1 0  => Null Null
1 1 1 0000000100000000000000640000000000000000 => Guest(1) Guest(0)
1 1 1 00000001000000000000012c0000000000000000 => Guest(3) Guest(0)
1 1 1 0000000100000000000000050000000000000000 => Nobody(5) Guest(0)
1 1 0 0000000100000000000000050000000000000000 => Null Null
1 0 1 0000000100000000000000050000000000000000 => Guest(0) Guest(0)
1 0 1 00000001 => Nobody(1) Nobody(1)
1 0 0 00000001 => Nobody(1) Nobody(1)
2 0 1  => Nobody(5) Nobody(5)
6 0 1  => Nobody(13) Nobody(5)
";

/// The record of a call with an empty verifier and no arguments.
fn guest_record(alloc: Global, flavor: u32, proc: u32, body: &[u8]) -> Result<Vec<u8>, Fail> {
    let mut out = XdrWriter::new(alloc);
    let length = (body.len() % 65_536) as u32;
    put_words(&mut out, &[1, 0, 2, 100003, 4, proc, flavor, length])?;
    out.fixed(body)?;
    out.u64(0)?;
    Ok(out.into_bytes())
}

/// The class and the record of a cell.
fn guest_of(alloc: Global, cell: &str) -> Result<(u32, Vec<u8>), Fail> {
    let class = number_in(word(cell, 1))?;
    let body = bytes_in(alloc, word(cell, 3))?;
    let flavor = number_in(word(cell, 0))?;
    let record = guest_record(alloc, flavor, number_in(word(cell, 2))?, &body)?;
    Ok((class, record))
}

/// Compares what is told of the guest of a row with the word behind it at a place.
fn expect_guest(
    rt: &impl Abort,
    alloc: Global,
    policy: &Policy,
    codecs: &Codecs,
    row: &str,
    place: usize,
) -> Result<(), Fail> {
    let (cell, wanted) = cells_of(row)?;
    let (class, record) = guest_of(alloc, cell)?;
    let told = asked(alloc, policy, codecs, class, &record)?;
    assert!(rt; told.as_str() == word(wanted, place), "{row}");
    Ok(())
}

/// The same for each guest, of whom there are so many.
fn expect_all(
    rt: &impl Abort,
    alloc: Global,
    policy: &Policy,
    codecs: &Codecs,
    place: usize,
    count: usize,
) -> Result<(), Fail> {
    let mut rows = 0usize;
    for row in GUESTS.lines().skip(1) {
        expect_guest(rt, alloc, policy, codecs, row, place)?;
        rows = rows.saturating_add(1);
    }
    assert_eq!(rt; rows, count, "rows");
    Ok(())
}

/// The same in a mode.
fn expect_guests(
    rt: &impl Abort,
    alloc: Global,
    mode: &str,
    place: usize,
    count: usize,
) -> Result<(), Fail> {
    let codecs = codecs_of(alloc)?;
    let policy = policy(alloc, &codecs, mode)?;
    expect_all(rt, alloc, &policy, &codecs, place, count)
}

#[test]
fn guests_of_both_modes(rt: HostRuntime) -> Result<(), Fail> {
    expect_guests(&rt, rt.alloc(), ENFORCING, 0, 12)?;
    expect_guests(&rt, rt.alloc(), LIMITED, 1, 12)
}
