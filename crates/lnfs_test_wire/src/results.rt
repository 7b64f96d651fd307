//! Results as RFC 8881 and RFC 7862 lay them out, word by word.
use lnfs_arguments::{CompoundError, NoExtraGrammar, Op, StateId};
use lnfs_results::{OpResult, Results, read_results, reply_bound, write_results};
use lnfs_types::{Items, Octets};
use std::alloc::{AllocError, Global};
use std::process::Abort;

/// Words in the order of the network.
fn bytes_of(alloc: Global, words: &[u32]) -> Result<Vec<u8>, AllocError> {
    let mut bytes = Vec::new(alloc);
    for word in words {
        bytes.extend_from_slice(&word.to_be_bytes())?;
    }
    Ok(bytes)
}

/// What stands before one result of a COMPOUND: status 0, no tag, one result.
const BEFORE: [u32; 3] = [0, 0, 1];

/// The number, the status and the fields of a result, and what is read.
static ROWS: [(&[u32], &str); 34] = [
    (&[3, 0, 31, 3], "Access { supported: 31, granted: 3 }"),
    (
        &[4, 0, 7, 1, 0, 9],
        "Close { id: StateId { seqid: 7, other: [0, 0, 0, 1, 0, 0, 0, 0, 0, 0, 0, 9] } }",
    ),
    (
        &[5, 0, 0x0102_0304, 0x0506_0708],
        "Commit { verifier: [1, 2, 3, 4, 5, 6, 7, 8] }",
    ),
    (
        &[6, 0, 1, 0, 7, 0, 8, 2, 0, 2],
        "Create { info: Cinfo { before: 7, after: 8 }, set: Bitmap { words: [0, 2, 0, 0, 0, 0, 0, 0] } }",
    ),
    (
        &[9, 0, 1, 2, 4, 2],
        "GetAttr { attrs: RawAttrs { mask: Bitmap { words: [2, 0, 0, 0, 0, 0, 0, 0] }, list: Octets { inner: [0, 0, 0, 2] } } }",
    ),
    (
        &[10, 0, 4, 0x0000_0201],
        "GetFh { handle: Octets { inner: [0, 0, 2, 1] } }",
    ),
    (
        &[11, 0, 1, 0, 1, 0, 2],
        "Link { info: Cinfo { before: 1, after: 2 } }",
    ),
    (&[15, 0], "Lookup"),
    (&[16, 0], "LookupP"),
    (&[17, 0], "NVerify"),
    (
        &[18, 0, 1, 0, 0, 5, 1, 0, 1, 0, 2, 4, 1, 16, 0],
        "Open { id: StateId { seqid: 1, other: [0, 0, 0, 0, 0, 0, 0, 0, 0, 0, 0, 5] }, info: Cinfo { before: 1, after: 2 }, rflags: 4, set: Bitmap { words: [16, 0, 0, 0, 0, 0, 0, 0] }, delegation: 0 }",
    ),
    (&[22, 0], "PutFh"),
    (&[24, 0], "PutRootFh"),
    (
        &[25, 0, 1, 2, 0x6869_0000],
        "Read { eof: true, content: Octets { inner: [104, 105] } }",
    ),
    (
        &[26, 0, 0, 1, 1, 0, 3, 1, 0x6100_0000, 1, 2, 4, 1, 0, 1],
        "ReadDir { verifier: [0, 0, 0, 0, 0, 0, 0, 1], entries: Items { inner: [DirEntry { cookie: 3, name: Octets { inner: [97] }, attrs: RawAttrs { mask: Bitmap { words: [2, 0, 0, 0, 0, 0, 0, 0] }, list: Octets { inner: [0, 0, 0, 1] } } }] }, eof: true }",
    ),
    (
        &[26, 0, 0, 0, 0, 0],
        "ReadDir { verifier: [0, 0, 0, 0, 0, 0, 0, 0], entries: Items { inner: [] }, eof: false }",
    ),
    (
        &[27, 0, 1, 0x7800_0000],
        "ReadLink { text: Octets { inner: [120] } }",
    ),
    (
        &[28, 0, 1, 0, 3, 0, 4],
        "Remove { info: Cinfo { before: 3, after: 4 } }",
    ),
    (
        &[29, 0, 1, 0, 1, 0, 2, 1, 0, 3, 0, 4],
        "Rename { source: Cinfo { before: 1, after: 2 }, target: Cinfo { before: 3, after: 4 } }",
    ),
    (&[31, 0], "RestoreFh"),
    (&[32, 0], "SaveFh"),
    (
        &[34, 0, 1, 16],
        "SetAttr { status: 0, set: Bitmap { words: [16, 0, 0, 0, 0, 0, 0, 0] } }",
    ),
    (
        &[34, 13, 0],
        "SetAttr { status: 13, set: Bitmap { words: [0, 0, 0, 0, 0, 0, 0, 0] } }",
    ),
    (&[37, 0], "Verify"),
    (
        &[38, 0, 5, 2, 0, 9],
        "Write { count: 5, committed: 2, verifier: [0, 0, 0, 0, 0, 0, 0, 9] }",
    ),
    (
        &[
            42,
            0,
            0,
            1,
            2,
            3,
            0,
            0,
            4,
            1,
            0x4100_0000,
            1,
            0x4200_0000,
            0,
        ],
        "ExchangeId { client: 1, sequence: 2, flags: 3, minor: 4, major: Octets { inner: [65] }, scope: Octets { inner: [66] } }",
    ),
    (
        &[
            43, 0, 0, 0, 0, 1, 2, 3, 0, 1, 2, 3, 4, 5, 0, 6, 7, 8, 9, 10, 11, 1, 12,
        ],
        "CreateSession { session: [0, 0, 0, 0, 0, 0, 0, 0, 0, 0, 0, 0, 0, 0, 0, 1], sequence: 2, flags: 3, fore: Channel { headerpad: 0, maxrequest: 1, maxresponse: 2, cached: 3, operations: 4, requests: 5, ird: None }, back: Channel { headerpad: 6, maxrequest: 7, maxresponse: 8, cached: 9, operations: 10, requests: 11, ird: Some(12) } }",
    ),
    (&[44, 0], "DestroySession"),
    (
        &[53, 0, 0, 0, 0, 1, 2, 3, 4, 5, 6],
        "Sequence { session: [0, 0, 0, 0, 0, 0, 0, 0, 0, 0, 0, 0, 0, 0, 0, 1], sequence: 2, slot: 3, highest: 4, target: 5, flags: 6 }",
    ),
    (&[57, 0], "DestroyClientId"),
    (&[58, 0], "ReclaimComplete"),
    (&[15, 2], "Failed { number: 15, status: 2 }"),
    (&[7, 10004], "Failed { number: 7, status: 10004 }"),
    (&[10044, 10044], "Failed { number: 10044, status: 10044 }"),
];

/// The bytes of a message with one result.
fn message_of(alloc: Global, words: &[u32]) -> Result<Vec<u8>, AllocError> {
    let mut bytes = bytes_of(alloc, &BEFORE)?;
    bytes.extend_from_slice(&bytes_of(alloc, words)?)?;
    Ok(bytes)
}

/// Compares the one result with what is due, as it is shown.
fn is_shown(
    rt: &impl Abort,
    alloc: Global,
    results: &[OpResult],
    text: &str,
) -> Result<(), AllocError> {
    assert_eq!(rt; results.len(), 1);
    let shown = format!(in alloc; "{:?}", results[0])?;
    assert_eq!(rt; shown.as_str(), text);
    Ok(())
}

/// Compares what is read of a message with the one result that is due.
fn is_read(rt: &impl Abort, alloc: Global, bytes: &[u8], text: &str) -> Result<(), AllocError> {
    match read_results(alloc, bytes) {
        Ok(read) => is_shown(rt, alloc, read.results.as_slice(), text),
        Err(refused) => panic!(rt; "{refused:?} for {text}"),
    }
}

#[test]
fn each_result_is_read(rt: HostRuntime) -> Result<(), AllocError> {
    let alloc = rt.alloc();
    for (words, text) in &ROWS {
        let bytes = message_of(alloc, words)?;
        is_read(&rt, alloc, &bytes, text)?;
    }
    Ok(())
}

/// Words that are no results, and the offset of the first item that isn't there.
static GARBAGE: [(&[u32], usize, &str); 12] = [
    (&[0, 0], 8, "no count"),
    (&[0, 1025], 4, "a tag that is too long"),
    (&[0, 0, 0, 9], 12, "a word behind the last result"),
    (&[0, 0, 1, 15], 16, "no status"),
    (
        &[0, 0, 1, 7, 0],
        16,
        "success of an operation that isn't served",
    ),
    (&[0, 0, 1, 34, 13], 20, "SETATTR failed, and no bitmap"),
    (
        &[0, 0, 1, 28, 0, 0, 0, 3, 0, 4],
        20,
        "a change that isn't atomic",
    ),
    (&[0, 0, 1, 25, 0, 2, 0], 20, "an eof of 2"),
    (
        &[0, 0, 1, 26, 0, 0, 0, 2],
        28,
        "a flag of 2 before an entry",
    ),
    (&[0, 0, 1, 9, 0, 9], 20, "a bitmap of 9 words"),
    (&[0, 0, 1, 42, 0, 0, 1, 2, 3, 1], 36, "state protection"),
    (&[0, 0, 2, 15, 0], 20, "one result of two"),
];

/// The offset at which bytes are refused.
fn refused_at(alloc: Global, bytes: &[u8]) -> Result<Option<usize>, AllocError> {
    match read_results(alloc, bytes) {
        Err(CompoundError::Garbage { at }) => Ok(Some(at)),
        Err(CompoundError::Memory) => Err(AllocError),
        Ok(_) => Ok(None),
    }
}

#[test]
fn garbage_is_refused_where_it_begins(rt: HostRuntime) -> Result<(), AllocError> {
    let alloc = rt.alloc();
    for (words, want, text) in &GARBAGE {
        let bytes = bytes_of(alloc, words)?;
        assert_eq!(rt; refused_at(alloc, &bytes)?, Some(*want), "{text}");
    }
    Ok(())
}

/// What is written of the results of PUTROOTFH, of READ and of an operation beside the table.
fn three_written(alloc: Global) -> Result<Vec<u8>, AllocError> {
    let content = Octets::from_slice(alloc, b"hi")?;
    let bytes = Octets::from_slice(alloc, b"\x00\x00\x00\x07")?;
    let extra = OpResult::Extra {
        number: 69,
        status: 0,
        bytes,
    };
    let read = OpResult::Read { eof: true, content };
    let list = vec![in alloc; OpResult::PutRootFh, read, extra]?;
    let tag = Octets::from_slice(alloc, b"t")?;
    write_results(alloc, &Results::of(tag, Items::new(list)))
}

#[test]
fn results_are_written_with_zero_pad_bytes(rt: HostRuntime) -> Result<(), AllocError> {
    let alloc = rt.alloc();
    let written = three_written(alloc)?;
    let want = [
        0,
        1,
        0x7400_0000,
        3,
        24,
        0,
        25,
        0,
        1,
        2,
        0x6869_0000,
        69,
        0,
        7,
    ];
    assert_eq!(rt; written.as_slice(), bytes_of(alloc, &want)?.as_slice());
    Ok(())
}

/// The bound of an operation, which is dropped here.
fn bound_of(op: Op<'_>) -> u32 {
    reply_bound(&op, &NoExtraGrammar)
}

fn read_bound(count: u32) -> u32 {
    let id = StateId {
        seqid: 0,
        other: [0; 12],
    };
    bound_of(Op::Read {
        id,
        offset: 0,
        count,
    })
}

#[test]
fn a_read_has_room_for_its_data(rt: HostRuntime) {
    for (count, want) in [(0, 16), (1, 20), (4, 20), (32768, 32784), (32769, 32784)] {
        assert_eq!(rt; read_bound(count), want, "at {count}");
    }
    assert_eq!(rt; bound_of(Op::GetFh), 24);
}
