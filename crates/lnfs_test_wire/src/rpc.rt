//! Calls, replies and records of RPC (RFC 5531).
ghost use Rattle.lnfs_rpc.specs.Replies.{seen_head, BodyFits, ResultsFit};
ghost use Rattle.lnfs_rpc.specs.Scanning.{Known};

use lnfs_rpc::{
    Auth, Call, CallError, DeframeError, Deframed, Deframer, Head, ReplyRecord, Sys, read_call,
    read_reply, read_sys, write_reply,
};
use lnfs_xdr::XdrError;
use std::alloc::{AllocError, Global};
use std::process::Abort;

/// The bytes of words.
fn bytes_of(alloc: Global, words: &[u32]) -> Result<Vec<u8>, AllocError> {
    let mut bytes = Vec::new(alloc);
    for word in words {
        bytes.extend_from_slice(&word.to_be_bytes())?;
    }
    Ok(bytes)
}

/// A call of COMPOUND by AUTH_SYS, with 44 bytes of arguments (RFC 5531 sections 9 and 14).
const CALL: [u32; 27] = [
    1, 0, 2, 100003, 4, 1, 1, 24, 0, 1, 0x61000000, 0, 0, 0, 0, 0, 0, 2, 1, 42, 0, 0, 2,
    0x63310000, 0, 0, 0,
];

fn parts_are_read(rt: &impl Abort, call: &Call<'_>) {
    assert_eq!(rt; (call.xid, call.proc), (1, 1));
    assert_eq!(rt; (call.cred.flavor, call.cred.body.len()), (1, 24));
    assert_eq!(rt; (call.verf.flavor, call.verf.body.len()), (0, 0));
    assert_eq!(rt; (call.header.len(), call.args.len()), (56, 44));
    assert_eq!(rt; read_sys(call.cred.body), Ok(Sys { uid: 0, gid: 0 }));
}

#[test]
fn a_call_is_read(rt: HostRuntime) -> Result<(), AllocError> {
    let record = bytes_of(rt.alloc(), &CALL)?;
    match read_call(&record) {
        Ok(call) => parts_are_read(&rt, &call),
        Err(refused) => panic!(rt; "{refused:?}"),
    }
    Ok(())
}

fn refusal(record: &[u8]) -> Option<CallError> {
    read_call(record).err()
}

/// Why the first bytes of the call are refused.
fn refusal_due(len: usize) -> Option<CallError> {
    match len {
        0..=7 => Some(CallError::NotACall),
        8..=63 => Some(CallError::BadHeader { xid: 1 }),
        _ => None,
    }
}

#[test]
fn a_call_that_ends_early(rt: HostRuntime) -> Result<(), AllocError> {
    let record = bytes_of(rt.alloc(), &CALL)?;
    for n in 0..=record.len() {
        assert_eq!(rt; refusal(&record[..n]), refusal_due(n), "of {n} bytes");
    }
    Ok(())
}

const XID: u32 = 1;

/// Two words of the call, by their places, are replaced, and it is refused for this.
static REFUSED: [(usize, u32, usize, u32, CallError); 9] = [
    (1, 1, 2, 3, CallError::NotACall),
    (2, 3, 3, 100005, CallError::BadVersion { xid: XID }),
    (2, 1, 7, 401, CallError::BadVersion { xid: XID }),
    (7, 401, 3, 100005, CallError::BadHeader { xid: XID }),
    (15, 401, 3, 100005, CallError::BadHeader { xid: XID }),
    (15, 45, 4, 3, CallError::BadHeader { xid: XID }),
    (3, 100005, 4, 3, CallError::BadProgram { xid: XID, stat: 1 }),
    (4, 3, 5, 2, CallError::BadProgram { xid: XID, stat: 2 }),
    (5, 2, 5, 2, CallError::BadProgram { xid: XID, stat: 3 }),
];

/// The call, where words are replaced: each stands behind its place.
fn call_with(alloc: Global, replaced: &[(usize, u32)]) -> Result<Vec<u8>, AllocError> {
    let mut words = CALL;
    for pair in replaced {
        let (place, word) = *pair;
        if place < words.len() {
            words[place] = word;
        }
    }
    bytes_of(alloc, &words)
}

#[test]
fn refused_calls(rt: HostRuntime) -> Result<(), AllocError> {
    for (i, (a, x, b, y, want)) in REFUSED.iter().enumerate() {
        let record = call_with(rt.alloc(), &[(*a, *x), (*b, *y)])?;
        assert_eq!(rt; refusal(&record), Some(*want), "case {i}");
    }
    Ok(())
}

/// A call with a credential of so many bytes, all set, that ends at an offset.
fn call_by(alloc: Global, len: u32, end: usize) -> Result<Vec<u8>, AllocError> {
    let mut record = bytes_of(alloc, &[7, 0, 2, 100003, 4, 0, 0, len])?;
    record.resize(end, 255)?;
    record.extend_from_slice(&[0; 8])?;
    Ok(record)
}

#[test]
fn credentials_of_400_and_401_bytes(rt: HostRuntime) -> Result<(), AllocError> {
    let taken = call_by(rt.alloc(), 400, 32 + 400)?;
    assert!(rt; read_call(&taken).is_ok(), "of 400 bytes");
    let refused = call_by(rt.alloc(), 401, 32 + 404)?;
    assert!(rt; read_call(&refused).is_err(), "of 401 bytes");
    Ok(())
}

/// What a body of words and so many zero bytes behind them gives.
fn sys_in(alloc: Global, words: &[u32], zeros: usize) -> Result<Result<Sys, XdrError>, AllocError> {
    let mut body = bytes_of(alloc, words)?;
    body.resize(body.len().saturating_add(zeros), 0)?;
    Ok(read_sys(&body))
}

fn short_bodies_are_refused(rt: &impl Abort, good: &[u8]) {
    for n in 0..good.len() {
        assert_eq!(rt; read_sys(&good[..n]), Err(XdrError::Short), "of {n} bytes");
    }
}

/// 16 groups are read, and no more; and a name of 255 bytes at most.
fn limits_are_kept(rt: &impl Abort, alloc: Global) -> Result<(), AllocError> {
    let groups = [0, 0, 1, 2, 16];
    assert_eq!(rt; sys_in(alloc, &groups, 64)?, Ok(Sys { uid: 1, gid: 2 }));
    assert_eq!(rt; sys_in(alloc, &groups, 68)?, Err(XdrError::TooLong));
    let many = [0, 0, 1, 2, 17];
    assert_eq!(rt; sys_in(alloc, &many, 0)?, Err(XdrError::TooLong));
    assert_eq!(rt; sys_in(alloc, &[0, 256], 0)?, Err(XdrError::TooLong));
    Ok(())
}

#[test]
fn bodies_of_auth_sys(rt: HostRuntime) -> Result<(), AllocError> {
    let good = bytes_of(rt.alloc(), &[9, 2, 0x61620101, 1000, 100, 2, 7, 8])?;
    let sys = Sys {
        uid: 1000,
        gid: 100,
    };
    assert_eq!(rt; read_sys(&good), Ok(sys));
    short_bodies_are_refused(&rt, &good);
    limits_are_kept(&rt, rt.alloc())
}

/// Compares a reply to the call 5 with words.
fn is_written(
    rt: &impl Abort,
    alloc: Global,
    head: &Head<'_>,
    results: &[u8],
    want: &[u32],
) -> Result<(), AllocError>
    requires verifier { BodyFits (seen_head head.now) }
    requires denial { ResultsFit (seen_head head.now) results.now }
{
    let written = write_reply(alloc, 5, head, results)?;
    let due = bytes_of(alloc, want)?;
    assert_eq!(rt; written.as_slice(), due.as_slice());
    Ok(())
}

#[test]
fn replies_as_bytes(rt: HostRuntime) -> Result<(), AllocError> {
    let alloc = rt.alloc();
    let words = [5, 1, 1, 0, 2, 2];
    is_written(&rt, alloc, &Head::VersionMismatch, &[], &words)?;
    let words = [5, 1, 1, 1, 5];
    is_written(&rt, alloc, &Head::AuthError { stat: 5 }, &[], &words)?;
    let verf = Auth {
        flavor: 0,
        body: &[],
    };
    let head = Head::Accepted { verf, stat: 1 };
    is_written(&rt, alloc, &head, &[], &[5, 1, 0, 0, 0, 1])?;
    let head = Head::Accepted { verf, stat: 2 };
    let versions = [0, 0, 0, 4, 0, 0, 0, 4];
    let words = [5, 1, 0, 0, 0, 2, 4, 4];
    is_written(&rt, alloc, &head, &versions, &words)
}

fn place(message: &[u8]) -> Option<usize> {
    read_reply(message).err()
}

/// The item that isn't there in the first bytes of the reply below.
fn place_due(len: usize) -> Option<usize> {
    match len {
        0..=3 => Some(0),
        4..=7 => Some(4),
        8..=11 => Some(8),
        12..=15 => Some(12),
        16..=27 => Some(16),
        28..=31 => Some(28),
        _ => None,
    }
}

#[test]
fn a_reply_that_ends_early(rt: HostRuntime) -> Result<(), AllocError> {
    // a verifier of 5 bytes and 3 pad bytes, and 8 bytes of results
    let words = [5, 1, 0, 6, 5, 0x01020304, 0x05ffffff, 0, 9, 9];
    let message = bytes_of(rt.alloc(), &words)?;
    for n in 0..=message.len() {
        assert_eq!(rt; place(&message[..n]), place_due(n), "of {n} bytes");
    }
    Ok(())
}

#[test]
fn refused_replies(rt: HostRuntime) -> Result<(), AllocError> {
    let alloc = rt.alloc();
    let cases: [(&[u32], usize); 7] = [
        (&[5, 0, 0, 0, 0, 0], 4),
        (&[5, 1, 2, 0, 0, 0], 8),
        (&[5, 1, 1, 2, 2, 2], 12),
        (&[5, 1, 0, 0, 401, 0], 16),
        (&[5, 1, 1, 0, 2], 20),
        (&[5, 1, 1, 1, 5, 0], 20),
        (&[5, 1, 1, 0, 2, 2, 9], 24),
    ];
    for (words, at) in cases {
        assert_eq!(rt; place(&bytes_of(alloc, words)?), Some(at));
    }
    Ok(())
}

/// A stream that comes in pieces: the bytes since its last record.
#[derive(Drop)]
struct Pieces {
    alloc: Global,
    bytes: Vec<u8>,
    deframer: Deframer,
    ghost known: { Known bytes.items deframer },
}

impl Pieces {
    fn new(alloc: Global) -> Pieces {
        Pieces {
            alloc,
            bytes: Vec::new(alloc),
            deframer: Deframer::new(alloc),
        }
    }

    /// One more piece.
    #[tactic(auto, using(lnfs_rpc::proofs::Nexts::longer))]
    fn feed(&mut self, piece: &[u8]) -> Result<(), AllocError> {
        self.bytes.extend_from_slice(piece)?;
        Ok(())
    }

    /// Takes the next record off.
    fn next(&mut self) -> Result<Option<Vec<u8>>, DeframeError> {
        match self.deframer.next(self.alloc, &self.bytes) {
            Ok(Some(Deframed { record, length })) => {
                self.bytes.drain(..length);
                Ok(Some(record))
            }
            Ok(None) => Ok(None),
            Err(e) => Err(e),
        }
    }
}

/// Takes the records that are whole, and tells how the last call ended.
fn take_records(
    pieces: &mut Pieces,
    records: &mut Vec<Vec<u8>>,
) -> Result<Option<DeframeError>, AllocError> {
    for _ in 0..5000 {
        match pieces.next() {
            Ok(None) => break,
            Ok(Some(record)) => records.push(record)?,
            Err(e) => return Ok(Some(e)),
        }
    }
    Ok(None)
}

/// Takes the records of a stream that is fed in pieces of one length, and tells how the last call ended.
fn records_in(
    alloc: Global,
    stream: &[u8],
    len: usize,
    records: &mut Vec<Vec<u8>>,
) -> Result<Option<DeframeError>, AllocError> {
    let mut pieces = Pieces::new(alloc);
    for piece in stream.chunks(len.max(1)) {
        pieces.feed(piece)?;
        let end = take_records(&mut pieces, records)?;
        if end.is_some() {
            return Ok(end);
        }
    }
    Ok(None)
}

/// How many records there are in a stream, and how the last call ended.
fn count_in(
    alloc: Global,
    stream: &[u8],
    len: usize,
) -> Result<(usize, Option<DeframeError>), AllocError> {
    let mut records = Vec::new(alloc);
    let end = records_in(alloc, stream, len, &mut records)?;
    Ok((records.len(), end))
}

/// The call in fragments of 40, 0 and 68 bytes.
fn call_in_fragments(alloc: Global) -> Result<Vec<u8>, AllocError> {
    let mut stream = Vec::new(alloc);
    let parts: [&[u32]; 4] = [&[40], &CALL[..10], &[0, 0x80000044], &CALL[10..]];
    for part in parts {
        stream.extend_from_slice(&bytes_of(alloc, part)?)?;
    }
    Ok(stream)
}

/// Compares the one record of a stream in pieces of one length.
fn is_one_record(
    rt: &impl Abort,
    alloc: Global,
    stream: &[u8],
    len: usize,
    record: &[u8],
) -> Result<(), AllocError> {
    let mut records = Vec::new(alloc);
    let end = records_in(alloc, stream, len, &mut records)?;
    assert_eq!(rt; (records.len(), end), (1, None), "pieces of {len}");
    for found in &records {
        assert_eq!(rt; found.as_slice(), record);
    }
    Ok(())
}

#[test]
fn fragments_in_any_pieces(rt: HostRuntime) -> Result<(), AllocError> {
    let alloc = rt.alloc();
    let record = bytes_of(alloc, &CALL)?;
    let stream = call_in_fragments(alloc)?;
    for len in [1, 3, 44, 116, 1000] {
        is_one_record(&rt, alloc, &stream, len, &record)?;
    }
    Ok(())
}

#[test]
fn a_frame_is_a_record(rt: HostRuntime) -> Result<(), AllocError> {
    let alloc = rt.alloc();
    let built = Vec::from_slice(alloc, &[0, 0, 0, 0, 1, 2, 3])?;
    let reply = ReplyRecord::new(built);
    assert_eq!(rt; reply.as_slice(), [1, 2, 3].as_slice());
    let framed = reply.into_frame();
    assert_eq!(rt; framed.as_slice(), [128, 0, 0, 3, 1, 2, 3].as_slice());
    assert_eq!(rt; count_in(alloc, &framed, 2)?, (1, None));
    Ok(())
}

/// The bytes of fragments: the head of each, and how many bytes follow it.
fn stream_of(alloc: Global, fragments: &[(u32, usize)]) -> Result<Vec<u8>, AllocError> {
    let mut stream = Vec::new(alloc);
    for (head, len) in fragments {
        stream.extend_from_slice(&head.to_be_bytes())?;
        stream.resize(stream.len().saturating_add(*len), 7)?;
    }
    Ok(stream)
}

#[test]
fn records_at_the_limit(rt: HostRuntime) -> Result<(), AllocError> {
    let alloc = rt.alloc();
    // heads and the bytes that follow each, how many records there are, and whether one is too long
    let cases: [(&[(u32, usize)], usize, bool); 6] = [
        (&[(0x80020000, 131072)], 1, false),
        (&[(0x80020001, 0)], 0, true),
        (&[(0x00020000, 131072), (0x80000000, 0)], 1, false),
        (&[(0x00020000, 131072), (0x80000001, 0)], 0, true),
        (&[(0x80000001, 1), (0xffffffff, 0)], 1, true),
        (&[(0x0001ffff, 131071), (0x80000001, 0)], 0, false),
    ];
    for (i, (fragments, want, too_long)) in cases.into_iter().enumerate() {
        let stream = stream_of(alloc, fragments)?;
        let (count, end) = count_in(alloc, &stream, 4096)?;
        assert_eq!(rt; (count, end.is_some()), (want, too_long), "case {i}");
    }
    Ok(())
}

/// Feeds heads of fragments, and one more that comes in two pieces: it is too long, and stays so.
fn one_more_is_refused(rt: &impl Abort, alloc: Global, heads: &[u8]) -> Result<(), AllocError> {
    let mut pieces = Pieces::new(alloc);
    pieces.feed(heads)?;
    pieces.feed(&[0, 0, 0, 0, 128, 0, 0])?;
    assert!(rt; matches!(pieces.next(), Ok(None)));
    pieces.feed(&[0])?;
    for _ in 0..2 {
        assert!(rt; matches!(pieces.next(), Err(DeframeError::TooLong)));
        pieces.feed(&[128, 0, 0, 0])?;
    }
    Ok(())
}

#[test]
fn fragments_at_the_limit(rt: HostRuntime) -> Result<(), AllocError> {
    let alloc = rt.alloc();
    let mut heads = Vec::new(alloc);
    heads.resize(4 * 4095, 0)?;
    one_more_is_refused(&rt, alloc, &heads)?;
    heads.extend_from_slice(&[128, 0, 0, 0])?;
    assert_eq!(rt; count_in(alloc, &heads, 1)?, (1, None));
    Ok(())
}
