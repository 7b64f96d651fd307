//! Arguments of a COMPOUND, word by word, as RFC 8881 and RFC 7862 lay them out.
ghost use Rattle.std.specs.Prelude.{[], ◌∷◌, refl};
ghost use Rattle.std.proofs.Math.Nat.{le_refl};
ghost use Rattle.lnfs_xdr.specs.Format.{Opaque, Done, ◌>>=◌};
ghost use Rattle.lnfs_arguments.specs.Further.{further_of};
ghost use Rattle.lnfs_arguments.specs.Lawful.{blocks_are_lawful};

use lnfs_arguments::{CompoundError, ExtraGrammar, NoExtraGrammar, Op, read_compound};
use lnfs_xdr::{XdrError, XdrReader, XdrWriter};
use std::alloc::{AllocError, Global};
use std::process::Abort;

/// In a table: words, and behind `=>` what is read of them, or the offset of what is refused. A and B are
/// the words of the names `a` and `b`.
///
/// One operation on names.
const NAMES: &str = "
3 63 => [Access { bits: 63 }]
6 2 1 A 1 16 8 0 9 => [Create { what: Dir, name: Octets { inner: [97] }, attrs: RawAttrs { mask: Bitmap { words: [16, 0, 0, 0, 0, 0, 0, 0] }, list: Octets { inner: [0, 0, 0, 0, 0, 0, 0, 9] } } }]
6 5 1 B 1 A 1 16 8 0 9 => [Create { what: Symlink { text: Octets { inner: [98] } }, name: Octets { inner: [97] }, attrs: RawAttrs { mask: Bitmap { words: [16, 0, 0, 0, 0, 0, 0, 0] }, list: Octets { inner: [0, 0, 0, 0, 0, 0, 0, 9] } } }]
9 2 1 2 => [GetAttr { asked: Bitmap { words: [1, 2, 0, 0, 0, 0, 0, 0] } }]
10 => [GetFh]
11 1 A => [Link { name: Octets { inner: [97] } }]
15 1 A => [Lookup { name: Octets { inner: [97] } }]
16 => [LookupP]
17 1 16 8 0 9 => [NVerify { attrs: RawAttrs { mask: Bitmap { words: [16, 0, 0, 0, 0, 0, 0, 0] }, list: Octets { inner: [0, 0, 0, 0, 0, 0, 0, 9] } } }]
22 1 A => [PutFh { handle: Octets { inner: [97] } }]
24 => [PutRootFh]
26 0 3 1 2 4096 8192 1 2 => [ReadDir { cookie: 3, verifier: [0, 0, 0, 1, 0, 0, 0, 2], dircount: 4096, maxcount: 8192, asked: Bitmap { words: [2, 0, 0, 0, 0, 0, 0, 0] } }]
27 => [ReadLink]
28 1 A => [Remove { name: Octets { inner: [97] } }]
29 1 A 1 B => [Rename { old: Octets { inner: [97] }, new: Octets { inner: [98] } }]
34 7 1 0 2 1 16 8 0 9 => [SetAttr { id: StateId { seqid: 7, other: [0, 0, 0, 1, 0, 0, 0, 0, 0, 0, 0, 2] }, attrs: RawAttrs { mask: Bitmap { words: [16, 0, 0, 0, 0, 0, 0, 0] }, list: Octets { inner: [0, 0, 0, 0, 0, 0, 0, 9] } } }]
37 1 16 8 0 9 => [Verify { attrs: RawAttrs { mask: Bitmap { words: [16, 0, 0, 0, 0, 0, 0, 0] }, list: Octets { inner: [0, 0, 0, 0, 0, 0, 0, 9] } } }]
";

/// One operation on files.
const FILES: &str = "
4 5 7 1 0 2 => [Close { seqid: 5, id: StateId { seqid: 7, other: [0, 0, 0, 1, 0, 0, 0, 0, 0, 0, 0, 2] } }]
5 0 6 7 => [Commit { offset: 6, count: 7 }]
25 7 1 0 2 1 0 9 => [Read { id: StateId { seqid: 7, other: [0, 0, 0, 1, 0, 0, 0, 0, 0, 0, 0, 2] }, offset: 4294967296, count: 9 }]
38 7 1 0 2 0 8 2 1 A => [Write { id: StateId { seqid: 7, other: [0, 0, 0, 1, 0, 0, 0, 0, 0, 0, 0, 2] }, offset: 8, stable: 2, content: Span { bytes: [97] } }]
31 => [RestoreFh]
32 => [SaveFh]
18 1 2 3 1 5 1 A 0 4 => [Open { seqid: 1, access: 2, deny: 3, client: 4294967301, owner: Octets { inner: [97] }, making: None, claim: Handle }]
18 1 2 3 1 5 1 A 1 0 1 16 8 0 9 0 1 A => [Open { seqid: 1, access: 2, deny: 3, client: 4294967301, owner: Octets { inner: [97] }, making: Some(Unchecked { attrs: RawAttrs { mask: Bitmap { words: [16, 0, 0, 0, 0, 0, 0, 0] }, list: Octets { inner: [0, 0, 0, 0, 0, 0, 0, 9] } } }), claim: Name { name: Octets { inner: [97] } } }]
18 1 2 3 1 5 1 A 1 1 1 16 8 0 9 4 => [Open { seqid: 1, access: 2, deny: 3, client: 4294967301, owner: Octets { inner: [97] }, making: Some(Guarded { attrs: RawAttrs { mask: Bitmap { words: [16, 0, 0, 0, 0, 0, 0, 0] }, list: Octets { inner: [0, 0, 0, 0, 0, 0, 0, 9] } } }), claim: Handle }]
18 1 2 3 1 5 1 A 1 3 1 2 1 16 8 0 9 4 => [Open { seqid: 1, access: 2, deny: 3, client: 4294967301, owner: Octets { inner: [97] }, making: Some(Exclusive { verifier: [0, 0, 0, 1, 0, 0, 0, 2], attrs: RawAttrs { mask: Bitmap { words: [16, 0, 0, 0, 0, 0, 0, 0] }, list: Octets { inner: [0, 0, 0, 0, 0, 0, 0, 9] } } }), claim: Handle }]
";

/// One operation on clients and sessions.
const SESSIONS: &str = "
42 42 0 2 0x63310000 3 0 0 => [ExchangeId { verifier: [0, 0, 0, 42, 0, 0, 0, 0], owner: Octets { inner: [99, 49] }, flags: 3, implementation: None }]
42 42 0 2 0x63310000 3 0 1 1 A 1 B 0 5 6 => [ExchangeId { verifier: [0, 0, 0, 42, 0, 0, 0, 0], owner: Octets { inner: [99, 49] }, flags: 3, implementation: Some(Implementation { domain: Octets { inner: [97] }, name: Octets { inner: [98] }, secs: 5, nanos: 6 }) }]
43 1 2 3 4 1 2 3 4 5 6 0 6 5 4 3 2 1 1 9 77 3 0 1 5 1 A 6 7 2 8 9 6 1 1 A 1 B => [CreateSession(CreateSession { client: 4294967298, sequence: 3, flags: 4, fore: Channel { headerpad: 1, maxrequest: 2, maxresponse: 3, cached: 4, operations: 5, requests: 6, ird: None }, back: Channel { headerpad: 6, maxrequest: 5, maxresponse: 4, cached: 3, operations: 2, requests: 1, ird: Some(9) }, program: 77, callbacks: Items { inner: [Nothing, Sys { stamp: 5, machine: Octets { inner: [97] }, uid: 6, gid: 7, gids: Items { inner: [8, 9] } }, Gss { service: 1, server: Octets { inner: [97] }, client: Octets { inner: [98] } }] } })]
44 1 2 3 4 => [DestroySession { session: [0, 0, 0, 1, 0, 0, 0, 2, 0, 0, 0, 3, 0, 0, 0, 4] }]
53 1 2 3 4 5 6 7 1 => [Sequence(Sequence { session: [0, 0, 0, 1, 0, 0, 0, 2, 0, 0, 0, 3, 0, 0, 0, 4], sequence: 5, slot: 6, highest: 7, cachethis: true })]
57 1 2 => [DestroyClientId { client: 4294967298 }]
58 1 => [ReclaimComplete { one_fs: true }]
";

/// A number that isn't served, three that are none, and forms that aren't served; behind each stand
/// words that are no operation.
const OUTSIDE: &str = "
68 1 2 => [Outside { number: 68, status: 10004 }]
72 1 2 => [Outside { number: 72, status: 10044 }]
2 1 2 => [Outside { number: 2, status: 10044 }]
10044 1 => [Outside { number: 10044, status: 10044 }]
6 1 7 7 => [Outside { number: 6, status: 10007 }]
42 42 0 0 3 1 7 => [Outside { number: 42, status: 22 }]
18 1 2 3 1 5 1 A 2 7 => [Outside { number: 18, status: 22 }]
18 1 2 3 1 5 1 A 1 2 7 => [Outside { number: 18, status: 10004 }]
18 1 2 3 1 5 1 A 1 4 7 => [Outside { number: 18, status: 22 }]
18 1 2 3 1 5 1 A 0 1 7 => [Outside { number: 18, status: 10004 }]
";

/// What follows the empty tag: other minor versions and counts, a word after the last operation, a boolean
/// of 2 in SEQUENCE, an operation that isn't there, a name that ends early and one that is too long, a
/// file handle that is too long.
const UNREAD: &str = "
1 => []
3 0xffffffff 9 9 => []
2 => garbage at 8
2 0 => []
2 33 10 9 9 => [GetFh]
2 0xffffffff 10 9 9 => [GetFh]
2 1 10 9 => garbage at 16
2 0 9 => garbage at 12
2 1 53 1 2 3 4 5 6 7 2 => garbage at 44
2 2 10 => garbage at 16
2 1 15 5 A => garbage at 16
2 1 15 0xffffffff => garbage at 16
2 1 22 129 => garbage at 16
";

/// Messages with the operation of `OneBlock`.
const BESIDE: &str = "
2 2 70 5 A B 10 => [Extra { number: 70, args: Octets { inner: [0, 0, 0, 5, 97, 0, 0, 0, 98, 0, 0, 0] } }, GetFh]
2 1 70 17 A => garbage at 16
2 1 70 5 A => garbage at 16
";

/// The number that a word of a table is.
fn number_of(word: &str) -> Option<u32> {
    if word == "A" {
        return Some(0x6100_0000);
    }
    if word == "B" {
        return Some(0x6200_0000);
    }
    match word.strip_prefix("0x") {
        Some(digits) => u32::from_str_radix(digits, 16).ok(),
        None => word.parse::<u32>().ok(),
    }
}

/// The bytes of words behind an empty tag, where each is a number.
fn message(alloc: Global, head: &str, words: &str) -> Result<Option<Vec<u8>>, AllocError> {
    let mut out = XdrWriter::new(alloc);
    out.u32(0)?;
    for part in [head, words] {
        for word in part.split_whitespace() {
            let Some(number) = number_of(word) else {
                return Ok(None);
            };
            out.u32(number)?;
        }
    }
    Ok(Some(out.into_bytes()))
}

/// Operations as they are shown.
fn shown(alloc: Global, ops: &[Op<'_>]) -> Result<String, AllocError> {
    format!(in alloc; "{ops:?}")
}

/// What reading gives: the operations, or the offset of what is refused.
fn told<G: ExtraGrammar>(alloc: Global, bytes: &[u8], grammar: &G) -> Result<String, AllocError> {
    match read_compound(alloc, bytes, grammar) {
        Ok(found) => shown(alloc, found.ops.as_slice()),
        Err(CompoundError::Garbage { at }) => format!(in alloc; "garbage at {at}"),
        Err(CompoundError::Memory) => Err(AllocError),
    }
}

/// The count of what is read.
fn count_in(alloc: Global, bytes: &[u8]) -> Option<u32> {
    match read_compound(alloc, bytes, &NoExtraGrammar) {
        Ok(found) => Some(found.count),
        Err(_) => None,
    }
}

/// Reads the row of a table, behind the words of a head.
fn is_read<G: ExtraGrammar>(
    rt: &impl Abort,
    alloc: Global,
    row: &str,
    head: &str,
    grammar: &G,
) -> Result<(), AllocError> {
    let (words, expected) = row.split_once(" => ").expect(rt, row);
    let bytes = message(alloc, head, words)?.expect(rt, row);
    let found = told(alloc, &bytes, grammar)?;
    assert_eq!(rt; found.as_str(), expected, "{words}");
    Ok(())
}

/// Reads each row of a table, which has so many.
fn are_read<G: ExtraGrammar>(
    rt: &impl Abort,
    alloc: Global,
    table: (&str, usize),
    head: &str,
    grammar: &G,
) -> Result<(), AllocError> {
    let (rows, wanted) = table;
    let mut count: usize = 0;
    for row in rows.lines() {
        if !row.is_empty() {
            is_read(rt, alloc, row, head, grammar)?;
            count = count.saturating_add(1);
        }
    }
    assert_eq!(rt; count, wanted, "rows");
    Ok(())
}

#[test]
fn operations_are_read(rt: HostRuntime) -> Result<(), AllocError> {
    for table in [(NAMES, 17), (FILES, 10), (SESSIONS, 7), (OUTSIDE, 10)] {
        are_read(&rt, rt.alloc(), table, "2 1", &NoExtraGrammar)?;
    }
    Ok(())
}

/// Compares the offset at which bytes that are no tag are refused.
fn is_refused(
    rt: &impl Abort,
    alloc: Global,
    bytes: &[u8],
    expected: &str,
) -> Result<(), AllocError> {
    let found = told(alloc, bytes, &NoExtraGrammar)?;
    assert_eq!(rt; found.as_str(), expected);
    Ok(())
}

#[test]
fn what_is_left_unread(rt: HostRuntime) -> Result<(), AllocError> {
    let alloc = rt.alloc();
    are_read(&rt, alloc, (UNREAD, 13), "", &NoExtraGrammar)?;
    let other = message(alloc, "", "3 5")?.expect(&rt, "words");
    assert_eq!(rt; count_in(alloc, &other), Some(0));
    let cut: [u8; 5] = [0, 0, 0, 0, 0];
    is_refused(&rt, alloc, &cut, "garbage at 4")?;
    is_refused(&rt, alloc, &cut[..3], "garbage at 0")?;
    is_refused(&rt, alloc, &[0, 0, 4, 1], "garbage at 0")
}

/// One operation beside those of the table, of number 70: at most 16 bytes.
struct OneBlock;

impl ExtraGrammar for OneBlock {
    ghost grammar = { further_of ((70, Opaque 16 >>= λ v. Done tt) ∷ []) (λ number args. 8) };

    fn serves(&self, number: u32) -> bool {
        number == 70
    }

    #[tactic(auto, unfolding(lnfs_xdr::specs::Lengths::length_at))]
    fn length(&self, number: u32, rest: &[u8]) -> Result<usize, XdrError> {
        let mut reader = XdrReader::new(rest);
        if number == 70 {
            reader.opaque(16)?;
        }
        Ok(reader.at())
    }

    fn bound(&self, _number: u32, _args: &[u8]) -> u32 {
        8
    }

    ghost lawful = { blocks_are_lawful ((70, Opaque 16 >>= λ v. Done tt) ∷ []) (λ number args. 8) (refl, refl, tt) (λ number args. le_refl 8) };
}

#[test]
fn an_operation_beside_the_table(rt: HostRuntime) -> Result<(), AllocError> {
    are_read(&rt, rt.alloc(), (BESIDE, 3), "", &OneBlock)
}
