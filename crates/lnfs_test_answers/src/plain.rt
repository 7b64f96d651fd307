use lnfs_answers::{Awaits, CompoundError, read_answer};
use std::alloc::{AllocError, Global};
use std::process::Abort;

/// SEQUENCE, PUTROOTFH, GETATTR of the label, READDIR of names with labels, and SETATTR.
const ASKED: [Awaits; 5] = [
    Awaits::Fields { number: 53 },
    Awaits::Fields { number: 24 },
    Awaits::Label,
    Awaits::Names,
    Awaits::Set,
];

/// The words of a whole answer with status 0. The label is `ab`; the entry is `x` with the label `c`.
const WHOLE: &str =
    "0 0 5 53 0 0 0 0 1 2 0 0 0 0 24 0 9 0 3 0 0 65536 16 101 1 2 0x61620000 26 0 7 7 1 0 3 1 0x78000000 4 2048 0 65536 0 20 13 101 1 1 0x63000000 0 1 34 0 1 2";

const SHOWN: &str =
    "Said { status: 0, results: Items { inner: [Other(Sequence { session: [0, 0, 0, 0, 0, 0, 0, 0, 0, 0, 0, 0, 0, 0, 0, 1], sequence: 2, slot: 0, highest: 0, target: 0, flags: 0 }), Other(PutRootFh), Label(LabelValue { lfs: 101, pi: 1, bytes: Octets { inner: [97, 98] } }), Names { entries: Items { inner: [Named { cookie: 3, name: Octets { inner: [120] }, error: 13, label: LabelValue { lfs: 101, pi: 1, bytes: Octets { inner: [99] } } }] }, eof: true }, Other(SetAttr { status: 0, set: Bitmap { words: [2, 0, 0, 0, 0, 0, 0, 0] } })] } }";

/// Words, and behind `=>` the answer, or the offset of what is refused.
const ROWS: &str = "
70 0 1 53 70 => Said { status: 70, results: Items { inner: [Other(Failed { number: 53, status: 70 })] } }
70 0 2 53 0 0 0 0 1 2 0 0 0 0 24 70 => Said { status: 70, results: Items { inner: [Other(Sequence { session: [0, 0, 0, 0, 0, 0, 0, 0, 0, 0, 0, 0, 0, 0, 0, 1], sequence: 2, slot: 0, highest: 0, target: 0, flags: 0 }), Other(Failed { number: 24, status: 70 })] } }
 => 0
0 1 => 4
0 0 => 8
10021 0 0 => 8
0 0 4 => 8
70 0 6 => 8
70 0 1 24 70 => 12
70 0 1 53 0 => 16
70 0 2 53 70 => 16
70 0 1 53 70 0 => 20
70 0 2 53 0 0 0 0 1 2 0 0 0 0 24 0 => 60
";

/// The same behind the results of SEQUENCE and PUTROOTFH, at 64: GETATTR alone, and then what is refused.
const LABELS: &str = "
9 0 3 0 0 65536 12 101 1 0 => 104
9 0 8 0 0 65536 0 0 0 0 0 12 101 1 0 => 124
10 0 => 64
9 0 2 0 0 => 72
9 0 9 => 72
9 0 3 1 => 76
9 0 3 0 1 => 80
9 0 3 0 0 65537 => 84
9 0 4 0 0 65536 1 => 88
9 0 3 0 0 65536 8 => 88
9 0 3 0 0 65536 14 => 88
9 0 3 0 0 65536 65540 => 88
9 0 3 0 0 65536 16 101 1 0 => 100
9 0 3 0 0 65536 16 101 1 5 => 100
9 0 3 0 0 65536 20 101 1 4 0x61626364 => 100
9 0 3 0 0 65536 16 101 1 4294967295 => 100
9 0 3 0 0 65536 16 101 1 4 => 100
9 0 3 0 0 65536 16 101 1 2 => 100
";

/// The same behind the result of GETATTR, at 104: READDIR, and then what is refused.
const NAMES: &str = "
9 0 => 104
26 0 7 => 112
26 0 7 7 2 => 120
26 0 7 7 1 0 => 124
26 0 7 7 1 0 3 65537 => 132
26 0 7 7 1 0 3 4 => 132
26 0 7 7 1 0 3 1 0x78000000 3 2049 => 144
26 0 7 7 1 0 3 1 0x78000000 4 2048 0 65536 1 => 156
26 0 7 7 1 0 3 1 0x78000000 4 2048 0 65536 0 12 => 160
26 0 7 7 1 0 3 1 0x78000000 4 2048 0 65536 0 20 13 101 1 5 => 176
26 0 7 7 1 0 3 1 0x78000000 4 2048 0 65536 0 20 13 101 1 1 => 176
26 0 7 7 1 0 3 1 0x78000000 4 2048 0 65536 0 20 13 101 1 1 0x63000000 2 => 184
26 0 7 7 0 2 => 124
26 0 7 7 0 1 34 0 9 => 136
";

const BEFORE_LABEL: &str = "0 0 5 53 0 0 0 0 1 2 0 0 0 0 24 0 ";

const BEFORE_NAMES: &str = "0 0 5 53 0 0 0 0 1 2 0 0 0 0 24 0 9 0 3 0 0 65536 12 101 1 0 ";

fn number_of(word: &str) -> Option<u32> {
    match word.strip_prefix("0x") {
        Some(digits) => u32::from_str_radix(digits, 16).ok(),
        None => word.parse().ok(),
    }
}

/// Words in the order of the network.
pub fn bytes_of(rt: &impl Abort, alloc: Global, words: &str) -> Result<Vec<u8>, AllocError> {
    let mut bytes = Vec::new(alloc);
    for word in words.split_whitespace() {
        match number_of(word) {
            Some(number) => bytes.extend_from_slice(&number.to_be_bytes())?,
            None => panic!(rt; "{word}"),
        }
    }
    Ok(bytes)
}

fn told(alloc: Global, bytes: &[u8]) -> Result<String, AllocError> {
    match read_answer(alloc, &ASKED, bytes) {
        Ok(said) => format!(in alloc; "{said:?}"),
        Err(CompoundError::Garbage { at }) => format!(in alloc; "{at}"),
        Err(CompoundError::Memory) => Err(AllocError),
    }
}

#[test]
fn a_whole_answer_is_read(rt: HostRuntime) -> Result<(), AllocError> {
    let alloc = rt.alloc();
    let bytes = bytes_of(&rt, alloc, WHOLE)?;
    assert_eq!(rt; told(alloc, &bytes)?.as_str(), SHOWN);
    Ok(())
}

fn each_row(rt: &impl Abort, alloc: Global, before: &str, rows: &str) -> Result<(), AllocError> {
    for row in rows.lines() {
        if let Some((words, wanted)) = row.split_once("=>") {
            let mut bytes = bytes_of(rt, alloc, before)?;
            bytes.extend_from_slice(&bytes_of(rt, alloc, words)?)?;
            assert_eq!(rt; told(alloc, &bytes)?.as_str(), wanted.trim(), "{words}");
        }
    }
    Ok(())
}

#[test]
fn rows_are_read_or_refused_where_they_are_wrong(rt: HostRuntime) -> Result<(), AllocError> {
    let alloc = rt.alloc();
    each_row(&rt, alloc, "", ROWS)?;
    each_row(&rt, alloc, BEFORE_LABEL, LABELS)?;
    each_row(&rt, alloc, BEFORE_NAMES, NAMES)
}
