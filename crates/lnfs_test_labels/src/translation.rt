//! Labels from one spelling to another.
use crate::codecs::codecs_of;
use crate::formats::{four_formats, two_levels};
use lnfs_calipso::Label;
use lnfs_map::{MapError, Pair, TranslationTable};
use std::process::Abort;
use std::test::Fail;

const BODY: Pair = Pair { lfs: 101, pi: 1 };

const TEXT: Pair = Pair { lfs: 102, pi: 1 };

const NAME: Pair = Pair { lfs: 103, pi: 0 };

const LONG: Pair = Pair { lfs: 105, pi: 0 };

const NONE: Pair = Pair { lfs: 104, pi: 0 };

/// The body of the label of sensitivity 3 with the compartments 0, 1, 2 and 5.
const TOP_BODY: &[u8] = b"\x00\x00\x00\x01\x01\x03\xe4\x00\x00\x00";

/// From and to a format, some bytes and what is made of them.
const TRANSLATED: &[(Pair, Pair, &[u8], &[u8])] = &[
    (BODY, TEXT, TOP_BODY, b"s3:c0.c2,c5"),
    (TEXT, BODY, b"s3:c0.c2,c5", TOP_BODY),
    (BODY, NAME, b"\x00\x00\x00\x01\x00\x00", b"open"),
    (NAME, TEXT, b"open", b"s0"),
    (BODY, LONG, TOP_BODY, b"1/3/c0.c2,c5"),
    (LONG, TEXT, b"1/0/-", b"s0"),
];

/// And why nothing is.
const REFUSED: &[(Pair, Pair, &[u8], MapError)] = &[
    (BODY, NAME, TOP_BODY, MapError::NoRow),
    (TEXT, BODY, b"s2", MapError::BadLabel),
    (LONG, BODY, b"2/0/-", MapError::BadLabel),
    (NONE, BODY, b"open", MapError::WrongLfs),
    (TEXT, NONE, b"s2", MapError::WrongLfs),
];

/// Whether the bytes in one format are others in another.
fn is_translated(
    table: &TranslationTable<'_>,
    from: Pair,
    to: Pair,
    bytes: &[u8],
    wanted: &[u8],
) -> bool {
    match table.translate(from, to, bytes) {
        Ok(given) => given.as_slice() == wanted,
        Err(_error) => false,
    }
}

fn expect_translated(rt: &impl Abort, table: &TranslationTable<'_>) {
    for (from, to, bytes, wanted) in TRANSLATED {
        let translated = is_translated(table, *from, *to, bytes, wanted);
        assert!(rt; translated, "{bytes:?}");
    }
}

/// Why the bytes in one format are nothing in another.
fn refusal(table: &TranslationTable<'_>, from: Pair, to: Pair, bytes: &[u8]) -> Option<MapError> {
    table.translate(from, to, bytes).err()
}

fn expect_refused(rt: &impl Abort, table: &TranslationTable<'_>) {
    for (from, to, bytes, error) in REFUSED {
        let given = refusal(table, *from, *to, bytes);
        assert!(rt; given == Some(*error), "{bytes:?}");
    }
}

fn expect_table(rt: &impl Abort, table: &TranslationTable<'_>) {
    expect_translated(rt, table);
    expect_refused(rt, table);
}

#[test]
fn labels_are_translated(rt: HostRuntime) -> Result<(), Fail> {
    let alloc = rt.alloc();
    let codecs = codecs_of(alloc)?;
    let lattice = two_levels(alloc, Label::bare(alloc, 1, 0))?;
    let formats = four_formats(alloc, Label::bare(alloc, 1, 0), [BODY, TEXT, NAME, LONG])?;
    expect_table(&rt, &TranslationTable::new(&formats, &codecs, &lattice));
    Ok(())
}
