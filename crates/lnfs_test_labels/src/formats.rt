//! Spellings of labels.
ghost use Rattle.std.specs.Prelude.{◌≡◌, ◌<◌, IfOk, length};
ghost use Rattle.std.specs.Option.{option_map};
ghost use Rattle.lnfs_format.specs.Kinds.{reads, writes};

use crate::codecs::codecs_of;
use lnfs_calipso::{COMPARTMENTS, Label, Lattice, Level};
use lnfs_format::{
    AddError, Codec, Codecs, FormatEntry, Formats, Kind, NameRow, Pair, ReadError, WriteError,
    read_comps, read_long, read_text, write_comps, write_long, write_text,
};
use lnfs_types::{Items, Octets};
use std::alloc::{AllocError, Global};
use std::process::Abort;
use std::test::Fail;

/// Texts, each with the sensitivity and the compartments of its label.
const TEXTS: &[(&[u8], u8, &[u16])] = &[
    (b"s0", 0, &[]),
    (b"s255", 255, &[]),
    (b"s1:c0", 1, &[0]),
    (b"s10:c9,c11", 10, &[9, 11]),
    (b"s1:c1,c2", 1, &[1, 2]),
    (b"s3:c0.c2,c5", 3, &[0, 1, 2, 5]),
    (b"s3:c0.c2,c5,c6", 3, &[0, 1, 2, 5, 6]),
    (b"s1:c255", 1, &[255]),
    (b"s1:c256,c1919", 1, &[1_919, 256]),
    (b"s99:c99.c101,c254,c255", 99, &[255, 254, 101, 100, 99]),
];

/// What is almost a text.
const NO_TEXTS: &[&[u8]] = &[
    b"",
    b"s",
    b"3",
    b"S3",
    b"s03",
    b"s256",
    b"s3 ",
    b" s3",
    b"s3:",
    b"s3c0",
    b"s3:0",
    b"s3:c",
    b"s3:c00",
    b"s3:c1920",
    b"s3:c0,",
    b"s3:c0,,c2",
    b"s3:,c0",
    b"s3:c2,c0",
    b"s3:c0,c0",
    b"s3:c0,c1,c2",
    b"s3:c0.c1",
    b"s3:c0.c0",
    b"s3:c2.c0",
    b"s3:c0.c2,c3",
    b"s3:c0.c2.c4",
    b"s3:c0.",
    b"s3:.c2",
    b"s3:c0;c2",
    b"s3:c0:c2",
    b"s3:c0,s2",
    b"s3s3",
    b"s3:c0.c2,c5\n",
];

/// Long texts, each with the domain, the sensitivity and the compartments of its label.
const LONG_TEXTS: &[(&[u8], u32, u8, &[u16])] = &[
    (b"0/0/-", 0, 0, &[]),
    (b"1/3/c0.c2,c5", 1, 3, &[0, 1, 2, 5]),
    (b"4294967295/255/c1919", 4_294_967_295, 255, &[1_919]),
];

/// What is almost a long text.
const NO_LONG_TEXTS: &[&[u8]] = &[
    b"",
    b"/",
    b"1/3",
    b"1/3/",
    b"1//-",
    b"/3/-",
    b"01/3/-",
    b"1/03/-",
    b"1/256/-",
    b"4294967296/3/-",
    b"1/3/--",
    b"1/3/-c0",
    b"1/3/c0,-",
    b"1/3/c1920",
    b"1/3/c0/c1",
    b"1/s3/c0",
    b"1/3/c0,c1,c2",
    b"1/3/c0 ",
];

/// What is almost the runs of compartments.
const NO_RUNS: &[&[u8]] = &[b"", b"-", b"c0,c1,c2", b"3:c0", b"s3:c0"];

/// Bytes in the format of a number, with the level that they spell.
const SPELLINGS: &[(u32, &[u8], Result<Level, ReadError>)] = &[
    (
        101,
        b"\x00\x00\x00\x01\x01\x03\xe4\x00\x00\x00",
        Ok(Level(1)),
    ),
    (101, b"\x00\x00\x00\x01\x00\x00", Ok(Level(0))),
    (
        101,
        b"\x00\x00\x00\x01\x01\x03\x00\x00\x00\x00",
        Err(ReadError::BadLabel),
    ),
    (
        101,
        b"\x00\x00\x00\x01\x01\x03\x00\x00\x00\x01",
        Err(ReadError::BadLabel),
    ),
    (102, b"s3:c0.c2,c5", Ok(Level(1))),
    (102, b"s3:c0,c1,c2", Err(ReadError::BadLabel)),
    (103, b"open", Ok(Level(0))),
    (103, b"shut", Err(ReadError::BadLabel)),
    (105, b"1/3/c0.c2,c5", Ok(Level(1))),
    (105, b"1/0/-", Ok(Level(0))),
    (105, b"2/0/-", Err(ReadError::BadLabel)),
    (105, b"1/0/", Err(ReadError::BadLabel)),
    (999, b"open", Err(ReadError::WrongLfs)),
];

/// The format of a number and a level, with the bytes that spell it.
const SPELLED: &[(u32, u32, &[u8])] = &[
    (101, 1, b"\x00\x00\x00\x01\x01\x03\xe4\x00\x00\x00"),
    (101, 0, b"\x00\x00\x00\x01\x00\x00"),
    (102, 1, b"s3:c0.c2,c5"),
    (102, 0, b"s0"),
    (103, 0, b"open"),
    (105, 1, b"1/3/c0.c2,c5"),
    (105, 0, b"1/0/-"),
];

/// Whether the bytes are read as a label.
fn is_read(alloc: Global, bytes: &[u8], label: &Label) -> Result<bool, AllocError> {
    match read_text(alloc, 7, bytes)? {
        Some(read) => Ok(read == *label),
        None => Ok(false),
    }
}

/// Whether the bytes are what is written of a label, or nothing is where there are none.
fn is_written(
    alloc: Global,
    doi: u32,
    label: &Label,
    bytes: Option<&[u8]>,
) -> Result<bool, AllocError> {
    match write_text(alloc, doi, label)? {
        Some(text) => Ok(bytes == Some(text.as_slice())),
        None => Ok(bytes.is_none()),
    }
}

fn expect_text(
    rt: &impl Abort,
    alloc: Global,
    bytes: &[u8],
    sens: u8,
    comps: &[u16],
) -> Result<(), Fail> {
    let label = Label::new(alloc, 7, sens, comps)?;
    let is_text = is_read(alloc, bytes, &label)?
        && is_written(alloc, 7, &label, Some(bytes))?
        && is_written(alloc, 8, &label, None)?;
    assert!(rt; is_text, "{bytes:?}");
    Ok(())
}

fn expect_texts(rt: &impl Abort, alloc: Global) -> Result<(), Fail> {
    for (bytes, sens, comps) in TEXTS {
        expect_text(rt, alloc, bytes, *sens, comps)?;
    }
    Ok(())
}

fn expect_no_texts(rt: &impl Abort, alloc: Global) -> Result<(), AllocError> {
    for bytes in NO_TEXTS {
        assert!(rt; read_text(alloc, 7, bytes)?.is_none(), "{bytes:?}");
    }
    Ok(())
}

fn expect_runs(rt: &impl Abort, alloc: Global) -> Result<(), Fail> {
    let label = Label::new(alloc, 1, 3, &[0, 1, 2, 5])?;
    assert!(rt; write_comps(alloc, &label)?.as_slice() == b"c0.c2,c5".as_slice());
    match read_comps(alloc, 1, 3, b"c0.c2,c5")? {
        Some(read) => assert!(rt; read == label),
        None => return Err(Fail::from("no runs")),
    }
    Ok(())
}

fn expect_no_runs(rt: &impl Abort, alloc: Global) -> Result<(), AllocError> {
    for bytes in NO_RUNS {
        assert!(rt; read_comps(alloc, 1, 3, bytes)?.is_none(), "{bytes:?}");
    }
    Ok(())
}

#[test]
fn texts_are_read_and_written(rt: HostRuntime) -> Result<(), Fail> {
    let alloc = rt.alloc();
    expect_texts(&rt, alloc)?;
    expect_no_texts(&rt, alloc)?;
    expect_runs(&rt, alloc)?;
    expect_no_runs(&rt, alloc)?;
    Ok(())
}

/// Whether the bytes are read as a label, and written of it.
fn is_long(alloc: Global, bytes: &[u8], label: &Label) -> Result<bool, AllocError> {
    let Some(read) = read_long(alloc, bytes)? else {
        return Ok(false);
    };
    match write_long(alloc, label)? {
        Some(text) => Ok(read == *label && text.as_slice() == bytes),
        None => Ok(false),
    }
}

#[test]
fn long_texts_are_read_and_written(rt: HostRuntime) -> Result<(), Fail> {
    let alloc = rt.alloc();
    for (bytes, doi, sens, comps) in LONG_TEXTS {
        let label = Label::new(alloc, *doi, *sens, comps)?;
        assert!(rt; is_long(alloc, bytes, &label)?, "{bytes:?}");
    }
    for bytes in NO_LONG_TEXTS {
        assert!(rt; read_long(alloc, bytes)?.is_none(), "{bytes:?}");
    }
    Ok(())
}

/// A label of so many compartments, each beside one that it doesn't have.
fn scattered(alloc: Global, count: u16) -> Result<Label, AllocError> {
    let mut label = Label::bare(alloc, 1, 0);
    for number in 0..count {
        let comp = number.saturating_mul(2);
        if comp < COMPARTMENTS {
            label.insert(comp)?;
        }
    }
    Ok(label)
}

/// The most compartments, each beside one that is absent, of a label that has a text.
const TEXT_COUNT: u16 = 215;

#[test]
fn texts_of_1024_bytes_and_no_longer(rt: HostRuntime) -> Result<(), Fail> {
    let alloc = rt.alloc();
    let short = scattered(alloc, TEXT_COUNT)?;
    let text = write_text(alloc, 1, &short)?.ok_or("no text")?;
    assert!(rt; text.len() == 1022);
    let read = read_text(alloc, 1, &text)?.ok_or("no label")?;
    assert!(rt; read == short);
    let long = scattered(alloc, TEXT_COUNT + 1)?;
    assert!(rt; write_text(alloc, 1, &long)?.is_none());
    assert!(rt; write_long(alloc, &long)?.is_none());
    Ok(())
}

/// The names of one label.
fn one_name(alloc: Global, label: Label) -> Result<Kind, AllocError> {
    let bytes = Octets::from_slice(alloc, b"open")?;
    let mut rows = Vec::new(alloc);
    rows.push(NameRow { label, bytes })?;
    let rows = Items::new(rows);
    Ok(Kind::Name { rows })
}

fn add(formats: &mut Formats, pair: Pair, kind: Kind) -> Result<(), Fail> {
    let Pair { lfs, pi } = pair;
    match formats.add(FormatEntry { lfs, pi, kind }) {
        Ok(()) => Ok(()),
        Err(_error) => Err(Fail::from("not added")),
    }
}

/// Formats of the four kinds, of which one has a name for one label.
pub fn four_formats(alloc: Global, named: Label, pairs: [Pair; 4]) -> Result<Formats, Fail> {
    let [body, text, name, long] = pairs;
    let mut formats = Formats::new(alloc);
    add(&mut formats, body, Kind::Calipso)?;
    add(&mut formats, text, Kind::Text { doi: 1 })?;
    add(&mut formats, name, one_name(alloc, named)?)?;
    add(&mut formats, long, Kind::Long)?;
    Ok(formats)
}

const PAIRS: [Pair; 4] = [
    Pair { lfs: 101, pi: 1 },
    Pair { lfs: 102, pi: 1 },
    Pair { lfs: 103, pi: 1 },
    Pair { lfs: 105, pi: 1 },
];

/// The number of the first format.
fn first_number(formats: &Formats) -> Option<u32> {
    match formats.first() {
        Some(entry) => Some(entry.lfs),
        None => None,
    }
}

fn expect_added(rt: &impl Abort, formats: &mut Formats) {
    let again = FormatEntry {
        lfs: 102,
        pi: 1,
        kind: Kind::Calipso,
    };
    assert!(rt; formats.add(again) == Err(AddError::Taken));
    assert!(rt; first_number(formats) == Some(101));
}

#[test]
fn formats_are_added(rt: HostRuntime) -> Result<(), Fail> {
    let none = Formats::new(rt.alloc());
    assert!(rt; first_number(&none).is_none());
    let mut formats = four_formats(rt.alloc(), Label::bare(rt.alloc(), 1, 0), PAIRS)?;
    expect_added(&rt, &mut formats);
    Ok(())
}

fn expect_read(rt: &impl Abort, codecs: &Codecs, lattice: &Lattice, formats: &Formats) {
    for (lfs, bytes, level) in SPELLINGS {
        let found = formats.read(codecs, lattice, *lfs, 1, bytes);
        assert!(rt; found == *level, "{lfs} {bytes:?}");
    }
}

/// Whether the bytes are what is written of a level.
fn is_spelled(
    codecs: &Codecs,
    lattice: &Lattice,
    formats: &Formats,
    lfs: u32,
    level: Level,
    bytes: &[u8],
) -> bool
    requires { level.0 < length lattice.now }
{
    match formats.write(codecs, lattice, lfs, 1, level) {
        Ok(text) => text.as_slice() == bytes,
        Err(_error) => false,
    }
}

fn expect_written(rt: &impl Abort, codecs: &Codecs, lattice: &Lattice, formats: &Formats) {
    for (lfs, level, bytes) in SPELLED {
        assert!(rt; lattice.holds(Level(*level)));
        let spelled = is_spelled(codecs, lattice, formats, *lfs, Level(*level), bytes);
        assert!(rt; spelled, "{lfs} {level}");
    }
}

/// Why a level isn't written.
fn refusal(
    codecs: &Codecs,
    lattice: &Lattice,
    formats: &Formats,
    pair: Pair,
    level: Level,
) -> Option<WriteError>
    requires { level.0 < length lattice.now }
{
    formats
        .write(codecs, lattice, pair.lfs, pair.pi, level)
        .err()
}

fn expect_unwritten(rt: &impl Abort, codecs: &Codecs, lattice: &Lattice, formats: &Formats) {
    assert!(rt; lattice.holds(Level(1)));
    let unnamed = Pair { lfs: 103, pi: 1 };
    let error = refusal(codecs, lattice, formats, unnamed, Level(1));
    assert!(rt; error == Some(WriteError::NotInFormat));
    let unknown = Pair { lfs: 103, pi: 2 };
    let error = refusal(codecs, lattice, formats, unknown, Level(1));
    assert!(rt; error == Some(WriteError::WrongLfs));
}

/// Two levels.
pub fn two_levels(alloc: Global, bottom: Label) -> Result<Lattice, Fail> {
    let top = Label::new(alloc, 1, 3, &[0, 1, 2, 5])?;
    Ok(Lattice::new(alloc, &[bottom, top])?)
}

fn expect_levels(rt: &impl Abort, codecs: &Codecs, lattice: &Lattice, formats: &Formats) {
    assert_eq!(rt; lattice.len(), 2);
    expect_read(rt, codecs, lattice, formats);
    expect_written(rt, codecs, lattice, formats);
    expect_unwritten(rt, codecs, lattice, formats);
}

#[test]
fn levels_are_read_and_written(rt: HostRuntime) -> Result<(), Fail> {
    let alloc = rt.alloc();
    let codecs = codecs_of(alloc)?;
    let lattice = two_levels(alloc, Label::bare(alloc, 1, 0))?;
    let formats = four_formats(alloc, Label::bare(alloc, 1, 0), PAIRS)?;
    expect_levels(&rt, &codecs, &lattice, &formats);
    Ok(())
}

/// A codec of a kind's number that never finds memory.
fn failing_codec(alloc: Global, number: u32) -> Result<Codec, AllocError>
    ensures { IfOk result (λ codec. codec.kind ≡ number) }
{
    let read = |kind: &Kind, bytes: &[u8]|
        ensures { IfOk result (λ label. label ≡ reads kind.now bytes.now) }
    { Err(AllocError) };
    let write = |kind: &Kind, label: &Label|
        ensures { IfOk result (λ text. option_map (λ v. v.items) text ≡ writes kind.now label.now) }
    { Err(AllocError) };
    let read = Box::new(alloc, read)?;
    Ok(Codec::new(number, read, Box::new(alloc, write)?))
}

fn failing_codecs(alloc: Global) -> Result<Codecs, AllocError> {
    let calipso = failing_codec(alloc, 0)?;
    let text = failing_codec(alloc, 1)?;
    let name = failing_codec(alloc, 2)?;
    let long = failing_codec(alloc, 3)?;
    Ok(Codecs::new(calipso, text, name, long))
}

fn expect_no_memory(rt: &impl Abort, codecs: &Codecs, lattice: &Lattice, formats: &Formats) {
    assert!(rt; lattice.holds(Level(0)));
    let bytes = b"\x00\x00\x00\x01\x00\x00";
    assert!(rt; formats.read(codecs, lattice, 101, 1, bytes) == Err(ReadError::Memory));
    let [body, _, _, _] = PAIRS;
    let error = refusal(codecs, lattice, formats, body, Level(0));
    assert!(rt; error == Some(WriteError::Memory));
}

#[test]
fn the_stored_closures_are_called(rt: HostRuntime) -> Result<(), Fail> {
    let alloc = rt.alloc();
    let codecs = failing_codecs(alloc)?;
    let lattice = Lattice::new(alloc, &[Label::bare(alloc, 1, 0)])?;
    let formats = four_formats(alloc, Label::bare(alloc, 1, 0), PAIRS)?;
    expect_no_memory(&rt, &codecs, &lattice, &formats);
    Ok(())
}
