//! Bitmaps and attributes (RFC 8881 section 5).
ghost use Rattle.std.specs.Prelude.{◌≤◌, ◌<◌, length, IfOk};

use lnfs_attrs::{
    AttrError, AttrSet, Bitmap, LabelValue, Moment, RawAttrs, View, answered, asks_inner,
    read_bitmap, read_settable, supported, write_attrs, write_bitmap,
};
use lnfs_types::Octets;
use lnfs_xdr::{XdrReader, XdrWriter};
use std::alloc::{AllocError, Global};
use std::process::Abort;

/// A directory of level 1 in the first format of its policy.
fn view(alloc: Global, error: u32) -> Result<View, AllocError>
    ensures { IfOk result (λ v. length v.label.bytes ≤ 1024) }
{
    let label: [u8; 10] = [0, 0, 0, 1, 1, 1, 0x80, 0, 0, 0];
    let moment = Moment { secs: 5, nanos: 6 };
    Ok(View {
        kind: 2,
        change: 7,
        size: 1,
        handle: [0, 0, 0, 0, 0, 0, 0, 0, 0, 0, 0, 2],
        fileid: 2,
        mode: 493,
        links: 2,
        avail: 4096,
        used: 9,
        access: moment,
        metadata: moment,
        modify: moment,
        label: LabelValue {
            lfs: 101,
            pi: 1,
            bytes: Octets::from_slice(alloc, &label)?,
        },
        error,
    })
}

/// The bitmap of the attributes, which are below 256.
fn asked(rt: &impl Abort, attrs: &[u32]) -> Bitmap {
    let mut map = Bitmap::empty();
    for attr in attrs {
        assert!(rt; *attr < 256);
        map.insert(*attr);
    }
    map
}

/// What `write_attrs` appends.
fn values(alloc: Global, asked: &Bitmap, inner: bool, error: u32) -> Result<Vec<u8>, AllocError> {
    let view = view(alloc, error)?;
    let mut out = XdrWriter::new(alloc);
    write_attrs(asked, &view, inner, &mut out)?;
    Ok(out.into_bytes())
}

/// What `write_bitmap` appends.
fn written(alloc: Global, map: &Bitmap) -> Result<Vec<u8>, AllocError> {
    let mut out = XdrWriter::new(alloc);
    write_bitmap(map, &mut out)?;
    Ok(out.into_bytes())
}

/// The bitmap at the head of bytes.
fn bitmap_in(bytes: &[u8]) -> Option<Bitmap> {
    read_bitmap(&mut XdrReader::new(bytes)).ok()
}

#[test]
fn a_bitmap_of_given_attributes(rt: HostRuntime) -> Result<(), AllocError> {
    assert_eq!(rt; Bitmap::of(&[]), Bitmap::empty());
    let map = asked(&rt, &[80, 1, 33, 80]);
    assert_eq!(rt; map.words, [2, 2, 0x10000, 0, 0, 0, 0, 0]);
    let bytes = written(rt.alloc(), &map)?;
    let laid_out: [u8; 16] = [0, 0, 0, 3, 0, 0, 0, 2, 0, 0, 0, 2, 0, 1, 0, 0];
    assert_eq!(rt; bytes.as_slice(), laid_out.as_slice());
    Ok(())
}

#[test]
fn a_bitmap_with_zero_words_at_its_end(rt: HostRuntime) -> Result<(), AllocError> {
    let bytes: [u8; 16] = [0, 0, 0, 3, 0, 0, 0, 2, 0, 0, 0, 0, 0, 0, 0, 0];
    let map = bitmap_in(&bytes).expect(&rt, "a bitmap");
    assert_eq!(rt; map, asked(&rt, &[1]));
    let shorter = written(rt.alloc(), &map)?;
    assert_eq!(rt; shorter.as_slice(), [0, 0, 0, 1, 0, 0, 0, 2].as_slice());
    assert!(rt; bitmap_in(&[0, 0, 0, 9]).is_none());
    assert!(rt; bitmap_in(&[255, 255, 255, 255]).is_none());
    Ok(())
}

/// Compares the values of attributes with bytes.
fn values_are(
    rt: &impl Abort,
    alloc: Global,
    attrs: &[u32],
    how: (bool, u32),
    want: &[u8],
) -> Result<(), AllocError> {
    let (inner, error) = how;
    let map = asked(rt, attrs);
    let bytes = values(alloc, &map, inner, error)?;
    assert_eq!(rt; bytes.as_slice(), want);
    Ok(())
}

/// Compares which of the attributes are answered.
fn are_answered(rt: &impl Abort, attrs: &[u32], inner: bool, want: &[u32]) {
    let found = answered(&asked(rt, attrs), inner);
    assert_eq!(rt; found, asked(rt, want));
}

/// The type, the size, rdattr_error, sec_label, and an attribute that no table has.
const SOME: [u32; 5] = [1, 4, 11, 80, 81];

#[test]
fn values_of_a_directory(rt: HostRuntime) -> Result<(), AllocError> {
    let alloc = rt.alloc();
    let open: [u8; 32] = [
        0, 0, 0, 2, 0, 0, 0, 13, 0, 0, 0, 0x65, 0, 0, 0, 1, 0, 0, 0, 10, 0, 0, 0, 1, 1, 1, 0x80, 0,
        0, 0, 0, 0,
    ];
    values_are(&rt, alloc, &SOME, (false, 13), &open)?;
    are_answered(&rt, &SOME, false, &[1, 11, 80]);
    let whole: [u8; 40] = [
        0, 0, 0, 2, 0, 0, 0, 0, 0, 0, 0, 1, 0, 0, 0, 0, 0, 0, 0, 0x65, 0, 0, 0, 1, 0, 0, 0, 10, 0,
        0, 0, 1, 1, 1, 0x80, 0, 0, 0, 0, 0,
    ];
    values_are(&rt, alloc, &SOME, (true, 0), &whole)?;
    are_answered(&rt, &SOME, true, &[1, 4, 11, 80]);
    // supported_attrs and suppattr_exclcreat
    let lists: [u8; 32] = [
        0, 0, 0, 3, 0, 0x18, 0x0f, 0xff, 0, 0xb0, 0x81, 0x7a, 0, 1, 8, 0, 0, 0, 0, 3, 0, 0, 0,
        0x10, 0, 0, 0, 2, 0, 1, 0, 0,
    ];
    values_are(&rt, alloc, &[0, 75], (false, 0), &lists)?;
    // the owner
    let owner: [u8; 12] = [0, 0, 0, 6, 110, 111, 98, 111, 100, 121, 0, 0];
    values_are(&rt, alloc, &[36], (false, 0), &owner)
}

/// Compares what one attribute asks for with the bitmap of those that are supported.
fn asks_for(rt: &impl Abort, attr: u32, map: &Bitmap)
    requires { attr < 256 }
{
    let mut one = Bitmap::empty();
    one.insert(attr);
    assert_eq!(rt; supported(&one), map.has(attr), "at {attr}");
    let inner = matches!(attr, 3 | 4 | 33 | 35 | 47 | 52 | 53);
    assert_eq!(rt; asks_inner(&one), inner, "at {attr}");
}

#[test]
fn the_table_is_what_is_supported(rt: HostRuntime) {
    let map = Bitmap {
        words: [0x00180fff, 0x00b0817a, 0x00010800, 0, 0, 0, 0, 0],
    };
    assert!(rt; supported(&map));
    for attr in 0..256u32 {
        asks_for(&rt, attr, &map);
    }
}

/// What `read_settable` answers, as a number: 0 of a set.
fn number_of(answer: &Result<AttrSet, AttrError>) -> u32 {
    match answer {
        Ok(_) => 0,
        Err(AttrError::AttrNotSupp) => 10032,
        Err(AttrError::Inval) => 22,
        Err(AttrError::BadXdr) => 10036,
        Err(AttrError::Memory) => 1,
    }
}

/// What `read_settable` answers of attributes and their list.
fn judged(
    alloc: Global,
    mask: Bitmap,
    list: &[u8],
) -> Result<Result<AttrSet, AttrError>, AllocError> {
    let raw = RawAttrs {
        mask,
        list: Octets::from_slice(alloc, list)?,
    };
    Ok(read_settable(alloc, &raw))
}

/// Compares the number of the answer.
fn are_judged(
    rt: &impl Abort,
    alloc: Global,
    attrs: &[u32],
    list: &[u8],
    want: u32,
) -> Result<(), AllocError> {
    let answer = judged(alloc, asked(rt, attrs), list)?;
    assert_eq!(rt; number_of(&answer), want);
    Ok(())
}

/// Compares what is set: the size, the mode and the label.
fn are_set(rt: &impl Abort, set: &AttrSet) {
    assert_eq!(rt; set.size, Some(9));
    assert_eq!(rt; set.mode, Some(420));
    match &set.label {
        Some(label) => {
            assert_eq!(rt; label.lfs, 101);
            assert_eq!(rt; label.bytes.as_slice(), [7u8, 8].as_slice());
        }
        None => panic!(rt; "no label"),
    }
}

/// The values of the attributes 4, 33 and 80.
const VALUES: [u8; 28] = [
    0, 0, 0, 0, 0, 0, 0, 9, 0, 0, 1, 0xa4, 0, 0, 0, 101, 0, 0, 0, 1, 0, 0, 0, 2, 7, 8, 1, 1,
];

/// An attribute outside of the table comes first, then one that can't be set, then the list.
fn are_refused(rt: &impl Abort, alloc: Global) -> Result<(), AllocError> {
    are_judged(rt, alloc, &[1, 81], &VALUES, 10032)?;
    are_judged(rt, alloc, &[1, 4], &VALUES, 22)?;
    are_judged(rt, alloc, &[4], &VALUES, 10036)?;
    are_judged(rt, alloc, &[4, 33, 80], &VALUES[..27], 10036)
}

#[test]
fn attributes_that_are_set(rt: HostRuntime) -> Result<(), AllocError> {
    let alloc = rt.alloc();
    are_judged(&rt, alloc, &[4, 33, 80], &VALUES, 0)?;
    match judged(alloc, asked(&rt, &[4, 33, 80]), &VALUES)? {
        Ok(set) => are_set(&rt, &set),
        Err(refused) => panic!(rt; "{refused:?}"),
    }
    are_refused(&rt, alloc)?;
    are_judged(&rt, alloc, &[], &[], 0)
}
