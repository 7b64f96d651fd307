//! Items of XDR (RFC 4506).
use lnfs_xdr::{XdrError, XdrReader, XdrWriter};
use std::alloc::{AllocError, Global};
use std::process::Abort;

/// What a reader of bytes answers, and how many bytes it has read then.
fn boolean_in(bytes: &[u8]) -> (Result<bool, XdrError>, usize) {
    let mut reader = XdrReader::new(bytes);
    let found = reader.boolean();
    (found, reader.at())
}

fn opaque_in(bytes: &[u8]) -> (Result<&[u8], XdrError>, usize) {
    let mut reader = XdrReader::new(bytes);
    let found = reader.opaque(5);
    (found, reader.at())
}

#[test]
fn booleans(rt: HostRuntime) {
    let cases: [(&[u8], Result<bool, XdrError>, usize); 5] = [
        (&[0, 0, 0, 0], Ok(false), 4),
        (&[0, 0, 0, 1, 9], Ok(true), 4),
        (&[0, 0, 0, 2], Err(XdrError::BadBool), 0),
        (&[1, 0, 0, 1], Err(XdrError::BadBool), 0),
        (&[0, 0, 1], Err(XdrError::Short), 0),
    ];
    for (bytes, want, at) in cases {
        assert_eq!(rt; boolean_in(bytes), (want, at));
    }
}

#[test]
fn opaques(rt: HostRuntime) {
    let cases: [(&[u8], Result<&[u8], XdrError>, usize); 7] = [
        (&[0, 0, 0, 0, 7], Ok(&[]), 4),
        (
            &[0, 0, 0, 5, 1, 2, 3, 4, 5, 255, 254, 253],
            Ok(&[1, 2, 3, 4, 5]),
            12,
        ),
        (&[0, 0, 0, 5, 1, 2, 3, 4, 5, 0, 0], Err(XdrError::Short), 0),
        (&[0, 0, 0, 4, 1, 2, 3], Err(XdrError::Short), 0),
        (&[0, 0, 0, 6], Err(XdrError::TooLong), 0),
        (&[255, 255, 255, 255, 1], Err(XdrError::TooLong), 0),
        (&[0, 0, 0], Err(XdrError::Short), 0),
    ];
    for (bytes, want, at) in cases {
        assert_eq!(rt; opaque_in(bytes), (want, at));
    }
}

/// Writes one item of each kind.
fn write_items(out: &mut XdrWriter) -> Result<(), AllocError> {
    out.u32(0x01020304)?;
    out.u64(0x05060708090a0b0c)?;
    out.boolean(true)?;
    out.fixed(&[1, 2, 3])?;
    out.opaque(&[4, 5])
}

/// Writes two words, and takes the second back.
fn write_words(out: &mut XdrWriter) -> Result<(), AllocError> {
    out.u32(3)?;
    let mark = out.mark();
    out.u32(4)?;
    out.truncate(mark);
    Ok(())
}

fn items(alloc: Global) -> Result<Vec<u8>, AllocError> {
    let mut out = XdrWriter::with_capacity(alloc, 64)?;
    write_items(&mut out)?;
    write_words(&mut out)?;
    Ok(out.into_bytes())
}

fn numbers_are_read(rt: &impl Abort, reader: &mut XdrReader<'_>) {
    assert_eq!(rt; reader.u32(), Ok(0x01020304));
    assert_eq!(rt; reader.u64(), Ok(0x05060708090a0b0c));
    assert_eq!(rt; reader.boolean(), Ok(true));
}

fn bytes_are_read(rt: &impl Abort, reader: &mut XdrReader<'_>) {
    assert_eq!(rt; reader.fixed(3), Ok([1, 2, 3].as_slice()));
    assert_eq!(rt; reader.opaque(2), Ok([4, 5].as_slice()));
    assert_eq!(rt; reader.array_len(2), Err(XdrError::TooLong));
    assert_eq!(rt; (reader.at(), reader.rest().len()), (28, 4));
}

fn the_rest_is_read(rt: &impl Abort, reader: &mut XdrReader<'_>) {
    assert_eq!(rt; reader.raw(5), Err(XdrError::Short));
    assert_eq!(rt; reader.raw(3), Ok([0, 0, 0].as_slice()));
    assert_eq!(rt; reader.rest(), [3].as_slice());
    assert_eq!(rt; reader.u32(), Err(XdrError::Short));
}

/// Writes a word where no room was made before.
fn a_word_is_written(rt: &impl Abort, alloc: Global) -> Result<(), AllocError> {
    let mut out = XdrWriter::new(alloc);
    out.u32(7)?;
    assert_eq!(rt; out.into_bytes().as_slice(), [0, 0, 0, 7].as_slice());
    Ok(())
}

#[test]
fn items_one_after_the_other(rt: HostRuntime) -> Result<(), AllocError> {
    let bytes = items(rt.alloc())?;
    let want = [
        1, 2, 3, 4, 5, 6, 7, 8, 9, 10, 11, 12, 0, 0, 0, 1, 1, 2, 3, 0, 0, 0, 0, 2, 4, 5, 0, 0, 0,
        0, 0, 3,
    ];
    assert_eq!(rt; bytes.as_slice(), want.as_slice());
    let mut reader = XdrReader::new(&bytes);
    numbers_are_read(&rt, &mut reader);
    bytes_are_read(&rt, &mut reader);
    the_rest_is_read(&rt, &mut reader);
    a_word_is_written(&rt, rt.alloc())
}
