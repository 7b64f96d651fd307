//! Words of a line, and what they spell.
use lnfs_words::{
    Parts, bytes_of, is_ascii, is_component, is_path, is_worded, lower_bytes_of, lower_secret_of,
    number, number_up_to, parent_of,
};
use std::alloc::{AllocError, Global};
use std::process::Abort;
use std::test::Fail;

/// Words, with the number that each spells.
const NUMBERS: &[(&[u8], Option<u32>)] = &[
    (b"0", Some(0)),
    (b"7", Some(7)),
    (b"4294967295", Some(4_294_967_295)),
    (b"4294967296", None),
    (b"99999999999999999999", None),
    (b"", None),
    (b"00", None),
    (b"07", None),
    (b"+7", None),
    (b"-7", None),
    (b"7 ", None),
    (b"0x7", None),
];

#[test]
fn numbers(rt: HostRuntime) {
    for (word, value) in NUMBERS {
        assert!(rt; number(word) == *value, "{word:?}");
    }
    assert!(rt; number_up_to(u64::MAX, b"18446744073709551615") == Some(u64::MAX));
    assert!(rt; number_up_to(32_768, b"32768") == Some(32_768));
    assert!(rt; number_up_to(32_768, b"32769").is_none());
}

/// Words in hex, with the bytes that they spell in digits of either case, and in small ones alone.
const HEX: &[(&[u8], Option<&[u8]>, Option<&[u8]>)] = &[
    (b"", Some(b""), Some(b"")),
    (b"6f00", Some(b"o\x00"), Some(b"o\x00")),
    (b"6F00", Some(b"o\x00"), None),
    (b"6", None, None),
    (b"6g", None, None),
];

/// Whether the bytes are those wanted, or there are none where none are.
fn are(bytes: Option<Vec<u8>>, wanted: Option<&[u8]>) -> bool {
    match bytes {
        Some(bytes) => wanted == Some(bytes.as_slice()),
        None => wanted.is_none(),
    }
}

fn expect_bytes(rt: &impl Abort, alloc: Global) -> Result<(), AllocError> {
    for (word, either, lower) in HEX {
        let spelled = are(bytes_of(alloc, word)?, *either);
        let small = are(lower_bytes_of(alloc, word)?, *lower);
        assert!(rt; spelled && small, "{word:?}");
    }
    Ok(())
}

#[test]
fn bytes_in_hex(rt: HostRuntime) -> Result<(), AllocError> {
    expect_bytes(&rt, rt.alloc())?;
    let secret = b"0101010101010101010101010101010101010101010101010101010101010101";
    assert!(rt; lower_secret_of(secret) == Some([1; 32]));
    assert!(rt; lower_secret_of(b"01").is_none());
    Ok(())
}

/// Paths, and what is none.
const PATHS: &[(&[u8], bool)] = &[
    (b"/a", true),
    (b"/a/b.c", true),
    (b"/...", true),
    (b"/1/2/3/4/5/6/7/8/9/10/11/12/13/14/15/16", true),
    (b"/1/2/3/4/5/6/7/8/9/10/11/12/13/14/15/16/17", false),
    (b"", false),
    (b"/", false),
    (b"a", false),
    (b"/a/", false),
    (b"//a", false),
    (b"/..", false),
    (b"/a b", false),
];

fn expect_parts(rt: &impl Abort) -> Result<(), Fail> {
    let words = Parts::new(b"dir /a 1", b' ').three();
    let (_dir, path, level) = words.ok_or("not three words")?;
    assert!(rt; path == b"/a".as_slice() && level == b"1".as_slice());
    assert!(rt; Parts::new(b"dir /a 1", b' ').two().is_none());
    Ok(())
}

fn expect_words(rt: &impl Abort) {
    assert!(rt;
        is_worded(b"dir /a 1") && !is_worded(b"dir  /a") && !is_worded(b"") && !is_worded(b"a\xff")
    );
    assert!(rt; is_ascii(b"\x7f") && !is_ascii(b"\x80"));
}

fn expect_paths(rt: &impl Abort) {
    for (path, valid) in PATHS {
        assert!(rt; is_path(path) == *valid, "{path:?}");
    }
    assert!(rt; is_component(b"a.b") && !is_component(b"a/b") && !is_component(b"."));
    assert!(rt; parent_of(b"/a/b") == b"/a".as_slice() && parent_of(b"/a").is_empty());
}

#[test]
fn words_and_paths(rt: HostRuntime) -> Result<(), Fail> {
    expect_parts(&rt)?;
    expect_words(&rt);
    expect_paths(&rt);
    Ok(())
}
