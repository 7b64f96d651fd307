//! Paths with their components.
use lnfs_script::{Components, is_root_or_path, last_component};
use lnfs_words::is_path;
use std::process::Abort;

/// Whether the bytes are `/` or a path.
const PATHS: &[(&[u8], bool)] = &[
    (b"/", true),
    (b"/a", true),
    (b"/a/b", true),
    (b"", false),
    (b"a", false),
    (b"//", false),
    (b"/a/", false),
    (b"/.", false),
];

/// Paths, with the components of each.
const COMPONENTS: &[(&[u8], &[&[u8]])] = &[
    (b"/", &[]),
    (b"/a", &[b"a"]),
    (b"/one/b.c/~", &[b"one", b"b.c", b"~"]),
];

fn expect(rt: &impl Abort, path: &[u8], wanted: &[&[u8]]) {
    let mut names = Components::of(path);
    for name in wanted {
        assert!(rt; names.next() == Some(*name), "{path:?}");
    }
    assert!(rt;
        names.next().is_none() && names.next().is_none(),
        "{path:?}"
    );
}

/// The last component of a path, where the bytes are one.
fn last(path: &[u8]) -> Option<&[u8]> {
    if !is_path(path) {
        return None;
    }
    Some(last_component(path))
}

#[test]
fn components_of_paths(rt: HostRuntime) {
    for (path, valid) in PATHS {
        assert!(rt; is_root_or_path(path) == *valid, "{path:?}");
    }
    for (path, wanted) in COMPONENTS {
        expect(&rt, path, wanted);
    }
    assert!(rt; last(b"/a") == Some(b"a".as_slice()));
    assert!(rt; last(b"/one/b.c") == Some(b"b.c".as_slice()));
}
