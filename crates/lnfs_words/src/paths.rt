//! Paths as words spell them.

ghost use Rattle.std.specs.Prelude.{◌≡◌};
ghost use Rattle.std.specs.List.{list_all};
ghost use Rattle.lnfs_words.specs.Paths.{before_last, is_component, is_name_byte, is_path, parent_of};

use crate::parts::Parts;
use crate::words::spells;

/// The most names of a path.
const MAX_COMPONENTS: usize = 16;

/// The longest name, in bytes.
const MAX_NAME: usize = 255;

fn all_name_bytes(name: &[u8]) -> bool
    ensures { result ≡ list_all is_name_byte name.now }
{
    name.iter().all(|b| 32 < *b && *b < 127 && *b != b'/')
}

/// Whether the name is one: from 1 to 255 printable ASCII bytes other than space and slash, and neither `.` nor `..`.
pub fn is_component(name: &[u8]) -> bool
    ensures { result ≡ is_component name.now }
{
    !name.is_empty()
        && name.len() <= MAX_NAME
        && all_name_bytes(name)
        && !spells(name, ".")
        && !spells(name, "..")
}

/// Whether the path is from 1 to 16 names, each behind a slash.
#[tactic(auto, unfolding(crate::specs::Paths::is_path))]
pub fn is_path(path: &[u8]) -> bool
    ensures { result ≡ is_path path.now }
{
    let mut names = Parts::new(path, b'/');
    let Some(front) = names.next() else {
        return false;
    };
    if !front.is_empty() {
        return false;
    }
    let mut count = 0;
    while let Some(name) = names.next() {
        if count == MAX_COMPONENTS || !is_component(name) {
            return false;
        }
        count += 1;
    }
    count > 0
}

/// The bytes before the last separator; none where there is no separator.
fn before_last<'a>(text: &'a [u8], separator: u8) -> &'a [u8]
    ensures { result.now ≡ before_last separator text.now }
{
    let mut front = text;
    while let Some((last, rest)) = front.split_last() {
        if *last == separator {
            return rest;
        }
        front = rest;
    }
    front
}

/// The path of the directory that holds that of a path; the root's has no bytes.
pub fn parent_of(path: &[u8]) -> &[u8]
    ensures { result.now ≡ parent_of path.now }
{
    before_last(path, b'/')
}
