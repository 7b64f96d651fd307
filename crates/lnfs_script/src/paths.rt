//! The paths of a script, and their components.

ghost use Rattle.std.specs.Prelude.{◌≡◌, ◌++◌, [], ◌∷◌, IsTrue, MatchOption};
ghost use Rattle.lnfs_words.specs.Paths.{is_path, parent_of};
ghost use Rattle.lnfs_script.specs.Paths.{is_root_or_path, are_filled, components};

use lnfs_words::{Parts, is_path, parent_of, spells};
use std::marker::Model;

/// Whether the bytes are `/`, or from 1 to 16 names, each behind a slash.
pub fn is_root_or_path(path: &[u8]) -> bool
    ensures { result ≡ is_root_or_path path.now }
{
    spells(path, "/") || is_path(path)
}

/// The next part that isn't empty.
fn next_filled<'a>(parts: &mut Parts<'a>) -> Option<&'a [u8]>
    ensures { MatchOption result ((are_filled parts.old ≡ []) × (are_filled parts.new ≡ []))
        (λ name. are_filled parts.old ≡ name.now ∷ are_filled parts.new) }
{
    while let Some(part) = parts.next() {
        if !part.is_empty() {
            return Some(part);
        }
    }
    None
}

/// The components that are left of a path, seen as their list. The client looks up one after another, from the root on
/// (RFC 8881 section 18.13).
#[derive(Drop)]
pub struct Components<'a> {
    parts: Parts<'a>,
}

impl<'a> Model for Components<'a> {
    ghost use Rattle.std.specs.Prelude.{List, ℕ};
    ghost use Rattle.lnfs_script.specs.Paths.{are_filled};

    ghost Value = { List (List ℕ) };

    ghost view = { λ c. are_filled c.parts };
}

impl<'a> Components<'a> {
    /// The components of a path. `/` has none.
    pub fn of(path: &'a [u8]) -> Components<'a>
        ensures { result ≡ components path.now }
    {
        Components {
            parts: Parts::new(path, b'/'),
        }
    }

    /// The next component.
    pub fn next(&mut self) -> Option<&'a [u8]>
        ensures { MatchOption result ((self.old ≡ []) × (self.new ≡ [])) (λ name. self.old
            ≡ name.now ∷ self.new) }
    {
        next_filled(&mut self.parts)
    }
}

/// The last component of a path. Those before it are the path of the directory that holds it.
pub fn last_component(path: &[u8]) -> &[u8]
    requires { IsTrue (is_path path.now) }
    ensures { components path.now ≡ components (parent_of path.now) ++ result.now ∷ [] }
{
    &path[parent_of(path).len() + 1..]
}
