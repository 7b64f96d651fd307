//! The lines of a script.

ghost use Rattle.std.specs.Prelude.{◌≡◌, [], ◌∷◌, MatchOption};
ghost use Rattle.std.specs.Option.{option_copied};
ghost use Rattle.lnfs_script.specs.Lines.{lines_of};

use lnfs_words::Parts;
use std::marker::Model;

/// The lines that are left of a text, seen as their list.
#[derive(Drop)]
pub struct Lines<'a> {
    parts: Parts<'a>,
}

impl<'a> Model for Lines<'a> {
    ghost use Rattle.std.specs.Prelude.{List, ℕ, Option};
    ghost use Rattle.lnfs_script.specs.Lines.{lines_in};

    ghost Value = { List (Option (List ℕ)) };

    ghost view = { λ l. lines_in l.parts };
}

impl<'a> Lines<'a> {
    /// The lines of a text.
    pub fn new(text: &'a [u8]) -> Lines<'a>
        ensures { result ≡ lines_of text.now }
    {
        Lines {
            parts: Parts::new(text, b'\n'),
        }
    }

    /// The next line without its newline, and within that `None` for bytes behind the last newline of the text.
    pub fn next(&mut self) -> Option<Option<&'a [u8]>>
        ensures { MatchOption result ((self.old ≡ []) × (self.new ≡ []))
            (λ line. self.old ≡ option_copied line ∷ self.new) }
    {
        let part = self.parts.next()?;
        if !self.parts.is_done() {
            return Some(Some(part));
        }
        if part.is_empty() { None } else { Some(None) }
    }
}
