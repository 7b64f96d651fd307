//! The parts of a text between separators.

ghost use Rattle.std.specs.Prelude.{◌≡◌, ◌==◌, [], ◌∷◌, MatchOption, position};
ghost use Rattle.std.specs.Option.{option_copied, option_map};
ghost use Rattle.lnfs_words.specs.Words.{split, is_empty, one_of, two_of, three_of, four_of};

use std::marker::Model;

/// The parts that are left of a text, seen as their list.
#[derive(Drop)]
pub struct Parts<'a> {
    rest: Option<&'a [u8]>,
    separator: u8,
}

impl<'a> Model for Parts<'a> {
    ghost use Rattle.std.specs.Prelude.{List, ℕ};
    ghost use Rattle.std.specs.Option.{option_copied};
    ghost use Rattle.lnfs_words.specs.Words.{parts_of};

    ghost Value = { List (List ℕ) };

    ghost view = { λ p. parts_of p.separator (option_copied p.rest) };
}

fn place_of(text: &[u8], separator: u8) -> Option<usize>
    ensures { result ≡ position (λ b. b == separator) text.now }
{
    text.iter().position(|b| *b == separator)
}

impl<'a> Parts<'a> {
    /// The parts of a text, one more than it has separators.
    pub fn new(text: &'a [u8], separator: u8) -> Parts<'a>
        ensures { result ≡ split separator text.now }
    {
        Parts {
            rest: Some(text),
            separator,
        }
    }

    /// Whether no part is left.
    pub fn is_done(&self) -> bool
        ensures { result ≡ is_empty self.now }
    {
        self.rest.is_none()
    }

    /// The next part.
    pub fn next(&mut self) -> Option<&'a [u8]>
        ensures { MatchOption result ((self.old ≡ []) × (self.new ≡ [])) (λ part. self.old
            ≡ part.now ∷ self.new) }
    {
        let rest = self.rest?;
        match place_of(rest, self.separator) {
            Some(place) => {
                self.rest = Some(&rest[place + 1..]);
                Some(&rest[..place])
            }
            None => {
                self.rest = None;
                Some(rest)
            }
        }
    }

    /// The part that is left, where there is one.
    pub fn one(mut self) -> Option<&'a [u8]>
        ensures { option_copied result ≡ one_of self.entry }
    {
        match (self.next(), self.next()) {
            (Some(a), None) => Some(a),
            _ => None,
        }
    }

    /// The parts that are left, where there are two.
    pub fn two(mut self) -> Option<(&'a [u8], &'a [u8])>
        ensures { option_map (λ p. (p.0.now, p.1.now)) result ≡ two_of self.entry }
    {
        match (self.next(), self.next(), self.next()) {
            (Some(a), Some(b), None) => Some((a, b)),
            _ => None,
        }
    }

    /// The parts that are left, where there are three.
    pub fn three(mut self) -> Option<(&'a [u8], &'a [u8], &'a [u8])>
        ensures { option_map (λ p. (p.0.now, p.1.now, p.2.now)) result ≡ three_of self.entry }
    {
        match (self.next(), self.next(), self.next(), self.next()) {
            (Some(a), Some(b), Some(c), None) => Some((a, b, c)),
            _ => None,
        }
    }

    /// The parts that are left, where there are four.
    pub fn four(mut self) -> Option<(&'a [u8], &'a [u8], &'a [u8], &'a [u8])>
        ensures { option_map (λ p. (p.0.now, p.1.now, p.2.now, p.3.now)) result
            ≡ four_of self.entry }
    {
        match (
            self.next(),
            self.next(),
            self.next(),
            self.next(),
            self.next(),
        ) {
            (Some(a), Some(b), Some(c), Some(d), None) => Some((a, b, c, d)),
            _ => None,
        }
    }
}
