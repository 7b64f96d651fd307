//! Words of a text.

ghost use Rattle.std.specs.Prelude.{◌≡◌};
ghost use Rattle.std.specs.Str.{bytes_eq};
ghost use Rattle.lnfs_words.specs.Words.{is_ascii, is_word, is_worded};

use crate::parts::Parts;

/// Whether the word is the text.
pub fn spells(word: &[u8], text: &str) -> bool
    ensures { result ≡ bytes_eq word.now text.now }
{
    word == text.as_bytes()
}

/// Whether all bytes are ASCII.
pub fn is_ascii(text: &[u8]) -> bool
    ensures { result ≡ is_ascii text.now }
{
    text.iter().all(|b| *b < 128)
}

fn is_word(word: &[u8]) -> bool
    ensures { result ≡ is_word word.now }
{
    !word.is_empty() && is_ascii(word)
}

/// Whether the text is words of ASCII bytes with single spaces between.
pub fn is_worded(text: &[u8]) -> bool
    ensures { result ≡ is_worded text.now }
{
    let mut words = Parts::new(text, b' ');
    while let Some(word) = words.next() {
        if !is_word(word) {
            return false;
        }
    }
    true
}
