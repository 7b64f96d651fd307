//! The body of a label on the wire (RFC 5570 section 5.1).

ghost use Rattle.std.specs.Prelude.{◌≡◌, ◌≤◌, ◌+◌, ◌++◌, true, length, drop, slice_index, IfOk, OnOk};
ghost use Rattle.std.specs.List.{flat_map};
ghost use Rattle.std.specs.Int.{to_be_bytes, from_be_bytes, w32};
ghost use Rattle.lnfs_calipso.specs.Body.{body_of, announced, words_in, is_body, label_of_body};

use crate::bitmap::BITMAP_WORDS;
use crate::label::Label;
use std::alloc::{AllocError, Global};

/// The bytes before the bitmap: the DOI, the number of words and the sensitivity.
const HEAD: usize = 6;

/// The bytes of a word of the bitmap.
const WORD: usize = 4;

/// The word that begins at a place.
fn word_from(bytes: &[u8], at: usize) -> u32
    requires { at + WORD ≤ length bytes.now }
    ensures { result ≡ from_be_bytes w32 (drop at bytes.now) }
{
    u32::from_be_bytes([bytes[at], bytes[at + 1], bytes[at + 2], bytes[at + 3]])
}

fn is_body(bytes: &[u8]) -> bool
    ensures { result ≡ is_body bytes.now }
{
    if bytes.len() < HEAD {
        return false;
    }
    let words = usize::from(bytes[4]);
    words <= BITMAP_WORDS
        && bytes.len() == HEAD + WORD * words
        && (words == 0 || word_from(bytes, bytes.len() - WORD) > 0)
}

/// The words of the bitmap of a body.
fn read_words(alloc: Global, bytes: &[u8]) -> Result<Vec<u32>, AllocError>
    requires { is_body bytes.now ≡ true }
    ensures { IfOk result (λ words. words.items ≡ words_in (announced bytes.now) (drop 6 bytes.now)) }
{
    let count = usize::from(bytes[4]);
    let mut words = Vec::with_capacity(alloc, count)?;
    for place in 0..count {
        words.push(word_from(bytes, HEAD + WORD * place))?;
    }
    Ok(words)
}

/// The label whose body the bytes are, if they are one.
///
/// # Errors
///
/// `AllocError` where there is no memory.
pub fn read_label(alloc: Global, bytes: &[u8]) -> Result<Option<Label>, AllocError>
    ensures { IfOk result (λ label. label ≡ label_of_body bytes.now) }
{
    if !is_body(bytes) {
        return Ok(None);
    }
    let doi = word_from(bytes, 0);
    let words = read_words(alloc, bytes)?;
    Ok(Some(Label::of_words(doi, bytes[5], words)))
}

/// Appends the words of a bitmap.
fn put_words(bytes: &mut Vec<u8>, words: &[u32]) -> Result<(), AllocError>
    ensures { OnOk result (bytes.new.items ≡ bytes.old.items
        ++ flat_map (to_be_bytes w32) words.now) }
{
    for word in words {
        bytes.extend_from_slice(&word.to_be_bytes())?;
    }
    Ok(())
}

/// The body of a label.
///
/// # Errors
///
/// `AllocError` where there is no memory.
pub fn write_label(alloc: Global, label: &Label) -> Result<Vec<u8>, AllocError>
    ensures { IfOk result (λ bytes. bytes.items ≡ body_of label.now) }
{
    let words = label.words();
    let mut bytes = Vec::with_capacity(alloc, HEAD + WORD * words.len())?;
    bytes.extend_from_slice(&label.doi().to_be_bytes())?;
    bytes.push(words.len() as u8)?;
    bytes.push(label.sens())?;
    put_words(&mut bytes, words)?;
    Ok(bytes)
}
