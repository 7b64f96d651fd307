//! Bytes as words spell them in hex.

ghost use Rattle.std.specs.Prelude.{◌≡◌, IfOk};
ghost use Rattle.std.specs.List.{list_all};
ghost use Rattle.std.specs.Option.{option_map};
ghost use Rattle.lnfs_words.specs.Hex.{hex_of, is_lower_digit, lower_hex_of, lower_hex_sized};

use hex::{FromHex, FromHexError};
use std::alloc::{AllocError, Global};

fn is_lower_hex(word: &[u8]) -> bool
    ensures { result ≡ list_all is_lower_digit word.now }
{
    word.iter().all(|b| matches!(*b, b'0'..=b'9' | b'a'..=b'f'))
}

/// The bytes that a word spells in hex of either case, where it does.
///
/// # Errors
///
/// `AllocError` where there is no memory.
pub fn bytes_of(alloc: Global, word: &[u8]) -> Result<Option<Vec<u8>>, AllocError>
    ensures { IfOk result (λ bytes. option_map (λ v. v.items) bytes ≡ hex_of word.now) }
{
    match hex::decode(alloc, word) {
        Ok(bytes) => Ok(Some(bytes)),
        Err(FromHexError::OutOfMemory) => Err(AllocError),
        Err(_) => Ok(None),
    }
}

/// The bytes that a word spells in hex of lower case, where it does.
///
/// # Errors
///
/// `AllocError` where there is no memory.
#[tactic(auto, unfolding(crate::specs::Hex::lower_hex_of))]
pub fn lower_bytes_of(alloc: Global, word: &[u8]) -> Result<Option<Vec<u8>>, AllocError>
    ensures { IfOk result (λ bytes. option_map (λ v. v.items) bytes ≡ lower_hex_of word.now) }
{
    if !is_lower_hex(word) {
        return Ok(None);
    }
    bytes_of(alloc, word)
}

/// The 32 bytes that a word spells in hex of lower case, where it does.
#[tactic(auto, unfolding(crate::specs::Hex::lower_hex_sized))]
pub fn lower_secret_of(word: &[u8]) -> Option<[u8; 32]>
    ensures { result ≡ lower_hex_sized 32 word.now }
{
    if !is_lower_hex(word) {
        return None;
    }
    match <[u8; 32] as FromHex>::from_hex(word) {
        Ok(secret) => Some(secret),
        Err(_) => None,
    }
}
