//! Bitmaps of compartments in 32-bit words, in the bit order of RFC 5570.

ghost use Rattle.std.specs.Prelude.{◌≡◌, ℕ, ◌<◌, ◌≤◌, ◌/◌, ◌^◌, ◌==◌, ◌||◌, length, slice_index, OnErr, OnOk};
ghost use Rattle.std.specs.List.{list_all};
ghost use Rattle.std.specs.Str.{bytes_eq};
ghost use Rattle.lnfs_calipso.specs.Label.{has_comp};
ghost use Rattle.lnfs_calipso.specs.Bitmap.{is_marked, members, IsBitmap};

use std::alloc::AllocError;

/// The number of compartments, from 0 to 1,919.
pub const COMPARTMENTS: u16 = 1920;

/// The largest number of words of a bitmap.
pub const BITMAP_WORDS: usize = 60;

/// The bits of a word.
const WORD_BITS: u16 = 32;

/// The word at a place; past the end it is zero.
fn word_at(words: &[u32], place: usize) -> u32
    ensures { result ≡ slice_index words.now place }
{
    match words.get(place) {
        Some(word) => *word,
        None => 0,
    }
}

/// Whether the bit of a compartment is set.
pub fn has(words: &[u32], comp: u16) -> bool
    ensures { result ≡ is_marked words.now comp }
{
    (word_at(words, usize::from(comp / WORD_BITS)) >> (WORD_BITS - 1 - comp % WORD_BITS)) & 1 == 1
}

/// Sets the bit of a compartment, in a bitmap with its word.
fn mark(words: &mut [u32], comp: u16)
    requires { comp / WORD_BITS < length words.old }
    ensures fits { (k : ℕ) → slice_index words.new k < 2 ^ 32 }
    ensures marked { (c : ℕ) → is_marked words.new c ≡ (is_marked words.old c || comp == c) }
    ensures higher { (k : ℕ) → slice_index words.old k ≤ slice_index words.new k }
    ensures used { 0 < slice_index words.new (comp / WORD_BITS) }
{
    words[usize::from(comp / WORD_BITS)] |= 1u32 << (WORD_BITS - 1 - comp % WORD_BITS);
}

/// Adds a compartment.
///
/// # Errors
///
/// `AllocError` where there is no memory. Then nothing has changed.
pub fn insert(words: &mut Vec<u32>, comp: u16) -> Result<(), AllocError>
    requires below { comp < COMPARTMENTS }
    requires bitmap { IsBitmap words.old.items }
    ensures bitmap { IsBitmap words.new.items }
    ensures marked { OnOk result ((c : ℕ) → is_marked words.new.items c
        ≡ (is_marked words.old.items c || comp == c)) }
    ensures kept { OnErr result (words.new.items ≡ words.old.items) }
{
    let count = usize::from(comp / WORD_BITS) + 1;
    if words.len() < count {
        words.resize(count, 0)?;
    }
    mark(words, comp);
    Ok(())
}

/// Whether each compartment of the one is a compartment of the other.
pub fn covers(high: &[u32], low: &[u32]) -> bool
    requires high { IsBitmap high.now }
    requires low { IsBitmap low.now }
    ensures { result ≡ list_all (has_comp (members high.now)) (members low.now) }
{
    for (place, word) in low.iter().enumerate() {
        if *word & !word_at(high, place) != 0 {
            return false;
        }
    }
    true
}

/// Whether the two bitmaps have the same compartments.
pub fn same(a: &[u32], b: &[u32]) -> bool
    requires a { IsBitmap a.now }
    requires b { IsBitmap b.now }
    ensures { result ≡ bytes_eq (members a.now) (members b.now) }
{
    a == b
}
