ghost use Rattle.std.specs.Prelude.{◌≡◌, ◌==◌, ◌||◌, ◌&&◌, ◌↔◌, ◌++◌, ◌<◌, ◌≤◌, ◌^◌, ℕ, IsTrue, false, length, take, All, OnOk, OnErr};
ghost use Rattle.lnfs_xdr.specs.Written.{Extends};
ghost use Rattle.std.specs.List.{list_any};
ghost use Rattle.lnfs_xdr.specs.Reading.{read};
ghost use Rattle.lnfs_xdr.specs.Cursor.{Parses};
ghost use Rattle.lnfs_attrs.specs.Attributes.{AllAsked};
ghost use Rattle.lnfs_attrs.specs.Bitmaps.{wide, bitmap, so_many_words, trimmed, words_text, bitmap_text, has_attr};

use lnfs_xdr::{XdrError, XdrReader, XdrWriter};
use std::alloc::AllocError;

/// The most words of a bitmap.
pub const WORD_LIMIT: usize = 8;
/// The bits of a word.
const BITS: u32 = 32;

/// A set of attributes (`bitmap4`, RFC 8881 section 3.2): bit `n` of word `k` says whether
/// attribute `32 * k + n` is in it.
///
/// Zero words at the end are the same bitmap as none, so they are read and never written.
#[derive(Clone, Copy, Debug, PartialEq, Eq)]
pub struct Bitmap {
    pub words: [u32; WORD_LIMIT],
}

impl Bitmap {
    /// The bitmap of no attribute.
    pub fn empty() -> Bitmap
        ensures { (n : ℕ) → has_attr result n ≡ false }
    {
        Bitmap {
            words: [0; WORD_LIMIT],
        }
    }

    /// The bitmap of exactly these attributes. Takes no memory.
    pub fn of(attrs: &[u32]) -> Bitmap
        requires { All (λ n. n < 256) attrs.now }
        ensures { (n : ℕ) → has_attr result n ≡ list_any (λ m. m == n) attrs.now }
    {
        let mut map = Bitmap::empty();
        for attr in attrs {
            map.insert(*attr);
        }
        map
    }

    /// The bitmap whose first words are these.
    pub fn of_words(words: [u32; 3]) -> Bitmap
        ensures { result ≡ wide words }
    {
        Bitmap {
            words: [words[0], words[1], words[2], 0, 0, 0, 0, 0],
        }
    }

    /// Whether each attribute of it is in another one too.
    pub fn is_within(&self, other: &Bitmap) -> bool
        ensures { IsTrue result ↔ AllAsked self.now (λ n. has_attr other.now n) }
    {
        for place in 0..WORD_LIMIT {
            if self.words[place] & !other.words[place] != 0 {
                return false;
            }
        }
        true
    }

    /// The attributes that are in both.
    pub fn both(&self, other: &Bitmap) -> Bitmap
        ensures { (n : ℕ) → has_attr result n ≡ (has_attr self.now n && has_attr other.now n) }
    {
        let mut words = [0; WORD_LIMIT];
        for place in 0..WORD_LIMIT {
            words[place] = self.words[place] & other.words[place];
        }
        Bitmap { words }
    }

    /// Puts an attribute in.
    pub fn insert(&mut self, attr: u32)
        requires { attr < 256 }
        ensures { (n : ℕ) → has_attr self.new n ≡ (attr == n || has_attr self.old n) }
    {
        self.words[(attr / BITS) as usize] |= 1 << (attr % BITS);
    }

    /// Whether the attribute is in it.
    pub fn has(&self, attr: u32) -> bool
        ensures { result ≡ has_attr self.now attr }
    {
        let place = (attr / BITS) as usize;
        place < WORD_LIMIT && (self.words[place] >> (attr % BITS)) % 2 == 1
    }
}

/// So many words.
#[tactic(auto, unfolding(crate::specs::Bitmaps::so_many_words))]
fn words_of(reader: &mut XdrReader<'_>, count: u32) -> Result<Bitmap, XdrError>
    requires { count ≤ 8 }
    ensures { Parses (λ b. b) result reader.old reader.new
        (read (so_many_words count) reader.old.rest) }
{
    let mut words = [0; WORD_LIMIT];
    for place in 0..count {
        words[place as usize] = reader.u32()?;
    }
    Ok(Bitmap { words })
}

/// A bitmap of at most 8 words, with zero words at its end or without. A refusal leaves the reader
/// at the item that isn't there. Takes no memory.
#[tactic(auto, unfolding(crate::specs::Bitmaps::bitmap))]
pub fn read_bitmap(reader: &mut XdrReader<'_>) -> Result<Bitmap, XdrError>
    ensures { Parses (λ b. b) result reader.old reader.new (read bitmap reader.old.rest) }
{
    let count = reader.array_len(WORD_LIMIT as u32)?;
    words_of(reader, count)
}

/// How many words there are without the zero ones at the end.
fn used_words(words: &[u32]) -> usize
    ensures within { result ≤ length words.now }
    ensures trimmed { trimmed words.now ≡ take result words.now }
{
    let mut used = 0;
    for (place, word) in words.iter().enumerate() {
        if *word != 0 {
            used = place + 1;
        }
    }
    used
}

fn put_count_and_words(out: &mut XdrWriter, words: &[u32]) -> Result<(), AllocError>
    requires { length words.now < 2 ^ 32 }
    ensures ok { OnOk result (out.new ≡ out.old ++ words_text words.now) }
    ensures err { OnErr result (Extends out.old out.new) }
{
    out.u32(words.len() as u32)?;
    for word in words {
        out.u32(*word)?;
    }
    Ok(())
}

/// Appends an array of words: how many, and the words (RFC 4506 section 4.13). Without memory it
/// appends nothing.
pub fn put_words(out: &mut XdrWriter, words: &[u32]) -> Result<(), AllocError>
    requires { length words.now < 2 ^ 32 }
    ensures ok { OnOk result (out.new ≡ out.old ++ words_text words.now) }
    ensures err { OnErr result (out.new ≡ out.old) }
{
    let mark = out.mark();
    let done = put_count_and_words(out, words);
    if done.is_err() {
        out.truncate(mark);
    }
    done
}

/// Appends the one spelling of a bitmap that has no zero word at its end. Without memory it appends
/// nothing.
#[tactic(auto, unfolding(crate::specs::Bitmaps::bitmap_text))]
pub fn write_bitmap(map: &Bitmap, out: &mut XdrWriter) -> Result<(), AllocError>
    ensures ok { OnOk result (out.new ≡ out.old ++ bitmap_text map.now) }
    ensures err { OnErr result (out.new ≡ out.old) }
{
    let used = used_words(&map.words);
    put_words(out, &map.words[..used])
}
