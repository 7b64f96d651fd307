ghost use Rattle.std.specs.Prelude.{◌≡◌, ◌==◌, nat_lt, nat_le, ◌+◌, ◌≤◌, length};
ghost use Rattle.std.specs.List.{list_any};
ghost use Rattle.std.specs.Int.{w32, w64};
ghost use Rattle.lnfs_xdr.specs.Reading.{number_at, boolean_at, count_at, among_at, long_among_at, byte_at, padded_at, opaque_at, raw_at};
ghost use Rattle.lnfs_xdr.specs.Cursor.{Gives};

use crate::error::XdrError;
use crate::slices::{
    boolean_of, byte_of, count_of, long_of, opaque_of, padded_of, raw_of, word_of,
};
use std::marker::Model;

/// Reads items from the front of bytes. A refusal leaves it where it was. No call takes memory.
#[derive(Debug, Drop)]
pub struct XdrReader<'a> {
    total: usize,
    rest: &'a [u8],
}

impl<'a> Model for XdrReader<'a> {
    ghost use Rattle.std.specs.Prelude.{◌≤◌, length};
    ghost use Rattle.lnfs_xdr.specs.Cursor.{Cursor};

    ghost Value = { Cursor };

    ghost view = { λ r. record { total = r.total; rest = r.rest.now } };

    ghost invariant = { λ r. length r.rest.now ≤ r.total };
}

impl<'a> XdrReader<'a> {
    /// A reader at the front of the bytes.
    pub fn new(bytes: &'a [u8]) -> XdrReader<'a>
        ensures { result ≡ record { total = length bytes.now; rest = bytes.now } }
    {
        XdrReader {
            total: bytes.len(),
            rest: bytes,
        }
    }

    /// How many bytes were read.
    pub fn at(&self) -> usize
        ensures { result + length self.now.rest ≡ self.now.total }
    {
        self.total - self.rest.len()
    }

    /// The bytes that are left.
    pub fn rest(&self) -> &'a [u8]
        ensures { result.now ≡ self.now.rest }
    {
        self.rest
    }

    /// An unsigned integer (RFC 4506 section 4.2). `Short` where fewer than 4 bytes are left.
    pub fn u32(&mut self) -> Result<u32, XdrError>
        ensures { Gives (λ n. n) result self.old self.new (number_at w32 self.old.rest) }
    {
        let (value, rest) = word_of(self.rest)?;
        self.rest = rest;
        Ok(value)
    }

    /// An unsigned hyper integer (RFC 4506 section 4.5). `Short` where fewer than 8 bytes are left.
    pub fn u64(&mut self) -> Result<u64, XdrError>
        ensures { Gives (λ n. n) result self.old self.new (number_at w64 self.old.rest) }
    {
        let (value, rest) = long_of(self.rest)?;
        self.rest = rest;
        Ok(value)
    }

    /// A boolean (RFC 4506 section 4.4). `BadBool` where the word is neither 0 nor 1.
    pub fn boolean(&mut self) -> Result<bool, XdrError>
        ensures { Gives (λ b. b) result self.old self.new (boolean_at self.old.rest) }
    {
        let (value, rest) = boolean_of(self.rest)?;
        self.rest = rest;
        Ok(value)
    }

    /// The length word of an array of at most `max` elements (RFC 4506 section 4.13). `TooLong`
    /// where the word is there and above `max`.
    pub fn array_len(&mut self, max: u32) -> Result<u32, XdrError>
        ensures { Gives (λ n. n) result self.old self.new (count_at max self.old.rest) }
    {
        let (value, rest) = count_of(self.rest, max)?;
        self.rest = rest;
        Ok(value)
    }

    /// So many bytes, and their pad bytes, whatever these are (RFC 4506 section 4.9).
    pub fn fixed(&mut self, n: usize) -> Result<&'a [u8], XdrError>
        requires { n ≤ 16777216 }
        ensures { Gives (λ v. v.now) result self.old self.new (padded_at n self.old.rest) }
    {
        let (value, rest) = padded_of(self.rest, n)?;
        self.rest = rest;
        Ok(value)
    }

    /// So many bytes as they stand, with no pad: no item of XDR. `Short` where fewer are left.
    pub fn raw(&mut self, n: usize) -> Result<&'a [u8], XdrError>
        ensures { Gives (λ v. v.now) result self.old self.new (raw_at n self.old.rest) }
    {
        let (value, rest) = raw_of(self.rest, n)?;
        self.rest = rest;
        Ok(value)
    }

    /// A length word of at most `max`, so many bytes, and their pad bytes, whatever these are
    /// (RFC 4506 section 4.10). `TooLong` where the length word is there and above `max`, however
    /// many bytes are left.
    pub fn opaque(&mut self, max: u32) -> Result<&'a [u8], XdrError>
        requires { max ≤ 16777216 }
        ensures { Gives (λ v. v.now) result self.old self.new (opaque_at max self.old.rest) }
    {
        let (value, rest) = opaque_of(self.rest, max)?;
        self.rest = rest;
        Ok(value)
    }

    /// A word that is the expected one, as the tag of a union of which one arm is served
    /// (RFC 4506 section 4.15). `BadBool` where it is another.
    pub fn constant(&mut self, expected: u32) -> Result<u32, XdrError>
        ensures { Gives (λ n. n) result self.old self.new
            (among_at (λ n. n == expected) self.old.rest) }
    {
        let (value, rest) = word_of(self.rest)?;
        if value != expected {
            return Err(XdrError::BadBool);
        }
        self.rest = rest;
        Ok(value)
    }

    /// A word that is one of these, as an enumeration is (RFC 4506 section 4.3). `BadBool` where it is another.
    pub fn among(&mut self, values: &[u32]) -> Result<u32, XdrError>
        ensures { Gives (λ n. n) result self.old self.new
            (among_at (λ n. list_any (λ v. v == n) values.now) self.old.rest) }
    {
        let (value, rest) = word_of(self.rest)?;
        if !values.contains(&value) {
            return Err(XdrError::BadBool);
        }
        self.rest = rest;
        Ok(value)
    }

    /// A hyper integer that is the expected one. `BadBool` where it is another.
    pub fn long_constant(&mut self, expected: u64) -> Result<u64, XdrError>
        ensures { Gives (λ n. n) result self.old self.new
            (long_among_at (λ n. n == expected) self.old.rest) }
    {
        let (value, rest) = long_of(self.rest)?;
        if value != expected {
            return Err(XdrError::BadBool);
        }
        self.rest = rest;
        Ok(value)
    }

    /// A hyper integer of at most `max`. `BadBool` where it is above.
    pub fn long_at_most(&mut self, max: u64) -> Result<u64, XdrError>
        ensures { Gives (λ n. n) result self.old self.new
            (long_among_at (λ n. nat_le n max) self.old.rest) }
    {
        let (value, rest) = long_of(self.rest)?;
        if value > max {
            return Err(XdrError::BadBool);
        }
        self.rest = rest;
        Ok(value)
    }

    /// A single byte of at most `max`: no item of XDR. `Short` where none is left, `BadBool` where it is above.
    pub fn byte(&mut self, max: u8) -> Result<u8, XdrError>
        ensures { Gives (λ n. n) result self.old self.new
            (byte_at (λ n. nat_le n max) self.old.rest) }
    {
        let (value, rest) = byte_of(self.rest, max)?;
        self.rest = rest;
        Ok(value)
    }

    /// A word that is not 0. `BadBool` where it is.
    pub fn nonzero(&mut self) -> Result<u32, XdrError>
        ensures { Gives (λ n. n) result self.old self.new
            (among_at (λ n. nat_lt 0 n) self.old.rest) }
    {
        let (value, rest) = word_of(self.rest)?;
        if value == 0 {
            return Err(XdrError::BadBool);
        }
        self.rest = rest;
        Ok(value)
    }
}
