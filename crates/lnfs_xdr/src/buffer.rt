//! Bytes that grow at their end.
ghost use Rattle.std.specs.Prelude.{◌≡◌, ◌++◌, ◌+◌, ◌<◌, ◌≤◌, ◌^◌, [], length, take, IfOk, OnOk, OnErr};
ghost use Rattle.lnfs_xdr.specs.Canon.{word, long, padded};

use byteorder::{BigEndian, ByteOrder};
use std::alloc::{AllocError, Global};
use std::marker::Model;

/// The bytes of a word (RFC 4506 section 3).
const WORD: usize = 4;
/// The bytes of a hyper integer (RFC 4506 section 4.5).
const LONG: usize = 8;
/// How many places are made beyond those that are needed.
const AHEAD: usize = 128;

/// Bytes that grow at their end. Places behind them are made many at a time and are part of the
/// vector already, so that a word is written where it belongs, with no call that appends it.
#[derive(Drop)]
pub struct Buffer {
    places: Vec<u8>,
    used: usize,
}

impl Model for Buffer {
    ghost use Rattle.std.specs.Prelude.{List, ℕ, ◌≤◌, length, take};

    ghost Value = { List ℕ };

    ghost view = { λ b. take b.used b.places.items };

    ghost invariant = { λ b. b.used ≤ length b.places.items };
}

impl Buffer {
    /// No bytes yet. Takes no memory.
    pub fn new(alloc: Global) -> Buffer
        ensures { result ≡ [] }
    {
        Buffer {
            places: Vec::new(alloc),
            used: 0,
        }
    }

    /// No bytes yet, with room for so many.
    pub fn with_capacity(alloc: Global, capacity: usize) -> Result<Buffer, AllocError>
        ensures { IfOk result (λ buffer. buffer ≡ []) }
    {
        Ok(Buffer {
            places: Vec::with_capacity(alloc, capacity)?,
            used: 0,
        })
    }

    /// How many bytes there are.
    pub fn len(&self) -> usize
        ensures { result ≡ length self.now }
    {
        self.used
    }

    /// Takes back the bytes behind a place. Takes no memory.
    pub fn truncate(&mut self, len: usize)
        ensures { self.new ≡ take len self.old }
    {
        if len < self.used {
            self.used = len;
        }
    }

    /// Appends a word.
    #[inline(always)]
    pub fn word(&mut self, v: u32) -> Result<(), AllocError>
        ensures ok { OnOk result (self.new ≡ self.old ++ word v) }
        ensures err { OnErr result (self.new ≡ self.old) }
    {
        if self.places.len() - self.used < WORD {
            make_places(&mut self.places, self.used, WORD)?;
        }
        put_word(self.places.as_mut_slice(), self.used, v);
        self.used += WORD;
        Ok(())
    }

    /// Appends a hyper integer.
    pub fn long(&mut self, v: u64) -> Result<(), AllocError>
        ensures ok { OnOk result (self.new ≡ self.old ++ long v) }
        ensures err { OnErr result (self.new ≡ self.old) }
    {
        if self.places.len() - self.used < LONG {
            make_places(&mut self.places, self.used, LONG)?;
        }
        put_long(self.places.as_mut_slice(), self.used, v);
        self.used += LONG;
        Ok(())
    }

    /// Appends bytes as they are. No bytes need no places.
    pub fn raw(&mut self, v: &[u8]) -> Result<(), AllocError>
        ensures ok { OnOk result (self.new ≡ self.old ++ v.now) }
        ensures err { OnErr result (self.new ≡ self.old) }
    {
        if v.is_empty() {
            return Ok(());
        }
        if self.places.len() - self.used < v.len() {
            self.places.truncate(self.used);
            self.places.extend_from_slice(v)?;
            self.used = self.places.len();
            return Ok(());
        }
        put_bytes(self.places.as_mut_slice(), self.used, v);
        self.used += v.len();
        Ok(())
    }

    /// Appends bytes and the zeros that fill up their last word.
    #[tactic(auto, unfolding(crate::specs::Canon::padded))]
    pub fn padded(&mut self, v: &[u8]) -> Result<(), AllocError>
        ensures ok { OnOk result (self.new ≡ self.old ++ padded v.now) }
        ensures err { OnErr result (self.new ≡ self.old) }
    {
        let before = self.used;
        let padding = (WORD - v.len() % WORD) % WORD;
        let zeros: [u8; 3] = [0, 0, 0];
        self.raw(v)?;
        if self.raw(&zeros[..padding]).is_err() {
            self.truncate(before);
            return Err(AllocError);
        }
        Ok(())
    }

    /// The bytes. Takes no memory.
    pub fn into_bytes(self) -> Vec<u8>
        ensures { result.items ≡ self }
    {
        let mut bytes = self.places;
        bytes.truncate(self.used);
        bytes
    }
}

/// Makes at least so many places behind those that are used: all that the vector has room for where
/// these are few, so that what was reserved is not outgrown. What stands before them stays.
#[cold]
#[inline(never)]
fn make_places(places: &mut Vec<u8>, used: usize, needed: usize) -> Result<(), AllocError>
    requires { (used ≤ length places.old.items) × (needed ≤ 8) }
    ensures kept { take used places.new.items ≡ take used places.old.items }
    ensures err { OnErr result (length places.new.items ≡ length places.old.items) }
    ensures ok { OnOk result (used + needed ≤ length places.new.items) }
{
    let wanted = used + needed;
    let room = places.capacity();
    let ahead = if wanted <= room && room < wanted + AHEAD {
        room
    } else {
        wanted + AHEAD
    };
    places.resize(ahead, 0)
}

/// Writes a word at a place.
#[tactic(auto, using(crate::proofs::Words::bytes_32), unfolding(crate::specs::Canon::word))]
fn put_word(places: &mut [u8], at: usize, v: u32)
    requires { at + 4 ≤ length places.old }
    ensures put { take (at + 4) places.new ≡ take at places.old ++ word v }
    ensures length { length places.new ≡ length places.old }
{
    BigEndian::write_u32(&mut places[at..], v);
}

/// Writes a hyper integer at a place.
fn put_long(places: &mut [u8], at: usize, v: u64)
    requires { at + 8 ≤ length places.old }
    ensures put { take (at + 8) places.new ≡ take at places.old ++ long v }
    ensures length { length places.new ≡ length places.old }
{
    BigEndian::write_u64(&mut places[at..], v);
}

/// Writes bytes at a place.
#[tactic(auto, using(crate::proofs::Places::placed))]
fn put_bytes(places: &mut [u8], at: usize, v: &[u8])
    requires { at + length v.now ≤ length places.old }
    ensures put { take (at + length v.now) places.new ≡ take at places.old ++ v.now }
    ensures length { length places.new ≡ length places.old }
{
    places[at..at + v.len()].copy_from_slice(v);
}
