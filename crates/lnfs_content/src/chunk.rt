//! One chunk, and the zeros of one that is absent.

ghost use Rattle.std.specs.Prelude.{◌≡◌, ℕ, ◌+◌, ◌-◌, ◌<◌, ◌≤◌, ◌&&◌, ◌++◌, cond, min, not, nat_le, nat_lt, [], length, take, replicate, OnOk, OnErr};
ghost use Rattle.std.specs.Vec.{vec_capacity};
ghost use Rattle.lnfs_content.specs.Bytes.{IsSame, over, byte_in, bytes_from};
ghost use Rattle.lnfs_content.specs.Sparse.{is_zeros};

use crate::limits::CHUNK;
use lnfs_xdr::XdrWriter;
use std::alloc::{AllocError, Global};
use std::marker::Model;

/// Bytes, behind which all are zeros. It may have room for more.
#[derive(Drop)]
pub(crate) struct Chunk {
    bytes: Vec<u8>,
}

impl Model for Chunk {
    ghost use Rattle.std.specs.Prelude.{List, ℕ};
    ghost use Rattle.std.specs.Vec.{vec_capacity};
    ghost use Rattle.lnfs_content.specs.Bytes.{with_room};

    ghost Value = { List ℕ };

    // The bytes, and the zeros of the room behind them.
    ghost view = { λ c. with_room (vec_capacity c.bytes) c.bytes.items };
}

/// Sets bytes that are there, from a place on.
fn set_bytes(bytes: &mut Vec<u8>, at: usize, set: &[u8])
    requires { at + length set.now ≤ length bytes.old.items }
    ensures items { bytes.new.items ≡ over at set.now bytes.old.items }
    ensures capacity { vec_capacity bytes.new ≡ vec_capacity bytes.old }
{
    let part = &mut bytes[at..at + set.len()];
    part.copy_from_slice(set);
}

/// Makes zeros of bytes that are there, from a place up to another.
fn set_zeros(bytes: &mut Vec<u8>, at: usize, end: usize)
    requires begun { at ≤ end }
    requires there { end ≤ length bytes.old.items }
    ensures items { bytes.new.items ≡ over at (replicate (end - at) 0) bytes.old.items }
    ensures capacity { vec_capacity bytes.new ≡ vec_capacity bytes.old }
{
    let part = &mut bytes[at..end];
    part.fill(0);
}

/// Sets the bytes from a place on, for which there is room, and behind which none are. What is between is zeros.
fn set_end(bytes: &mut Vec<u8>, at: usize, set: &[u8])
    requires { at + length set.now ≤ vec_capacity bytes.old }
    ensures items { bytes.new.items ≡ (take at bytes.old.items
        ++ replicate (at - length bytes.old.items) 0) ++ set.now }
    ensures capacity { vec_capacity bytes.old ≤ vec_capacity bytes.new }
{
    let Ok(()) = bytes.resize(at, 0) else {
        unreachable!();
    };
    let Ok(()) = bytes.extend_from_slice(set) else {
        unreachable!();
    };
}

impl Chunk {
    /// No bytes. Takes no memory.
    pub(crate) fn new(alloc: Global) -> Chunk
        ensures { result ≡ [] }
    {
        Chunk {
            bytes: Vec::new(alloc),
        }
    }

    /// Makes room for the bytes below a place. No byte changes.
    pub(crate) fn grow(&mut self, to: usize) -> Result<(), AllocError>
        ensures same { IsSame self.old self.new }
        ensures kept { length self.old ≤ length self.new }
        ensures room { OnOk result (to ≤ length self.new) }
    {
        let len = self.bytes.len();
        if to <= len {
            return Ok(());
        }
        self.bytes.reserve(to - len)
    }

    /// How many bytes there is room for.
    pub(crate) fn room(&self) -> usize
        ensures { result ≡ length self.now }
    {
        self.bytes.capacity().max(self.bytes.len())
    }

    /// Sets the bytes from a place on, for which there is room.
    pub(crate) fn put(&mut self, at: usize, bytes: &[u8])
        requires room { at + length bytes.now ≤ length self.old }
        requires short { at + length bytes.now ≤ CHUNK }
        ensures bytes { (i : ℕ) → byte_in self.new i
            ≡ cond (nat_le at i && nat_lt i (at + length bytes.now)) (byte_in bytes.now (i - at))
            (byte_in self.old i) }
        ensures kept { length self.old ≤ length self.new }
    {
        if at + bytes.len() <= self.bytes.len() {
            set_bytes(&mut self.bytes, at, bytes);
        } else {
            set_end(&mut self.bytes, at, bytes);
        }
    }

    /// Cuts the bytes from a place on, which are zeros then.
    pub(crate) fn cut(&mut self, to: usize)
        ensures { (i : ℕ) → byte_in self.new i ≡ cond (nat_lt i to) (byte_in self.old i) 0 }
    {
        self.bytes.truncate(to);
    }

    /// Makes zeros of so many bytes from a place on. Takes no memory, and gives back that of a chunk that goes whole.
    pub(crate) fn zero(&mut self, alloc: Global, at: usize, count: usize)
        requires { at + count ≤ CHUNK }
        ensures bytes { (i : ℕ) → i < CHUNK → byte_in self.new i
            ≡ cond (nat_le at i && nat_lt i (at + count)) 0 (byte_in self.old i) }
        ensures whole { at ≡ 0 → count ≡ CHUNK → self.new ≡ [] }
        ensures behind { (i : ℕ) → i < CHUNK → at + count ≤ i → i < length self.old →
            i < length self.new }
    {
        let end = at + count;
        if end < self.bytes.len().min(CHUNK) {
            set_zeros(&mut self.bytes, at, end);
            return;
        }
        if at == 0 && end >= self.bytes.capacity().min(CHUNK) {
            self.bytes = Vec::new(alloc);
            return;
        }
        self.bytes.truncate(at);
    }

    /// So many of the bytes from a place on, but for zeros behind them.
    pub(crate) fn part(&self, at: usize, count: usize) -> &[u8]
        requires { at + count ≤ CHUNK }
        ensures length { length result.now ≤ min count (length self.now - at) }
        ensures bytes { (k : ℕ) → k < count → byte_in result.now k ≡ byte_in self.now (at + k) }
    {
        let start = at.min(self.bytes.len());
        let end = (at + count).min(self.bytes.len());
        &self.bytes[start..end]
    }

    /// Whether there is a byte that is no zero.
    pub(crate) fn has_data(&self) -> bool
        ensures { result ≡ not (is_zeros (take CHUNK self.now)) }
    {
        let end = self.bytes.len().min(CHUNK);
        let bytes = &self.bytes[..end];
        for byte in bytes {
            if *byte != 0 {
                return true;
            }
        }
        false
    }

    /// Appends so many of the bytes from a place on.
    pub(crate) fn append_to(
        &self,
        at: usize,
        count: usize,
        out: &mut XdrWriter,
    ) -> Result<(), AllocError>
        requires { at + count ≤ CHUNK }
        ensures ok { OnOk result (out.new ≡ out.old ++ bytes_from (byte_in self.now) at count) }
        ensures err { OnErr result (out.new ≡ out.old) }
    {
        let mark = out.mark();
        let start = at.min(self.bytes.len());
        let end = (at + count).min(self.bytes.len());
        out.raw(&self.bytes[start..end])?;
        let Ok(()) = append_zeros(count - (end - start), out) else {
            out.truncate(mark);
            return Err(AllocError);
        };
        Ok(())
    }
}

/// Appends so many zeros.
pub(crate) fn append_zeros(count: usize, out: &mut XdrWriter) -> Result<(), AllocError>
    requires { count ≤ CHUNK }
    ensures ok { OnOk result (out.new ≡ out.old ++ replicate count 0) }
    ensures err { OnErr result (out.new ≡ out.old) }
{
    if count == 0 {
        return Ok(());
    }
    let zeros = [0; CHUNK];
    out.raw(&zeros[..count])
}
