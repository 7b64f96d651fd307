//! The bytes of a file.

ghost use Rattle.std.specs.Prelude.{◌≡◌, ◌+◌, ◌≤◌, ◌++◌, true, [], length, nat_le, OnOk, OnErr, IfOk};
ghost use Rattle.lnfs_world.specs.Effects.{sized, written, size_written, read_at};
ghost use Rattle.lnfs_content.specs.Sparse.{zeroed, has_region, next_data, next_hole, lie_apart};

use crate::chunk::Chunk;
use crate::chunks::{append_bytes, cut_chunks, make_room, next_place, put_bytes, zero_chunks};
use crate::copying::{copy_chunks, copy_here, make_room_for};
use crate::limits::fits;
use lnfs_world::numbers::MOST_FILE;
use lnfs_xdr::XdrWriter;
use std::alloc::{AllocError, Global};
use std::marker::Model;

/// The bytes of a file, seen as their list. They are kept in chunks, and zeros that nobody wrote take no memory.
#[derive(Drop)]
pub struct Content {
    chunks: Vec<Chunk>,
    size: usize,
}

impl Model for Content {
    ghost use Rattle.std.specs.Prelude.{List, ℕ};

    ghost Value = { List ℕ };

    ghost use Rattle.lnfs_content.specs.Bytes.{content, IsContent};

    ghost view = { λ c. content c.chunks.items c.size };

    ghost invariant = { λ c. IsContent c.chunks.items c.size };
}

impl Content {
    /// No bytes. Takes no memory.
    pub fn new(alloc: Global) -> Content
        ensures { result ≡ [] }
    {
        Content {
            chunks: Vec::new(alloc),
            size: 0,
        }
    }

    /// How many bytes there are.
    pub fn len(&self) -> u64
        ensures value { result ≡ length self.now }
        ensures limit { result ≤ MOST_FILE }
    {
        self.size as u64
    }

    /// Whether there may be these bytes at an offset. No bytes may be anywhere.
    pub fn takes(&self, offset: u64, bytes: &[u8]) -> bool
        ensures { result ≡ nat_le (size_written offset bytes.now self.now) MOST_FILE }
    {
        // The call says that no more bytes are there than may be.
        let _size = self.len();
        if bytes.is_empty() {
            return true;
        }
        fits(offset, bytes.len())
    }

    /// How many bytes there are from an offset on, up to a count: as many as `read` gives and `append_to` appends.
    pub fn readable(&self, offset: u64, count: u32) -> usize
        ensures { result ≡ length (read_at offset count self.now) }
    {
        let size = self.size as u64;
        if offset >= size {
            return 0;
        }
        (count as usize).min((size - offset) as usize)
    }

    /// Appends the bytes from an offset on, so many or all up to the end (RFC 8881 section 18.22.3).
    ///
    /// # Errors
    ///
    /// Where there is no memory. Then nothing is appended.
    pub fn append_to(&self, offset: u64, count: u32, out: &mut XdrWriter) -> Result<(), AllocError>
        ensures ok { OnOk result (out.new ≡ out.old ++ read_at offset count self.now) }
        ensures err { OnErr result (out.new ≡ out.old) }
    {
        let many = self.readable(offset, count);
        if many == 0 {
            return Ok(());
        }
        let from = offset as usize;
        append_bytes(&self.chunks, from, from + many, out)
    }

    /// The bytes from an offset on, so many or all up to the end (RFC 8881 section 18.22.3).
    ///
    /// # Errors
    ///
    /// Where there is no memory.
    pub fn read(&self, alloc: Global, offset: u64, count: u32) -> Result<Vec<u8>, AllocError>
        ensures { IfOk result (λ bytes. bytes.items ≡ read_at offset count self.now) }
    {
        let mut out = XdrWriter::with_capacity(alloc, self.readable(offset, count))?;
        self.append_to(offset, count, &mut out)?;
        Ok(out.into_bytes())
    }

    /// Writes bytes from an offset on. What is between the end and the offset is zeros (RFC 8881 section 18.32.3), also
    /// where no bytes are written.
    ///
    /// # Errors
    ///
    /// Where there is no memory. Then nothing has changed.
    pub fn write(&mut self, alloc: Global, offset: u64, bytes: &[u8]) -> Result<(), AllocError>
        requires { offset + length bytes.now ≤ MOST_FILE }
        ensures ok { OnOk result (self.new ≡ written offset bytes.now self.old) }
        ensures err { OnErr result (self.new ≡ self.old) }
    {
        let from = offset as usize;
        let end = from + bytes.len();
        make_room(alloc, &mut self.chunks, from, end)?;
        put_bytes(&mut self.chunks, from, bytes);
        if end > self.size {
            self.size = end;
        }
        Ok(())
    }

    /// Cuts the bytes to a size, or fills them up to it with zeros (RFC 8881 section 18.30.3). Takes no memory.
    pub fn set_size(&mut self, size: u64)
        requires { size ≤ MOST_FILE }
        ensures { self.new ≡ sized size self.old }
    {
        let size = size as usize;
        cut_chunks(&mut self.chunks, size);
        self.size = size;
    }

    /// Whether there is a byte from an offset up to another.
    pub fn has(&self, first: u64, end: u64) -> bool
        ensures { result ≡ has_region first end self.now }
    {
        first < end.min(self.len())
    }

    /// Makes zeros of the bytes from an offset up to another (RFC 7862 section 15.4). Whether there was a byte. Takes no
    /// memory, and gives back that of the chunks that go whole.
    pub fn zero(&mut self, alloc: Global, first: u64, end: u64) -> bool
        ensures bytes { self.new ≡ zeroed first end self.old }
        ensures some { result ≡ has_region first end self.old }
    {
        if !self.has(first, end) {
            return false;
        }
        let last = end.min(self.size as u64);
        zero_chunks(alloc, &mut self.chunks, first as usize, last as usize);
        true
    }

    /// The least offset not below one that is in a block with a byte that is no zero (RFC 7862 section 15.11), or how
    /// many bytes there are where none is.
    pub fn next_data(&self, from: u64) -> u64
        ensures { result ≡ next_data from self.now }
    {
        let size = self.size as u64;
        if from >= size {
            return size;
        }
        next_place(&self.chunks, from as usize, self.size, true) as u64
    }

    /// The least offset not below one that is in a block of zeros alone (RFC 7862 section 15.11), or how many bytes there
    /// are where none is.
    pub fn next_hole(&self, from: u64) -> u64
        ensures { result ≡ next_hole from self.now }
    {
        let size = self.size as u64;
        if from >= size {
            return size;
        }
        next_place(&self.chunks, from as usize, self.size, false) as u64
    }

    /// Whether so many bytes are there from an offset on.
    pub fn covers(&self, offset: u64, count: u64) -> bool
        ensures { result ≡ nat_le (offset + count) (length self.now) }
    {
        let size = self.len();
        offset <= size && count <= size - offset
    }

    /// Whether there may be so many bytes of another file at an offset. No bytes may be anywhere.
    pub fn takes_of(&self, other: &Content, from: u64, to: u64, count: u64) -> bool
        requires { from + count ≤ length other.now }
        ensures { result
            ≡ nat_le (size_written to (read_at from count other.now) self.now) MOST_FILE }
    {
        // The calls say that no more bytes are there than may be.
        let _size = self.len();
        let _other = other.len();
        if count == 0 {
            return true;
        }
        fits(to, count as usize)
    }

    /// Copies so many bytes of another file, from an offset there to one here, as `write` would. Zeros that took no
    /// memory there take none here.
    ///
    /// # Errors
    ///
    /// Where there is no memory. Then nothing has changed.
    pub fn copy_from(
        &mut self,
        alloc: Global,
        other: &Content,
        from: u64,
        to: u64,
        count: u64,
    ) -> Result<(), AllocError>
        requires there { from + count ≤ length other.now }
        requires fits { to + count ≤ MOST_FILE }
        ensures ok { OnOk result (self.new ≡ written to (read_at from count other.now) self.old) }
        ensures err { OnErr result (self.new ≡ self.old) }
    {
        // The call says that no more bytes are there than may be.
        let _size = other.len();
        let (from, to, count) = (from as usize, to as usize, count as usize);
        make_room_for(alloc, &mut self.chunks, &other.chunks, from, to, count)?;
        copy_chunks(alloc, &mut self.chunks, &other.chunks, from, to, count);
        if to + count > self.size {
            self.size = to + count;
        }
        Ok(())
    }

    /// Copies so many bytes from an offset to another, where the ranges have no byte in common, as `write` would.
    ///
    /// # Errors
    ///
    /// Where there is no memory. Then nothing has changed.
    pub fn copy_within(
        &mut self,
        alloc: Global,
        from: u64,
        to: u64,
        count: u64,
    ) -> Result<(), AllocError>
        requires there { from + count ≤ length self.old }
        requires fits { to + count ≤ MOST_FILE }
        requires apart { lie_apart from to count ≡ true }
        ensures ok { OnOk result (self.new ≡ written to (read_at from count self.old) self.old) }
        ensures err { OnErr result (self.new ≡ self.old) }
    {
        // The call says that no more bytes are there than may be.
        let _size = self.len();
        let (from, to, count) = (from as usize, to as usize, count as usize);
        make_room(alloc, &mut self.chunks, to, to + count)?;
        copy_here(alloc, &mut self.chunks, from, to, count);
        if to + count > self.size {
            self.size = to + count;
        }
        Ok(())
    }
}
