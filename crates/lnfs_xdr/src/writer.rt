ghost use Rattle.std.specs.Prelude.{◌≡◌, ◌++◌, ◌<◌, ◌^◌, [], length, take, OnOk, OnErr, IfOk};
ghost use Rattle.lnfs_xdr.specs.Canon.{word, long, byte, flag, padded, opaque};

use crate::buffer::Buffer;
use std::alloc::{AllocError, Global};
use std::marker::Model;

/// Appends items, each in its one spelling with zero pad bytes. An error leaves what was written
/// before the call.
#[derive(Drop)]
pub struct XdrWriter {
    bytes: Buffer,
}

impl Model for XdrWriter {
    ghost use Rattle.std.specs.Prelude.{List, ℕ};

    ghost Value = { List ℕ };

    ghost view = { λ w. w.bytes };
}

impl XdrWriter {
    /// A writer of nothing yet. Takes no memory.
    pub fn new(alloc: Global) -> XdrWriter
        ensures { result ≡ [] }
    {
        XdrWriter {
            bytes: Buffer::new(alloc),
        }
    }

    /// A writer of nothing yet, with room for so many bytes.
    pub fn with_capacity(alloc: Global, capacity: usize) -> Result<XdrWriter, AllocError>
        ensures { IfOk result (λ writer. writer ≡ []) }
    {
        Ok(XdrWriter {
            bytes: Buffer::with_capacity(alloc, capacity)?,
        })
    }

    /// How many bytes were written: where `truncate` goes back to.
    pub fn mark(&self) -> usize
        ensures { result ≡ length self.now }
    {
        self.bytes.len()
    }

    /// Takes back what was written behind a mark. Takes no memory.
    pub fn truncate(&mut self, mark: usize)
        ensures { self.new ≡ take mark self.old }
    {
        self.bytes.truncate(mark);
    }

    /// An unsigned integer (RFC 4506 section 4.2).
    pub fn u32(&mut self, v: u32) -> Result<(), AllocError>
        ensures ok { OnOk result (self.new ≡ self.old ++ word v) }
        ensures err { OnErr result (self.new ≡ self.old) }
    {
        self.bytes.word(v)
    }

    /// An unsigned hyper integer (RFC 4506 section 4.5).
    pub fn u64(&mut self, v: u64) -> Result<(), AllocError>
        ensures ok { OnOk result (self.new ≡ self.old ++ long v) }
        ensures err { OnErr result (self.new ≡ self.old) }
    {
        self.bytes.long(v)
    }

    /// A boolean (RFC 4506 section 4.4).
    #[tactic(auto, unfolding(crate::specs::Canon::flag, crate::specs::Canon::word))]
    pub fn boolean(&mut self, v: bool) -> Result<(), AllocError>
        ensures ok { OnOk result (self.new ≡ self.old ++ flag v) }
        ensures err { OnErr result (self.new ≡ self.old) }
    {
        self.bytes.word(if v { 1 } else { 0 })
    }

    /// A single byte: no item of XDR.
    #[tactic(auto, unfolding(crate::specs::Canon::byte))]
    pub fn byte(&mut self, v: u8) -> Result<(), AllocError>
        ensures ok { OnOk result (self.new ≡ self.old ++ byte v) }
        ensures err { OnErr result (self.new ≡ self.old) }
    {
        self.bytes.raw(&[v])
    }

    /// Bytes of a length that the reader knows, and their pad bytes (RFC 4506 section 4.9).
    pub fn fixed(&mut self, v: &[u8]) -> Result<(), AllocError>
        ensures ok { OnOk result (self.new ≡ self.old ++ padded v.now) }
        ensures err { OnErr result (self.new ≡ self.old) }
    {
        self.bytes.padded(v)
    }

    /// The length, the bytes, and their pad bytes (RFC 4506 section 4.10).
    #[tactic(auto, unfolding(crate::specs::Canon::opaque))]
    pub fn opaque(&mut self, v: &[u8]) -> Result<(), AllocError>
        requires { length v.now < 2 ^ 32 }
        ensures ok { OnOk result (self.new ≡ self.old ++ opaque v.now) }
        ensures err { OnErr result (self.new ≡ self.old) }
    {
        let before = self.mark();
        self.bytes.word(v.len() as u32)?;
        if self.bytes.padded(v).is_err() {
            self.truncate(before);
            return Err(AllocError);
        }
        Ok(())
    }

    /// Bytes as they are, with no pad: no item of XDR.
    pub fn raw(&mut self, v: &[u8]) -> Result<(), AllocError>
        ensures ok { OnOk result (self.new ≡ self.old ++ v.now) }
        ensures err { OnErr result (self.new ≡ self.old) }
    {
        self.bytes.raw(v)
    }

    /// All that was written. Takes no memory.
    pub fn into_bytes(self) -> Vec<u8>
        ensures { result.items ≡ self }
    {
        self.bytes.into_bytes()
    }
}
