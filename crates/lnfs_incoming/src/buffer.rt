//! The bytes that are read off a link.
ghost use Rattle.std.specs.Prelude.{◌≡◌, ◌+◌, ◌-◌, ◌<◌, ◌≤◌, [], length, take, drop, OnOk, OnErr, IfOk, IfSome};
ghost use Rattle.std.specs.Io.KnownBytes.{ReadConsumes};
ghost use Rattle.lnfs_outside.specs.Causes.{HasCause};
ghost use Rattle.lnfs_incoming.specs.Incoming.{ReadOn};

use crate::ending::Ending;
use lnfs_outside::{Failed, Link};
use lnfs_types::RECORD_LIMIT;
use std::alloc::{AllocError, Global};
use std::marker::Model;

/// The head of a fragment, in bytes (RFC 5531 section 11).
const HEAD: usize = 4;

/// How many bytes a buffer gets room for at once: a record in one fragment.
const ROOM: usize = HEAD + RECORD_LIMIT as usize;

/// Moves the bytes from `start` to `end` to the front.
fn move_to_front(bytes: &mut [u8], start: usize, end: usize)
    requires order { start ≤ end }
    requires within { end ≤ length bytes.old }
    ensures kept { take (end - start) bytes.new ≡ drop start (take end bytes.old) }
    ensures len { length bytes.new ≡ length bytes.old }
{
    if start == 0 {
        return;
    }
    bytes.copy_within(start..end, 0);
}

/// Moves the bytes from `start` to `end` to the front, where room is left behind them. Where they fill the
/// buffer, it grows first.
fn make_room(bytes: &mut Vec<u8>, start: usize, end: usize) -> Result<(), AllocError>
    requires order { start ≤ end }
    requires within { end ≤ length bytes.old.items }
    ensures kept { OnOk result (take (end - start) bytes.new.items
        ≡ drop start (take end bytes.old.items)) }
    ensures room { OnOk result (end - start < length bytes.new.items) }
    ensures err { OnErr result (bytes.new.items ≡ bytes.old.items) }
{
    let count = end - start;
    if count == bytes.len() {
        return bytes.resize(count + ROOM, 0);
    }
    move_to_front(bytes.as_mut_slice(), start, end);
    Ok(())
}

/// Reads once into a buffer, behind the bytes before `end`.
fn read_behind<L: Link>(link: &mut L, bytes: &mut [u8], end: usize) -> Result<usize, Failed>
    requires { end < length bytes.old }
    ensures kept { take end bytes.new ≡ take end bytes.old }
    ensures len { length bytes.new ≡ length bytes.old }
    ensures bound { IfOk result (λ count. end + count ≤ length bytes.new) }
    ensures came { ReadConsumes (L.left link.old) (L.left link.new) result (drop end bytes.new) }
    ensures cause { HasCause (L.read_faults link.old) (L.read_faults link.new) result }
    ensures taken { L.taken link.new ≡ L.taken link.old }
    ensures write_faults { L.write_faults link.new ≡ L.write_faults link.old }
{
    link.read(&mut bytes[end..])
}

/// The bytes that were read off a link and are not taken yet. The buffer is made at the first read, and
/// used for all.
///
/// Its value is these bytes.
#[derive(Drop)]
pub struct ReadBuffer {
    bytes: Vec<u8>,
    start: usize,
    end: usize,
}

impl Model for ReadBuffer {
    ghost use Rattle.std.specs.Prelude.{◌≤◌, List, ℕ, take, drop, length};

    ghost Value = { List ℕ };

    ghost view = { λ b. drop b.start (take b.end b.bytes.items) };

    ghost invariant = { λ b. (b.start ≤ b.end) × (b.end ≤ length b.bytes.items) };
}

impl ReadBuffer {
    /// Nothing was read yet. Takes no memory.
    pub fn new(alloc: Global) -> ReadBuffer
        ensures { result ≡ [] }
    {
        ReadBuffer {
            bytes: Vec::new(alloc),
            start: 0,
            end: 0,
        }
    }

    /// The bytes.
    pub fn as_slice(&self) -> &[u8]
        ensures { result.now ≡ self.now }
    {
        &self.bytes[self.start..self.end]
    }

    /// Takes so many bytes off the front.
    pub fn take_off(&mut self, count: usize)
        requires { count ≤ length self.old }
        ensures { self.new ≡ drop count self.old }
    {
        self.start += count;
    }

    /// Reads once, behind the bytes that are there. Says where the service ends.
    ///
    /// Bytes that are there are a part of one record, whose rest is awaited: they are moved to the front, so
    /// that each is moved once at most.
    pub fn read_on<L: Link>(&mut self, link: &mut L) -> Option<Ending>
        ensures read { ReadOn result (L.left link.old) (L.left link.new) (L.read_faults link.old)
            (L.read_faults link.new) self.old self.new }
        ensures same { IfSome result (λ ending. self.new ≡ self.old) }
        ensures later { L.read_faults link.old ≤ L.read_faults link.new }
        ensures taken { L.taken link.new ≡ L.taken link.old }
        ensures write_faults { L.write_faults link.new ≡ L.write_faults link.old }
    {
        let Ok(()) = make_room(&mut self.bytes, self.start, self.end) else {
            return Some(Ending::Memory);
        };
        self.end -= self.start;
        self.start = 0;
        let Ok(count) = read_behind(link, self.bytes.as_mut_slice(), self.end) else {
            return Some(Ending::ReadFault);
        };
        if count == 0 {
            return Some(if self.end == 0 {
                Ending::Closed
            } else {
                Ending::Cut
            });
        }
        self.end += count;
        None
    }
}
