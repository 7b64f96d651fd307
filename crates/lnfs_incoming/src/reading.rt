//! Records that come over a link.
ghost use Rattle.std.specs.Prelude.{◌≡◌, ◌<◌, ◌≤◌, [], length};
ghost use Rattle.lnfs_rpc.specs.Records.{IsPartial};
ghost use Rattle.lnfs_incoming.specs.Incoming.{Cuts, ReadOn, partial_limit};

use crate::buffer::ReadBuffer;
use crate::ending::Ending;
use lnfs_outside::Link;
use lnfs_rpc::{DeframeError, Deframed, Deframer};
use lnfs_types::Octets;
use std::alloc::Global;
use std::marker::Model;

/// What was read off a link and is not served yet.
///
/// Its value is the bytes since the last record that was given.
#[derive(Drop)]
pub struct Incoming {
    alloc: Global,
    buffer: ReadBuffer,
    deframer: Deframer,
}

impl Model for Incoming {
    ghost use Rattle.std.specs.Prelude.{List, ℕ};
    ghost use Rattle.lnfs_rpc.specs.Scanning.{Known};

    ghost Value = { List ℕ };

    ghost view = { λ i. i.buffer };

    ghost invariant = { λ i. Known i.buffer i.deframer };
}

impl Incoming {
    /// Nothing was read yet. Takes no memory.
    pub fn new(alloc: Global) -> Incoming
        ensures { result ≡ [] }
    {
        Incoming {
            alloc,
            buffer: ReadBuffer::new(alloc),
            deframer: Deframer::new(alloc),
        }
    }
}

/// A record that isn't whole yet, and not too long so far, has fewer bytes than the limits on its length and its
/// fragments allow.
fn short_while_partial(bytes: &[u8])
    ensures { IsPartial bytes.now → length bytes.now < partial_limit }
{}

/// The next record of what was read. None where it isn't whole yet; an error where the service ends.
pub fn next_record(incoming: &mut Incoming) -> Result<Option<Octets>, Ending>
    ensures { Cuts result incoming.old incoming.new }
{
    let bytes = incoming.buffer.as_slice();
    short_while_partial(bytes);
    match incoming.deframer.next(incoming.alloc, bytes) {
        Ok(Some(Deframed { record, length })) => {
            incoming.buffer.take_off(length);
            Ok(Some(Octets::new(record)))
        }
        Ok(None) => Ok(None),
        Err(DeframeError::TooLong) => Err(Ending::TooLong),
        Err(DeframeError::Memory) => Err(Ending::Memory),
    }
}

/// Reads once. Says where the service ends.
pub fn read_on<L: Link>(link: &mut L, incoming: &mut Incoming) -> Option<Ending>
    ensures read { ReadOn result (L.left link.old) (L.left link.new) (L.read_faults link.old)
        (L.read_faults link.new) incoming.old incoming.new }
    ensures later { L.read_faults link.old ≤ L.read_faults link.new }
    ensures taken { L.taken link.new ≡ L.taken link.old }
    ensures write_faults { L.write_faults link.new ≡ L.write_faults link.old }
{
    incoming.buffer.read_on(link)
}
