//! Requests that go over a link, and records that come over it.
ghost use Rattle.std.specs.Prelude.{◌≡◌, ◌≤◌, IfErr, IfOk};
ghost use Rattle.lnfs_outside.specs.Bytes.{Puts};
ghost use Rattle.lnfs_rpc.specs.Formats.{frame_of};
ghost use Rattle.lnfs_talk.specs.Exchange.{IsOfLink, Looks, Receives, stop_of};

use lnfs_incoming::{Ending as End, Incoming, next_record, read_on};
use lnfs_outside::{Link, put_all};
use lnfs_stage::{Ending, Stop};
use lnfs_types::Octets;
use std::alloc::{AllocError, Global};
use std::sync::Wait;

/// The bit of a fragment's head that says that the fragment is the last of its record (RFC 5531 section 11).
const LAST: u32 = 0x8000_0000;

/// The numbers of 32 bits.
const ALL_WORDS: u64 = 0x1_0000_0000;

/// A message as the one fragment of a record.
#[tactic(auto, unfolding(lnfs_rpc::specs::Formats::frame_of, lnfs_xdr::specs::Canon::word))]
fn frame_of(alloc: Global, message: &[u8]) -> Result<Vec<u8>, AllocError>
    ensures { IfOk result (λ frame. frame.items ≡ frame_of message.now) }
{
    let length = (message.len() as u64 % ALL_WORDS) as u32;
    let head = LAST.wrapping_add(length);
    let mut frame = Vec::from_slice(alloc, &head.to_be_bytes())?;
    frame.extend_from_slice(message)?;
    Ok(frame)
}

/// Sends a message in one frame.
pub fn send<L: Link>(alloc: Global, link: &mut L, message: &[u8]) -> Result<(), Stop>
    ensures bytes { Puts (L.taken link.old) (L.taken link.new) result (frame_of message.now) }
    ensures excused { IfErr result (IsOfLink (L.write_faults link.old) (L.write_faults link.new)) }
    ensures later { L.write_faults link.old ≤ L.write_faults link.new }
    ensures left { L.left link.new ≡ L.left link.old }
    ensures read_faults { L.read_faults link.new ≡ L.read_faults link.old }
{
    let frame = frame_of(alloc, message)?;
    match put_all(link, &frame) {
        Ok(()) => Ok(()),
        Err(_) => Err(Stop::NetFault),
    }
}

/// Why no record comes.
fn stop_of(ending: End) -> Stop
    ensures { result ≡ stop_of ending }
{
    match ending {
        End::Closed | End::Cut | End::TooLong | End::Budget => Stop::Ends(Ending::LinkClosed),
        End::ReadFault | End::WriteFault => Stop::NetFault,
        End::Memory => Stop::Memory,
    }
}

/// A record that is pending whole. Else reads once.
fn look<L: Link>(link: &mut L, incoming: &mut Incoming) -> Result<Option<Octets>, Stop>
    ensures looks { Looks result (L.left link.old) (L.left link.new) (L.read_faults link.old)
        (L.read_faults link.new) incoming.old incoming.new }
    ensures later { L.read_faults link.old ≤ L.read_faults link.new }
    ensures taken { L.taken link.new ≡ L.taken link.old }
    ensures write_faults { L.write_faults link.new ≡ L.write_faults link.old }
{
    match next_record(incoming) {
        Ok(Some(message)) => Ok(Some(message)),
        Ok(None) => match read_on(link, incoming) {
            None => Ok(None),
            Some(ending) => Err(stop_of(ending)),
        },
        Err(ending) => Err(stop_of(ending)),
    }
}

/// The next record that comes whole. Waits for it.
pub fn receive<L: Link, R: Wait>(
    rt: &R,
    link: &mut L,
    incoming: &mut Incoming,
) -> Result<Octets, Stop>
    ensures receives { Receives result (L.left link.old) (L.left link.new)
        (L.read_faults link.old) (L.read_faults link.new) incoming.old incoming.new }
    ensures later { L.read_faults link.old ≤ L.read_faults link.new }
    ensures taken { L.taken link.new ≡ L.taken link.old }
    ensures write_faults { L.write_faults link.new ≡ L.write_faults link.old }
{
    for _ in rt.forever() {
        match look(link, incoming) {
            Ok(Some(message)) => return Ok(message),
            Ok(None) => (),
            Err(stop) => return Err(stop),
        }
    }
    unreachable!()
}
