//! Comparing replies with recorded records, one after another.
ghost use Rattle.std.specs.Prelude.{◌≡◌, ◌<◌, ◌≤◌, ◌↔◌, length, true, IfOk};
ghost use Rattle.lnfs_audit.specs.Findings.{IsFinding};
ghost use Rattle.lnfs_audit.specs.Places.{IsBehindRecord, IsBehind};

use crate::finding::Finding;
use lnfs_rpc::{DeframeError, Deframed, Deframer, ReplyRecord, stream_ends};
use std::alloc::{AllocError, Global};

/// Whether a record is a reply, byte by byte.
fn is_reply(found: &[u8], reply: &[u8]) -> bool
    ensures { (result ≡ true) ↔ (found.now ≡ reply.now) }
{
    found == reply
}

/// The place behind a reply, where that is the whole record at a place.
fn behind_record(
    alloc: Global,
    records: &[u8],
    at: usize,
    reply: &[u8],
) -> Result<Option<usize>, AllocError>
    requires { at ≤ length records.now }
    ensures { IfOk result (IsBehindRecord records.now at reply.now) }
{
    let (_, rest) = records.split_at(at);
    stream_ends(rest);
    match Deframer::new(alloc).next(alloc, rest) {
        Ok(Some(Deframed { record, length })) => {
            if is_reply(record.as_slice(), reply) {
                Ok(Some(at + length))
            } else {
                Ok(None)
            }
        }
        Ok(None) | Err(DeframeError::TooLong) => Ok(None),
        Err(DeframeError::Memory) => Err(AllocError),
    }
}

/// The place behind what is due of an event, where it is the whole record at a place. Nothing due takes no record.
pub fn behind(
    alloc: Global,
    records: &[u8],
    at: usize,
    reply: &Option<ReplyRecord>,
) -> Result<Option<usize>, AllocError>
    requires { at ≤ length records.now }
    ensures { IfOk result (IsBehind records.now at reply.now) }
{
    match reply {
        Some(reply) => behind_record(alloc, records, at, reply.as_slice()),
        None => Ok(Some(at)),
    }
}

/// What is found where all replies to so many events were compared, and are the records up to a place.
pub fn found_at_end(events: usize, records: &[u8], at: usize) -> Finding
    requires { at ≤ length records.now }
    ensures faithful { at ≡ length records.now → result ≡ Finding.Faithful events }
    ensures surplus { at < length records.now → result ≡ Finding.Surplus at }
{
    if at == records.len() {
        Finding::Faithful {
            events: events as u64,
        }
    } else {
        Finding::Surplus { at: at as u64 }
    }
}

/// Compares replies with recorded records.
pub fn compare(
    alloc: Global,
    due: &[Option<ReplyRecord>],
    records: &[u8],
) -> Result<Finding, AllocError>
    ensures { IfOk result (IsFinding due.now records.now) }
{
    let mut at = 0;
    for (index, reply) in due.iter().enumerate() {
        let Some(next) = behind(alloc, records, at, reply)? else {
            return Ok(Finding::Differs {
                event: index as u64 + 1,
            });
        };
        at = next;
    }
    Ok(found_at_end(due.len(), records, at))
}
