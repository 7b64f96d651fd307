//! The event at the front of bytes.
ghost use Rattle.std.specs.Prelude.{◌≡◌, ◌<◌, Ok, IfOk, IfErr, OnErr, MatchOption, MatchResult, length};
ghost use Rattle.std.specs.Result.{IsErr};
ghost use Rattle.lnfs_xdr.specs.Reading.{read};
ghost use Rattle.lnfs_traffic.specs.Answers.{event_in};
ghost use Rattle.lnfs_traffic.specs.Recording.{event, event_limit};
ghost use Rattle.lnfs_traffic.specs.Stages.{Whole, stage_at, stage_of};
ghost use Rattle.lnfs_traffic.specs.Pieces.{Stands};
ghost use Rattle.lnfs_xdr.specs.declared.error.XdrError.TheVariants.{Short};

use lnfs_types::{Event, Moment, Octets, RECORD_LIMIT};
use lnfs_xdr::{XdrError, XdrReader};
use std::alloc::{AllocError, Global};

/// The bytes that a recording begins with.
pub const BEGINNING: &[u8] = b"LNFSTRC1";

/// An event whose record is still among the bytes that it is read from.
#[derive(Clone, Copy)]
struct Fields<'a> {
    class: u32,
    link: u32,
    moment: Moment,
    message: &'a [u8],
}

/// `Short` where the bytes end before the event does. `BadBool` where the moment is none: no
/// nanoseconds, or seconds behind the last.
#[tactic(auto, unfolding(crate::specs::Recording::event))]
fn fields_of<'a>(reader: &mut XdrReader<'a>) -> Result<Fields<'a>, XdrError>
    ensures stage { IfErr result (λ error. stage_of (read event reader.old.rest) ≡ stage_at error) }
    ensures total { reader.new.total ≡ reader.old.total }
    ensures few { IfErr result (λ error. error ≡ Short → length reader.old.rest < event_limit) }
    ensures fields { MatchResult result (λ fields. read event reader.old.rest
        ≡ Ok (event_in fields, reader.new.rest)) (λ _. IsErr (read event reader.old.rest)) }
{
    let class = reader.u32()?;
    let link = reader.u32()?;
    let secs = reader.u64()?;
    let nanos = reader.u32()?;
    let moment = Moment { secs, nanos };
    if !moment.is_valid() {
        return Err(XdrError::BadBool);
    }
    let size = reader.array_len(RECORD_LIMIT)?;
    let message = reader.raw(size as usize)?;
    Ok(Fields {
        class,
        link,
        moment,
        message,
    })
}

/// The event of these fields.
fn event_of(alloc: Global, fields: &Fields<'_>) -> Result<Event, AllocError>
    ensures { IfOk result (λ event. event ≡ event_in fields.now) }
{
    Ok(Event {
        class: fields.class,
        link: fields.link,
        moment: fields.moment,
        message: Octets::from_slice(alloc, fields.message)?,
    })
}

/// The event at the front of the bytes, where one stands there, and the bytes behind it.
pub fn next_event(alloc: Global, bytes: &[u8]) -> Result<Option<(Event, &[u8])>, AllocError>
    ensures { IfOk result (λ found. MatchOption found (IsErr (read event bytes.now)) (λ first.
        read event bytes.now ≡ Ok (first.0, first.1.now))) }
{
    let mut reader = XdrReader::new(bytes);
    let Ok(fields) = fields_of(&mut reader) else {
        return Ok(None);
    };
    let event = event_of(alloc, &fields)?;
    Ok(Some((event, reader.rest())))
}

/// What stands at the front of bytes: an event and its length, a part of one, or what none begins
/// with.
pub enum Front {
    Whole { event: Event, size: usize },
    Part,
    Damage,
}

/// What stands at the front of the bytes. Memory is taken only for an event.
pub fn event_at(alloc: Global, bytes: &[u8]) -> Result<Front, AllocError>
    ensures found { IfOk result (λ front. Stands front bytes.now) }
    ensures memory { OnErr result (stage_of (read event bytes.now) ≡ Whole) }
{
    let mut reader = XdrReader::new(bytes);
    let fields = match fields_of(&mut reader) {
        Ok(fields) => fields,
        Err(XdrError::Short) => return Ok(Front::Part),
        Err(_) => return Ok(Front::Damage),
    };
    let event = event_of(alloc, &fields)?;
    Ok(Front::Whole {
        event,
        size: reader.at(),
    })
}
