//! Writing a recording.
ghost use Rattle.std.specs.Prelude.{◌≡◌, ◌<◌, ◌^◌, ◌++◌, All, IfOk, OnOk};
ghost use Rattle.std.specs.List.{flat_map};
ghost use Rattle.lnfs_outside.specs.Bytes.{Puts};
ghost use Rattle.lnfs_outside.specs.Causes.{HasCause};
ghost use Rattle.lnfs_types.specs.Moments.{Fits};
ghost use Rattle.lnfs_traffic.specs.Recording.{event as an_event, IsRecording};
ghost use Rattle.lnfs_xdr.specs.Format.{Spells};
ghost use Rattle.lnfs_traffic.specs.Texts.{event_text, recording_text};

use crate::events::BEGINNING;
use lnfs_outside::{Failed, Sink, put_all};
use lnfs_types::Event;
use std::alloc::{AllocError, Global};

/// Says that two words are, and does nothing.
fn law_words(_class: u32, _link: u32)
    ensures class { _class < 2 ^ 32 }
    ensures link { _link < 2 ^ 32 }
{}

/// The bytes of an event that stand before its record.
fn head_of(event: &Event) -> [u8; 24]
    requires { Fits event.now }
    ensures text { result ++ event.now.message ≡ event_text event.now }
    ensures spelled { Spells an_event event.now (event_text event.now) }
{
    law_words(event.class, event.link);
    let mut head = [0; 24];
    head[..4].copy_from_slice(&event.class.to_be_bytes());
    head[4..8].copy_from_slice(&event.link.to_be_bytes());
    head[8..16].copy_from_slice(&event.moment.secs.to_be_bytes());
    head[16..20].copy_from_slice(&event.moment.nanos.to_be_bytes());
    head[20..].copy_from_slice(&(event.message.len() as u32).to_be_bytes());
    head
}

/// Appends an event.
fn add_event(out: &mut Vec<u8>, event: &Event) -> Result<(), AllocError>
    requires { Fits event.now }
    ensures text { OnOk result (out.new.items ≡ out.old.items ++ event_text event.now) }
    ensures spelled { OnOk result (Spells an_event event.now (event_text event.now)) }
{
    out.extend_from_slice(&head_of(event))?;
    out.extend_from_slice(event.message.as_slice())?;
    Ok(())
}

/// The recording of the events.
pub fn write_traffic(alloc: Global, events: &[Event]) -> Result<Vec<u8>, AllocError>
    requires { All Fits events.now }
    ensures text { IfOk result (λ bytes. bytes.items ≡ recording_text events.now) }
    ensures spelled { IfOk result (λ bytes. IsRecording events.now bytes.items) }
{
    let mut bytes = Vec::from_slice(alloc, BEGINNING)?;
    for event in events {
        add_event(&mut bytes, event)?;
    }
    Ok(bytes)
}

/// Hands an event to a sink.
fn put_event<K: Sink>(sink: &mut K, event: &Event) -> Result<(), Failed>
    requires { Fits event.now }
    ensures bytes { Puts (K.taken sink.old) (K.taken sink.new) result (event_text event.now) }
    ensures spelled { Spells an_event event.now (event_text event.now) }
    ensures cause { HasCause (K.write_faults sink.old) (K.write_faults sink.new) result }
    ensures beside { K.beside_sink sink.new ≡ K.beside_sink sink.old }
{
    put_all(sink, &head_of(event))?;
    put_all(sink, event.message.as_slice())
}

/// Hands events to a sink.
fn put_events<K: Sink>(sink: &mut K, events: &[Event]) -> Result<(), Failed>
    requires { All Fits events.now }
    ensures bytes { Puts (K.taken sink.old) (K.taken sink.new) result
        (flat_map event_text events.now) }
    ensures spelled { OnOk result (IsRecording events.now (recording_text events.now)) }
    ensures cause { HasCause (K.write_faults sink.old) (K.write_faults sink.new) result }
    ensures beside { K.beside_sink sink.new ≡ K.beside_sink sink.old }
{
    for event in events {
        put_event(sink, event)?;
    }
    Ok(())
}

/// Hands the recording of the events to a sink, event by event. Takes no memory. It fails where a
/// write failed; then a front of the recording was taken.
pub fn put_traffic<K: Sink>(sink: &mut K, events: &[Event]) -> Result<(), Failed>
    requires { All Fits events.now }
    ensures bytes { Puts (K.taken sink.old) (K.taken sink.new) result (recording_text events.now) }
    ensures spelled { OnOk result (IsRecording events.now (recording_text events.now)) }
    ensures cause { HasCause (K.write_faults sink.old) (K.write_faults sink.new) result }
    ensures beside { K.beside_sink sink.new ≡ K.beside_sink sink.old }
{
    put_all(sink, BEGINNING)?;
    put_events(sink, events)
}
