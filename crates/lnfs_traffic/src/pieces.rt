//! Reading a recording that comes in pieces.
ghost use Rattle.std.specs.Prelude.{◌≡◌, ◌++◌, ◌<◌, ◌≤◌, [], List, ℕ, IfOk, OnOk, OnErr, MatchResult, drop, length};
ghost use Rattle.lnfs_types.specs.declared.event.Event.{Event};
ghost use Rattle.lnfs_traffic.specs.declared.error.TrafficError.TheVariants.{Damaged};
ghost use Rattle.lnfs_traffic.specs.Pieces.{Finds, Finishes, IsNext, Reads, fed_to, stage};
ghost use Rattle.lnfs_traffic.specs.Stages.{Whole};

use crate::error::TrafficError;
use crate::events::{BEGINNING, Front, event_at};
use lnfs_types::Event;
use std::alloc::{AllocError, Global};
use std::marker::Model;

/// How a recording goes on.
enum Found {
    /// With an event, which ends so many bytes further on.
    Whole { event: Event, size: usize },
    Part,
    /// Not at all behind this place.
    Damage { at: u64 },
}

/// How it goes on behind its first event, whose end is that many bytes from its beginning.
fn look_behind(alloc: Global, rest: &[u8], place: u64) -> Result<Found, AllocError>
    requires { 0 < place }
    ensures found { IfOk result (λ found. Finds found place rest.now) }
    ensures memory { OnErr result (stage place rest.now ≡ Whole) }
{
    match event_at(alloc, rest)? {
        Front::Whole { event, size } => Ok(Found::Whole { event, size }),
        Front::Part => Ok(Found::Part),
        Front::Damage => Ok(Found::Damage { at: place }),
    }
}

/// How it goes on from its beginning.
fn look_first(alloc: Global, rest: &[u8]) -> Result<Found, AllocError>
    ensures found { IfOk result (λ found. Finds found 0 rest.now) }
    ensures memory { OnErr result (stage 0 rest.now ≡ Whole) }
{
    let Some(body) = rest.strip_prefix(BEGINNING) else {
        if BEGINNING.starts_with(rest) {
            return Ok(Found::Part);
        }
        return Ok(Found::Damage { at: 0 });
    };
    match event_at(alloc, body)? {
        Front::Whole { event, size } => Ok(Found::Whole {
            event,
            size: BEGINNING.len() + size,
        }),
        Front::Part => Ok(Found::Part),
        Front::Damage => Ok(Found::Damage {
            at: BEGINNING.len() as u64,
        }),
    }
}

/// How a recording goes on behind so many bytes.
fn look(alloc: Global, rest: &[u8], place: u64) -> Result<Found, AllocError>
    ensures found { IfOk result (λ found. Finds found place rest.now) }
    ensures memory { OnErr result (stage place rest.now ≡ Whole) }
{
    if place == 0 {
        look_first(alloc, rest)
    } else {
        look_behind(alloc, rest, place)
    }
}

/// Whether nothing is left behind this place.
fn ends_at(rest: &[u8], at: u64) -> Result<(), TrafficError>
    ensures { MatchResult result (λ _. rest.now ≡ []) (λ error. (0 < length rest.now)
        × (error ≡ Damaged at)) }
{
    if rest.is_empty() {
        Ok(())
    } else {
        Err(TrafficError::Damaged { at })
    }
}

/// Whether a recording may end with these bytes, behind so many.
fn end_of(rest: &[u8], place: u64) -> Result<(), TrafficError>
    ensures { Finishes result place rest.now }
{
    if place > 0 {
        return ends_at(rest, place);
    }
    match rest.strip_prefix(BEGINNING) {
        Some(body) => ends_at(body, BEGINNING.len() as u64),
        None => Err(TrafficError::Damaged { at: 0 }),
    }
}

/// Lets the bytes before `start` go. Each of the others is copied at most once, where `drain` would turn
/// all of them round.
fn let_go(bytes: &mut Vec<u8>, start: usize)
    requires { start ≤ length bytes.old.items }
    ensures { bytes.new.items ≡ drop start bytes.old.items }
{
    if start > 0 {
        let left = bytes.len() - start;
        bytes.copy_within(start.., 0);
        bytes.truncate(left);
    }
}

/// Reads the events of a recording that is fed in pieces, whatever these are. Of the bytes that were
/// fed it keeps those that belong to no event given so far, and up to the next piece the others of the
/// last one.
#[derive(Drop)]
pub struct TrafficReader {
    alloc: Global,
    bytes: Vec<u8>,
    start: usize,
    place: u64,
}

impl Model for TrafficReader {
    ghost use Rattle.std.specs.Prelude.{◌≤◌, ◌<◌, ◌+◌, ◌^◌, drop, length};
    ghost use Rattle.lnfs_traffic.specs.Pieces.{Unread};

    ghost Value = { Unread };

    ghost view = { λ r. record { place = r.place; rest = drop r.start r.bytes.items; held = length r.bytes.items } };

    ghost invariant = { λ r. (r.start ≤ length r.bytes.items) × (r.place + length (drop r.start r.bytes.items) < 2 ^ 64) };
}

impl TrafficReader {
    /// Nothing was fed yet. Takes no memory.
    pub fn new(alloc: Global) -> TrafficReader
        ensures value { result ≡ record { place = 0; rest = []; held = 0 } }
        ensures reads { Reads [] [] result.place result.rest }
    {
        TrafficReader {
            alloc,
            bytes: Vec::new(alloc),
            start: 0,
            place: 0,
        }
    }

    /// More of the recording. An error leaves what was fed before; it comes too where the place of a
    /// byte would be no number of 64 bits.
    pub fn feed(&mut self, piece: &[u8]) -> Result<(), AllocError>
        ensures ok { OnOk result (self.new ≡ fed_to self.old piece.now) }
        ensures err { OnErr result ((self.new.place ≡ self.old.place)
            × (self.new.rest ≡ self.old.rest) × (self.new.held ≤ self.old.held)) }
        ensures reads { OnOk result ((fed : List ℕ) (events : List Event) →
            Reads fed events self.old.place self.old.rest →
            Reads (fed ++ piece.now) events self.new.place self.new.rest) }
    {
        let_go(&mut self.bytes, self.start);
        self.start = 0;
        let end = self.place + self.bytes.len() as u64;
        if end.checked_add(piece.len() as u64).is_none() {
            return Err(AllocError);
        }
        self.bytes.extend_from_slice(piece)?;
        Ok(())
    }

    /// The next event of all that was fed. None where what is left is a part of one, or nothing.
    /// `Damaged` where what was fed begins no recording, whatever follows it, with the length of the
    /// longest front that is one; then every later call answers so. Only an event that is given moves
    /// on.
    pub fn next(&mut self) -> Result<Option<Event>, TrafficError>
        ensures { IsNext result self.old self.new }
    {
        let (_, rest) = self.bytes.split_at(self.start);
        match look(self.alloc, rest, self.place) {
            Ok(Found::Whole { event, size }) => {
                self.start += size;
                self.place += size as u64;
                Ok(Some(event))
            }
            Ok(Found::Part) => Ok(None),
            Ok(Found::Damage { at }) => Err(TrafficError::Damaged { at }),
            Err(_) => Err(TrafficError::Memory),
        }
    }

    /// Whether all that was fed is a recording whose events were given. `Damaged` where bytes are left
    /// over, or the beginning isn't there, with the place where they begin.
    pub fn finish(&self) -> Result<(), TrafficError>
        ensures { Finishes result self.now.place self.now.rest }
    {
        let (_, rest) = self.bytes.split_at(self.start);
        end_of(rest, self.place)
    }
}
