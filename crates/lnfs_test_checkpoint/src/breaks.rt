//! Servers that are broken off: what is served behind a checkpoint is what would have been served without it.
use crate::codecs::codecs_of;
use lnfs_format::Codecs;
use lnfs_test_checkpoint_support::recordings::{LIMITED, RICH, Recording};
use lnfs_test_checkpoint_support::served::{
    Given, checkpoint_after, checkpoint_of, events_of, new_server, resume, serve_all,
};
use lnfs_test_support::flaw::{Flaw, demand, read_of};
use lnfs_test_support::rows::frames_of;
use lnfs_test_support::site::POLICY;
use lnfs_types::Event;
use std::alloc::{AllocError, Global};

/// The number of the events behind the digest of the policy: where it begins and ends.
const COUNT: (usize, usize) = (40, 48);

/// Lines between bars.
fn lines_of(alloc: Global, lines: &str) -> Result<Vec<u8>, AllocError> {
    let mut text = Vec::new(alloc);
    for line in lines.split('|') {
        if !line.is_empty() {
            text.extend_from_slice(line.as_bytes())?;
            text.extend_from_slice(b"\n")?;
        }
    }
    Ok(text)
}

/// What is due of a recording, in bytes, with the checkpoint at its end.
#[derive(Drop)]
struct Due {
    name: &'static str,
    policy: &'static str,
    frames: Vec<u8>,
    lines: Vec<u8>,
    end: Vec<u8>,
}

/// What is due of a recording whose events are read.
fn due_of(
    alloc: Global,
    codecs: &Codecs,
    recording: &Recording,
    events: &[Event],
) -> Result<Due, Flaw> {
    let Recording { name, policy, .. } = *recording;
    Ok(Due {
        name,
        policy,
        frames: read_of(alloc, frames_of(alloc, recording.replies)?, name)?,
        lines: lines_of(alloc, recording.lines)?,
        end: checkpoint_after(alloc, codecs, policy, events)?,
    })
}

/// Whether some bytes and then others are the whole.
fn make_up(whole: &[u8], front: &[u8], rest: &[u8]) -> bool {
    whole.get(..front.len()) == Some(front) && whole.get(front.len()..) == Some(rest)
}

/// Compares what was given before a break and behind it with what is due.
fn is_due(alloc: Global, due: &Due, before: &Given, behind: &Given) -> Result<(), Flaw> {
    let same = make_up(&due.frames, &before.frames, &behind.frames);
    demand(alloc, same, "replies", due.name)?;
    let same = make_up(&due.lines, &before.lines, &behind.lines);
    demand(alloc, same, "lines", due.name)
}

/// Compares a checkpoint with the one that is due at the end.
fn is_end(alloc: Global, due: &Due, bytes: &[u8]) -> Result<(), Flaw> {
    demand(alloc, due.end.as_slice() == bytes, "the end", due.name)
}

/// Serves events by a server that goes on from a checkpoint, and gives its checkpoint.
fn serve_behind(
    alloc: Global,
    codecs: &Codecs,
    policy: &str,
    bytes: &[u8],
    events: &[Event],
    given: &mut Given,
) -> Result<Vec<u8>, Flaw> {
    let mut server = resume(alloc, codecs, policy, bytes)?;
    serve_all(alloc, codecs, &mut server, events, given)?;
    checkpoint_of(alloc, &server)
}

/// Serves the rest of the events behind a checkpoint.
fn check_behind(
    alloc: Global,
    codecs: &Codecs,
    due: &Due,
    before: &Given,
    bytes: &[u8],
    events: &[Event],
) -> Result<(), Flaw> {
    let mut behind = Given::new(alloc);
    let end = serve_behind(alloc, codecs, due.policy, bytes, events, &mut behind)?;
    is_due(alloc, due, before, &behind)?;
    is_end(alloc, due, &end)
}

/// Serves events by one server, with a break before each: there the rest is served by another one too, which goes on from its
/// checkpoint.
fn break_at_each(alloc: Global, codecs: &Codecs, due: &Due, events: &[Event]) -> Result<(), Flaw> {
    let mut server = new_server(alloc, codecs, due.policy)?;
    let mut given = Given::new(alloc);
    for place in 0..events.len() {
        let bytes = checkpoint_of(alloc, &server)?;
        let (before, rest) = events.split_at(place);
        demand(
            alloc,
            server.events() == before.len() as u64,
            "events",
            due.name,
        )?;
        check_behind(alloc, codecs, due, &given, &bytes, rest)?;
        let next = rest.get(..1).unwrap_or(&[]);
        serve_all(alloc, codecs, &mut server, next, &mut given)?;
    }
    is_due(alloc, due, &given, &Given::new(alloc))
}

/// Serves each event by a server of its own, which goes on from the checkpoint of the one before.
fn break_at_all(alloc: Global, codecs: &Codecs, due: &Due, events: &[Event]) -> Result<(), Flaw> {
    let mut given = Given::new(alloc);
    let mut bytes = checkpoint_after(alloc, codecs, due.policy, &[])?;
    for event in events.chunks(1) {
        bytes = serve_behind(alloc, codecs, due.policy, &bytes, event, &mut given)?;
    }
    is_due(alloc, due, &given, &Given::new(alloc))?;
    is_end(alloc, due, &bytes)
}

/// Serves the events of a recording by one server; by two, with the break at each place in turn; and by one for each event.
fn check_breaks(alloc: Global, recording: &Recording) -> Result<(), Flaw> {
    let codecs = codecs_of(alloc)?;
    let events = events_of(alloc, recording.events)?;
    let due = due_of(alloc, &codecs, recording, &events)?;
    break_at_each(alloc, &codecs, &due, &events)?;
    break_at_all(alloc, &codecs, &due, &events)
}

#[test]
fn broken_off_anywhere(rt: HostRuntime) -> Result<(), Flaw> {
    check_breaks(rt.alloc(), &RICH)
}

#[test]
fn broken_off_with_labels_that_are_carried_alone(rt: HostRuntime) -> Result<(), Flaw> {
    check_breaks(rt.alloc(), &LIMITED)
}

/// Three clients of level 3, and one of level 0 behind the break, who is told nothing of them.
const ABOVE: &str = "\
@1 CALL SYS_300 0 2 1 42 0 0 1 'x' 0x000000 0 0 0 / @1 CALL SYS_300 0 2 1 42 0 0 1 'y' 0x000000 0 0 0 / \
@1 CALL SYS_300 0 2 1 42 0 0 1 'z' 0x000000 0 0 0";

const BELOW: &str = "CALL SYS EXCHANGE 'c1' REST";

const TOLD: &str = "EXCHANGED 0 1 SERVER";

/// Serves the client of level 0 behind the checkpoint after some events.
fn check_below(alloc: Global, codecs: &Codecs, name: &str, before: &[Event]) -> Result<(), Flaw> {
    let bytes = checkpoint_after(alloc, codecs, POLICY, before)?;
    let mut given = Given::new(alloc);
    let event = events_of(alloc, BELOW)?;
    serve_behind(alloc, codecs, POLICY, &bytes, &event, &mut given)?;
    let due = read_of(alloc, frames_of(alloc, TOLD)?, TOLD)?;
    let same = given.frames.as_slice() == due.as_slice();
    demand(alloc, same, "replies", name)?;
    demand(alloc, given.lines.is_empty(), "lines", name)
}

#[test]
fn a_client_below(rt: HostRuntime) -> Result<(), Flaw> {
    let alloc = rt.alloc();
    let codecs = codecs_of(alloc)?;
    check_below(alloc, &codecs, "behind three", &events_of(alloc, ABOVE)?)?;
    check_below(alloc, &codecs, "behind none", &[])
}

/// A client, its session, and a file that it makes; and the last of these requests again.
const MAKING: &str = "\
CALL SYS EXCHANGE 'c1' REST / CALL SYS CREATE 0 1 1 0 CHANNEL CHANNEL 0 0 / CALL SYS 0 2 3 SEQUENCE 1 0 0 1 24 MAKE_F";

const AGAIN: &str = "CALL SYS 0 2 3 SEQUENCE 1 0 0 1 24 MAKE_F";

const MADE: &str = "ACCEPTED 0 0 0 3 SEQUENCED 1 0 SLOTS 24 0 MADE_F";

/// Whether two checkpoints differ in the number of events alone.
fn same_worlds(one: &[u8], other: &[u8]) -> bool {
    one.get(..COUNT.0) == other.get(..COUNT.0)
        && one.get(COUNT.0..COUNT.1) != other.get(COUNT.0..COUNT.1)
        && one.get(COUNT.1..) == other.get(COUNT.1..)
}

/// A request that comes again behind a break gets its first reply, and nothing is made.
#[test]
fn a_request_that_comes_again(rt: HostRuntime) -> Result<(), Flaw> {
    let alloc = rt.alloc();
    let codecs = codecs_of(alloc)?;
    let bytes = checkpoint_after(alloc, &codecs, POLICY, &events_of(alloc, MAKING)?)?;
    let mut given = Given::new(alloc);
    let again = events_of(alloc, AGAIN)?;
    let after = serve_behind(alloc, &codecs, POLICY, &bytes, &again, &mut given)?;
    let due = read_of(alloc, frames_of(alloc, MADE)?, MADE)?;
    let same = given.frames.as_slice() == due.as_slice();
    demand(alloc, same, "replies", MADE)?;
    demand(alloc, same_worlds(&bytes, &after), "what is made", MADE)
}
