//! The moments of records, of which a clause says no more than that the clock may give them: each record has one of its own,
//! which is taken behind the gate.
use crate::codecs::codecs_of;
use crate::ruled::serve_one;
use crate::served::serve_at;
use lnfs_gss3::TestMechanism;
use lnfs_outside::{Clock, MemClock, MemLink};
use lnfs_test_support::flaw::{Flaw, read_of};
use lnfs_test_support::rows::recording_of;
use lnfs_test_support::services::sent;
use lnfs_types::Moment;
use lnfs_workers::TurnGate;

/// Three NULL calls by AUTH_NONE (RFC 5531 section 9).
const CALLS: &str =
    "1 0 2 100003 4 0 0 0 0 0 / 2 0 2 100003 4 0 0 0 0 0 / 3 0 2 100003 4 0 0 0 0 0";

/// These at the first three moments of a clock.
const IN_TURN: &str =
    "@0.7 1 0 2 100003 4 0 0 0 0 0 / @0.5 2 0 2 100003 4 0 0 0 0 0 / @0.6 3 0 2 100003 4 0 0 0 0 0";

/// These at every second moment of it.
const SECONDS: &str =
    "@0.5 1 0 2 100003 4 0 0 0 0 0 / @0.9 2 0 2 100003 4 0 0 0 0 0 / @0.4 3 0 2 100003 4 0 0 0 0 0";

/// The seconds of the clock, which don't all rise.
const MOMENTS: [Moment; 6] = [
    Moment { secs: 7, nanos: 0 },
    Moment { secs: 5, nanos: 0 },
    Moment { secs: 6, nanos: 0 },
    Moment { secs: 9, nanos: 0 },
    Moment { secs: 8, nanos: 0 },
    Moment { secs: 4, nanos: 0 },
];

#[test]
fn each_record_has_a_moment(rt: HostRuntime) -> Result<(), Flaw> {
    let alloc = rt.alloc();
    let clock = MemClock::new(alloc, &MOMENTS)?;
    let told = serve_one(&rt, alloc, CALLS, &clock)?;
    let recording = read_of(alloc, recording_of(alloc, IN_TURN)?, IN_TURN)?;
    assert!(rt; told.out.bytes() == recording.as_slice(), "the recording");
    Ok(())
}

/// Takes a moment of the clock whenever a worker passes.
#[derive(Drop)]
struct Ticking<'a> {
    clock: &'a MemClock,
}

impl TurnGate for Ticking<'_> {
    fn pass(&self, _worker: u32, _turn: u64) {
        self.clock.now();
    }
}

/// The moment of a record comes behind the one that the gate takes.
#[test]
fn moments_are_behind_the_gate(rt: HostRuntime) -> Result<(), Flaw> {
    let alloc = rt.alloc();
    let codecs = codecs_of(alloc)?;
    let clock = MemClock::new(alloc, &MOMENTS)?;
    let gate = Ticking { clock: &clock };
    let link = MemLink::new(alloc, &sent(alloc, CALLS)?, &[], &[])?;
    let links = vec![in alloc; (0, link)]?;
    let served = serve_at(&rt, alloc, &codecs, TestMechanism, &clock, &gate, links, 1)?;
    let recording = read_of(alloc, recording_of(alloc, SECONDS)?, SECONDS)?;
    assert!(rt; served.recording == recording, "the recording");
    Ok(())
}
