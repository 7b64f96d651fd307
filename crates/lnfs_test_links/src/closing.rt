//! That a link is closed as soon as its own service is over, however it ends: no clause says it.
ghost use Rattle.std.specs.Prelude.{None, [], refl};

use crate::served::serve;
use lnfs_gss3::TestMechanism;
use lnfs_outside::{Failed, Link, MemLink, Sink, Source};
use lnfs_test_support::flaw::Flaw;
use lnfs_test_support::services::sent;
use lnfs_workers::{Ending, LinkEnd, OpenGate};
use std::alloc::{AllocError, Global};
use std::process::Abort;
use std::sync::atomic::{AtomicU64, Ordering};

/// A link that counts how often it is closed, and looks at its first read how many of all links were.
#[derive(Drop)]
struct Shut<'a> {
    link: MemLink,
    all: &'a AtomicU64,
    seen: Option<u64>,
    closes: u32,
}

impl Source for Shut<'_> {
    ghost left = { λ s. None };

    ghost read_faults = { λ s. s.link.input.faults };

    ghost beside_source = { λ s. (None, s.link.output.faults) };

    fn read(&mut self, buf: &mut [u8]) -> Result<usize, Failed> {
        if self.seen.is_none() {
            self.seen = Some(self.all.load(Ordering::SeqCst));
        }
        self.link.read(buf)
    }
}

impl Sink for Shut<'_> {
    ghost taken = { λ s. None };

    ghost write_faults = { λ s. s.link.output.faults };

    ghost beside_sink = { λ s. (None, s.link.input.faults) };

    ghost waiting = { λ s. [] };

    fn write(&mut self, bytes: &[u8]) -> Result<usize, Failed> {
        self.link.write(bytes)
    }

    fn flush(&mut self) -> Result<(), Failed> {
        self.link.flush()
    }
}

impl Link for Shut<'_> {
    ghost besides = { λ s. (refl, refl) };

    fn close(&mut self) {
        self.closes = self.closes.saturating_add(1);
        self.all.fetch_add(1, Ordering::SeqCst);
    }
}

/// A link with this input, of class 0.
fn link_of<'a>(
    alloc: Global,
    all: &'a AtomicU64,
    input: &[u8],
    reads: &[u64],
    writes: &[u64],
) -> Result<(u32, Shut<'a>), AllocError> {
    let link = Shut {
        link: MemLink::new(alloc, input, reads, writes)?,
        all,
        seen: None,
        closes: 0,
    };
    Ok((0, link))
}

/// A link for each way to end: a read that fails, a write that fails, a record that is too long, one that is cut, and one that
/// is whole.
fn links_of<'a>(
    alloc: Global,
    all: &'a AtomicU64,
    call: &[u8],
) -> Result<Vec<(u32, Shut<'a>)>, AllocError> {
    let mut links = Vec::new(alloc);
    links.push(link_of(alloc, all, call, &[1], &[])?)?;
    links.push(link_of(alloc, all, call, &[], &[1])?)?;
    links.push(link_of(alloc, all, b"\x80\x02\x00\x01", &[], &[])?)?;
    links.push(link_of(alloc, all, b"\x80", &[], &[])?)?;
    links.push(link_of(alloc, all, call, &[], &[])?)?;
    Ok(links)
}

/// How these end, in their order.
static ENDINGS: [Ending; 5] = [
    Ending::ReadFault,
    Ending::WriteFault,
    Ending::TooLong,
    Ending::Cut,
    Ending::Closed,
];

/// At the first read of each link all links before it were closed, each once.
fn check_closed(rt: &impl Abort, ends: &[LinkEnd<Shut<'_>>]) {
    assert_eq!(rt; ends.len(), ENDINGS.len(), "links");
    for (i, (end, ending)) in ends.iter().zip(&ENDINGS).enumerate() {
        assert!(rt; end.ending == *ending, "ending of {i}");
        assert!(rt; end.link.seen == Some(i as u64), "links closed before {i}");
        assert!(rt; end.link.closes == 1, "closes of {i}");
    }
}

/// One worker serves the links one after the other.
#[test]
fn closed_at_once(rt: HostRuntime) -> Result<(), Flaw> {
    let alloc = rt.alloc();
    let call = sent(alloc, "1 0 2 100003 4 0 0 0 0 0")?;
    let all = AtomicU64::new(0);
    let links = links_of(alloc, &all, &call)?;
    let served = serve(&rt, alloc, TestMechanism, &OpenGate, links, 1)?;
    check_closed(&rt, &served.ends);
    Ok(())
}
