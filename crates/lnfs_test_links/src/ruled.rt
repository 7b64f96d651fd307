//! Links that give and take bytes by a rule, a net that a server accepts them from, and streams that count what they get.
ghost use Rattle.std.specs.Prelude.{None, [], refl};

use lnfs_outside::{CalmFiles, Failed, Link, MemClock, MemLink, MemSink, Net, Sink, Source};
use lnfs_program::start::start;
use lnfs_test_support::flaw::Flaw;
use lnfs_test_support::runs::{Runtime, words_of};
use lnfs_test_support::services::sent;
use lnfs_test_support::site::{POLICY, file};
use std::alloc::{AllocError, Global};
use std::collections::VecDeque;
use std::sync::atomic::{AtomicU64, Ordering};
use std::thread::yield_now;

/// How often a call looks for what has to come.
pub const TURNS: u64 = 100_000_000;

/// Whether a flag is raised, or rises within so many turns.
pub fn rises(flag: &AtomicU64, turns: u64) -> bool {
    for turn in 0..turns {
        if flag.load(Ordering::SeqCst) != 0 {
            return true;
        }
        if turn % 1_000 == 0 {
            yield_now();
        }
    }
    false
}

/// When a link gives bytes, and when it takes some.
pub trait Rule {
    /// How many bytes a read gives at most, once so many were given and so many taken. Where it is none, the read fails.
    fn piece(&mut self, given: usize, taken: usize) -> Option<usize>;

    /// Whether a write takes its bytes. Where not, it fails.
    fn takes(&mut self) -> bool;
}

/// Gives all, and takes all.
#[derive(Drop)]
pub struct Any;

impl Rule for Any {
    fn piece(&mut self, _given: usize, _taken: usize) -> Option<usize> {
        Some(16_384)
    }

    fn takes(&mut self) -> bool {
        true
    }
}

/// A link that gives and takes by a rule.
#[derive(Drop)]
pub struct Ruled<P> {
    link: MemLink,
    rule: P,
    given: usize,
    read_faults: u64,
    write_faults: u64,
}

impl<P: Rule> Source for Ruled<P> {
    ghost left = { λ s. None };

    ghost read_faults = { λ s. s.read_faults };

    ghost beside_source = { λ s. (None, s.write_faults) };

    fn read(&mut self, buf: &mut [u8]) -> Result<usize, Failed> {
        if let Some(piece) = self.rule.piece(self.given, self.link.bytes().len()) {
            let most = buf.len().min(piece);
            if let Ok(count) = self.link.read(&mut buf[..most]) {
                self.given = self.given.saturating_add(count);
                return Ok(count);
            }
        }
        self.read_faults = self.read_faults.saturating_add(1);
        Err(Failed)
    }
}

impl<P: Rule> Sink for Ruled<P> {
    ghost taken = { λ s. None };

    ghost write_faults = { λ s. s.write_faults };

    ghost beside_sink = { λ s. (None, s.read_faults) };

    ghost waiting = { λ s. [] };

    fn write(&mut self, bytes: &[u8]) -> Result<usize, Failed> {
        if self.rule.takes()
            && let Ok(count) = self.link.write(bytes)
        {
            return Ok(count);
        }
        self.write_faults = self.write_faults.saturating_add(1);
        Err(Failed)
    }

    fn flush(&mut self) -> Result<(), Failed> {
        Ok(())
    }
}

impl<P: Rule> Link for Ruled<P> {
    ghost besides = { λ s. (refl, refl) };

    fn close(&mut self) {}
}

/// A link that gives requests in words, with slashes between, by a rule.
///
/// # Errors
///
/// A flaw where the words can't be read.
pub fn link_by<P: Drop>(alloc: Global, requests: &str, rule: P) -> Result<Ruled<P>, Flaw> {
    let input = sent(alloc, requests)?;
    Ok(Ruled {
        link: MemLink::new(alloc, &input, &[], &[])?,
        rule,
        given: 0,
        read_faults: 0,
        write_faults: 0,
    })
}

/// How many bytes standard output and the audit stream took.
#[derive(Drop)]
struct Counts {
    out: AtomicU64,
    audit: AtomicU64,
}

/// A stream that counts the bytes that it took.
#[derive(Drop)]
struct Tally<'a> {
    sink: MemSink,
    count: &'a AtomicU64,
}

impl Sink for Tally<'_> {
    ghost taken = { λ s. None };

    ghost write_faults = { λ s. s.sink.faults };

    ghost beside_sink = { λ s. (None, 0) };

    ghost waiting = { λ s. [] };

    fn write(&mut self, bytes: &[u8]) -> Result<usize, Failed> {
        let count = self.sink.write(bytes)?;
        self.count.fetch_add(count as u64, Ordering::SeqCst);
        Ok(count)
    }

    fn flush(&mut self) -> Result<(), Failed> {
        self.sink.flush()
    }
}

/// Links that call on a server. None is there for who dials. At the first that comes back it is noted how much the two streams
/// have taken.
#[derive(Drop)]
struct Callers<'a, P> {
    links: VecDeque<Ruled<P>>,
    counts: &'a Counts,
    noted: Option<(u64, u64)>,
    faults: u64,
}

impl<P: Rule + Drop> Net for Callers<'_, P> {
    type L = Ruled<P>;

    ghost dealt = { λ s. None };

    ghost backs = { λ s. None };

    ghost faults = { λ s. s.faults };

    ghost lent = { λ s. tt };

    fn listen(&mut self, _class: u32) -> Result<(), Failed> {
        Ok(())
    }

    fn accept(&mut self, _class: u32) -> Result<Ruled<P>, Failed> {
        if let Some(link) = self.links.pop_front()
            && link.read_faults == 0
            && link.write_faults == 0
        {
            return Ok(link);
        }
        self.faults = self.faults.saturating_add(1);
        Err(Failed)
    }

    fn dial(&mut self, _class: u32) -> Result<Ruled<P>, Failed> {
        self.faults = self.faults.saturating_add(1);
        Err(Failed)
    }

    fn stop_listening(&mut self) {}

    fn hang_up(&mut self, link: Ruled<P>) {
        if self.noted.is_none() {
            let out = self.counts.out.load(Ordering::SeqCst);
            self.noted = Some((out, self.counts.audit.load(Ordering::SeqCst)));
        }
        if link.read_faults != 0 || link.write_faults != 0 {
            self.faults = self.faults.saturating_add(1);
        }
    }
}

/// What a service gave: its status, what the two streams took, and how much of it before the first link came back.
#[derive(Drop)]
pub struct Told {
    pub status: u8,
    pub out: MemSink,
    pub audit: MemSink,
    pub noted: Option<(u64, u64)>,
}

/// Serves links as the words of a line say, over streams that count.
fn serve_counted<P: Rule + Send + Drop>(
    rt: &impl Runtime,
    alloc: Global,
    words: &[String],
    links: VecDeque<Ruled<P>>,
    clock: &MemClock,
    counts: &Counts,
) -> Result<Told, AllocError> {
    let mut files = CalmFiles::new(vec![in alloc; file(alloc, "p", POLICY.as_bytes())?]?);
    let mut out = Tally {
        sink: MemSink::new(alloc, &[])?,
        count: &counts.out,
    };
    let mut audit = Tally {
        sink: MemSink::new(alloc, &[])?,
        count: &counts.audit,
    };
    let mut net = Callers {
        links,
        counts,
        noted: None,
        faults: 0,
    };
    let status = start(
        rt, alloc, words, &mut files, &mut out, &mut audit, &mut net, clock,
    )?;
    Ok(Told {
        status: status.number(),
        out: out.sink,
        audit: audit.sink,
        noted: net.noted,
    })
}

/// Serves links as the words of a line say, at the times of a clock, where `p` is the policy of all trials.
pub fn serve_ruled<P: Rule + Send + Drop>(
    rt: &impl Runtime,
    alloc: Global,
    line: &str,
    links: VecDeque<Ruled<P>>,
    clock: &MemClock,
) -> Result<Told, AllocError> {
    let words = words_of(alloc, line)?;
    let counts = Counts {
        out: AtomicU64::new(0),
        audit: AtomicU64::new(0),
    };
    serve_counted(rt, alloc, &words, links, clock, &counts)
}

/// Serves one link that is sent these requests, by one worker.
///
/// # Errors
///
/// A flaw where the requests can't be read.
pub fn serve_one(
    rt: &impl Runtime,
    alloc: Global,
    requests: &str,
    clock: &MemClock,
) -> Result<Told, Flaw> {
    let mut links = VecDeque::new(alloc);
    links.push_back(link_by(alloc, requests, Any)?)?;
    Ok(serve_ruled(rt, alloc, "serve p 0 1", links, clock)?)
}
