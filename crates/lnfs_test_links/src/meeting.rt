//! A service whose links, net and audit stream see what no clause says: that links are read side by side, that all classes are
//! listened on before the first link is taken, and that the links are handed back before their lines are written.
ghost use Rattle.std.specs.Prelude.{None, [], refl};

use lnfs_outside::{CalmFiles, CalmSink, Failed, Link, MemLink, MemSink, Net, Sink, Source};
use lnfs_program::start::start;
use lnfs_test_support::flaw::Flaw;
use lnfs_test_support::runs::{Runtime, still, words_of};
use lnfs_test_support::services::sent;
use lnfs_test_support::site::{POLICY, file};
use std::alloc::Global;
use std::collections::VecDeque;
use std::process::Abort;
use std::sync::atomic::{AtomicU64, Ordering};
use std::thread;

/// How often a read looks for the other one.
const TURNS: u64 = 100_000_000;

/// A link whose first read waits for that of another link.
#[derive(Drop)]
struct Meeting<'a> {
    link: MemLink,
    mine: &'a AtomicU64,
    other: &'a AtomicU64,
    met: bool,
    read_faults: u64,
    write_faults: u64,
}

/// Raises a flag, and says whether the other one rises within so many turns.
fn meet(mine: &AtomicU64, other: &AtomicU64) -> bool {
    mine.store(1, Ordering::SeqCst);
    for turn in 0..TURNS {
        if other.load(Ordering::SeqCst) != 0 {
            return true;
        }
        if turn % 1_000 == 0 {
            thread::yield_now();
        }
    }
    false
}

impl Source for Meeting<'_> {
    ghost left = { λ s. None };

    ghost read_faults = { λ s. s.read_faults };

    ghost beside_source = { λ s. (None, s.write_faults) };

    fn read(&mut self, buf: &mut [u8]) -> Result<usize, Failed> {
        if !self.met {
            self.met = meet(self.mine, self.other);
        }
        if self.met
            && let Ok(count) = self.link.read(buf)
        {
            return Ok(count);
        }
        self.read_faults = self.read_faults.saturating_add(1);
        Err(Failed)
    }
}

impl Sink for Meeting<'_> {
    ghost taken = { λ s. None };

    ghost write_faults = { λ s. s.write_faults };

    ghost beside_sink = { λ s. (None, s.read_faults) };

    ghost waiting = { λ s. [] };

    fn write(&mut self, bytes: &[u8]) -> Result<usize, Failed> {
        if let Ok(count) = self.link.write(bytes) {
            return Ok(count);
        }
        self.write_faults = self.write_faults.saturating_add(1);
        Err(Failed)
    }

    fn flush(&mut self) -> Result<(), Failed> {
        Ok(())
    }
}

impl Link for Meeting<'_> {
    ghost besides = { λ s. (refl, refl) };

    fn close(&mut self) {}
}

/// Gives two links whose first reads wait for each other, once two classes are listened on. Counts those that are back.
#[derive(Drop)]
struct Hall<'a> {
    inputs: VecDeque<(MemLink, &'a AtomicU64, &'a AtomicU64)>,
    listened: u32,
    backs: &'a AtomicU64,
    faults: u64,
}

impl<'a> Net for Hall<'a> {
    type L = Meeting<'a>;

    ghost dealt = { λ s. None };

    ghost backs = { λ s. None };

    ghost faults = { λ s. s.faults };

    ghost lent = { λ s. tt };

    fn listen(&mut self, _class: u32) -> Result<(), Failed> {
        self.listened = self.listened.saturating_add(1);
        Ok(())
    }

    fn accept(&mut self, _class: u32) -> Result<Meeting<'a>, Failed> {
        if self.listened != 2 {
            self.faults = self.faults.saturating_add(1);
            return Err(Failed);
        }
        let Some((link, mine, other)) = self.inputs.pop_front() else {
            self.faults = self.faults.saturating_add(1);
            return Err(Failed);
        };
        Ok(Meeting {
            link,
            mine,
            other,
            met: false,
            read_faults: 0,
            write_faults: 0,
        })
    }

    fn dial(&mut self, class: u32) -> Result<Meeting<'a>, Failed> {
        self.accept(class)
    }

    fn stop_listening(&mut self) {
        self.listened = 0;
    }

    fn hang_up(&mut self, link: Meeting<'a>) {
        self.backs.fetch_add(1, Ordering::SeqCst);
        if link.read_faults != 0 || link.write_faults != 0 {
            self.faults = self.faults.saturating_add(1);
        }
    }
}

/// An audit stream that looks, at its first write, how many links are back.
#[derive(Drop)]
struct Watch<'a> {
    lines: MemSink,
    backs: &'a AtomicU64,
    seen: Option<u64>,
}

impl Sink for Watch<'_> {
    ghost taken = { λ s. None };

    ghost write_faults = { λ s. s.lines.faults };

    ghost beside_sink = { λ s. (None, 0) };

    ghost waiting = { λ s. [] };

    fn write(&mut self, bytes: &[u8]) -> Result<usize, Failed> {
        if self.seen.is_none() {
            self.seen = Some(self.backs.load(Ordering::SeqCst));
        }
        self.lines.write(bytes)
    }

    fn flush(&mut self) -> Result<(), Failed> {
        self.lines.flush()
    }
}

/// The links are sent a call each.
fn inputs_of<'a>(
    alloc: Global,
    one: &'a AtomicU64,
    two: &'a AtomicU64,
) -> Result<VecDeque<(MemLink, &'a AtomicU64, &'a AtomicU64)>, Flaw> {
    let input = sent(alloc, "1 0 2 100003 4 0 0 0 0 0")?;
    let mut inputs = VecDeque::new(alloc);
    for (mine, other) in [(one, two), (two, one)] {
        inputs.push_back((MemLink::new(alloc, &input, &[], &[])?, mine, other))?;
    }
    Ok(inputs)
}

/// Serves two links by two workers: the status.
fn serve_in<R: Runtime + Abort>(
    rt: &R,
    alloc: Global,
    hall: &mut Hall<'_>,
    audit: &mut Watch<'_>,
) -> Result<u8, Flaw> {
    let words = words_of(alloc, "serve p 0,1 2")?;
    let mut files = CalmFiles::new(vec![in alloc; file(alloc, "p", POLICY.as_bytes())?]?);
    let mut out = CalmSink::new();
    let clock = still(alloc)?;
    let status = start(rt, alloc, &words, &mut files, &mut out, audit, hall, &clock)?;
    Ok(status.number())
}

/// Two links over two workers: the first read of each waits for that of the other. The net gives no link before both classes are
/// listened on, and both links are back before the first line is written.
#[test]
fn links_meet(rt: HostRuntime) -> Result<(), Flaw> {
    let alloc = rt.alloc();
    let (one, two, backs) = (AtomicU64::new(0), AtomicU64::new(0), AtomicU64::new(0));
    let mut hall = Hall {
        inputs: inputs_of(alloc, &one, &two)?,
        listened: 0,
        backs: &backs,
        faults: 0,
    };
    let mut audit = Watch {
        lines: MemSink::new(alloc, &[])?,
        backs: &backs,
        seen: None,
    };
    let status = serve_in(&rt, alloc, &mut hall, &mut audit)?;
    assert!(rt;
        audit.lines.bytes() == b"link 0 Closed 1\nlink 1 Closed 1\n".as_slice(),
        "both were read"
    );
    assert_eq!(rt; audit.seen, Some(2), "links that were back");
    assert_eq!(rt; hall.listened, 0, "nobody listens");
    assert_eq!(rt; status, 0, "status");
    Ok(())
}
