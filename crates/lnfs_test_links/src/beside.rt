//! In which order links are read and written, which no clause says: a reply is written before the next record is read, it is
//! written while another link's is, and as many links are served side by side as there are workers.
use crate::ruled::{Rule, Ruled, TURNS, Told, link_by, rises, serve_ruled};
use lnfs_test_support::flaw::Flaw;
use lnfs_test_support::runs::{Runtime, still};
use lnfs_traffic::read_traffic;
use std::alloc::Global;
use std::collections::VecDeque;
use std::process::Abort;
use std::sync::atomic::{AtomicU64, Ordering};

/// A NULL call by AUTH_NONE (RFC 5531 section 9), whose frame has 44 bytes and that of its reply 28.
const CALL: &str = "1 0 2 100003 4 0 0 0 0 0";

const CALLS: &str =
    "1 0 2 100003 4 0 0 0 0 0 / 2 0 2 100003 4 0 0 0 0 0 / 3 0 2 100003 4 0 0 0 0 0";

/// Serves links, and compares the status, and the lines of the links.
fn serve_well<P: Rule + Send + Drop, R: Runtime + Abort>(
    rt: &R,
    alloc: Global,
    line: &str,
    links: VecDeque<Ruled<P>>,
    lines: &str,
) -> Result<Told, Flaw> {
    let clock = still(alloc)?;
    let told = serve_ruled(rt, alloc, line, links, &clock)?;
    assert!(rt; told.audit.bytes() == lines.as_bytes(), "lines of {line}");
    assert_eq!(rt; told.status, 0, "status of {line}");
    Ok(told)
}

/// Reads give so many bytes at most. One that comes before the replies to all calls that were given whole fails.
#[derive(Drop)]
struct InTurn {
    piece: usize,
}

impl Rule for InTurn {
    fn piece(&mut self, given: usize, taken: usize) -> Option<usize> {
        if taken / 28 == given / 44 {
            Some(self.piece)
        } else {
            None
        }
    }

    fn takes(&mut self) -> bool {
        true
    }
}

/// Each call is answered before the link is read on, where a read gives one call, a part of one, and two with a part of the
/// third.
#[test]
fn a_reply_comes_before_the_next_read(rt: HostRuntime) -> Result<(), Flaw> {
    let alloc = rt.alloc();
    for piece in [44, 20, 100] {
        let mut links = VecDeque::new(alloc);
        links.push_back(link_by(alloc, CALLS, InTurn { piece })?)?;
        serve_well(&rt, alloc, "serve p 0 1", links, "link 0 Closed 3\n")?;
    }
    Ok(())
}

/// Each write waits for one of the other link.
#[derive(Drop)]
struct Together<'a> {
    mine: &'a AtomicU64,
    other: &'a AtomicU64,
}

impl Rule for Together<'_> {
    fn piece(&mut self, _given: usize, _taken: usize) -> Option<usize> {
        Some(44)
    }

    fn takes(&mut self) -> bool {
        self.mine.store(1, Ordering::SeqCst);
        rises(self.other, TURNS)
    }
}

/// Two links over two workers: no write is under the lock of the vault.
#[test]
fn writes_meet(rt: HostRuntime) -> Result<(), Flaw> {
    let alloc = rt.alloc();
    let (one, two) = (AtomicU64::new(0), AtomicU64::new(0));
    let mut links = VecDeque::new(alloc);
    for (mine, other) in [(&one, &two), (&two, &one)] {
        links.push_back(link_by(alloc, CALL, Together { mine, other })?)?;
    }
    let lines = "link 0 Closed 1\nlink 1 Closed 1\n";
    serve_well(&rt, alloc, "serve p 0,1 2", links, lines)?;
    Ok(())
}

/// How often the first link looks for the third, which doesn't come before the first has ended.
const LOOKS: u64 = 10_000_000;

/// Of three links one, which raises its flag where it is written on. The first gives nothing before the second was written on,
/// and fails where the third is written on while it waits.
#[derive(Drop)]
struct Third<'a> {
    first: bool,
    mine: &'a AtomicU64,
    second: &'a AtomicU64,
    third: &'a AtomicU64,
}

impl Rule for Third<'_> {
    fn piece(&mut self, given: usize, _taken: usize) -> Option<usize> {
        if !self.first || given != 0 {
            return Some(44);
        }
        if rises(self.second, TURNS) && !rises(self.third, LOOKS) {
            Some(44)
        } else {
            None
        }
    }

    fn takes(&mut self) -> bool {
        self.mine.store(1, Ordering::SeqCst);
        true
    }
}

/// The three links, with a call each.
fn thirds<'a>(
    alloc: Global,
    first: &'a AtomicU64,
    second: &'a AtomicU64,
    third: &'a AtomicU64,
) -> Result<VecDeque<Ruled<Third<'a>>>, Flaw> {
    let mut links = VecDeque::new(alloc);
    for (first, mine) in [(true, first), (false, second), (false, third)] {
        let rule = Third {
            first,
            mine,
            second,
            third,
        };
        links.push_back(link_by(alloc, CALL, rule)?)?;
    }
    Ok(links)
}

/// Two workers serve three links: the second while the first waits, and the third behind the first.
#[test]
fn as_many_workers_as_the_words_say(rt: HostRuntime) -> Result<(), Flaw> {
    let alloc = rt.alloc();
    let (one, two, three) = (AtomicU64::new(0), AtomicU64::new(0), AtomicU64::new(0));
    let links = thirds(alloc, &one, &two, &three)?;
    let lines = "link 0 Closed 1\nlink 1 Closed 1\nlink 2 Closed 1\n";
    let told = serve_well(&rt, alloc, "serve p 0,1,1 2", links, lines)?;
    let Ok(events) = read_traffic(alloc, told.out.bytes()) else {
        assert!(rt; false, "a recording");
        return Ok(());
    };
    let order = [1, 0, 2];
    assert_eq!(rt; events.len(), order.len(), "events");
    for (event, link) in events.iter().zip(&order) {
        assert_eq!(rt; event.link, *link, "the order of the links");
    }
    Ok(())
}
