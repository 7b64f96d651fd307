//! Links in memory that are served by threads: what no clause says, and how each service ends.
use crate::order::{Counted, Order};
use crate::served::serve;
use lnfs_gss3::TestMechanism;
use lnfs_outside::MemLink;
use lnfs_words::bytes_of;
use lnfs_workers::{Ending, LinkEnd, OpenGate, TurnGate};
use std::alloc::{AllocError, Global};
use std::process::Abort;
use std::sync::atomic::{AtomicU64, Ordering};

/// A NULL call by AUTH_NONE as one fragment, and its reply (RFC 5531 sections 9 and 11), in hex.
const CALL: &str =
    "80000028 00000007 00000000 00000002 000186a3 00000004 00000000 00000000 00000000 00000000 00000000";

const REPLY: &str = "80000018 00000007 00000001 00000000 00000000 00000000 00000000";

/// The same under another version of RPC, and its refusal, which has a line.
const BAD_CALL: &str =
    "80000028 00000008 00000000 00000003 000186a3 00000004 00000000 00000000 00000000 00000000 00000000";

const REFUSAL: &str = "80000018 00000008 00000001 00000001 00000000 00000002 00000002";

/// What a link gives: its class, its input in hex, and which of its reads and writes fail, counted from 1.
#[derive(Clone, Copy, Drop)]
struct Given<'a> {
    class: u32,
    input: &'a [&'a str],
    reads: &'a [u64],
    writes: &'a [u64],
}

/// How it is served: the ending, how many of its records were, and what it took.
#[derive(Clone, Copy, Drop)]
struct Due<'a> {
    ending: Ending,
    records: u32,
    output: &'a [&'a str],
}

/// The bytes of words in hex.
fn spelled(alloc: Global, texts: &[&str]) -> Result<Vec<u8>, AllocError> {
    let mut digits = Vec::new(alloc);
    for text in texts {
        for word in text.split_whitespace() {
            digits.extend_from_slice(word.as_bytes())?;
        }
    }
    match bytes_of(alloc, &digits)? {
        Some(bytes) => Ok(bytes),
        None => Err(AllocError),
    }
}

/// Links in memory.
fn links_of(alloc: Global, given: &[Given<'_>]) -> Result<Vec<(u32, MemLink)>, AllocError> {
    let mut links = Vec::new(alloc);
    for one in given {
        let input = spelled(alloc, one.input)?;
        let link = MemLink::new(alloc, &input, one.reads, one.writes)?;
        links.push((one.class, link))?;
    }
    Ok(links)
}

/// Compares the end of a link with what is due.
fn one_ends_as(
    rt: &impl Abort,
    alloc: Global,
    i: usize,
    end: &LinkEnd<MemLink>,
    class: u32,
    due: &Due<'_>,
) -> Result<(), AllocError> {
    assert_eq!(rt; end.class, class, "class of {i}");
    assert_eq!(rt; end.ending, due.ending, "ending of {i}");
    assert_eq!(rt; end.records, due.records, "records of {i}");
    let output = spelled(alloc, due.output)?;
    assert!(rt; end.link.bytes() == output.as_slice(), "output of {i}");
    Ok(())
}

/// The same of all links.
fn end_as(
    rt: &impl Abort,
    alloc: Global,
    given: &[Given<'_>],
    ends: &[LinkEnd<MemLink>],
    due: &[Due<'_>],
) -> Result<(), AllocError> {
    assert_eq!(rt; ends.len(), due.len(), "links");
    for (i, ((end, one), due)) in ends.iter().zip(given).zip(due).enumerate() {
        one_ends_as(rt, alloc, i, end, one.class, due)?;
    }
    Ok(())
}

/// Links whose reads and writes don't fail, each with these calls.
const fn calls<'a>(class: u32, input: &'a [&'a str]) -> Given<'a> {
    Given {
        class,
        input,
        reads: &[],
        writes: &[],
    }
}

const fn after<'a>(ending: Ending, records: u32, output: &'a [&'a str]) -> Due<'a> {
    Due {
        ending,
        records,
        output,
    }
}

#[test]
fn each_ending(rt: HostRuntime) -> Result<(), AllocError> {
    let given = [
        calls(0, &[CALL, BAD_CALL, CALL]),
        calls(1, &[CALL, "80000028 0000"]),
        Given {
            class: 1,
            input: &[CALL],
            reads: &[2],
            writes: &[],
        },
        Given {
            class: 0,
            input: &[CALL, CALL, CALL],
            reads: &[],
            writes: &[2],
        },
        calls(0, &[CALL, "80020001"]),
        calls(1, &[]),
        calls(0, &["00000004 00000007"]),
    ];
    let due = [
        after(Ending::Closed, 3, &[REPLY, REFUSAL, REPLY]),
        after(Ending::Cut, 1, &[REPLY]),
        after(Ending::ReadFault, 1, &[REPLY]),
        after(Ending::WriteFault, 2, &[REPLY]),
        after(Ending::TooLong, 1, &[REPLY]),
        after(Ending::Closed, 0, &[]),
        after(Ending::Cut, 0, &[]),
    ];
    for workers in [1, 3, 16] {
        let served = serve(
            &rt,
            rt.alloc(),
            TestMechanism,
            &OpenGate,
            links_of(rt.alloc(), &given)?,
            workers,
        )?;
        end_as(&rt, rt.alloc(), &given, &served.ends, &due)?;
        assert_eq!(rt; served.order.len(), 8, "events");
        assert_eq!(rt; served.lines.len(), 1, "lines");
    }
    Ok(())
}

/// How often each of two workers came.
#[derive(Drop)]
struct Seen {
    turns: [AtomicU64; 2],
}

impl TurnGate for Seen {
    fn pass(&self, worker: u32, turn: u64) {
        if let Some(last) = self.turns.get(worker as usize) {
            last.store(turn, Ordering::SeqCst);
        }
    }
}

#[test]
fn three_links_over_two_workers(rt: HostRuntime) -> Result<(), AllocError> {
    let given = [
        calls(0, &[CALL, CALL]),
        calls(1, &[CALL]),
        calls(1, &[BAD_CALL, CALL, CALL]),
    ];
    let due = [
        after(Ending::Closed, 2, &[REPLY, REPLY]),
        after(Ending::Closed, 1, &[REPLY]),
        after(Ending::Closed, 3, &[REFUSAL, REPLY, REPLY]),
    ];
    let gate = Seen {
        turns: [AtomicU64::new(0), AtomicU64::new(0)],
    };
    let served = serve(
        &rt,
        rt.alloc(),
        TestMechanism,
        &gate,
        links_of(rt.alloc(), &given)?,
        2,
    )?;
    end_as(&rt, rt.alloc(), &given, &served.ends, &due)?;
    let turns = [
        gate.turns[0].load(Ordering::SeqCst),
        gate.turns[1].load(Ordering::SeqCst),
    ];
    assert!(rt;
        turns == [5, 1],
        "the first worker has the first link and the third"
    );
    let first = served.order.iter().rposition(|link| *link == 0);
    let third = served.order.iter().position(|link| *link == 2);
    assert!(rt; first < third, "one after the other");
    Ok(())
}

/// The journal is in the order that the gate keeps, whichever worker is first there.
#[test]
fn one_order(rt: HostRuntime) -> Result<(), AllocError> {
    let given = [
        calls(0, &[CALL, CALL, CALL]),
        calls(1, &[CALL, CALL]),
        calls(1, &[CALL, CALL]),
    ];
    let written = AtomicU64::new(0);
    let mut links = Vec::new(rt.alloc());
    for (class, link) in links_of(rt.alloc(), &given)? {
        let written = &written;
        links.push((class, Counted { link, written }))?;
    }
    let order = [2, 0, 1, 1, 2, 0, 0];
    let gate = Order {
        workers: &order,
        written: &written,
    };
    let served = serve(&rt, rt.alloc(), TestMechanism, &gate, links, 3)?;
    assert!(rt; served.order.as_slice() == order.as_slice(), "the order");
    Ok(())
}

/// Records without bytes have neither a reply nor a line, and each is served.
#[test]
fn as_many_records_as_a_link_may_have(rt: HostRuntime) -> Result<(), AllocError> {
    let mut input = Vec::new(rt.alloc());
    for _ in 0..65_537 {
        input.extend_from_slice(&[128, 0, 0, 0])?;
    }
    let link = MemLink::new(rt.alloc(), &input, &[], &[])?;
    let links = vec![in rt.alloc(); (0, link)]?;
    let served = serve(&rt, rt.alloc(), TestMechanism, &OpenGate, links, 1)?;
    let [end] = served.ends.as_slice() else {
        assert!(rt; false, "one link");
        return Ok(());
    };
    assert_eq!(rt; end.ending, Ending::Budget, "ending");
    assert_eq!(rt; end.records, 65_536, "records");
    assert!(rt; end.link.bytes().is_empty(), "no reply");
    assert_eq!(rt; served.order.len(), 65_536, "events");
    Ok(())
}
