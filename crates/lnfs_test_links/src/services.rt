//! Services of links in memory: the lines of the links, what these took, and the recording.
use lnfs_outside::MemNet;
use lnfs_test_support::flaw::Flaw;
use lnfs_test_support::rows::recording_of;
use lnfs_test_support::runs::{Failing, NONE, Ran, Runtime, run_over};
use lnfs_test_support::services::{Peer, net_of, peer_of, run_service, sent};
use lnfs_traffic::read_traffic;
use lnfs_types::Event;
use std::alloc::{AllocError, Global};
use std::process::Abort;

/// Compares the status and the audit stream with what is due.
fn tells(rt: &impl Abort, name: &str, ran: &Ran, status: u8, lines: &str) {
    assert_eq!(rt; ran.0, status, "status of {name}");
    assert!(rt; ran.2.bytes() == lines.as_bytes(), "audit of {name}");
}

/// Compares what a link took with the frames of replies.
fn took(
    rt: &impl Abort,
    alloc: Global,
    net: &MemNet,
    link: usize,
    replies: &str,
) -> Result<(), Flaw> {
    let frames = sent(alloc, replies)?;
    let back = net.back();
    assert!(rt; link < back.len(), "link {link} is back");
    assert!(rt; back[link].bytes() == frames.as_slice(), "link {link} took");
    Ok(())
}

#[test]
fn one_link(rt: HostRuntime) -> Result<(), Flaw> {
    let requests = "1 0 2 100003 4 0 SYS / 1 0 2 100003 3 1 SYS / CALL SYS EXCHANGE 'c1' REST";
    let replies = "ACCEPTED 0 / ACCEPTED 2 4 4 / EXCHANGED 0 1 SERVER";
    let alloc = rt.alloc();
    let mut net = net_of(alloc, &[peer_of(0, requests)], &[])?;
    let ran = run_service(&rt, alloc, "serve p 0 1", &mut net, NONE)?;
    tells(&rt, "one link", &ran, 0, "2 0 0 P 2\nlink 0 Closed 3\n");
    took(&rt, alloc, &net, 0, replies)?;
    let recording = recording_of(alloc, requests)?.expect(&rt, requests);
    assert!(rt; ran.1.bytes() == recording.as_slice(), "the recording");
    Ok(())
}

/// Three links, of which the second sends nothing, and the third is of two levels.
fn clients() -> [Peer<'static>; 3] {
    let one = "CALL SYS EXCHANGE 'c1' REST";
    let two = "CALL SYS_100 EXCHANGE 'c1' REST / CALL SYS_300 EXCHANGE 'c1' REST";
    [peer_of(0, one), peer_of(1, ""), peer_of(1, two)]
}

/// The replies to events by links, in the order of the events. Each has 112 bytes, and of the events
/// of a link the replies are those that it took.
fn in_order(
    rt: &impl Abort,
    alloc: Global,
    net: &MemNet,
    events: &[Event],
) -> Result<Vec<u8>, AllocError> {
    let mut all = Vec::new(alloc);
    let mut seen = [0usize; 3];
    for event in events {
        let link = event.link as usize;
        let back = net.back();
        assert!(rt; link < back.len() && link < seen.len(), "a link");
        let start = seen[link];
        let end = start.saturating_add(112);
        all.extend_from_slice(back[link].bytes().get(start..end).expect(rt, "a frame"))?;
        seen[link] = end;
    }
    Ok(all)
}

/// Compares the replay of a recording with frames of replies.
fn replay_gives<R: Runtime + Abort>(
    rt: &R,
    alloc: Global,
    recording: &[u8],
    frames: &[u8],
) -> Result<(), Flaw> {
    let again = run_over(rt, alloc, recording)?;
    tells(rt, "the replay", &again, 0, "");
    assert!(rt; again.1.bytes() == frames, "the replies");
    Ok(())
}

/// Compares the replay of a recording of so many events with what the links took.
fn replays<R: Runtime + Abort>(
    rt: &R,
    alloc: Global,
    net: &MemNet,
    recording: &[u8],
    count: usize,
) -> Result<(), Flaw> {
    let Ok(events) = read_traffic(alloc, recording) else {
        assert!(rt; false, "a recording");
        return Ok(());
    };
    assert_eq!(rt; events.len(), count, "events");
    let frames = in_order(rt, alloc, net, &events)?;
    replay_gives(rt, alloc, recording, &frames)
}

/// Compares what each of the three links took.
fn each_took(rt: &impl Abort, alloc: Global, net: &MemNet) -> Result<(), Flaw> {
    took(rt, alloc, net, 0, "EXCHANGED 0 1 SERVER")?;
    took(rt, alloc, net, 1, "")?;
    let replies = "EXCHANGED 1 1 SERVER / EXCHANGED 3 1 SERVER";
    took(rt, alloc, net, 2, replies)
}

#[test]
fn three_links_over_two_workers(rt: HostRuntime) -> Result<(), Flaw> {
    let alloc = rt.alloc();
    let mut net = net_of(alloc, &clients(), &[])?;
    let ran = run_service(&rt, alloc, "serve p 0,1,1 2", &mut net, NONE)?;
    let lines = "link 0 Closed 1\nlink 1 Closed 0\nlink 2 Closed 2\n";
    tells(&rt, "three links", &ran, 0, lines);
    each_took(&rt, alloc, &net)?;
    replays(&rt, alloc, &net, ran.1.bytes(), 3)
}

/// 64 links are served, where the net has them, and not 65.
#[test]
fn many_links(rt: HostRuntime) -> Result<(), Flaw> {
    let alloc = rt.alloc();
    for (count, status) in [(63usize, 8u8), (64, 2)] {
        let classes = "0,".repeat(alloc, count)?;
        let line = format!(in alloc; "serve p {classes}0 1")?;
        let mut net = net_of(alloc, &[peer_of(0, "")], &[])?;
        let ran = run_service(&rt, alloc, &line, &mut net, NONE)?;
        assert_eq!(rt; ran.0, status, "status of {line}");
        assert!(rt; ran.1.bytes().is_empty(), "out of {line}");
    }
    Ok(())
}

/// The second link doesn't come, and the first is handed back as it was.
#[test]
fn a_link_that_does_not_come(rt: HostRuntime) -> Result<(), Flaw> {
    let alloc = rt.alloc();
    let mut net = net_of(alloc, &clients(), &[2])?;
    let ran = run_service(&rt, alloc, "serve p 0,1,1 2", &mut net, NONE)?;
    tells(&rt, "a refusal", &ran, 8, "");
    assert!(rt; ran.1.bytes().is_empty(), "out");
    assert_eq!(rt; net.back().len(), 1, "links that are back");
    took(&rt, alloc, &net, 0, "")
}

/// Links that end otherwise than at the end of their input, outside a record.
#[test]
fn faults_of_links(rt: HostRuntime) -> Result<(), Flaw> {
    let alloc = rt.alloc();
    let request = "CALL SYS EXCHANGE 'c1' REST";
    let peers = [
        Peer {
            class: 0,
            requests: request,
            reads: &[1],
            writes: &[],
        },
        peer_of(0, request),
        Peer {
            class: 0,
            requests: request,
            reads: &[],
            writes: &[1],
        },
    ];
    let mut net = net_of(alloc, &peers, &[])?;
    let ran = run_service(&rt, alloc, "serve p 0,0,0 1", &mut net, NONE)?;
    let lines = "link 0 ReadFault 0\nlink 1 Closed 1\nlink 2 WriteFault 1\n";
    tells(&rt, "faults", &ran, 0, lines);
    took(&rt, alloc, &net, 0, "")?;
    took(&rt, alloc, &net, 1, "EXCHANGED 0 1 SERVER")?;
    took(&rt, alloc, &net, 2, "")
}

/// A link that can't be read ends alone.
#[test]
fn a_first_read_that_fails(rt: HostRuntime) -> Result<(), Flaw> {
    let alloc = rt.alloc();
    let request = "CALL SYS EXCHANGE 'c1' REST";
    let fails = Peer {
        class: 0,
        requests: request,
        reads: &[1],
        writes: &[],
    };
    let peers = [peer_of(0, request), fails, peer_of(0, request)];
    let mut net = net_of(alloc, &peers, &[])?;
    let ran = run_service(&rt, alloc, "serve p 0,0,0 3", &mut net, NONE)?;
    let lines = "link 0 Closed 1\nlink 1 ReadFault 0\nlink 2 Closed 1\n";
    tells(&rt, "a fault", &ran, 0, lines);
    took(&rt, alloc, &net, 1, "")
}

/// A stream that fails doesn't keep the links.
#[test]
fn faults_of_streams(rt: HostRuntime) -> Result<(), Flaw> {
    let alloc = rt.alloc();
    let out = Failing { outs: &[1], ..NONE };
    let audit = Failing {
        audits: &[1],
        ..NONE
    };
    for failing in [out, audit] {
        let mut net = net_of(alloc, &clients(), &[])?;
        let ran = run_service(&rt, alloc, "serve p 0,1,1 2", &mut net, failing)?;
        tells(&rt, "a fault", &ran, 6, "");
        assert_eq!(rt; net.back().len(), 3, "links that are back");
        took(&rt, alloc, &net, 0, "EXCHANGED 0 1 SERVER")?;
    }
    Ok(())
}

/// Each line is one write, and the recording is written event by event: a write that fails loses nothing that was written before it.
#[test]
fn line_by_line(rt: HostRuntime) -> Result<(), Flaw> {
    let alloc = rt.alloc();
    let denied = "1 0 2 100003 3 1 SYS / 1 0 2 100003 3 1 SYS";
    let lines = "1 0 0 P 2\n2 0 0 P 2\nlink 0 Closed 2\nlink 1 Closed 0\n";
    for (number, taken) in [(1u64, 0usize), (2, 10), (3, 20), (4, 36)] {
        let mut net = net_of(alloc, &[peer_of(0, denied), peer_of(0, "")], &[])?;
        let audits = [number];
        let failing = Failing {
            audits: &audits,
            ..NONE
        };
        let ran = run_service(&rt, alloc, "serve p 0,0 1", &mut net, failing)?;
        let front = lines.get(..taken).expect(&rt, lines);
        tells(&rt, "a line that fails", &ran, 6, front);
        assert_eq!(rt; net.back().len(), 2, "links that are back");
    }
    let mut net = net_of(alloc, &[peer_of(0, denied)], &[])?;
    let failing = Failing { outs: &[2], ..NONE };
    let ran = run_service(&rt, alloc, "serve p 0 1", &mut net, failing)?;
    tells(&rt, "an event that fails", &ran, 6, "");
    assert!(rt; ran.1.bytes() == b"LNFSTRC1".as_slice(), "the beginning");
    Ok(())
}
