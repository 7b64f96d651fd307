//! The ordinary session, driven once and then given to the program: what was sent as the links of
//! a service, and what came back as the link of a client.
ghost use Rattle.std.specs.Prelude.{IfOk};
ghost use Rattle.lnfs_outside.specs.Deals.{IsUnused};

use crate::served::{Driven, ORDINARY, Visit, drive};
use lnfs_outside::{MemDeal, MemFile, MemLink, MemNet, MemSink};
use lnfs_test_support::flaw::{Flaw, demand};
use lnfs_test_support::runs::{NONE, Ran, Runtime, run_files, run_net, run_under};
use lnfs_test_support::site::{POLICY, file};
use std::alloc::{AllocError, Global};

/// How the links of the session end. A guest mounts by three requests and leaves by two, and the
/// third visit makes and ends a context too. A file is made by three, written by two, and read or
/// listed by one; and a write is refused behind one.
const ENDS: &[u8] = b"link 0 Closed 5\nlink 1 Closed 11\nlink 2 Closed 10\n";

/// What is found of the replies to all their requests.
const FAITHFUL: &[u8] = b"faithful 26\n";

/// A link that gives these bytes.
fn deal(alloc: Global, class: u32, input: &[u8]) -> Result<MemDeal, AllocError>
    ensures { IfOk result IsUnused }
{
    let link = MemLink::new(alloc, input, &[], &[])?;
    Ok(MemDeal { class, link })
}

/// What the words of a line give over a net, where `p` is the policy and `s` a script.
fn run_line(
    rt: &impl Runtime,
    alloc: Global,
    line: &str,
    script: &str,
    net: &mut MemNet,
) -> Result<Ran, AllocError> {
    let policy: MemFile = file(alloc, "p", POLICY.as_bytes())?;
    let files = vec![in alloc; policy, file(alloc, "s", script.as_bytes())?]?;
    run_net(rt, alloc, line, files, net, NONE)
}

/// A net with a link for each visit, over which its requests come.
fn net_of(alloc: Global, session: &[Driven]) -> Result<MemNet, AllocError> {
    let mut deals = Vec::new(alloc);
    for (visit, driven) in ORDINARY.iter().zip(session) {
        deals.push(deal(alloc, visit.class, &driven.requests)?)?;
    }
    MemNet::new(alloc, deals, &[])
}

/// Whether each link took the replies of its visit.
fn took_replies(net: &MemNet, session: &[Driven]) -> bool {
    for (link, driven) in net.back().iter().zip(session) {
        if link.bytes() != driven.replies.as_slice() {
            return false;
        }
    }
    net.back().len() == session.len()
}

/// The replies of all visits, one after the other.
fn replies_of(alloc: Global, session: &[Driven]) -> Result<Vec<u8>, AllocError> {
    let mut replies = Vec::new(alloc);
    for driven in session {
        replies.extend_from_slice(&driven.replies)?;
    }
    Ok(replies)
}

/// What a service of so many workers gives over the links of the session, whose lines it tells.
/// The other lines of the audit stream stand before them.
fn serve(
    rt: &impl Runtime,
    alloc: Global,
    line: &str,
    net: &mut MemNet,
    others: bool,
) -> Result<MemSink, Flaw> {
    let (status, out, audit) = run_line(rt, alloc, line, "", net)?;
    demand(alloc, status == 0, "status", line)?;
    let told = audit.bytes().ends_with(ENDS);
    demand(alloc, told, "lines", line)?;
    let alone = others || audit.bytes().len() == ENDS.len();
    demand(alloc, alone, "lines", line)?;
    Ok(out)
}

/// Replays a recording, which gives these replies and no line.
fn replay(rt: &impl Runtime, alloc: Global, recording: &[u8], replies: &[u8]) -> Result<(), Flaw> {
    let (status, out, audit) = run_under(rt, alloc, POLICY, recording)?;
    demand(alloc, status == 0, "status", "the replay")?;
    demand(alloc, out.bytes() == replies, "replies", "the replay")?;
    demand(alloc, audit.bytes().is_empty(), "lines", "the replay")
}

/// Files of the policy `p`, a recording `t` and replies `r`.
fn files_of(alloc: Global, recording: &[u8], replies: &[u8]) -> Result<Vec<MemFile>, AllocError> {
    let mut files = Vec::new(alloc);
    files.push(file(alloc, "p", POLICY.as_bytes())?)?;
    files.push(file(alloc, "t", recording)?)?;
    files.push(file(alloc, "r", replies)?)?;
    Ok(files)
}

/// Judges the replies to a recording, which are found faithful.
fn judge(
    rt: &impl Runtime,
    alloc: Global,
    line: &str,
    recording: &[u8],
    replies: &[u8],
) -> Result<(), Flaw> {
    let files = files_of(alloc, recording, replies)?;
    let (status, out, audit) = run_files(rt, alloc, line, files, NONE)?;
    demand(alloc, status == 0, "status", line)?;
    demand(alloc, out.bytes() == FAITHFUL, "what is found", line)?;
    demand(alloc, audit.bytes().is_empty(), "lines", line)
}

/// The recording of a service gives these replies again, and so does a new server for each level
/// that is given only what this level dominates.
fn repeat(rt: &impl Runtime, alloc: Global, recording: &[u8], replies: &[u8]) -> Result<(), Flaw> {
    replay(rt, alloc, recording, replies)?;
    judge(rt, alloc, "audit p t r", recording, replies)?;
    judge(rt, alloc, "audit p t r purged", recording, replies)
}

/// One worker serves the links of a session.
fn serve_in_order(rt: &impl Runtime, alloc: Global, session: &[Driven]) -> Result<(), Flaw> {
    let line = "serve p 0,1,1 1";
    let mut net = net_of(alloc, session)?;
    let recording = serve(rt, alloc, line, &mut net, false)?;
    demand(alloc, took_replies(&net, session), "replies", line)?;
    let replies = replies_of(alloc, session)?;
    repeat(rt, alloc, recording.bytes(), &replies)
}

/// One worker serves the links in the order in which they were driven: each takes the replies of
/// its visit, and the recording gives all of them again, also for each level apart.
#[test]
fn what_was_sent_is_served_so(rt: HostRuntime) -> Result<(), Flaw> {
    let alloc = rt.alloc();
    let session = drive(&rt, alloc)?;
    serve_in_order(&rt, alloc, &session)
}

/// Four workers serve them in whatever order: the client may look for the file before it is made,
/// so that there may be audit lines.
#[test]
fn what_was_sent_is_served_in_any_order(rt: HostRuntime) -> Result<(), Flaw> {
    let alloc = rt.alloc();
    let session = drive(&rt, alloc)?;
    let mut net = net_of(alloc, &session)?;
    let _recording = serve(&rt, alloc, "serve p 0,1,1 4", &mut net, true)?;
    Ok(())
}

/// What a client's run gives over a net: what is shown, and no line.
fn show(rt: &impl Runtime, alloc: Global, visit: &Visit, net: &mut MemNet) -> Result<(), Flaw> {
    let script = visit.script;
    let level = visit.level;
    let line = format!(in alloc; "client p {level} s")?;
    let (status, out, audit) = run_line(rt, alloc, &line, script, net)?;
    demand(alloc, status == 0, "status", script)?;
    let same = out.bytes() == visit.shown.as_bytes();
    demand(alloc, same, "what is shown", script)?;
    demand(alloc, audit.bytes().is_empty(), "lines", script)
}

/// Runs a visit over a link that gives the replies that came: it sends what was sent.
fn run_again(rt: &impl Runtime, alloc: Global, visit: &Visit, driven: &Driven) -> Result<(), Flaw> {
    let deals = vec![in alloc; deal(alloc, visit.class, &driven.replies)?]?;
    let mut net = MemNet::new(alloc, deals, &[])?;
    show(rt, alloc, visit, &mut net)?;
    let same = match net.back() {
        [link] => link.bytes() == driven.requests.as_slice(),
        _ => false,
    };
    demand(alloc, same, "requests", visit.script)
}

/// The program's client sends what was sent, and shows what was shown.
#[test]
fn what_came_back_is_shown_so(rt: HostRuntime) -> Result<(), Flaw> {
    let alloc = rt.alloc();
    let session = drive(&rt, alloc)?;
    for (visit, driven) in ORDINARY.iter().zip(&session) {
        run_again(&rt, alloc, visit, driven)?;
    }
    Ok(())
}
