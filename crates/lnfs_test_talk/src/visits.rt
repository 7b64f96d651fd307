//! Runs of `client POLICY LEVEL SCRIPT`: statuses, and what the streams get.
use lnfs_outside::{MemFile, MemNet};
use lnfs_test_support::flaw::{Flaw, demand, read_of};
use lnfs_test_support::rows::{Due, cells_of, rows_of};
use lnfs_test_support::runs::{NONE, Runtime, gives, run_net};
use lnfs_test_support::services::{Peer, net_of, peer_of};
use lnfs_test_support::site::{BAD_POLICY, POLICY, file};
use std::alloc::{AllocError, Global};

/// Files that the words name: `p` is a policy and `q` none, `s` is a script, and the others are none.
fn files_of(alloc: Global) -> Result<Vec<MemFile>, AllocError> {
    let mut files = Vec::new(alloc);
    for (name, content) in [
        ("p", POLICY.as_bytes()),
        ("q", BAD_POLICY),
        ("s", b"link 1 guest 100\n".as_slice()),
        ("word", b"link 1 guest 100\nstay /\n".as_slice()),
        ("class", b"link 8 guest 100\n".as_slice()),
        ("parent", b"link 1 full 8\n".as_slice()),
        (
            "level",
            b"link 1 guest 100\nlist /\nmkdir /d 4\n".as_slice(),
        ),
        ("cut", b"link 1 guest 100\nlist /".as_slice()),
        ("empty", b"".as_slice()),
    ] {
        files.push(file(alloc, name, content)?)?;
    }
    Ok(files)
}

/// In a table: words; the status; standard output and the audit stream, without the newlines.
///
/// The net has no link to give.
const WITHOUT_LINK: &str = "
client p 1 s | 8 | |
client p 4 s | 2 | | fault 2 usage
client p 4 no | 2 | | fault 2 usage
client p 01 s | 2 | | fault 2 usage
client p 4294967296 s | 2 | | fault 2 usage
client p 1 | 2 | | fault 2 usage
client p 1 s s | 2 | | fault 2 usage
client no 4 s | 9 | | fault 9 no file no
client q 4 s | 3 | | fault 3 policy line 10 cause Guest
client p 1 no | 9 | | fault 9 no file no
client p 1 word | 12 | | fault 12 script line 2
client p 1 class | 12 | | fault 12 script line 1
client p 1 parent | 12 | | fault 12 script line 1
client p 1 level | 12 | | fault 12 script line 3
client p 1 cut | 12 | | fault 12 script line 2
client p 1 empty | 12 | | fault 12 script line 1
";

/// The link of class 1 gives these records: the first is cut behind its verifier, is that of another transaction, or denies.
const REPLIES: &str = "
1 1 0 0 0 | 0 | bad reply 20 |
2 1 0 0 0 0 / 1 1 0 0 0 | 0 | bad reply 20 |
2 1 0 0 0 0 | 13 | | fault 13 link closed
1 1 1 1 5 | 0 | denied 5 |
1 1 1 1 5 / 2 1 0 0 0 0 | 0 | denied 5 |
";

/// A text with a newline, if it has any bytes.
fn line_of(alloc: Global, text: &str) -> Result<String, AllocError> {
    if text.is_empty() {
        return Ok(String::new(alloc));
    }
    format!(in alloc; "{text}\n")
}

/// What the last three cells of a row say is due.
fn due_of(alloc: Global, cells: &[&str], row: &str) -> Result<Due, Flaw> {
    let &[status, out, audit] = cells else {
        return Err(Flaw::new(alloc, "reading", row));
    };
    Ok(Due {
        status: read_of(alloc, status.parse().ok(), row)?,
        out: line_of(alloc, out)?.into_bytes(),
        lines: line_of(alloc, audit)?,
    })
}

/// Runs words over a net, and compares the status and the streams.
fn check_over(
    rt: &impl Runtime,
    alloc: Global,
    words: &str,
    net: &mut MemNet,
    row: &str,
    due: &Due,
) -> Result<(), Flaw> {
    let files = files_of(alloc)?;
    let ran = run_net(rt, alloc, words, files, net, NONE)?;
    gives(alloc, row, &ran, due)
}

/// Runs words over a net of peers, whose links are handed back.
fn check_run(
    rt: &impl Runtime,
    alloc: Global,
    words: &str,
    peers: &[Peer<'_>],
    row: &str,
    due: &Due,
) -> Result<(), Flaw> {
    let mut net = net_of(alloc, peers, &[])?;
    check_over(rt, alloc, words, &mut net, row, due)?;
    let back = net.back().len() == peers.len();
    demand(alloc, back, "links handed back", row)
}

/// A row of words, and what is due of them over a net without a link.
fn check_words(rt: &impl Runtime, alloc: Global, row: &str) -> Result<(), Flaw> {
    let cells = cells_of(alloc, row)?;
    let Some((words, cells)) = cells.split_first() else {
        return Err(Flaw::new(alloc, "reading", row));
    };
    let due = due_of(alloc, cells, row)?;
    check_run(rt, alloc, words, &[], row, &due)
}

#[test]
fn visits_without_a_link(rt: HostRuntime) -> Result<(), Flaw> {
    let alloc = rt.alloc();
    let rows = rows_of(alloc, WITHOUT_LINK)?;
    for row in &rows {
        check_words(&rt, alloc, row)?;
    }
    Ok(())
}

/// A row of replies, and what is due of a visit to which they come.
fn check_replies(rt: &impl Runtime, alloc: Global, row: &str) -> Result<(), Flaw> {
    let cells = cells_of(alloc, row)?;
    let Some((replies, cells)) = cells.split_first() else {
        return Err(Flaw::new(alloc, "reading", row));
    };
    let due = due_of(alloc, cells, row)?;
    let peer = peer_of(1, replies);
    check_run(rt, alloc, "client p 1 s", &[peer], row, &due)
}

#[test]
fn visits_of_few_replies(rt: HostRuntime) -> Result<(), Flaw> {
    let alloc = rt.alloc();
    let rows = rows_of(alloc, REPLIES)?;
    for row in &rows {
        check_replies(&rt, alloc, row)?;
    }
    Ok(())
}

/// A visit over a link some of whose calls fail.
fn check_failing(
    rt: &impl Runtime,
    alloc: Global,
    reads: &[u64],
    writes: &[u64],
) -> Result<(), Flaw> {
    let row = "a failing link";
    let due = due_of(alloc, &["8", "", ""], row)?;
    let peer = Peer {
        class: 1,
        requests: "1 1 0 0 0",
        reads,
        writes,
    };
    check_run(rt, alloc, "client p 1 s", &[peer], row, &due)
}

/// A link whose first read or write fails.
#[test]
fn visits_over_failing_links(rt: HostRuntime) -> Result<(), Flaw> {
    let alloc = rt.alloc();
    check_failing(&rt, alloc, &[1], &[])?;
    check_failing(&rt, alloc, &[], &[1])
}
