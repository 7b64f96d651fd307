//! Hostile input, and calls of the outside that fail, each met by a new server or client: what it answers, what it tells, and
//! how it ends.
//!
//! Bytes are spelled by pieces with semicolons between. A piece is the frame of a record whose words stand there; or the words
//! alone, behind `raw`; or a line of text, behind `line`; or the recording of events, behind `recorded`. Before frames and
//! words may stand how often they come, and `times`.
ghost use Rattle.std.specs.Prelude.{IfOk};
ghost use Rattle.lnfs_outside.specs.Deals.{IsUnused};

use lnfs_outside::{MemDeal, MemFile, MemLink, MemNet};
use lnfs_test_support::flaw::{Flaw, demand, read_of};
use lnfs_test_support::rows::{Due, recording_of};
use lnfs_test_support::runs::{Failing, Ran, Runtime, gives, run_net};
use lnfs_test_support::services::sent;
use lnfs_test_support::site::{POLICY, file};
use std::alloc::{AllocError, Global};

/// A case, and what is due of it.
struct Case {
    name: &'static str,
    /// The words, where `p` is the policy of all trials, `t` the recording of the case, and `s` a script that mounts and
    /// leaves.
    line: &'static str,
    /// The call that fails, and which of these calls: `accept`, `read` of files, `out` or `audit`. Empty where none fails.
    fails: &'static str,
    /// The bytes of the recording.
    traffic: &'static str,
    /// The links with `+` between: the class, the call that fails as above, of `read` and `write`, and behind `:` the bytes
    /// that come. Empty where there is none.
    links: &'static str,
    status: u8,
    /// The bytes that standard output takes.
    out: &'static str,
    /// The lines that the audit stream takes.
    lines: &'static str,
    /// The bytes that each link took that was handed back, with `+` between; `-` where no link was, and `any` where they are
    /// looked at elsewhere.
    took: &'static str,
}

/// A recording that is replayed.
const REPLAYED: Case = Case {
    name: "",
    line: "replay p t",
    fails: "",
    traffic: "",
    links: "",
    status: 0,
    out: "",
    lines: "",
    took: "-",
};

/// A link of class 0 that is served.
const SERVED: Case = Case {
    name: "",
    line: "serve p 0 1",
    fails: "",
    traffic: "",
    links: "",
    status: 0,
    out: "raw 'LNFSTRC1'",
    lines: "",
    took: "",
};

/// A client of level 1 over a link.
const ASKING: Case = Case {
    name: "",
    line: "client p 1 s",
    fails: "",
    traffic: "",
    links: "",
    status: 0,
    out: "",
    lines: "",
    took: "any",
};

/// Records that are no calls, and calls whose lengths and counts promise what isn't there.
const RECORDS: [Case; 6] = [
    Case {
        name: "a record of four bytes",
        traffic: "recorded 1",
        ..REPLAYED
    },
    Case {
        name: "a credential's length above 400",
        traffic: "recorded 1 0 2 100003 4 1 1 401",
        out: "1 1 1 1 1",
        lines: "1 0 0 C 1\n",
        ..REPLAYED
    },
    Case {
        name: "arguments without their last word",
        traffic: "recorded CALL SYS EXCHANGE 'c1' 0x0000 0 0",
        out: "1 1 0 0 0 4",
        lines: "1 0 0 P 4\n",
        ..REPLAYED
    },
    Case {
        name: "the highest count of operations",
        traffic: "recorded CALL SYS 0 2 4294967295 42 0 0 2 'c1' REST",
        out: "1 1 0 0 0 0 10081 0 1 42 10081",
        lines: "1 1 42 S 10081\n",
        ..REPLAYED
    },
    Case {
        name: "the highest length of an owner",
        traffic: "recorded CALL SYS 0 2 1 42 0 0 4294967295 'c1' REST",
        out: "1 1 0 0 0 4",
        lines: "1 0 0 P 4\n",
        ..REPLAYED
    },
    Case {
        name: "the highest length of a tag",
        traffic: "recorded CALL SYS 4294967295 2 1 42 0 0 2 'c1' REST",
        out: "1 1 0 0 0 4",
        lines: "1 0 0 P 4\n",
        ..REPLAYED
    },
];

/// Links whose peers send more than a link may, or less than they began.
const LINKS: [Case; 5] = [
    Case {
        name: "more fragments than a record may have",
        links: "0 : 4097 times raw 0",
        lines: "link 0 TooLong 0\n",
        ..SERVED
    },
    Case {
        name: "as many fragments as a record may have",
        links: "0 : 4095 times raw 0 ; 1 0 2 100003 4 0 0 0 0 0",
        out: "recorded 1 0 2 100003 4 0 0 0 0 0",
        lines: "link 0 Closed 1\n",
        took: "1 1 0 0 0 0",
        ..SERVED
    },
    Case {
        name: "the head of a fragment of 2,147,483,647 bytes",
        links: "0 : raw 4294967295 1 0 2 100003 4 0 0 0 0 0",
        lines: "link 0 TooLong 0\n",
        ..SERVED
    },
    Case {
        name: "more records than a link may send",
        links: "0 : 65537 times 1 0 2 100003 4 0 0 0 0 0",
        out: "raw 'LNFSTRC1' ; 65536 times raw 0 0 0 100 0 40 1 0 2 100003 4 0 0 0 0 0",
        lines: "link 0 Budget 65536\n",
        took: "65536 times 1 1 0 0 0 0",
        ..SERVED
    },
    Case {
        name: "a link that is cut inside its second record",
        links: "0 : CALL SYS EXCHANGE 'c1' REST ; raw 2147483756 1 0 2",
        out: "recorded CALL SYS EXCHANGE 'c1' REST",
        lines: "link 0 Cut 1\n",
        took: "EXCHANGED 0 1 SERVER",
        ..SERVED
    },
];

/// Links that fail, and those that don't come.
const FAULTS_OF_LINKS: [Case; 8] = [
    Case {
        name: "the write of the second reply fails, and a third would go well",
        links: "0 write 2 : 3 times 1 0 2 100003 3 1 SYS",
        out: "recorded 1 0 2 100003 3 1 SYS / 1 0 2 100003 3 1 SYS",
        lines: "1 0 0 P 2\n2 0 0 P 2\nlink 0 WriteFault 2\n",
        took: "ACCEPTED 2 4 4",
        ..SERVED
    },
    Case {
        name: "the second read fails, and a third would go well",
        links: "0 read 2 : CALL SYS EXCHANGE 'c1' REST",
        out: "recorded CALL SYS EXCHANGE 'c1' REST",
        lines: "link 0 ReadFault 1\n",
        took: "EXCHANGED 0 1 SERVER",
        ..SERVED
    },
    Case {
        name: "a write would fail, and no reply is due",
        links: "0 write 1 : 1 ; 1",
        out: "recorded 1 / 1",
        lines: "link 0 Closed 2\n",
        ..SERVED
    },
    Case {
        name: "the second accept fails",
        line: "serve p 0,0 1",
        fails: "accept 2",
        links: "0 : CALL SYS EXCHANGE 'c1' REST + 0 : CALL SYS EXCHANGE 'c1' REST",
        status: 8,
        out: "",
        ..SERVED
    },
    Case {
        name: "the first accept fails",
        fails: "accept 1",
        links: "0 : CALL SYS EXCHANGE 'c1' REST",
        status: 8,
        out: "",
        took: "-",
        ..SERVED
    },
    Case {
        name: "an accept would fail behind those that are due",
        line: "serve p 0,0 1",
        fails: "accept 3",
        links: "0 : CALL SYS EXCHANGE 'c1' REST + 0 :",
        out: "recorded CALL SYS EXCHANGE 'c1' REST",
        lines: "link 0 Closed 1\nlink 1 Closed 0\n",
        took: "EXCHANGED 0 1 SERVER +",
        ..SERVED
    },
    Case {
        name: "the first read of one link of three fails",
        line: "serve p 0,0,0 1",
        links: "0 : CALL SYS EXCHANGE 'c1' REST + 0 read 1 : CALL SYS EXCHANGE 'c1' REST + 0 :",
        out: "recorded CALL SYS EXCHANGE 'c1' REST",
        lines: "link 0 Closed 1\nlink 1 ReadFault 0\nlink 2 Closed 0\n",
        took: "EXCHANGED 0 1 SERVER + +",
        ..SERVED
    },
    Case {
        name: "the client's link fails at its first read",
        line: "client p 1 s",
        links: "1 read 1 : 1 1 0 0 0",
        status: 8,
        out: "",
        took: "any",
        ..SERVED
    },
];

/// Replies that no honest server sends.
const REPLIES: [Case; 3] = [
    Case {
        name: "a reply that ends behind its verifier",
        links: "1 : 1 1 0 0 0",
        out: "line bad reply 20",
        ..ASKING
    },
    Case {
        name: "as many replies to nothing as a client reads, and then the awaited one",
        links: "1 : 65536 times 0 1 0 0 0 0 ; 1 1 0 0 0",
        status: 13,
        lines: "fault 13 link closed\n",
        ..ASKING
    },
    Case {
        name: "one less, and then the awaited one",
        links: "1 : 65535 times 0 1 0 0 0 0 ; 1 1 0 0 0",
        out: "line bad reply 20",
        ..ASKING
    },
];

/// Streams and files that fail.
const FAULTS_OF_FILES: [Case; 4] = [
    Case {
        name: "the write of the second audit line fails",
        fails: "audit 2",
        traffic: "recorded 1 0 2 100003 3 1 SYS / 2 0 2 100003 3 1 SYS / 3 0 2 100003 3 1 SYS",
        status: 6,
        out: "ACCEPTED 2 4 4 ; ACCEPTED_2 2 4 4",
        lines: "1 0 0 P 2\n",
        ..REPLAYED
    },
    Case {
        name: "the second write on standard output fails",
        fails: "out 2",
        traffic: "recorded CALL SYS EXCHANGE 'c1' REST / CALL SYS EXCHANGE 'c1' REST / CALL SYS EXCHANGE 'c1' REST",
        status: 6,
        out: "EXCHANGED 0 1 SERVER",
        ..REPLAYED
    },
    Case {
        name: "the first read of a file fails",
        fails: "read 1",
        traffic: "recorded CALL SYS EXCHANGE 'c1' REST",
        status: 5,
        ..REPLAYED
    },
    Case {
        name: "the second read of a file fails",
        fails: "read 2",
        traffic: "recorded CALL SYS EXCHANGE 'c1' REST",
        status: 5,
        ..REPLAYED
    },
];

/// Adds bytes so many times.
fn put_times(bytes: &mut Vec<u8>, part: &[u8], times: usize) -> Result<(), AllocError> {
    for _ in 0..times {
        bytes.extend_from_slice(part)?;
    }
    Ok(())
}

/// Adds the frames or the words of a piece.
fn put_words(alloc: Global, bytes: &mut Vec<u8>, piece: &str) -> Result<(), Flaw> {
    let (times, words) = piece.split_once(" times ").unwrap_or(("1", piece));
    let times = read_of(alloc, times.parse::<usize>().ok(), piece)?;
    let (head, words) = match words.strip_prefix("raw ") {
        Some(words) => (4usize, words),
        None => (0, words),
    };
    let frame = sent(alloc, words)?;
    let part = read_of(alloc, frame.get(head..), piece)?;
    Ok(put_times(bytes, part, times)?)
}

/// Adds what a piece spells.
fn put_piece(alloc: Global, bytes: &mut Vec<u8>, piece: &str) -> Result<(), Flaw> {
    if let Some(text) = piece.strip_prefix("line ") {
        bytes.extend_from_slice(text.as_bytes())?;
        bytes.push(b'\n')?;
        return Ok(());
    }
    if let Some(events) = piece.strip_prefix("recorded ") {
        let recording = read_of(alloc, recording_of(alloc, events)?, piece)?;
        return Ok(bytes.extend_from_slice(&recording)?);
    }
    put_words(alloc, bytes, piece)
}

/// The bytes that pieces spell.
fn spelled(alloc: Global, pieces: &str) -> Result<Vec<u8>, Flaw> {
    let mut bytes = Vec::new(alloc);
    for piece in pieces.split(';') {
        let piece = piece.trim();
        if !piece.is_empty() {
            put_piece(alloc, &mut bytes, piece)?;
        }
    }
    Ok(bytes)
}

/// Which calls of a kind fail, where a text says that one does.
fn calls_of(alloc: Global, fails: &str, kind: &str) -> Result<Vec<u64>, Flaw> {
    let mut calls = Vec::new(alloc);
    if let Some((first, number)) = fails.split_once(' ')
        && first == kind
    {
        calls.push(read_of(alloc, number.parse::<u64>().ok(), fails)?)?;
    }
    Ok(calls)
}

/// A link as a text says.
fn deal(alloc: Global, text: &str) -> Result<MemDeal, Flaw>
    ensures { IfOk result IsUnused }
{
    let Some((head, pieces)) = text.split_once(':') else {
        return Err(Flaw::new(alloc, "reading", text));
    };
    let head = head.trim();
    let (class, fails) = head.split_once(' ').unwrap_or((head, ""));
    let class = read_of(alloc, class.parse::<u32>().ok(), text)?;
    let input = spelled(alloc, pieces)?;
    let reads = calls_of(alloc, fails, "read")?;
    let writes = calls_of(alloc, fails, "write")?;
    let link = MemLink::new(alloc, &input, &reads, &writes)?;
    Ok(MemDeal { class, link })
}

/// A net that gives the links of a text, some of whose calls fail.
fn net_of(alloc: Global, links: &str, fails: &str) -> Result<MemNet, Flaw> {
    let failing = calls_of(alloc, fails, "accept")?;
    let mut deals = Vec::new(alloc);
    for link in links.split('+') {
        deals.push(deal(alloc, link)?)?;
    }
    Ok(MemNet::new(alloc, deals, &failing)?)
}

/// The net of a case.
fn net_for(alloc: Global, case: &Case) -> Result<MemNet, Flaw> {
    if case.links.is_empty() {
        return Ok(MemNet::new(alloc, Vec::new(alloc), &[])?);
    }
    net_of(alloc, case.links, case.fails)
}

/// The files that the words name.
fn files_of(alloc: Global, traffic: &str) -> Result<Vec<MemFile>, Flaw> {
    let traffic = spelled(alloc, traffic)?;
    let mut files = Vec::new(alloc);
    files.push(file(alloc, "p", POLICY.as_bytes())?)?;
    files.push(file(alloc, "s", b"link 1 guest 100\n")?)?;
    files.push(file(alloc, "t", &traffic)?)?;
    Ok(files)
}

/// What a case gives over a net.
fn run_case(rt: &impl Runtime, alloc: Global, case: &Case, net: &mut MemNet) -> Result<Ran, Flaw> {
    let reads = calls_of(alloc, case.fails, "read")?;
    let outs = calls_of(alloc, case.fails, "out")?;
    let audits = calls_of(alloc, case.fails, "audit")?;
    let failing = Failing {
        opens: &[],
        reads: &reads,
        outs: &outs,
        audits: &audits,
    };
    let files = files_of(alloc, case.traffic)?;
    Ok(run_net(rt, alloc, case.line, files, net, failing)?)
}

/// Compares what the links took with what is due of a case.
fn check_links(alloc: Global, case: &Case, net: &MemNet) -> Result<(), Flaw> {
    if case.took == "any" {
        return demand(alloc, net.back().len() == 1, "links handed back", case.name);
    }
    let mut count = 0usize;
    if case.took != "-" {
        for pieces in case.took.split('+') {
            let due = spelled(alloc, pieces)?;
            let link = read_of(alloc, net.back().get(count), case.name)?;
            demand(
                alloc,
                link.bytes() == due.as_slice(),
                "what a link took",
                case.name,
            )?;
            count = count.saturating_add(1);
        }
    }
    demand(
        alloc,
        net.back().len() == count,
        "links handed back",
        case.name,
    )
}

/// Runs a case, and compares what it gives with what is due.
fn check_case(rt: &impl Runtime, alloc: Global, case: &Case) -> Result<(), Flaw> {
    let mut net = net_for(alloc, case)?;
    let ran = run_case(rt, alloc, case, &mut net)?;
    let due = Due {
        status: case.status,
        out: spelled(alloc, case.out)?,
        lines: String::from_str(alloc, case.lines)?,
    };
    gives(alloc, case.name, &ran, &due)?;
    check_links(alloc, case, &net)
}

/// Runs each of some cases.
fn check(rt: &impl Runtime, alloc: Global, cases: &[Case]) -> Result<(), Flaw> {
    for case in cases {
        check_case(rt, alloc, case)?;
    }
    Ok(())
}

#[test]
fn hostile_records(rt: HostRuntime) -> Result<(), Flaw> {
    check(&rt, rt.alloc(), &RECORDS)
}

#[test]
fn hostile_links(rt: HostRuntime) -> Result<(), Flaw> {
    check(&rt, rt.alloc(), &LINKS)
}

#[test]
fn hostile_replies(rt: HostRuntime) -> Result<(), Flaw> {
    check(&rt, rt.alloc(), &REPLIES)
}

#[test]
fn failing_links(rt: HostRuntime) -> Result<(), Flaw> {
    check(&rt, rt.alloc(), &FAULTS_OF_LINKS)
}

#[test]
fn failing_files(rt: HostRuntime) -> Result<(), Flaw> {
    check(&rt, rt.alloc(), &FAULTS_OF_FILES)
}
