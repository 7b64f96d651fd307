//! An ordinary session over a service. Two guests and a client that asserts its label mount; the second guest makes a file and
//! writes into it; the client, whose level is above, lists the directory and reads the file; and all leave.
//!
//! There is no program of a client yet, so what the three send is laid out by hand, in words, and beside it the replies that
//! are due: from RFC 8881 section 18 and RFC 7862 section 12.2, and for the client's part from RFC 2203 section 5 and RFC 7861
//! section 2, in this project's own layout. The signatures were made as `keyed` of `lnfs_test_contexts` tells.
//!
//! Of the operations' numbers, 4 is CLOSE, 9 GETATTR, 15 LOOKUP, 18 OPEN, 24 PUTROOTFH, 25 READ, 26 READDIR, 37 VERIFY, 38
//! WRITE, 42 EXCHANGE_ID, 43 CREATE_SESSION, 44 DESTROY_SESSION, 57 DESTROY_CLIENTID and 58 RECLAIM_COMPLETE.
use crate::order::{Counted, Order};
use crate::served::serve;
use lnfs_gss3::KeyedDigest;
use lnfs_outside::MemLink;
use lnfs_test_support::flaw::Flaw;
use lnfs_test_support::rows::{Due, cells_of, put, rows_of};
use lnfs_test_support::runs::{NONE, Runtime, gives, run_over};
use lnfs_test_support::services::{net_of, peer_of, run_service, sent};
use lnfs_workers::{Ending, LinkEnd};
use std::alloc::{AllocError, Global};
use std::process::Abort;
use std::sync::atomic::AtomicU64;

/// The links: the class of each, its number as it stands in the tables, and how many requests it has.
const LINKS: [(u32, &str, u32); 3] = [(0, "0", 5), (1, "1", 10), (1, "2", 10)];

/// Names in the tables, and the words that they stand for.
///
/// GUEST_ and a user are what stands behind the xid of a guest's call, up to the minor version, and ANSWERED behind that of the
/// reply, up to the COMPOUND's status. FULL stands behind the xid of a call in the client's context, up to the sequence number,
/// which is the xid again, and CONTEXT behind this, up to the signature; SIGNED stands behind the xid of a signed reply, up to
/// the signature. OWNER is the one of all three, and AT_ONE and AT_A are the walks to `/one` and to `/one/a`.
const WORDS: [(&str, &str); 9] = [
    ("GUEST_0", "0 2 100003 4 1 1 28 0 OWNER 0 0 0 0 0 0 2"),
    ("GUEST_100", "0 2 100003 4 1 1 28 0 OWNER 100 0 0 0 0 0 2"),
    ("ANSWERED", "1 0 0 0 0"),
    ("FULL", "0 2 100003 4 1 6 36 3 0"),
    ("CONTEXT", "2 16 7 3 0 1 6 32"),
    ("SIGNED", "1 0 6 32"),
    ("OWNER", "6 'client' 0x0000"),
    ("AT_ONE", "24 15 3 'one' 0x00"),
    ("AT_A", "24 15 3 'one' 0x00 15 1 'a' 0x000000"),
];

/// In each of these tables, in the one order of all requests: a link, its request, and the reply.
///
/// All mount. The client makes its context first.
const MOUNTS: &str = "
0 | 1 GUEST_0 1 42 0 0 OWNER 0 0 0 | 1 ANSWERED 0 0 1 42 0 0 1 SERVER
0 | 2 GUEST_0 1 43 0 1 1 0 CHANNEL CHANNEL 0 0 | 2 ANSWERED 0 0 1 43 0 0 0 1 0 1 0 CHANNEL CHANNEL
0 | 3 GUEST_0 2 SEQUENCE_0 1 0 0 1 58 0 | 3 ANSWERED 0 0 2 SEQUENCED_0 1 0 SLOTS 58 0
1 | 1 GUEST_100 1 42 0 0 OWNER 0 0 0 | 1 ANSWERED 0 0 1 42 0 1 1 SERVER
1 | 2 GUEST_100 1 43 1 1 1 0 CHANNEL CHANNEL 0 0 | 2 ANSWERED 0 0 1 43 0 1 0 1 0 1 0 CHANNEL CHANNEL
1 | 3 GUEST_100 2 SEQUENCE_1 1 0 0 1 58 0 | 3 ANSWERED 0 0 2 SEQUENCED_1 1 0 SLOTS 58 0
2 | 1 0 2 100003 4 0 6 24 3 5 1 2 4 7 6 32 0xac244ab55f7090d55072c99e5b4834a6e0e97755de3507c29499d4a2ba04cca0 \
44 1 ASSERT_3 32 0xe8b9d46987132e0cc30443d86011aa81b681068d9531c8f2cee775320cefb1f4 | \
1 SIGNED 0xb91c78b3f8e4151228fa9b9695198631bd0e9a401b6db955a7caf8c41088f180 0 \
64 1 16 7 3 0 1 ASSERT_3 32 0x3b8a39f191ed018c6b3d14fd85d71815c2087c180633227ccdfb838faef4f43d
2 | 2 FULL 2 CONTEXT 0xcb0052aa3989d446cbb0c0fe9a0c8745624cd773b73fb13aaf737c7471add0af \
52 2 0 2 1 42 0 0 OWNER 0 0 0 32 0x6ff230b8e25b3aa7d3b1012b8a7c5880fd9a8472ec27b75ff4009f3ddf4949bd | \
2 SIGNED 0xbb2e79f8f1d23ad38bde1468adc528b71f4b40204f3ca7d247d592e826ec5e97 0 \
88 2 0 0 1 42 0 3 1 SERVER 32 0x2d9316c0d56651d28a2c645950c89e00cb4ca62e1206b78b46e412fbee6a951e
2 | 3 FULL 3 CONTEXT 0x9946e7364b5f6b067f228fabcc61e21282f11470abf726daebd2f48e668efaab \
100 3 0 2 1 43 3 1 1 0 CHANNEL CHANNEL 0 0 32 0x57a0a792977241a51d2934120328bd4fcdf745b25b546aa295f5b3ab9ff6e134 | \
3 SIGNED 0xcfa42e8fd29d8deda81ecefff1573d367d74e94eca14170c646be5e18cf96f7d 0 \
104 3 0 0 1 43 0 3 0 1 0 1 0 CHANNEL CHANNEL 32 0x266fa3e50fbf01559cbd3c6b73fc6f188ad0c2643e06fed372d0e486cf90d3f4
2 | 4 FULL 4 CONTEXT 0x7803b7c45ed7c53f5062b399ba9ec49863af158bed09bc1cef0c28e445b02b05 \
60 4 0 2 2 SEQUENCE_3 1 0 0 1 58 0 32 0xf00a91a7488c896822c4debdc5e69eb1daf5e91096b9165f22d5ec007c4110a6 | \
4 SIGNED 0x30254cbc32cc488640baa8910a08cd6d8189cedcedaaf6d65a11ff1b5c45283c 0 \
68 4 0 0 2 SEQUENCED_3 1 0 SLOTS 58 0 32 0x8c9872a3aa6e550537b9418f13a6a95d0ef7ecc36bf7cd131dd85712d3663d74
";

/// User 100 makes `/one/a` and closes it, and writes two bytes. Before each change the label of what is changed is asked for,
/// and the change is made where it is still the same.
const WRITES: &str = "
1 | 4 GUEST_100 4 SEQUENCE_1 2 0 0 1 AT_ONE 9 LABELLED | 4 ANSWERED 0 0 4 SEQUENCED_1 2 0 SLOTS 24 0 15 0 9 0 LABEL_1
1 | 5 GUEST_100 5 SEQUENCE_1 3 0 0 1 AT_ONE 37 LABEL_1 18 0 2 0 1 1 OWNER 1 1 0 0 0 1 'a' 0x000000 | \
5 ANSWERED 0 0 5 SEQUENCED_1 3 0 SLOTS 24 0 15 0 37 0 18 0 1 1 0 1 1 0 1 0 2 4 0 0
1 | 6 GUEST_100 5 SEQUENCE_1 4 0 0 1 AT_A 4 0 1 1 0 1 | 6 ANSWERED 0 0 5 SEQUENCED_1 4 0 SLOTS 24 0 15 0 15 0 4 0 CLOSED
1 | 7 GUEST_100 5 SEQUENCE_1 5 0 0 1 AT_A 9 LABELLED | 7 ANSWERED 0 0 5 SEQUENCED_1 5 0 SLOTS 24 0 15 0 15 0 9 0 LABEL_1
1 | 8 GUEST_100 6 SEQUENCE_1 6 0 0 1 AT_A 37 LABEL_1 38 ANON 0 0 2 2 0x68690000 | \
8 ANSWERED 0 0 6 SEQUENCED_1 6 0 SLOTS 24 0 15 0 15 0 37 0 38 0 2 2 0 0
";

/// The client lists `/one`, which has that one file, and reads the two bytes. Then it would write, and asks for the file's
/// label: it isn't the client's own, so the client goes no further.
const READS: &str = "
2 | 5 FULL 5 CONTEXT 0xf7ad9c247a2a0f935be1af167a6cd50a4460db4e31862b3e31da70aa9f87cef6 \
132 5 0 2 5 SEQUENCE_3 2 0 0 1 AT_ONE 9 LABELLED 26 0 0 0 0 32768 32768 3 0x00000800 0 0x00010000 \
32 0x6fd04c086bcdb3048c05664aadb74c9c084f7d99ca06d65e2223c401a962438a | \
5 SIGNED 0x99cf5331452f8c693adeecfebd30ca6ada8e169fb5a8ed80a8aec7e5005e372c 0 \
220 5 0 0 5 SEQUENCED_3 2 0 SLOTS 24 0 15 0 9 0 LABEL_1 26 0 0 0 1 0 3 1 'a' 0x000000 3 0x00000800 0 0x00010000 28 0 101 1 \
10 0x00000001010180000000 0x0000 0 1 32 0x08e4b58ef15369abbf0b209923a97c1f91948ee07324a3c509e83f0c3c985fc7
2 | 6 FULL 6 CONTEXT 0x5c2082058f71fadb971be1ee3aac3a1eb56cd238661b37bffedd32054be47db1 \
132 6 0 2 6 SEQUENCE_3 3 0 0 1 AT_A 9 LABELLED 25 ANON 0 0 10 \
32 0x2d650c49ea8144d3de2be3119fe1ce5f2c970396e9afef1922d24a202acea503 | \
6 SIGNED 0xbb43485655be734f40ee7b66256f18ef9facbba59759283948b955c341dede92 0 \
156 6 0 0 6 SEQUENCED_3 3 0 SLOTS 24 0 15 0 15 0 9 0 LABEL_1 25 0 1 2 0x68690000 \
32 0xf96cd23f332dd30fa500df149f3d3d3cb10f76e9616c095785ee01b0cb819e23
2 | 7 FULL 7 CONTEXT 0xbc7195e1c9e8d40ad07a3c60a99678cf1de20e24ccbfd0e98edae8240f12321a \
100 7 0 2 5 SEQUENCE_3 4 0 0 1 AT_A 9 LABELLED 32 0xaba8f563a1a4dd6ffcc0f4ae864e0f8512f73706312f8d77bb756a1743097fe5 | \
7 SIGNED 0x3a19e95927de143daa57a840dbc431a135704004c6eb717efc6b43ccc37cad45 0 \
136 7 0 0 5 SEQUENCED_3 4 0 SLOTS 24 0 15 0 15 0 9 0 LABEL_1 \
32 0xfc7e4f8c18b80874ed00bdf300620d84d1795c92a0184ffa1768bc85442bb5d7
";

/// All leave.
const LEAVES: &str = "
0 | 4 GUEST_0 1 44 0 0 1 0 | 4 ANSWERED 0 0 1 44 0
0 | 5 GUEST_0 1 57 0 1 | 5 ANSWERED 0 0 1 57 0
1 | 9 GUEST_100 1 44 1 0 1 0 | 9 ANSWERED 0 0 1 44 0
1 | 10 GUEST_100 1 57 1 1 | 10 ANSWERED 0 0 1 57 0
2 | 8 FULL 8 CONTEXT 0x955985b9c7ae27f8468a55277805b8aaf33089777c641ea6ed277f39414c904e \
36 8 0 2 1 44 3 0 1 0 32 0x007d3bb09e0c3a7784acf29e71cc52235ae390aa3c35ea411ab5415c1ae2a0e7 | \
8 SIGNED 0xf85aaa364b74231aa7087cae6255474d623749f794a53537d7b4006500d2c52f 0 \
24 8 0 0 1 44 0 32 0xae24b889398834e8d1c0d18c7c25e2ece857f192bee21c7ae2fb9ea1a9c8b89b
2 | 9 FULL 9 CONTEXT 0xbc42289d235a21ebe58e234ea5504d49a4b06c4c1225f4b75ea7f796351b6180 \
28 9 0 2 1 57 3 1 32 0xc705d55fff0321dc74cfa0bcb82418ee6d7f3a941d5ef5e6dd7ac0bd4142d4bd | \
9 SIGNED 0xd9ed133b80e8742bee50c4dbf28f11422109bd66cfe746d039cdcb0a13538e21 0 \
24 9 0 0 1 57 0 32 0xd8d2e57ea606ec5842d3fdac8451e75ad676e5a82df248a3a55459ca4afc6c79
2 | 10 0 2 100003 4 0 6 36 3 3 10 CONTEXT 0xb25894d4be33e2a593936e7a84eeb484ded33ab0a795e23176249be31bd64412 | \
10 SIGNED 0x364d2187ad8ff753b0b5479e873e3eda8d93bfa69309ff4ebd471e51f91e2309 0
";

/// How each link ends.
const ENDS: &[u8] = b"link 0 Closed 5\nlink 1 Closed 10\nlink 2 Closed 10\n";

/// The table of the whole session, in words that all tests know.
fn session(alloc: Global) -> Result<String, AllocError> {
    let mut table = format!(in alloc; "{MOUNTS}{WRITES}{READS}{LEAVES}")?;
    for (name, words) in WORDS {
        table = table.replace(alloc, name, words)?;
    }
    Ok(table)
}

/// What stands in a column of the rows that begin with a link's number, or of all rows where none is said.
fn column(
    rt: &impl Abort,
    alloc: Global,
    table: &str,
    link: &str,
    place: usize,
) -> Result<String, AllocError> {
    let mut words = String::new(alloc);
    for row in &rows_of(alloc, table)? {
        if row.starts_with(link) {
            let cells = cells_of(alloc, row)?;
            put(&mut words, cells.get(place).expect(rt, row))?;
        }
    }
    Ok(words)
}

/// The frames of the replies to a link, or to all.
fn replies(rt: &impl Abort, alloc: Global, table: &str, link: &str) -> Result<Vec<u8>, Flaw> {
    let words = column(rt, alloc, table, link, 2)?;
    sent(alloc, &words)
}

/// The links of the rows.
fn order_of(rt: &impl Abort, alloc: Global, table: &str) -> Result<Vec<u32>, AllocError> {
    let mut order = Vec::new(alloc);
    for row in &rows_of(alloc, table)? {
        let (link, _) = row.split_once(' ').expect(rt, row);
        order.push(link.parse::<u32>().ok().expect(rt, row))?;
    }
    Ok(order)
}

/// The links with what they are sent.
fn links_of<'a>(
    rt: &impl Abort,
    alloc: Global,
    table: &str,
    written: &'a AtomicU64,
) -> Result<Vec<(u32, Counted<'a>)>, Flaw> {
    let mut links = Vec::new(alloc);
    for (class, link, _) in LINKS {
        let words = column(rt, alloc, table, link, 1)?;
        let input = sent(alloc, &words)?;
        let link = MemLink::new(alloc, &input, &[], &[])?;
        links.push((class, Counted { link, written }))?;
    }
    Ok(links)
}

/// Compares the end of a link with what is due.
fn check_end(
    rt: &impl Abort,
    alloc: Global,
    table: &str,
    end: &LinkEnd<Counted<'_>>,
    due: (u32, &str, u32),
) -> Result<(), Flaw> {
    let (class, link, records) = due;
    assert_eq!(rt; end.class, class, "class of {link}");
    assert_eq!(rt; end.ending, Ending::Closed, "ending of {link}");
    assert_eq!(rt; end.records, records, "records of {link}");
    let frames = replies(rt, alloc, table, link)?;
    assert!(rt;
        end.link.link.bytes() == frames.as_slice(),
        "link {link} took"
    );
    Ok(())
}

/// The same of all links.
fn check_ends(
    rt: &impl Abort,
    alloc: Global,
    table: &str,
    ends: &[LinkEnd<Counted<'_>>],
) -> Result<(), Flaw> {
    assert_eq!(rt; ends.len(), LINKS.len(), "links");
    for (end, due) in ends.iter().zip(&LINKS) {
        check_end(rt, alloc, table, end, *due)?;
    }
    Ok(())
}

/// Each request is served in its place, and the recording gives all the replies again.
#[test]
fn in_one_order(rt: HostRuntime) -> Result<(), Flaw> {
    let alloc = rt.alloc();
    let table = session(alloc)?;
    let order = order_of(&rt, alloc, &table)?;
    let written = AtomicU64::new(0);
    let gate = Order {
        workers: &order,
        written: &written,
    };
    let links = links_of(&rt, alloc, &table, &written)?;
    let served = serve(&rt, alloc, KeyedDigest, &gate, links, 4)?;
    check_ends(&rt, alloc, &table, &served.ends)?;
    assert!(rt; served.order.as_slice() == order.as_slice(), "the order");
    assert!(rt; served.lines.is_empty(), "lines");
    let due = Due {
        status: 0,
        out: replies(&rt, alloc, &table, "")?,
        lines: String::new(alloc),
    };
    let again = run_over(&rt, alloc, &served.recording)?;
    gives(alloc, "the replay", &again, &due)
}

/// Serves links that are sent these records by four workers.
fn serve_any<R: Runtime + Abort>(rt: &R, alloc: Global, records: [&str; 3]) -> Result<(), Flaw> {
    let [first, second, third] = records;
    let peers = [peer_of(0, first), peer_of(1, second), peer_of(1, third)];
    let mut net = net_of(alloc, &peers, &[])?;
    let ran = run_service(rt, alloc, "serve p 0,1,1 4", &mut net, NONE)?;
    assert_eq!(rt; ran.0, 0, "status");
    assert!(rt; ran.2.bytes().ends_with(ENDS), "the lines of the links");
    Ok(())
}

/// The same links in whatever order their requests are served: the client may look for the file before it is made, so that
/// there may be audit lines.
#[test]
fn in_any_order(rt: HostRuntime) -> Result<(), Flaw> {
    let alloc = rt.alloc();
    let table = session(alloc)?;
    let first = column(&rt, alloc, &table, "0", 1)?;
    let second = column(&rt, alloc, &table, "1", 1)?;
    let third = column(&rt, alloc, &table, "2", 1)?;
    serve_any(&rt, alloc, [&first, &second, &third])
}
