//! Events of the generator, laid out by hand.
use crate::codecs::codecs_of;
use lnfs_policy::read_policy;
use lnfs_traffic::generate;
use lnfs_types::{Event, Moment};
use lnfs_xdr::XdrWriter;
use std::alloc::Global;
use std::process::Abort;
use std::test::Fail;

/// A guest of level 0, and three of class 1 of other levels.
const SITE: &str = "lnfs-policy 1
mode enforcing
level 0 1 0 -
level 1 1 1 c0
level 2 1 1 c1
level 3 1 3 c0.c2,c5
format 101 1 calipso
guest 0 * 0
guest 1 100 1
guest 1 200 2
guest 1 300 3
";

/// Two guests of level 1.
const TWO: &str = "lnfs-policy 1
mode enforcing
level 0 1 0 -
level 1 1 1 c0
format 101 1 calipso
guest 1 5 1
guest 2 6 1
";

/// No guest.
const NONE: &str = "lnfs-policy 1
mode enforcing
level 0 1 0 -
format 101 1 calipso
";

/// The guests of `TWO`, where the clients enforce.
const LIMITED: &str = "lnfs-policy 1
mode limited
level 0 1 0 -
level 1 1 1 c0
format 101 1 calipso
guest 1 5 1
guest 2 6 1
";

/// So many events that a seed gives of the guests of a policy.
fn events_of(alloc: Global, text: &str, seed: u64, count: u32) -> Result<Vec<Event>, Fail> {
    let codecs = codecs_of(alloc)?;
    let policy = read_policy(alloc, text.as_bytes(), &codecs)?;
    Ok(generate(alloc, &policy, seed, count)?)
}

/// The number that a word is.
fn number_of(word: &str) -> Result<u32, Fail> {
    let number = match word.strip_prefix("0x") {
        Some(digits) => u32::from_str_radix(digits, 16).ok(),
        None => word.parse::<u32>().ok(),
    };
    Ok(number.ok_or("no number")?)
}

fn put_words(out: &mut XdrWriter, words: &str) -> Result<(), Fail> {
    for word in words.split_whitespace() {
        out.u32(number_of(word)?)?;
    }
    Ok(())
}

/// What the words spell, behind those that begin each record: the number of the event as the xid, a
/// call of COMPOUND by AUTH_SYS (stamp 0, `gen`, the user, group 0, no groups), no verifier, an empty tag
/// and minor version 2.
fn laid_out(alloc: Global, number: u32, uid: u32, words: &str) -> Result<Vec<u8>, Fail> {
    let mut out = XdrWriter::new(alloc);
    out.u32(number)?;
    put_words(&mut out, "0 2 100003 4 1 1 24 0 3 0x67656e00")?;
    out.u32(uid)?;
    put_words(&mut out, "0 0 0 0 0 2")?;
    put_words(&mut out, words)?;
    Ok(out.into_bytes())
}

/// The class, the link and the user of a guest.
type Guest = (u32, u32, u32);

/// Numbers of events, the guests that send them, and their words.
type Rows = &'static [(u32, Guest, &'static str)];

/// The event of a number, and what it should be.
fn expect(
    rt: &impl Abort,
    alloc: Global,
    events: &[Event],
    number: u32,
    guest: Guest,
    words: &str,
) -> Result<(), Fail> {
    let (class, link, uid) = guest;
    let message = laid_out(alloc, number, uid, words)?;
    let moment = Moment {
        secs: number as u64,
        nanos: 0,
    };
    let found = events
        .iter()
        .find(|event| event.moment.secs == number as u64);
    assert!(rt;
        found.is_some_and(|event| event.class == class
            && event.link == link
            && event.moment == moment
            && event.message.as_slice() == message.as_slice())
    );
    Ok(())
}

/// The same for each row.
fn expect_rows(rt: &impl Abort, alloc: Global, events: &[Event], rows: Rows) -> Result<(), Fail> {
    for (number, guest, words) in rows {
        expect(rt, alloc, events, *number, *guest, words)?;
    }
    Ok(())
}

/// The two guests of `TWO`.
const FIRST: Guest = (1, 0, 5);

const SECOND: Guest = (2, 1, 6);

const OF_ONE_LEVEL: Rows = &[
    // EXCHANGE_ID of `gen1`
    (1, SECOND, "1 42 0 0 4 0x67656e31 0 0 0"),
    // CREATE_SESSION of client 1 of the level
    (
        2,
        SECOND,
        "1 43 1 1 1 0 0 65536 65536 65536 32 16 0 0 65536 65536 65536 32 16 0 0 0",
    ),
    // SEQUENCE 1 of session 1, PUTROOTFH, LOOKUP `g53`, GETATTR
    (3, SECOND, "4 53 1 0 1 0 1 0 0 1 24 15 3 0x67353300 9 1 18"),
    // EXCHANGE_ID of `gen0`
    (4, FIRST, "1 42 0 0 4 0x67656e30 0 0 0"),
    // CREATE_SESSION of client 2
    (
        5,
        FIRST,
        "1 43 1 2 1 0 0 65536 65536 65536 32 16 0 0 65536 65536 65536 32 16 0 0 0",
    ),
    // SEQUENCE 2 of session 1, PUTROOTFH, READDIR
    (
        6,
        SECOND,
        "3 53 1 0 1 0 2 0 0 1 24 26 0 0 0 0 4096 4096 3 2 0 65536",
    ),
    // SEQUENCE 3 of session 1, PUTROOTFH, LOOKUP `g23`, WRITE of 64 bytes
    (
        7,
        SECOND,
        "4 53 1 0 1 0 3 0 0 1 24 15 3 0x67323300 38 0 0 0 0 0 0 0 64 \
         0x07070707 0x07070707 0x07070707 0x07070707 0x07070707 0x07070707 0x07070707 0x07070707 \
         0x07070707 0x07070707 0x07070707 0x07070707 0x07070707 0x07070707 0x07070707 0x07070707",
    ),
];

#[test]
fn guests_of_one_level(rt: HostRuntime) -> Result<(), Fail> {
    let alloc = rt.alloc();
    let events = events_of(alloc, TWO, 3, 7)?;
    assert_eq!(rt; events.len(), 7);
    expect_rows(&rt, alloc, &events, OF_ONE_LEVEL)
}

const FIRST_OF_SITE: Rows = &[(1, (1, 2, 200), "1 42 0 0 4 0x67656e32 0 0 0")];

const OF_SITE: Rows = &[
    (1, (1, 2, 200), "1 42 0 0 4 0x67656e32 0 0 0"),
    // SEQUENCE 2 of session 1 of level 3, PUTROOTFH, OPEN of `g86` for client 1 of level 3
    (
        11,
        (1, 3, 300),
        "3 53 3 0 1 0 2 0 0 1 24 18 0 2 0 3 1 1 0x6f000000 1 0 0 0 0 3 0x67383600",
    ),
];

#[test]
fn the_first_guest_of_a_site(rt: HostRuntime) -> Result<(), Fail> {
    let alloc = rt.alloc();
    let one = events_of(alloc, SITE, 7, 1)?;
    assert_eq!(rt; one.len(), 1);
    expect_rows(&rt, alloc, &one, FIRST_OF_SITE)
}

#[test]
fn guests_of_a_site(rt: HostRuntime) -> Result<(), Fail> {
    let alloc = rt.alloc();
    let events = events_of(alloc, SITE, 7, 11)?;
    expect_rows(&rt, alloc, &events, OF_SITE)
}

const OF_NONE: Rows = &[
    (1, (0, 0, 0), "1 42 0 0 4 0x67656e30 0 0 0"),
    // CREATE_SESSION of client 1 of level 0
    (
        2,
        (0, 0, 0),
        "1 43 0 1 1 0 0 65536 65536 65536 32 16 0 0 65536 65536 65536 32 16 0 0 0",
    ),
];

#[test]
fn no_guests(rt: HostRuntime) -> Result<(), Fail> {
    let alloc = rt.alloc();
    assert_eq!(rt; events_of(alloc, NONE, 7, 0)?.len(), 0);
    let events = events_of(alloc, NONE, 7, 2)?;
    expect_rows(&rt, alloc, &events, OF_NONE)
}

const OF_LEVEL_0: Rows = &[(
    2,
    (2, 1, 6),
    "1 43 0 1 1 0 0 65536 65536 65536 32 16 0 0 65536 65536 65536 32 16 0 0 0",
)];

#[test]
fn limited_guests_are_of_level_0(rt: HostRuntime) -> Result<(), Fail> {
    let alloc = rt.alloc();
    let events = events_of(alloc, LIMITED, 3, 2)?;
    expect_rows(&rt, alloc, &events, OF_LEVEL_0)
}
