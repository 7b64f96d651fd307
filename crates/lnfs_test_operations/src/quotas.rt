//! Limits of levels and files in recordings. All are laid out by hand, in words, from RFC 8881 sections 5.8.2 (what a
//! quota leaves and what is used), 8.2.2 (state ids), 18.16 (OPEN), 18.30 (SETATTR) and 18.32 (WRITE).
//!
//! Of the operations' numbers, 4 is CLOSE, 6 CREATE, 9 GETATTR, 10 GETFH, 18 OPEN, 22 PUTFH, 24 PUTROOTFH, 25 READ, 28 REMOVE,
//! 34 SETATTR and 38 WRITE. Of the second word of attributes, 320 are the bytes that are left and those that are used.
//!
//! Level 1 has 8 nodes and 4,096 bytes. Each other level has 4,096 nodes and 67,108,864 bytes.
use lnfs_test_support::flaw::Flaw;
use lnfs_test_support::sessions::check_opened;
use lnfs_test_support::stories::{Story, check_stories};
use std::alloc::{AllocError, Global};

/// Stories: a level alone, whose client and session begin; or a level, a sequence and seconds, the operations behind a
/// SEQUENCE, what is due, and the line of the audit stream.
const QUOTAS: &str = "
# 4,096 bytes of level 1
1
3
3 1 100 | TOP 18 0 3 0 BY_O PLAIN 0 1 't' 0x000000 34 ANON SIZE 5000 | 0 4 22 0 18 0 1 3 0 1 1 0 1 0 2 4 0 0 34 0 1 16
1 1 100 | ONE 18 0 3 0 BY_O PLAIN 0 1 'a' 0x000000 38 1 1 0 1 0 4092 2 4 'abcd' 9 2 0 320 | \
0 5 22 0 18 0 1 1 0 1 1 0 1 0 2 4 0 0 38 0 4 2 0 0 9 0 2 0 320 16 0 0 0 4096
1 2 100 | 22 12 1 0 1 38 ANON 0 4096 2 1 'e' 0x000000 | 69 3 22 0 38 69 | 3 38 Q 69
1 3 100 | 22 12 1 0 1 34 ANON SIZE 4097 | 69 3 22 0 34 69 0 | 3 34 Q 69
1 4 100 | 22 12 1 0 1 34 ANON 2 16 2 12 0 4097 448 | 69 3 22 0 34 69 0 | 3 34 Q 69
1 5 100 | 22 12 1 0 1 38 ANON 0 4092 2 4 'wxyz' 34 ANON SIZE 4096 | 0 4 22 0 38 0 4 2 0 0 34 0 1 16
1 6 100 | 22 12 1 0 1 38 ANON 0 16777216 2 1 'e' 0x000000 | 27 3 22 0 38 27 | 3 38 N 27
1 7 100 | 22 12 1 0 1 34 ANON SIZE 16777217 | 27 3 22 0 34 27 0 | 3 34 N 27
1 8 100 | 22 12 1 0 1 34 ANON SIZE 16777216 | 69 3 22 0 34 69 0 | 3 34 Q 69
1 9 100 | ONE 18 0 2 0 BY_O PLAIN 0 1 'b' 0x000000 38 ANON 0 0 2 1 'e' 0x000000 | \
69 4 22 0 18 0 1 1 0 2 1 0 2 0 3 4 0 0 38 69 | 4 38 Q 69
1 10 100 | 22 12 1 0 1 34 ANON SIZE 4000 22 12 1 0 2 38 ANON 0 0 2 1 'e' 0x000000 9 2 0 320 | \
0 6 22 0 34 0 1 16 22 0 38 0 1 2 0 0 9 0 2 0 320 16 0 95 0 4001
1 11 100 | ONE 28 1 'a' 0x000000 9 2 0 320 | 0 4 22 0 28 0 1 0 3 0 4 9 0 2 0 320 16 0 4095 0 1
1 12 100 | ONE 18 0 2 0 BY_P 1 0 1 16 8 0 0 0 1 'b' 0x000000 9 2 0 320 | \
0 4 22 0 18 0 1 1 0 3 1 0 4 0 4 4 1 16 0 9 0 2 0 320 16 0 4096 0 0
3 2 100 | TOP 9 2 0 320 | 0 3 22 0 9 0 2 0 320 16 0 67103864 0 5000
# a file that is raised to level 1, and on to level 3
0
1
1 1 100 | ONE 18 0 3 0 BY_O PLAIN 0 1 'a' 0x000000 34 ANON SIZE 4096 | 0 4 22 0 18 0 1 1 0 1 1 0 1 0 2 4 0 0 34 0 1 16
0 1 100 | 24 MAKE_F 38 ID_1 0 0 2 10 'abcdefghij' 0x0000 9 2 0 320 34 ANON LABEL_1 9 2 0 320 | \
0 7 24 0 MADE_F 38 0 10 2 0 0 9 0 2 0 320 16 0 67108854 0 10 34 0 LABELLED 9 0 2 0 320 16 0 67108864 0 0
1 2 100 | 24 9 2 0 320 | 0 3 24 0 9 0 2 0 320 16 0 0 0 4106
1 3 100 | 22 12 1 0 1 38 ANON 0 4096 2 1 'e' 0x000000 | 69 3 22 0 38 69 | 3 38 Q 69
1 4 100 | 22 12 1 0 1 38 ANON 0 4095 2 1 'e' 0x000000 | 0 3 22 0 38 0 1 2 0 0
1 5 100 | PUT_F 25 ANON 0 0 20 38 ANON 0 0 2 1 'X' 0x000000 | 0 4 22 0 25 0 1 10 'abcdefghij' 0x0000 38 0 1 2 0 0
1 6 100 | PUT_F 38 ANON 0 10 2 1 'X' 0x000000 | 69 3 22 0 38 69 | 3 38 Q 69
1 7 100 | 22 12 1 0 1 34 ANON LABEL_0 | 13 3 22 0 34 13 0 | 3 34 M5 13
1 8 100 | 22 12 1 0 1 34 ANON SIZE 4095 9 2 0 320 | 0 4 22 0 34 0 1 16 9 0 2 0 320 16 0 0 0 4105
1 9 100 | 22 12 1 0 1 34 ANON SIZE 4000 9 2 0 320 | 0 4 22 0 34 0 1 16 9 0 2 0 320 16 0 86 0 4010
0 2 100 | PUT_F 25 ID_1 0 0 1 | 13 3 22 0 25 13 | 3 25 M1 13
0 3 100 | PUT_F 4 0 ID_1 | 0 3 22 0 4 0 CLOSED
1 10 100 | 22 12 1 0 1 34 ANON LABEL_3 9 2 0 320 | 0 4 22 0 34 0 LABELLED 9 0 2 0 320 16 0 4086 0 10
1 11 100 | ONE 28 1 'a' 0x000000 | 13 3 22 0 28 13 | 3 28 M6 13
# 8 nodes of level 1
1
1 1 100 | ONE 18 0 1 0 BY_O PLAIN 0 1 'a' 0x000000 ONE 18 0 1 0 BY_O PLAIN 0 1 'b' 0x000000 \
ONE 18 0 1 0 BY_O PLAIN 0 1 'c' 0x000000 ONE 18 0 1 0 BY_O PLAIN 0 1 'd' 0x000000 \
ONE 18 0 1 0 BY_O PLAIN 0 1 'e' 0x000000 ONE 18 0 1 0 BY_O PLAIN 0 1 'f' 0x000000 \
ONE 18 0 1 0 BY_O PLAIN 0 1 'g' 0x000000 ONE 18 0 1 0 BY_O PLAIN 0 1 'h' 0x000000 \
ONE 18 0 1 0 BY_O PLAIN 0 1 'i' 0x000000 | \
28 19 22 0 18 0 1 1 0 1 1 0 1 0 2 4 0 0 22 0 18 0 1 1 0 2 1 0 2 0 3 4 0 0 22 0 18 0 1 1 0 3 1 0 3 0 4 4 0 0 \
22 0 18 0 1 1 0 4 1 0 4 0 5 4 0 0 22 0 18 0 1 1 0 5 1 0 5 0 6 4 0 0 22 0 18 0 1 1 0 6 1 0 6 0 7 4 0 0 \
22 0 18 0 1 1 0 7 1 0 7 0 8 4 0 0 22 0 18 0 1 1 0 8 1 0 8 0 9 4 0 0 22 0 18 28 | 19 18 Q 28
1 2 100 | ONE 6 2 1 'i' 0x000000 0 0 | 28 3 22 0 6 28 | 3 6 Q 28
1 3 100 | ONE 18 0 2 0 BY_O PLAIN 0 1 'b' 0x000000 | 0 3 22 0 18 0 2 1 0 2 1 0 9 0 9 4 0 0
1 4 100 | ONE 28 1 'a' 0x000000 18 0 1 0 BY_O PLAIN 0 1 'i' 0x000000 10 | \
0 5 22 0 28 0 1 0 9 0 10 18 0 1 1 0 9 1 0 10 0 11 4 0 0 10 0 12 1 0 9
1 5 100 | ONE 18 0 1 0 BY_O PLAIN 0 1 'j' 0x000000 | 28 3 22 0 18 28 | 3 18 Q 28
";

/// Adds a file of level 1 that gets all bytes of its quota at once and no more, and an open of a name of 256 bytes.
fn whole_quota(alloc: Global, story: &mut Story) -> Result<(), Flaw> {
    let bytes = "61".repeat(alloc, 4_096)?;
    let name = "61".repeat(alloc, 256)?;
    story.open(1)?;
    story.put(
        alloc,
        &format!(in alloc;
            "1 1 100 | ONE 18 0 3 0 BY_O PLAIN CALLED_F 38 1 1 0 1 0 0 2 4096 0x{bytes} 38 1 1 0 1 0 4096 2 1 'a' 0x000000 | \
69 5 22 0 18 0 1 1 0 1 1 0 1 0 2 4 0 0 38 0 4096 2 0 0 38 69 | 5 38 Q 69"
        )?,
    )?;
    story.put(
        alloc,
        &format!(in alloc;
            "1 2 100 | 18 0 1 0 BY_O PLAIN 0 256 0x{name} | 63 2 18 63 | 2 18 A 63"
        )?,
    )?;
    Ok(())
}

#[test]
fn quotas(rt: HostRuntime) -> Result<(), Flaw> {
    check_stories(&rt, rt.alloc(), QUOTAS, 3)?;
    let mut story = Story::new(rt.alloc());
    whole_quota(rt.alloc(), &mut story)?;
    story.check(&rt, rt.alloc(), "a whole quota")
}

/// Adds a request of so many opens of the first file by owners of rising numbers, under a sequence, and its reply. Each
/// owner has the open of a number of two more. Both are put together apart, as what is added to is long.
fn put_opens(
    alloc: Global,
    events: &mut String,
    replies: &mut String,
    sequence: usize,
    opens: usize,
) -> Result<(), AllocError> {
    let count = opens.saturating_add(2);
    let mut event = format!(in alloc; " / CALL SYS 0 2 {count} SEQUENCE {sequence} 0 0 1 PUT_F")?;
    let mut reply = format!(in alloc;
        " / ACCEPTED 0 0 0 {count} SEQUENCED {sequence} 0 SLOTS 22 0"
    )?;
    for place in 0..opens {
        let owner = place.saturating_add(sequence.saturating_sub(2).saturating_mul(30));
        let name = owner.saturating_add(10_000);
        let number = owner.saturating_add(2);
        write!(event, " 18 0 1 0 0 0 5 '{name}' 0x000000 0 4")?;
        write!(reply, " 18 0 1 0 0 {number} 1 0 0 0 0 4 0 0")?;
    }
    events.push_str(&event)?;
    replies.push_str(&reply)
}

/// The opens that are asked once a level has all: one more, one of a file that is to be made, one of an owner that has
/// the file open, and one more once another ended.
const WHEN_FULL: &str = "\
CALL SYS 0 2 3 SEQUENCE 139 0 0 1 PUT_F 18 0 1 0 BY_P 0 4 / \
CALL SYS 0 2 3 SEQUENCE 140 0 0 1 24 18 0 1 0 BY_P PLAIN 0 1 'g' 0x000000 / \
CALL SYS 0 2 3 SEQUENCE 141 0 0 1 24 15 1 'g' 0x000000 / \
CALL SYS 0 2 3 SEQUENCE 142 0 0 1 PUT_F 18 0 1 0 BY_O 0 4 / \
CALL SYS 0 2 4 SEQUENCE 143 0 0 1 PUT_F 4 0 1 0 0 7 18 0 1 0 BY_P 0 4";

/// The replies to these, and their lines.
const FULL: &str = "\
ACCEPTED 0 28 0 3 SEQUENCED 139 0 SLOTS 22 0 18 28 / ACCEPTED 0 28 0 3 SEQUENCED 140 0 SLOTS 24 0 18 28 / \
ACCEPTED 0 2 0 3 SEQUENCED 141 0 SLOTS 24 0 15 2 / ACCEPTED 0 0 0 3 SEQUENCED 142 0 SLOTS 22 0 18 0 2 0 0 1 HELD / \
ACCEPTED 0 0 0 4 SEQUENCED 143 0 SLOTS 22 0 4 0 CLOSED 18 0 1 0 0 4097 HELD | \
141 3 18 Q 28 | 142 3 18 Q 28 | 143 3 15 N 2";

/// The row of a file that is open 4,096 times, 30 of them in a COMPOUND.
fn many_opens(alloc: Global) -> Result<String, AllocError> {
    let mut events = String::new(alloc);
    let mut replies = String::new(alloc);
    for sequence in 2..138usize {
        put_opens(alloc, &mut events, &mut replies, sequence, 30)?;
    }
    put_opens(alloc, &mut events, &mut replies, 138, 15)?;
    format!(in alloc;
        "all opens of a level | CALL SYS 0 2 3 SEQUENCE 1 0 0 1 24 18 0 1 0 BY_O PLAIN CALLED_F{events} / {WHEN_FULL} | \
ACCEPTED 0 0 0 3 SEQUENCED 1 0 SLOTS 24 0 MADE_F{replies} / {FULL}"
    )
}

#[test]
fn opens_of_a_level(rt: HostRuntime) -> Result<(), Flaw> {
    check_opened(&rt, rt.alloc(), &many_opens(rt.alloc())?, 1)
}
