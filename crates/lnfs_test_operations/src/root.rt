//! The root in recordings, by a client of each level: listings, comparisons of attributes, and access. All are
//! laid out by hand, in words, from RFC 8881 sections 18.1 (ACCESS), 18.15 (NVERIFY), 18.23 (READDIR) and 18.31
//! (VERIFY).
//!
//! Of the operations' numbers, 3 is ACCESS, 17 NVERIFY, 24 PUTROOTFH, 26 READDIR and 37 VERIFY.
use lnfs_test_support::clients::{put_opened, put_opening};
use lnfs_test_support::flaw::Flaw;
use lnfs_test_support::records::check_row;
use lnfs_test_support::rows::rows_of;
use std::alloc::{AllocError, Global};

/// The names in the root, with their cookies, as entries without attributes.
const ENTRIES: [&str; 3] = [
    "1 0 3 3 'one' 0x00 0 0 ",
    "1 0 4 3 'two' 0x00 0 0 ",
    "1 0 5 3 'top' 0x00 0 0 ",
];

/// The bytes of such an entry, and of a listing without one.
const ENTRY_SIZE: usize = 28;

const EMPTY_SIZE: usize = 16;

/// Adds the request of an operation on the root, in the first slot of a level's session.
fn put_request(
    row: &mut String,
    level: usize,
    sequence: usize,
    operation: &str,
) -> Result<(), AllocError> {
    let class = level.min(1);
    write!(
        row,
        " / @{class} CALL SYS_{level}00 0 2 3 SEQUENCE_{level} {sequence} 0 0 1 24 {operation}"
    )
}

/// Adds the reply to it, of a status and what the operation's result tells.
fn put_reply(
    row: &mut String,
    level: usize,
    sequence: usize,
    status: &str,
    told: &str,
) -> Result<(), AllocError> {
    write!(
        row,
        " / ACCEPTED 0 {status} 0 3 SEQUENCED_{level} {sequence} 0 SLOTS 24 0 {told}"
    )
}

/// Adds the reply to a READDIR of the names behind the first so many, of a size at most, and its line.
fn put_listing(
    row: &mut String,
    lines: &mut String,
    level: usize,
    sequence: usize,
    behind: usize,
    size: usize,
) -> Result<(), AllocError> {
    let fit = size.saturating_sub(EMPTY_SIZE) / ENTRY_SIZE;
    if fit == 0 {
        put_reply(row, level, sequence, "10005", "26 10005")?;
        let event = sequence.saturating_add(2);
        return write!(lines, " | {event} 3 26 N 10005");
    }
    put_reply(row, level, sequence, "0", "26 0 0 0 ")?;
    for entry in ENTRIES.iter().skip(behind).take(fit) {
        row.push_str(entry)?;
    }
    let eof = if fit.saturating_add(behind) >= ENTRIES.len() {
        1
    } else {
        0
    };
    write!(row, "0 {eof}")
}

/// The row of listings of the root by a level, of each size up to 400 bytes, from each cookie before a name.
fn pieces(alloc: Global, level: usize) -> Result<String, AllocError> {
    let mut events = String::new(alloc);
    let mut replies = String::new(alloc);
    let mut lines = String::new(alloc);
    put_opening(&mut events, level)?;
    put_opened(&mut replies, level)?;
    for size in 0..401usize {
        for behind in 0..3usize {
            let sequence = 1 + 3 * size + behind;
            let cookie = 2 + behind;
            let operation = format!(in alloc; "26 0 {cookie} 0 0 0 {size} 0")?;
            put_request(&mut events, level, sequence, &operation)?;
            put_listing(&mut replies, &mut lines, level, sequence, behind, size)?;
        }
    }
    format!(in alloc; "pieces of each size, by level {level} | {events} | {replies}{lines}")
}

#[test]
fn listings_by_level_0(rt: HostRuntime) -> Result<(), Flaw> {
    check_row(&rt, rt.alloc(), &pieces(rt.alloc(), 0)?)
}

#[test]
fn listings_by_level_1(rt: HostRuntime) -> Result<(), Flaw> {
    check_row(&rt, rt.alloc(), &pieces(rt.alloc(), 1)?)
}

#[test]
fn listings_by_level_2(rt: HostRuntime) -> Result<(), Flaw> {
    check_row(&rt, rt.alloc(), &pieces(rt.alloc(), 2)?)
}

#[test]
fn listings_by_level_3(rt: HostRuntime) -> Result<(), Flaw> {
    check_row(&rt, rt.alloc(), &pieces(rt.alloc(), 3)?)
}

/// In a table: an operation on the root, the status and the operation's result, and the end of the line of the
/// audit stream. Each level is to get the same.
///
/// Lists that are the root's, and others, of its type and its owner; behind an owner stand two pad bytes.
const OF_THE_ROOT: &str = "
37 1 2 4 2 | 0 37 0
37 1 2 4 1 | 10027 37 10027 | 37 N 10027
37 2 0 0x00000010 12 6 'nobody' 0x0000 | 0 37 0
37 2 0 0x00000010 12 6 'nobody' 0x0100 | 10027 37 10027 | 37 N 10027
37 2 0 0x00000010 12 6 'nobodx' 0x0000 | 10027 37 10027 | 37 N 10027
17 1 2 4 2 | 10009 17 10009 | 17 N 10009
17 1 2 4 1 | 0 17 0
17 2 0 0x00000010 12 6 'nobody' 0x0000 | 10009 17 10009 | 17 N 10009
17 2 0 0x00000010 12 6 'nobody' 0x0100 | 0 17 0
17 2 0 0x00000010 12 6 'nobodx' 0x0000 | 0 17 0
";

/// Adds a row of that table: the request of a level, its reply and its line.
fn put_row(
    events: &mut String,
    replies: &mut String,
    lines: &mut String,
    level: usize,
    sequence: usize,
    row: &str,
) -> Result<Option<()>, AllocError> {
    let Some((operation, due)) = row.split_once(" | ") else {
        return Ok(None);
    };
    let (reply, line) = due.split_once(" | ").unwrap_or((due, ""));
    let Some((status, told)) = reply.split_once(' ') else {
        return Ok(None);
    };
    put_request(events, level, sequence, operation)?;
    put_reply(replies, level, sequence, status, told)?;
    if !line.is_empty() {
        let event = sequence.saturating_add(2);
        write!(lines, " | {event} 3 {line}")?;
    }
    Ok(Some(()))
}

/// The row of what a level is told of the root: by that table, and of access to it, where the bits to modify, to
/// extend and to delete are level 0's alone.
fn of_the_root(alloc: Global, level: usize) -> Result<Option<String>, AllocError> {
    let mut events = String::new(alloc);
    let mut replies = String::new(alloc);
    let mut lines = String::new(alloc);
    put_opening(&mut events, level)?;
    put_opened(&mut replies, level)?;
    let mut sequence = 1usize;
    for row in &rows_of(alloc, OF_THE_ROOT)? {
        if put_row(&mut events, &mut replies, &mut lines, level, sequence, row)?.is_none() {
            return Ok(None);
        }
        sequence = sequence.saturating_add(1);
    }
    let access = if level == 0 { "3 0 63 63" } else { "3 0 63 35" };
    put_request(&mut events, level, sequence, "3 0xffffffff")?;
    put_reply(&mut replies, level, sequence, "0", access)?;
    let whole = format!(in alloc; "the root, by level {level} | {events} | {replies}{lines}")?;
    Ok(Some(whole))
}

#[test]
fn the_root_by_each_level(rt: HostRuntime) -> Result<(), Flaw> {
    assert_eq!(rt; rows_of(rt.alloc(), OF_THE_ROOT)?.len(), 10, "rows");
    for level in 0..4usize {
        let row = of_the_root(rt.alloc(), level)?.expect(&rt, "a row of the table");
        check_row(&rt, rt.alloc(), &row)?;
    }
    Ok(())
}
