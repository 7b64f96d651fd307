//! Labels that are asserted in recordings, in each format, under each clearance of the parent that asserts them. All are
//! laid out by hand, in words, from RFC 2203 section 5, RFC 7861 section 2.7 and RFC 7569, in this project's own layout.
//!
//! What is granted is the level of the label, which comes back as it was sent. Levels 1 and 2 don't compare; level 3 is
//! above all, and level 0 below.
use crate::asserting::{GARBAGE_CREATE, check_refused, check_under};
use lnfs_test_support::flaw::Flaw;
use lnfs_test_support::rows::rows_of;
use lnfs_test_support::site::POLICY;
use std::alloc::{AllocError, Global};
use std::process::Abort;

/// In a table: the level up to which parent 7 may assert, the length of the databody, and the level of the context that is
/// made or `-` where none is; and the label behind its format.
///
/// Each level under each clearance. Levels 1 and 2 don't compare.
const CLEARANCES: &str = "
0 40 0 | 101 1 6 0x000000010000 0x0000
0 44 - | 101 1 10 0x00000001010180000000 0x0000
0 44 - | 101 1 10 0x00000001010140000000 0x0000
0 44 - | 101 1 10 0x000000010103e4000000 0x0000
1 40 0 | 101 1 6 0x000000010000 0x0000
1 44 1 | 101 1 10 0x00000001010180000000 0x0000
1 44 - | 101 1 10 0x00000001010140000000 0x0000
1 44 - | 101 1 10 0x000000010103e4000000 0x0000
2 40 0 | 101 1 6 0x000000010000 0x0000
2 44 - | 101 1 10 0x00000001010180000000 0x0000
2 44 2 | 101 1 10 0x00000001010140000000 0x0000
2 44 - | 101 1 10 0x000000010103e4000000 0x0000
3 40 0 | 101 1 6 0x000000010000 0x0000
3 44 1 | 101 1 10 0x00000001010180000000 0x0000
3 44 2 | 101 1 10 0x00000001010140000000 0x0000
3 44 3 | 101 1 10 0x000000010103e4000000 0x0000
";

/// Formats: labels in each, formats that there aren't, bytes that are no label there, and labels of no level.
const FORMATS: &str = "
3 36 0 | 102 1 2 's0' 0x0000
3 40 1 | 102 1 5 's1:c0' 0x000000
3 40 2 | 102 1 5 's1:c1' 0x000000
3 44 3 | 102 1 11 's3:c0.c2,c5' 0x00
3 36 0 | 103 0 4 'open'
0 36 0 | 103 0 4 'open'
1 44 - | 102 1 11 's3:c0.c2,c5' 0x00
3 36 - | 104 0 4 'open'
3 40 - | 101 0 6 0x000000010000 0x0000
3 40 - | 101 2 6 0x000000010000 0x0000
3 40 - | 1 101 6 0x000000010000 0x0000
3 36 - | 102 0 2 's0' 0x0000
3 36 - | 103 1 4 'open'
3 40 - | 102 1 6 0x000000010000 0x0000
3 36 - | 101 1 2 's0' 0x0000
3 36 - | 103 0 2 's0' 0x0000
3 32 - | 101 1 0
3 32 - | 102 1 0
3 32 - | 103 0 0
3 40 - | 101 1 5 0x0000000100 0x000000
3 40 - | 101 1 7 0x00000001000000 0x00
3 44 - | 101 1 10 0x00000001010300000000 0x0000
3 44 - | 101 1 9 0x000000010103e40000 0x000000
3 44 - | 101 1 11 0x000000010103e400000000 0x00
3 36 - | 102 1 3 's03' 0x00
3 48 - | 102 1 14 's3:c0,c1,c2,c5' 0x0000
3 36 - | 102 1 4 's256'
3 36 - | 103 0 4 'Open'
3 40 - | 103 0 5 'open' 0x20000000
3 36 - | 102 1 2 's2' 0x0000
3 40 - | 101 1 6 0x000000020000 0x0000
3 40 - | 101 1 6 0x000000010001 0x0000
3 72 - | 101 1 38 0x000000010800 0x0000000000000000000000000000000000000000000000000000000000000001 0x0000
";

/// The policy of all trials, with another clearance of its parent.
pub fn cleared(alloc: Global, clearance: &str) -> Result<String, AllocError> {
    let line = format!(in alloc; "0101 {clearance}\n")?;
    POLICY.replace(alloc, "0101 3\n", &line)
}

/// What stands before the assertion in a reply and not in a call: a handle of 16 bytes with its length.
const HANDLE: usize = 20;

/// The row of a label that is asserted, by the length of the databody and the level of the context.
fn asserting(alloc: Global, size: usize, level: &str, label: &str) -> Result<String, AllocError> {
    let mut row = format!(in alloc;
        "{label} | CREATE_7 {size} 9 ASSERT {label} CHECKSUM {size} ZEROS | "
    )?;
    if level == "-" {
        row.push_str("DENIED 16 | 1 0 0 C 16")?;
        return Ok(row);
    }
    let told = size.saturating_add(HANDLE);
    write!(row, "SIGNED_56 0 {told} 9 16 7 {level} 0 1 ")?;
    write!(row, "ASSERT {label} CHECKSUM {told} ZEROS")?;
    Ok(row)
}

/// Plays what a line tells of a clearance and a label.
fn check_label(rt: &impl Abort, alloc: Global, line: &str) -> Result<(), Flaw> {
    let (told, label) = line.split_once(" | ").expect(rt, line);
    let (clearance, told) = told.split_once(' ').expect(rt, line);
    let (size, level) = told.split_once(' ').expect(rt, line);
    let size = size.parse::<usize>().ok().expect(rt, line);
    let row = asserting(alloc, size, level, label)?;
    check_under(rt, alloc, &cleared(alloc, clearance)?, &row)
}

/// Plays each line of a table of labels, which has so many.
fn check_labels(rt: &impl Abort, alloc: Global, table: &str, count: usize) -> Result<(), Flaw> {
    let lines = rows_of(alloc, table)?;
    assert_eq!(rt; lines.len(), count, "lines");
    for line in &lines {
        check_label(rt, alloc, line)?;
    }
    Ok(())
}

#[test]
fn labels_that_are_asserted(rt: HostRuntime) -> Result<(), Flaw> {
    check_labels(&rt, rt.alloc(), CLEARANCES, 16)?;
    check_labels(&rt, rt.alloc(), FORMATS, 33)
}

/// The longest label has 1,024 bytes. In the format of names it is that of level 3 here, and of a byte less no label; with a
/// byte more it is no label of any format, and so the arguments aren't those of a CREATE. What stands before a label in its
/// databody has 32 bytes.
#[test]
fn longest_labels(rt: HostRuntime) -> Result<(), Flaw> {
    let alloc = rt.alloc();
    let longest = "61".repeat(alloc, 1_024)?;
    let shorter = "61".repeat(alloc, 1_023)?;
    let names = format!(in alloc; "format 103 0 name\nname 103 0 3 {longest}\n")?;
    let policy = POLICY.replace(alloc, "format 103 0 name\n", &names)?;
    let label = format!(in alloc; "103 0 1024 0x{longest}")?;
    check_under(&rt, alloc, &policy, &asserting(alloc, 1_056, "3", &label)?)?;
    let label = format!(in alloc; "103 0 1023 0x{shorter} 0x00")?;
    check_under(&rt, alloc, &policy, &asserting(alloc, 1_056, "-", &label)?)?;
    let mut longer = String::from_str(alloc, "a byte more | CREATE_7 1060 9 ASSERT 103 0 1025 0x")?;
    longer.push_str(&longest)?;
    longer.push_str(" 0x61000000 CHECKSUM 1060 ZEROS")?;
    check_refused(&rt, alloc, &policy, &longer, 1, &GARBAGE_CREATE)
}
