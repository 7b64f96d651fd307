//! Operations that make, name, move, take out and set, in recordings. All are laid out by hand, in words, from RFC 8881
//! sections 18.4 (CREATE), 18.9 (LINK), 18.25 (REMOVE), 18.26 (RENAME) and 18.30 (SETATTR).
//!
//! Of the operations' numbers, 6 is CREATE, 9 GETATTR, 10 GETFH, 11 LINK, 15 LOOKUP, 22 PUTFH, 24 PUTROOTFH, 26 READDIR,
//! 27 READLINK, 28 REMOVE, 29 RENAME, 31 RESTOREFH, 32 SAVEFH and 34 SETATTR. Of the attributes', 3 is change, 4 size,
//! 33 mode, 35 numlinks and 80 sec_label.
//!
//! The root is node 1 of level 0; its change number is 1 and its next cookie 6. The first node that level 0 makes is 5.
use lnfs_test_support::clients::{put_opened, put_opening, with_clients};
use lnfs_test_support::flaw::Flaw;
use lnfs_test_support::operations::check_operations;
use lnfs_test_support::records::check_row;
use lnfs_test_support::rows::rows_of;
use lnfs_test_support::sessions::check_opened;
use std::alloc::{AllocError, Global};

/// In each of these tables: a name; the operations behind a SEQUENCE, with their count; the status of the COMPOUND, the
/// count of its results and the results behind that of SEQUENCE; and the line of the audit stream, without the event's
/// place.
///
/// CREATE.
const MADE: &str = "
a directory with a mode | 24 6 2 1 'd' 0x000000 2 0 2 4 448 10 9 2 24 2 | \
0 5 24 0 6 0 1 0 1 0 2 2 0 2 10 0 12 0 0 5 9 0 2 24 2 20 0 1 0 0 448
a symbolic link | 24 6 5 4 'text' 1 'l' 0x000000 0 0 10 27 9 2 24 2 | \
0 6 24 0 6 0 1 0 1 0 2 0 10 0 12 0 0 5 27 0 4 'text' 9 0 2 24 2 20 0 1 0 4 511
no name | 24 6 2 0 0 0 | 22 3 24 0 6 22 | 3 6 A 22
bytes that are no text | 24 6 2 1 0xff000000 0 0 | 22 3 24 0 6 22 | 3 6 A 22
a slash | 24 6 2 3 0x612F6200 0 0 | 10040 3 24 0 6 10040 | 3 6 A 10040
a dot | 24 6 2 1 '.' 0x000000 0 0 | 10041 3 24 0 6 10041 | 3 6 A 10041
two dots | 24 6 2 2 '..' 0x0000 0 0 | 10041 3 24 0 6 10041 | 3 6 A 10041
an attribute that there isn't, before the handle | 6 2 1 'd' 0x000000 1 0x00001000 0 | 10032 2 6 10032 | 2 6 A 10032
one that can't be set | 24 6 2 1 'd' 0x000000 2 0 0x00200000 0 | 22 3 24 0 6 22 | 3 6 A 22
a list that ends early | 24 6 2 1 'd' 0x000000 2 0 2 0 | 10036 3 24 0 6 10036 | 3 6 A 10036
a size | 24 6 2 1 'd' 0x000000 1 16 8 0 0 | 22 3 24 0 6 22 | 3 6 A 22
a mode of 13 bits | 24 6 2 1 'd' 0x000000 2 0 2 4 4096 | 22 3 24 0 6 22 | 3 6 A 22
a label of no format | 24 6 2 1 'd' 0x000000 3 0 0 65536 16 999 0 1 0x78000000 | 10092 3 24 0 6 10092 | 3 6 A 10092
bytes that are no label | 24 6 2 1 'd' 0x000000 3 0 0 65536 16 101 1 1 0x78000000 | 10093 3 24 0 6 10093 | 3 6 A 10093
a link without a text | 24 6 5 0 1 'l' 0x000000 0 0 | 22 3 24 0 6 22 | 3 6 A 22
no handle | 6 2 1 'd' 0x000000 0 0 | 10020 2 6 10020 | 2 6 N 10020
a name that is there | 24 6 2 3 'one' 0x00 0 0 | 17 3 24 0 6 17 | 3 6 N 17
in a directory of another level | 22 12 0 0 2 6 2 1 'd' 0x000000 0 0 | 13 3 22 0 6 13 | 3 6 M3 13
in a link | 24 6 5 1 'x' 0x000000 1 'l' 0x000000 0 0 6 2 1 'd' 0x000000 0 0 | 20 4 24 0 6 0 1 0 1 0 2 0 6 20 | 4 6 N 20
";

/// LINK and REMOVE.
const NAMED: &str = "
a second name | 24 6 5 4 'text' 1 'l' 0x000000 0 0 32 24 11 1 'm' 0x000000 15 1 'm' 0x000000 9 2 8 8 10 | \
0 9 24 0 6 0 1 0 1 0 2 0 32 0 24 0 11 0 1 0 2 0 3 15 0 9 0 2 8 8 12 0 2 2 10 0 12 0 0 5
one of a directory | 22 12 0 0 2 32 24 11 1 'm' 0x000000 | 21 5 22 0 32 0 24 0 11 21 | 5 11 N 21
one where nothing is saved | 24 11 1 'm' 0x000000 | 10020 3 24 0 11 10020 | 3 11 N 10020
one that is there | 24 6 5 1 'x' 0x000000 1 'l' 0x000000 0 0 32 24 11 3 'one' 0x00 | \
17 6 24 0 6 0 1 0 1 0 2 0 32 0 24 0 11 17 | 6 11 N 17
one in a directory of another level | 24 6 5 1 'x' 0x000000 1 'l' 0x000000 0 0 32 22 12 0 0 2 11 1 'm' 0x000000 | \
13 6 24 0 6 0 1 0 1 0 2 0 32 0 22 0 11 13 | 6 11 M3 13
one of two names taken out, and the last | \
24 6 5 4 'text' 1 'l' 0x000000 0 0 32 24 11 1 'm' 0x000000 28 1 'l' 0x000000 31 9 2 8 8 24 28 1 'm' 0x000000 31 10 | \
70 13 24 0 6 0 1 0 1 0 2 0 32 0 24 0 11 0 1 0 2 0 3 28 0 1 0 3 0 4 31 0 9 0 2 8 8 12 0 3 1 \
24 0 28 0 1 0 4 0 5 31 0 10 70 | 13 10 N 70
a name that isn't there | 24 28 1 'x' 0x000000 | 2 3 24 0 28 2 | 3 28 N 2
a directory of another level | 24 28 3 'one' 0x00 | 13 3 24 0 28 13 | 3 28 M6 13
a directory that holds a name | 24 6 2 1 'd' 0x000000 0 0 6 2 1 'e' 0x000000 0 0 24 28 1 'd' 0x000000 | \
66 6 24 0 6 0 1 0 1 0 2 0 6 0 1 0 1 0 2 0 24 0 28 66 | 6 28 N 66
one that held a name | 24 6 2 1 'd' 0x000000 0 0 32 6 2 1 'e' 0x000000 0 0 31 28 1 'e' 0x000000 24 28 1 'd' 0x000000 | \
0 9 24 0 6 0 1 0 1 0 2 0 32 0 6 0 1 0 1 0 2 0 31 0 28 0 1 0 2 0 3 24 0 28 0 1 0 2 0 3
";

/// RENAME.
const MOVED: &str = "
a directory of another level gets a name | 24 32 29 3 'one' 0x00 3 'uno' 0x00 15 3 'uno' 0x00 10 | \
0 6 24 0 32 0 29 0 1 0 1 0 2 1 0 1 0 2 15 0 10 0 12 0 0 2
under itself | 24 32 6 2 1 'd' 0x000000 0 0 29 1 'd' 0x000000 1 'x' 0x000000 | 22 5 24 0 32 0 6 0 1 0 1 0 2 0 29 22 | 5 29 N 22
under its grandchild | \
24 32 6 2 1 'd' 0x000000 0 0 6 2 1 'e' 0x000000 0 0 6 2 1 'f' 0x000000 0 0 29 1 'd' 0x000000 1 'x' 0x000000 | \
22 7 24 0 32 0 6 0 1 0 1 0 2 0 6 0 1 0 1 0 2 0 6 0 1 0 1 0 2 0 29 22 | 7 29 N 22
over an empty directory | \
24 32 6 2 1 'd' 0x000000 0 0 24 6 2 1 'e' 0x000000 0 0 24 29 1 'd' 0x000000 1 'e' 0x000000 15 1 'e' 0x000000 10 | \
0 10 24 0 32 0 6 0 1 0 1 0 2 0 24 0 6 0 1 0 2 0 3 0 24 0 29 0 1 0 3 0 4 1 0 3 0 4 15 0 10 0 12 0 0 5
over a full one | \
24 32 6 2 1 'd' 0x000000 0 0 24 6 2 1 'e' 0x000000 0 0 6 2 1 'f' 0x000000 0 0 24 29 1 'd' 0x000000 1 'e' 0x000000 | \
17 9 24 0 32 0 6 0 1 0 1 0 2 0 24 0 6 0 1 0 2 0 3 0 6 0 1 0 1 0 2 0 24 0 29 17 | 9 29 N 17
over a link | \
24 32 6 2 1 'd' 0x000000 0 0 24 6 5 1 'x' 0x000000 1 'l' 0x000000 0 0 24 29 1 'd' 0x000000 1 'l' 0x000000 | \
17 8 24 0 32 0 6 0 1 0 1 0 2 0 24 0 6 0 1 0 2 0 3 0 24 0 29 17 | 8 29 N 17
a link over a directory | \
24 32 6 2 1 'd' 0x000000 0 0 24 6 5 1 'x' 0x000000 1 'l' 0x000000 0 0 24 29 1 'l' 0x000000 1 'd' 0x000000 | \
17 8 24 0 32 0 6 0 1 0 1 0 2 0 24 0 6 0 1 0 2 0 3 0 24 0 29 17 | 8 29 N 17
over a directory of another level | 24 32 6 2 1 'd' 0x000000 0 0 24 29 1 'd' 0x000000 3 'one' 0x00 | \
13 6 24 0 32 0 6 0 1 0 1 0 2 0 24 0 29 13 | 6 29 M6 13
a link onto its other name | \
24 6 5 1 'x' 0x000000 1 'l' 0x000000 0 0 32 24 11 1 'm' 0x000000 32 29 1 'l' 0x000000 1 'm' 0x000000 15 1 'l' 0x000000 9 2 0 8 | \
0 10 24 0 6 0 1 0 1 0 2 0 32 0 24 0 11 0 1 0 2 0 3 32 0 29 0 1 0 3 0 3 1 0 3 0 3 15 0 9 0 2 0 8 4 2
a link onto its other name in another directory | \
24 6 5 1 'x' 0x000000 1 'l' 0x000000 0 0 32 24 6 2 1 'd' 0x000000 0 0 11 1 'm' 0x000000 24 32 15 1 'd' 0x000000 \
29 1 'l' 0x000000 1 'm' 0x000000 15 1 'm' 0x000000 9 2 0 8 | \
0 13 24 0 6 0 1 0 1 0 2 0 32 0 24 0 6 0 1 0 2 0 3 0 11 0 1 0 1 0 2 24 0 32 0 15 0 \
29 0 1 0 3 0 3 1 0 2 0 2 15 0 9 0 2 0 8 4 2
from one directory to another, where it is the first name | \
24 32 6 2 1 'd' 0x000000 0 0 24 6 2 1 'e' 0x000000 0 0 29 1 'd' 0x000000 1 'f' 0x000000 26 0 0 0 0 0 1000 0 | \
0 8 24 0 32 0 6 0 1 0 1 0 2 0 24 0 6 0 1 0 2 0 3 0 29 0 1 0 3 0 4 1 0 1 0 2 26 0 0 0 1 0 3 1 'f' 0x000000 0 0 0 1
in its directory, where it becomes the last name | \
24 32 6 2 1 'd' 0x000000 0 0 24 6 2 1 'e' 0x000000 0 0 24 29 1 'd' 0x000000 1 'f' 0x000000 26 0 5 0 0 0 1000 0 | \
0 9 24 0 32 0 6 0 1 0 1 0 2 0 24 0 6 0 1 0 2 0 3 0 24 0 29 0 1 0 3 0 4 1 0 3 0 4 \
26 0 0 0 1 0 7 1 'e' 0x000000 0 0 1 0 8 1 'f' 0x000000 0 0 0 1
a bad old name, before a bad new one | 24 32 29 0 1 '.' 0x000000 | 22 4 24 0 32 0 29 22 | 4 29 A 22
a bad new name | 24 32 29 3 'one' 0x00 1 '.' 0x000000 | 10041 4 24 0 32 0 29 10041 | 4 29 A 10041
nothing saved | 24 29 3 'one' 0x00 3 'uno' 0x00 | 10020 3 24 0 29 10020 | 3 29 N 10020
a name that isn't there | 24 32 29 1 'x' 0x000000 1 'y' 0x000000 | 2 4 24 0 32 0 29 2 | 4 29 N 2
into a directory of another level | 24 32 22 12 0 0 2 29 3 'two' 0x00 3 'two' 0x00 | 13 5 24 0 32 0 22 0 29 13 | 5 29 M3 13
";

/// SETATTR. Behind its number stands a state id, which isn't looked at where no size of a file is set.
const SET: &str = "
a mode | 24 6 2 1 'd' 0x000000 0 0 34 0 0 0 0 2 0 2 4 448 9 2 8 2 | \
0 5 24 0 6 0 1 0 1 0 2 0 34 0 2 0 2 9 0 2 8 2 12 0 2 448
nothing | 24 34 0 0 0 0 0 0 9 1 8 | 0 4 24 0 34 0 0 9 0 1 8 8 0 1
a mode of 13 bits | 24 34 0 0 0 0 2 0 2 4 4096 | 22 3 24 0 34 22 0 | 3 34 A 22
a mode of a directory of another level | 22 12 0 0 2 34 0 0 0 0 2 0 2 4 448 | 13 3 22 0 34 13 0 | 3 34 M2 13
a size of a directory | 24 34 0 0 0 0 1 16 8 0 0 | 21 3 24 0 34 21 0 | 3 34 N 21
a size of a link | 24 6 5 1 'x' 0x000000 1 'l' 0x000000 0 0 34 0 0 0 0 1 16 8 0 0 | 22 4 24 0 6 0 1 0 1 0 2 0 34 22 0 | 4 34 N 22
an attribute that there isn't, before the handle | 34 0 0 0 0 1 0x00001000 0 | 10032 2 34 10032 0 | 2 34 A 10032
a label of no format | 24 34 0 0 0 0 3 0 0 65536 16 999 0 1 0x78000000 | 10092 3 24 0 34 10092 0 | 3 34 A 10092
a label and a mode | 24 34 0 0 0 0 3 0 2 65536 28 448 101 1 10 0x00000001010180000000 0x0000 | 22 3 24 0 34 22 0 | 3 34 A 22
the label of level 1, whose handle stays | \
24 6 2 1 'd' 0x000000 0 0 34 0 0 0 0 3 0 0 65536 24 101 1 10 0x00000001010180000000 0x0000 10 9 1 16 | \
13 6 24 0 6 0 1 0 1 0 2 0 34 0 3 0 0 65536 10 0 12 0 0 5 9 13 | 6 9 M1 13
what has the label of level 1, by its name | \
24 6 2 1 'd' 0x000000 0 0 34 0 0 0 0 3 0 0 65536 24 101 1 10 0x00000001010180000000 0x0000 24 15 1 'd' 0x000000 10 24 28 1 'd' 0x000000 | \
13 9 24 0 6 0 1 0 1 0 2 0 34 0 3 0 0 65536 24 0 15 0 10 0 12 0 0 5 24 0 28 13 | 9 28 M6 13
the label of level 1 of a directory that holds a name | \
24 6 2 1 'd' 0x000000 0 0 32 6 2 1 'e' 0x000000 0 0 31 34 0 0 0 0 3 0 0 65536 24 101 1 10 0x00000001010180000000 0x0000 | \
66 7 24 0 6 0 1 0 1 0 2 0 32 0 6 0 1 0 1 0 2 0 31 0 34 66 0 | 7 34 N 66
the label that a directory has, in another format | \
24 6 2 1 'd' 0x000000 0 0 34 0 0 0 0 3 0 0 65536 16 103 0 4 'open' 9 1 8 | \
0 5 24 0 6 0 1 0 1 0 2 0 34 0 3 0 0 65536 9 0 1 8 8 0 1
the label of level 1 of the root | 24 34 0 0 0 0 3 0 0 65536 24 101 1 10 0x00000001010180000000 0x0000 | \
13 3 24 0 34 13 0 | 3 34 M5 13
the label of a link is raised | \
24 6 5 1 'x' 0x000000 1 'l' 0x000000 0 0 34 0 0 0 0 3 0 0 65536 24 101 1 10 0x00000001010180000000 0x0000 27 | \
13 5 24 0 6 0 1 0 1 0 2 0 34 0 3 0 0 65536 27 13 | 5 27 M1 13
";

#[test]
fn nodes_made_and_named(rt: HostRuntime) -> Result<(), Flaw> {
    check_operations(&rt, rt.alloc(), MADE, 19)?;
    check_operations(&rt, rt.alloc(), NAMED, 10)
}

#[test]
fn names_moved(rt: HostRuntime) -> Result<(), Flaw> {
    check_operations(&rt, rt.alloc(), MOVED, 17)
}

#[test]
fn attributes_set(rt: HostRuntime) -> Result<(), Flaw> {
    check_operations(&rt, rt.alloc(), SET, 15)
}

/// In a table: a name, what is recorded, the replies, and the lines of the audit stream.
const BY_LEVEL: &str = "
eight directories of level 1 and a ninth | \
OPEN_1 / @1 CALL SYS_100 0 2 19 SEQUENCE_1 1 0 0 1 22 12 0 0 2 6 2 1 'a' 0x000000 0 0 22 12 0 0 2 6 2 1 'b' 0x000000 0 0 \
22 12 0 0 2 6 2 1 'c' 0x000000 0 0 22 12 0 0 2 6 2 1 'd' 0x000000 0 0 22 12 0 0 2 6 2 1 'e' 0x000000 0 0 \
22 12 0 0 2 6 2 1 'f' 0x000000 0 0 22 12 0 0 2 6 2 1 'g' 0x000000 0 0 22 12 0 0 2 6 2 1 'h' 0x000000 0 0 \
22 12 0 0 2 6 2 1 'i' 0x000000 0 0 | \
OPENED_1 / ACCEPTED 0 28 0 19 SEQUENCED_1 1 0 SLOTS 22 0 6 0 1 0 1 0 2 0 22 0 6 0 1 0 2 0 3 0 22 0 6 0 1 0 3 0 4 0 \
22 0 6 0 1 0 4 0 5 0 22 0 6 0 1 0 5 0 6 0 22 0 6 0 1 0 6 0 7 0 22 0 6 0 1 0 7 0 8 0 22 0 6 0 1 0 8 0 9 0 22 0 6 28 | \
3 19 6 Q 28
eight of level 1, one of which is removed, and a ninth | \
OPEN_1 / @1 CALL SYS_100 0 2 21 SEQUENCE_1 1 0 0 1 22 12 0 0 2 6 2 1 'a' 0x000000 0 0 22 12 0 0 2 6 2 1 'b' 0x000000 0 0 \
22 12 0 0 2 6 2 1 'c' 0x000000 0 0 22 12 0 0 2 6 2 1 'd' 0x000000 0 0 22 12 0 0 2 6 2 1 'e' 0x000000 0 0 \
22 12 0 0 2 6 2 1 'f' 0x000000 0 0 22 12 0 0 2 6 2 1 'g' 0x000000 0 0 22 12 0 0 2 6 2 1 'h' 0x000000 0 0 \
22 12 0 0 2 28 1 'a' 0x000000 6 2 1 'i' 0x000000 0 0 10 | \
OPENED_1 / ACCEPTED 0 0 0 21 SEQUENCED_1 1 0 SLOTS 22 0 6 0 1 0 1 0 2 0 22 0 6 0 1 0 2 0 3 0 22 0 6 0 1 0 3 0 4 0 \
22 0 6 0 1 0 4 0 5 0 22 0 6 0 1 0 5 0 6 0 22 0 6 0 1 0 6 0 7 0 22 0 6 0 1 0 7 0 8 0 22 0 6 0 1 0 8 0 9 0 22 0 \
28 0 1 0 9 0 10 6 0 1 0 10 0 11 0 10 0 12 1 0 9
nodes of level 3 leave level 0 its numbers | \
OPEN_3 / @1 CALL SYS_300 0 2 5 SEQUENCE_3 1 0 0 1 22 12 0 0 4 6 2 1 'x' 0x000000 0 0 6 2 1 'y' 0x000000 0 0 10 / \
CALL SYS EXCHANGE 'c1' REST / CALL SYS CREATE 0 1 1 0 CHANNEL CHANNEL 0 0 / \
CALL SYS 0 2 4 SEQUENCE 1 0 0 1 24 6 2 1 'd' 0x000000 0 0 10 | \
OPENED_3 / ACCEPTED 0 0 0 5 SEQUENCED_3 1 0 SLOTS 22 0 6 0 1 0 1 0 2 0 6 0 1 0 1 0 2 0 10 0 12 3 0 2 / \
EXCHANGED 0 1 SERVER / CREATED 0 0 1 0 1 0 CHANNEL CHANNEL / \
ACCEPTED 0 0 0 4 SEQUENCED 1 0 SLOTS 24 0 6 0 1 0 1 0 2 0 10 0 12 0 0 5
a directory of level 0 gets the label of level 1, which can't raise it further | \
CALL SYS EXCHANGE 'c1' REST / CALL SYS CREATE 0 1 1 0 CHANNEL CHANNEL 0 0 / OPEN_1 / \
CALL SYS 0 2 4 SEQUENCE 1 0 0 1 24 6 2 1 'd' 0x000000 0 0 34 0 0 0 0 3 0 0 65536 24 101 1 10 0x00000001010180000000 0x0000 / \
@1 CALL SYS_100 0 2 3 SEQUENCE_1 1 0 0 1 22 12 0 0 5 34 0 0 0 0 3 0 0 65536 24 101 1 10 0x000000010103e4000000 0x0000 | \
EXCHANGED 0 1 SERVER / CREATED 0 0 1 0 1 0 CHANNEL CHANNEL / OPENED_1 / \
ACCEPTED 0 0 0 4 SEQUENCED 1 0 SLOTS 24 0 6 0 1 0 1 0 2 0 34 0 3 0 0 65536 / \
ACCEPTED 0 13 0 3 SEQUENCED_1 1 0 SLOTS 22 0 34 13 0 | 6 3 34 M5 13
a link with names in directories of two labels can't be raised | \
CALL SYS EXCHANGE 'c1' REST / CALL SYS CREATE 0 1 1 0 CHANNEL CHANNEL 0 0 / OPEN_1 / \
CALL SYS 0 2 3 SEQUENCE 1 0 0 1 24 6 5 1 'x' 0x000000 1 'l' 0x000000 3 0 0 65536 24 101 1 10 0x00000001010180000000 0x0000 / \
@1 CALL SYS_100 0 2 7 SEQUENCE_1 1 0 0 1 22 12 0 0 5 32 22 12 0 0 2 11 1 'm' 0x000000 31 34 0 0 0 0 3 0 0 65536 24 101 1 10 0x000000010103e4000000 0x0000 | \
EXCHANGED 0 1 SERVER / CREATED 0 0 1 0 1 0 CHANNEL CHANNEL / OPENED_1 / \
ACCEPTED 0 0 0 3 SEQUENCED 1 0 SLOTS 24 0 6 0 1 0 1 0 2 3 0 0 65536 / \
ACCEPTED 0 13 0 7 SEQUENCED_1 1 0 SLOTS 22 0 32 0 22 0 11 0 1 0 1 0 2 31 0 34 13 0 | 6 7 34 M5 13
level 1 raises what it made, to level 3, and not aside to level 2 or down to level 0 | \
OPEN_1 / @1 CALL SYS_100 0 2 4 SEQUENCE_1 1 0 0 1 22 12 0 0 2 6 2 1 'd' 0x000000 0 0 34 0 0 0 0 3 0 0 65536 24 101 1 10 0x00000001010140000000 0x0000 / \
@1 CALL SYS_100 0 2 3 SEQUENCE_1 2 0 0 1 22 12 1 0 1 34 0 0 0 0 3 0 0 65536 20 101 1 6 0x000000010000 0x0000 / \
@1 CALL SYS_100 0 2 4 SEQUENCE_1 3 0 0 1 22 12 1 0 1 34 0 0 0 0 3 0 0 65536 24 101 1 10 0x000000010103e4000000 0x0000 9 1 16 | \
OPENED_1 / ACCEPTED 0 13 0 4 SEQUENCED_1 1 0 SLOTS 22 0 6 0 1 0 1 0 2 0 34 13 0 / \
ACCEPTED 0 13 0 3 SEQUENCED_1 2 0 SLOTS 22 0 34 13 0 / \
ACCEPTED 0 13 0 4 SEQUENCED_1 3 0 SLOTS 22 0 34 0 3 0 0 65536 9 13 | 3 4 34 M5 13 | 4 3 34 M5 13 | 5 4 9 M1 13
level 1 makes a directory at level 3, and none beside its level | \
OPEN_1 / @1 CALL SYS_100 0 2 4 SEQUENCE_1 1 0 0 1 22 12 0 0 2 6 2 1 'h' 0x000000 3 0 0 65536 24 101 1 10 0x000000010103e4000000 0x0000 9 1 16 / \
@1 CALL SYS_100 0 2 3 SEQUENCE_1 2 0 0 1 22 12 0 0 2 6 2 1 'i' 0x000000 3 0 0 65536 24 101 1 10 0x00000001010140000000 0x0000 | \
OPENED_1 / ACCEPTED 0 13 0 4 SEQUENCED_1 1 0 SLOTS 22 0 6 0 1 0 1 0 2 3 0 0 65536 9 13 / \
ACCEPTED 0 13 0 3 SEQUENCED_1 2 0 SLOTS 22 0 6 13 | 3 4 9 M1 13 | 4 3 6 M4 13
what a directory of level 1 holds isn't told by a removal of level 0 | \
CALL SYS EXCHANGE 'c1' REST / CALL SYS CREATE 0 1 1 0 CHANNEL CHANNEL 0 0 / OPEN_1 / \
CALL SYS 0 2 3 SEQUENCE 1 0 0 1 24 28 3 'one' 0x00 / \
@1 CALL SYS_100 0 2 3 SEQUENCE_1 1 0 0 1 22 12 0 0 2 6 2 1 'd' 0x000000 0 0 / \
CALL SYS 0 2 3 SEQUENCE 2 0 0 1 24 28 3 'one' 0x00 / CALL SYS 0 2 4 SEQUENCE 3 0 0 1 24 32 29 3 'one' 0x00 3 'uno' 0x00 | \
EXCHANGED 0 1 SERVER / CREATED 0 0 1 0 1 0 CHANNEL CHANNEL / OPENED_1 / \
ACCEPTED 0 13 0 3 SEQUENCED 1 0 SLOTS 24 0 28 13 / ACCEPTED 0 0 0 3 SEQUENCED_1 1 0 SLOTS 22 0 6 0 1 0 1 0 2 0 / \
ACCEPTED 0 13 0 3 SEQUENCED 2 0 SLOTS 24 0 28 13 / ACCEPTED 0 0 0 4 SEQUENCED 3 0 SLOTS 24 0 32 0 29 0 1 0 1 0 2 1 0 1 0 2 | \
5 3 28 M6 13 | 7 3 28 M6 13
";

#[test]
fn changes_by_level(rt: HostRuntime) -> Result<(), Flaw> {
    let rows = rows_of(rt.alloc(), BY_LEVEL)?;
    assert_eq!(rt; rows.len(), 8, "rows");
    for row in &rows {
        check_row(&rt, rt.alloc(), &with_clients(rt.alloc(), row)?)?;
    }
    Ok(())
}

/// SETATTR of the label of level 3.
const TO_THE_TOP: &str = "34 0 0 0 0 3 0 0 65536 24 101 1 10 0x000000010103e4000000 0x0000";

/// The row of what a level raises to level 3: a directory of its own that holds a name, one that holds none, and a
/// directory of another level. Level 3's own has that label already.
fn raises(alloc: Global, level: usize) -> Result<String, AllocError> {
    let mut events = String::new(alloc);
    let mut replies = String::new(alloc);
    put_opening(&mut events, level)?;
    put_opened(&mut replies, level)?;
    let top = TO_THE_TOP;
    let class = level.min(1);
    let own = level.saturating_add(1);
    let other = if level == 3 {
        1
    } else {
        level.saturating_add(2)
    };
    let (status, told, line) = if level == 3 {
        ("0", "34 0 3 0 0 65536", "")
    } else {
        ("66", "34 66 0", " | 3 7 34 N 66")
    };
    write!(
        events,
        " / @{class} CALL SYS_{level}00 0 2 7 SEQUENCE_{level} 1 0 0 1 22 12 0 0 {own} \
6 2 1 'd' 0x000000 0 0 32 6 2 1 'e' 0x000000 0 0 31 {top} / \
@{class} CALL SYS_{level}00 0 2 4 SEQUENCE_{level} 2 0 0 1 22 12 0 0 {own} 6 2 1 'f' 0x000000 0 0 {top} / \
@{class} CALL SYS_{level}00 0 2 3 SEQUENCE_{level} 3 0 0 1 22 12 0 0 {other} {top}"
    )?;
    write!(
        replies,
        " / ACCEPTED 0 {status} 0 7 SEQUENCED_{level} 1 0 SLOTS 22 0 6 0 1 0 1 0 2 0 32 0 6 0 1 0 1 0 2 0 31 0 {told} / \
ACCEPTED 0 0 0 4 SEQUENCED_{level} 2 0 SLOTS 22 0 6 0 1 0 2 0 3 0 34 0 3 0 0 65536 / \
ACCEPTED 0 13 0 3 SEQUENCED_{level} 3 0 SLOTS 22 0 34 13 0"
    )?;
    format!(in alloc; "raises by level {level} | {events} | {replies}{line} | 5 3 34 M5 13")
}

#[test]
fn raises_by_each_level(rt: HostRuntime) -> Result<(), Flaw> {
    for level in 0..4usize {
        check_row(&rt, rt.alloc(), &raises(rt.alloc(), level)?)?;
    }
    Ok(())
}

/// The row of a name of 256 bytes and of one of 255, and of texts of 1,025 and of 1,024 bytes.
fn long_ones(alloc: Global) -> Result<String, AllocError> {
    let name = "61".repeat(alloc, 256)?;
    let shorter = "61".repeat(alloc, 255)?;
    let text = "61".repeat(alloc, 1025)?;
    let shorter_text = "61".repeat(alloc, 1024)?;
    format!(in alloc;
        "long names and texts | CALL SYS 0 2 3 SEQUENCE 1 0 0 1 24 6 2 256 0x{name} 0 0 / \
CALL SYS 0 2 4 SEQUENCE 2 0 0 1 24 6 2 255 0x{shorter} 0x00 0 0 10 / \
CALL SYS 0 2 3 SEQUENCE 3 0 0 1 24 6 5 1025 0x{text} 0x000000 1 'l' 0x000000 0 0 / \
CALL SYS 0 2 4 SEQUENCE 4 0 0 1 24 6 5 1024 0x{shorter_text} 1 'l' 0x000000 0 0 10 | \
ACCEPTED 0 63 0 3 SEQUENCED 1 0 SLOTS 24 0 6 63 / ACCEPTED 0 0 0 4 SEQUENCED 2 0 SLOTS 24 0 6 0 1 0 1 0 2 0 10 0 12 0 0 5 / \
ACCEPTED 0 63 0 3 SEQUENCED 3 0 SLOTS 24 0 6 63 / ACCEPTED 0 0 0 4 SEQUENCED 4 0 SLOTS 24 0 6 0 1 0 2 0 3 0 10 0 12 0 0 6 | \
3 3 6 A 63 | 5 3 6 A 63"
    )
}

/// Adds a LINK in the root, behind so many others, and its result.
fn put_link(events: &mut String, replies: &mut String, behind: usize) -> Result<(), AllocError> {
    let name = behind.saturating_add(10_000);
    let before = behind.saturating_add(2);
    let after = behind.saturating_add(3);
    write!(events, " 11 5 '{name}' 0x000000")?;
    write!(replies, " 11 0 1 0 {before} 0 {after}")
}

/// The row of a link that gets 1,023 names beside its first, 28 in a COMPOUND, and is refused one more.
fn many_names(alloc: Global) -> Result<String, AllocError> {
    let mut events = String::new(alloc);
    let mut replies = String::new(alloc);
    for sequence in 2..38usize {
        write!(
            events,
            " / CALL SYS 0 2 32 SEQUENCE {sequence} 0 0 1 22 12 0 0 5 32 24"
        )?;
        write!(
            replies,
            " / ACCEPTED 0 0 0 32 SEQUENCED {sequence} 0 SLOTS 22 0 32 0 24 0"
        )?;
        for place in 0..28usize {
            let behind = place.saturating_add(28 * sequence.saturating_sub(2));
            put_link(&mut events, &mut replies, behind)?;
        }
    }
    events.push_str(" / CALL SYS 0 2 20 SEQUENCE 38 0 0 1 22 12 0 0 5 32 24")?;
    replies.push_str(" / ACCEPTED 0 31 0 20 SEQUENCED 38 0 SLOTS 22 0 32 0 24 0")?;
    for place in 0..15usize {
        put_link(&mut events, &mut replies, place.saturating_add(1_008))?;
    }
    format!(in alloc;
        "1,024 names and one more | CALL SYS 0 2 3 SEQUENCE 1 0 0 1 24 6 5 1 'x' 0x000000 1 'l' 0x000000 0 0{events} \
11 5 '99999' 0x000000 | ACCEPTED 0 0 0 3 SEQUENCED 1 0 SLOTS 24 0 6 0 1 0 1 0 2 0{replies} 11 31 | 40 20 11 N 31"
    )
}

#[test]
fn limits_of_names(rt: HostRuntime) -> Result<(), Flaw> {
    check_opened(&rt, rt.alloc(), &long_ones(rt.alloc())?, 1)?;
    check_opened(&rt, rt.alloc(), &many_names(rt.alloc())?, 1)
}
