//! The first directories in recordings: walks, attributes and listings, by subjects of each level. All are
//! laid out by hand, in words, from RFC 8881 sections 5 and 18 and RFC 7862 section 12.2.
//!
//! Of the operations' numbers, 3 is ACCESS, 9 GETATTR, 10 GETFH, 15 LOOKUP, 16 LOOKUPP, 17 NVERIFY, 22 PUTFH,
//! 24 PUTROOTFH, 26 READDIR, 27 READLINK, 31 RESTOREFH, 32 SAVEFH and 37 VERIFY.
//!
//! The root is node 1 of level 0, and `one`, `two` and `top` in it are nodes 2 to 4, of the labels 1, 2 and 3.
use lnfs_test_support::clients::with_clients;
use lnfs_test_support::flaw::Flaw;
use lnfs_test_support::operations::check_operations;
use lnfs_test_support::records::{check, check_row};
use lnfs_test_support::rows::rows_of;
use lnfs_test_support::sessions::check_opened;
use std::alloc::{AllocError, Global};

/// In a table: a name; the operations behind a SEQUENCE, with their count; the status of the COMPOUND, the count
/// of its results and the results behind that of SEQUENCE; and the line of the audit stream, without the event's
/// place.
///
/// File handles.
const HANDLES: &str = "
the root's | 24 10 | 0 3 24 0 10 0 12 0 0 1
none | 10 | 10020 2 10 10020 | 2 10 N 10020
none to save | 32 | 10020 2 32 10020 | 2 32 N 10020
none saved | 24 31 | 10020 3 24 0 31 10020 | 3 31 N 10020
saved and restored | 24 32 15 3 'one' 0x00 31 10 | 0 6 24 0 32 0 15 0 31 0 10 0 12 0 0 1
a directory's | 22 12 0 0 2 10 | 0 3 22 0 10 0 12 0 0 2
11 bytes | 22 11 0 0 0x000002 0x00 | 10001 2 22 10001 | 2 22 A 10001
16 bytes | 22 16 0 0 2 0 | 10001 2 22 10001 | 2 22 A 10001
a level that there isn't | 22 12 4 0 1 | 10001 2 22 10001 | 2 22 A 10001
a number of 33 bits | 22 12 0 1 2 | 10001 2 22 10001 | 2 22 A 10001
a node of no number | 22 12 0 0 9 | 70 2 22 70 | 2 22 N 70
a node of a level above, which isn't there | 22 12 1 0 9 | 70 2 22 70 | 2 22 M8 70
";

/// Names, and the way up.
const NAMES: &str = "
a name | 24 15 3 'two' 0x00 10 | 0 4 24 0 15 0 10 0 12 0 0 3
no such name | 24 15 3 'twO' 0x00 | 2 3 24 0 15 2 | 3 15 N 2
no name, before the handle | 15 0 | 22 2 15 22 | 2 15 A 22
bytes that are no text | 24 15 1 0xff000000 | 22 3 24 0 15 22 | 3 15 A 22
a slash | 24 15 3 0x612F6200 | 10040 3 24 0 15 10040 | 3 15 A 10040
a zero byte | 24 15 1 0x00000000 | 10040 3 24 0 15 10040 | 3 15 A 10040
a dot | 24 15 1 '.' 0x000000 | 10041 3 24 0 15 10041 | 3 15 A 10041
two dots | 24 15 2 '..' 0x0000 | 10041 3 24 0 15 10041 | 3 15 A 10041
no handle | 15 3 'one' 0x00 | 10020 2 15 10020 | 2 15 N 10020
in a directory of a level above | 22 12 0 0 2 15 1 'a' 0x000000 | 13 3 22 0 15 13 | 3 15 M1 13
the root's parent | 24 16 | 2 3 24 0 16 2 | 3 16 N 2
the parent of a directory of a level above | 22 12 0 0 2 16 | 13 3 22 0 16 13 | 3 16 M1 13
the text of a directory | 24 27 | 10083 3 24 0 27 10083 | 3 27 N 10083
";

/// Attributes.
const ATTRIBUTES: &str = "
all of the root | 24 9 ALL | 0 3 24 0 9 0 ALL 232 ALL 2 0 0 1 0 3 1 1 0 0 0 0 0 1 90 0 12 0 0 1 0 1 \
493 2 6 'nobody' 0x0000 6 'nobody' 0x0000 0 67108864 0 0 0 0 0 0 0 0 0 0 0 0 1 SETTABLE 101 1 6 0x000000010000 0x0000
none | 24 9 0 | 0 3 24 0 9 0 0 0
one that there isn't, and in words that are zero | 24 9 3 0x00001000 0 0 | 0 3 24 0 9 0 0 0
the type of a directory of a level above | 22 12 0 0 2 9 1 2 | 0 3 22 0 9 0 1 2 4 2
its size | 22 12 0 0 2 9 1 0x00000010 | 13 3 22 0 9 13 | 3 9 M1 13
its label | 22 12 0 0 2 9 3 0 0 0x00010000 | 0 3 22 0 9 0 3 0 0 0x00010000 24 101 1 10 0x00000001010180000000 0x0000
no handle | 9 1 2 | 10020 2 9 10020 | 2 9 N 10020
the same | 24 37 1 2 4 2 | 0 3 24 0 37 0
not the same | 24 37 1 2 4 1 | 10027 3 24 0 37 10027 | 3 37 N 10027
the same where they are to differ | 24 17 1 2 4 2 | 10009 3 24 0 17 10009 | 3 17 N 10009
not the same where they are to differ | 24 17 1 2 4 1 | 0 3 24 0 17 0
one that there isn't, before the handle | 37 1 0x00001000 0 | 10032 2 37 10032 | 2 37 A 10032
one that can't be compared, before the handle | 17 1 0x00000800 4 0 | 22 2 17 22 | 2 17 A 22
the size of a directory of a level above | 22 12 0 0 2 37 1 0x00000010 8 0 0 | 13 3 22 0 37 13 | 3 37 M1 13
its fileid | 22 12 0 0 2 37 1 0x00100000 8 0 2 | 0 3 22 0 37 0
pad bytes of zero | 24 37 2 0 0x00000010 12 6 'nobody' 0x0000 | 0 3 24 0 37 0
pad bytes of another value | 24 37 2 0 0x00000010 12 6 'nobody' 0x0001 | 10027 3 24 0 37 10027 | 3 37 N 10027
a list that goes on | 24 17 1 2 8 2 0 | 0 3 24 0 17 0
access of the root | 24 3 0xffffffff | 0 3 24 0 3 0 63 63
access to a directory of a level above | 22 12 0 0 2 3 63 | 0 3 22 0 3 0 63 0
access of no bit that is told of | 24 3 64 | 0 3 24 0 3 0 0 0
access of some bits | 24 3 0x0000002a | 0 3 24 0 3 0 42 42
";

/// Listings. Behind the cookie and the verifier stand dircount, maxcount and the attributes.
const LISTINGS: &str = "
type and size of directories above | 24 26 0 0 0 0 0 1000 1 0x00000012 | 13 3 24 0 26 13 | 3 26 M1 13
type, size and error | 24 26 0 0 0 0 0 1000 1 0x00000812 | 0 3 24 0 26 0 0 0 \
1 0 3 3 'one' 0x00 1 0x00000802 8 2 13 1 0 4 3 'two' 0x00 1 0x00000802 8 2 13 1 0 5 3 'top' 0x00 1 0x00000802 8 2 13 0 1
error alone | 24 26 0 4 0 0 0 1000 1 0x00000800 | 0 3 24 0 26 0 0 0 1 0 5 3 'top' 0x00 1 0x00000800 4 0 0 1
type and label | 24 26 0 0 7 7 0 1000 3 2 0 0x00010000 | 0 3 24 0 26 0 0 0 \
1 0 3 3 'one' 0x00 3 2 0 0x00010000 28 2 101 1 10 0x00000001010180000000 0x0000 \
1 0 4 3 'two' 0x00 3 2 0 0x00010000 28 2 101 1 10 0x00000001010140000000 0x0000 \
1 0 5 3 'top' 0x00 3 2 0 0x00010000 28 2 101 1 10 0x000000010103e4000000 0x0000 0 1
names in pieces of 72 bytes | 24 26 0 0 0 0 0 72 0 26 0 4 0 0 0 72 0 | 0 4 24 0 \
26 0 0 0 1 0 3 3 'one' 0x00 0 0 1 0 4 3 'two' 0x00 0 0 0 0 26 0 0 0 1 0 5 3 'top' 0x00 0 0 0 1
names behind the cookie 2 | 24 26 0 2 0 0 0 44 0 | 0 3 24 0 26 0 0 0 1 0 3 3 'one' 0x00 0 0 0 0
no name that fits | 24 26 0 0 0 0 0 43 0 | 10005 3 24 0 26 10005 | 3 26 N 10005
no name that is left | 24 26 0 5 0 0 0 16 0 | 0 3 24 0 26 0 0 0 0 1
no name that is left, and no room | 24 26 0 5 0 0 0 15 0 | 10005 3 24 0 26 10005 | 3 26 N 10005
a name that may not be shown, and no room | 24 26 0 0 0 0 0 0 1 0x00000010 | 13 3 24 0 26 13 | 3 26 M1 13
a directory of a level above | 22 12 0 0 2 26 0 0 0 0 0 1000 0 | 13 3 22 0 26 13 | 3 26 M1 13
";

#[test]
fn handles_and_names(rt: HostRuntime) -> Result<(), Flaw> {
    check_operations(&rt, rt.alloc(), HANDLES, 12)?;
    check_operations(&rt, rt.alloc(), NAMES, 13)
}

#[test]
fn attributes_and_listings(rt: HostRuntime) -> Result<(), Flaw> {
    check_operations(&rt, rt.alloc(), ATTRIBUTES, 22)?;
    check_operations(&rt, rt.alloc(), LISTINGS, 11)
}

/// In a table: a name, what is recorded, the replies, and the lines of the audit stream.
const LEVELS: &str = "
the parent of a directory, and what isn't there, of level 1 and of level 2 | \
OPEN_1 / @1 CALL SYS_100 0 2 4 SEQUENCE_1 1 0 0 1 22 12 0 0 2 16 10 / \
@1 CALL SYS_100 0 2 3 SEQUENCE_1 2 0 0 1 22 12 0 0 3 15 1 'a' 0x000000 / \
OPEN_2 / @1 CALL SYS_200 0 2 2 SEQUENCE_2 1 0 0 1 22 12 1 0 9 / @1 CALL SYS_200 0 2 2 SEQUENCE_2 2 0 0 1 22 12 2 0 1 | \
OPENED_1 / ACCEPTED 0 0 0 4 SEQUENCED_1 1 0 SLOTS 22 0 16 0 10 0 12 0 0 1 / \
ACCEPTED 0 13 0 3 SEQUENCED_1 2 0 SLOTS 22 0 15 13 / \
OPENED_2 / ACCEPTED 0 70 0 2 SEQUENCED_2 1 0 SLOTS 22 70 / ACCEPTED 0 70 0 2 SEQUENCED_2 2 0 SLOTS 22 70 | \
4 3 15 M1 13 | 7 2 22 M8 70 | 8 2 22 N 70
access of the root and of a directory, of level 3 and of level 1 | \
OPEN_3 / @1 CALL SYS_300 0 2 5 SEQUENCE_3 1 0 0 1 24 3 63 15 3 'top' 0x00 3 63 / \
OPEN_1 / @1 CALL SYS_100 0 2 5 SEQUENCE_1 1 0 0 1 24 3 63 15 3 'one' 0x00 3 63 | \
OPENED_3 / ACCEPTED 0 0 0 5 SEQUENCED_3 1 0 SLOTS 24 0 3 0 63 35 15 0 3 0 63 63 / \
OPENED_1 / ACCEPTED 0 0 0 5 SEQUENCED_1 1 0 SLOTS 24 0 3 0 63 35 15 0 3 0 63 63
sizes, read from above, and from beside | \
OPEN_3 / @1 CALL SYS_300 0 2 3 SEQUENCE_3 1 0 0 1 24 26 0 4 0 0 0 1000 1 0x00000812 / \
OPEN_1 / @1 CALL SYS_100 0 2 3 SEQUENCE_1 1 0 0 1 24 26 0 0 0 0 0 1000 1 0x00000812 | \
OPENED_3 / ACCEPTED 0 0 0 3 SEQUENCED_3 1 0 SLOTS 24 0 26 0 0 0 1 0 5 3 'top' 0x00 1 0x00000812 16 2 0 0 0 0 1 / \
OPENED_1 / ACCEPTED 0 0 0 3 SEQUENCED_1 1 0 SLOTS 24 0 26 0 0 0 1 0 3 3 'one' 0x00 1 0x00000812 16 2 0 0 0 \
1 0 4 3 'two' 0x00 1 0x00000802 8 2 13 1 0 5 3 'top' 0x00 1 0x00000802 8 2 13 0 1
the time of access, which listings from above leave | \
OPEN_3 / @1 CALL SYS_300 0 2 3 SEQUENCE_3 1 0 0 1 24 26 0 4 0 0 0 1000 0 / \
CALL SYS EXCHANGE 'c1' REST / CALL SYS CREATE 0 1 1 0 CHANNEL CHANNEL 0 0 / \
CALL SYS 0 2 3 SEQUENCE 1 0 0 1 24 9 2 0 0x00108000 / CALL SYS 0 2 3 SEQUENCE 2 0 0 1 24 26 0 4 0 0 0 1000 0 / \
CALL SYS 0 2 3 SEQUENCE 3 0 0 1 24 9 2 0 0x00108000 | \
OPENED_3 / ACCEPTED 0 0 0 3 SEQUENCED_3 1 0 SLOTS 24 0 26 0 0 0 1 0 5 3 'top' 0x00 0 0 0 1 / \
EXCHANGED 0 1 SERVER / CREATED 0 0 1 0 1 0 CHANNEL CHANNEL / \
ACCEPTED 0 0 0 3 SEQUENCED 1 0 SLOTS 24 0 9 0 2 0 0x00108000 24 0 0 0 0 0 0 / \
ACCEPTED 0 0 0 3 SEQUENCED 2 0 SLOTS 24 0 26 0 0 0 1 0 5 3 'top' 0x00 0 0 0 1 / \
ACCEPTED 0 0 0 3 SEQUENCED 3 0 SLOTS 24 0 9 0 2 0 0x00108000 24 0 100 0 0 0 0
all attributes of a directory of level 3, by each level | \
CALL SYS EXCHANGE 'c1' REST / CALL SYS CREATE 0 1 1 0 CHANNEL CHANNEL 0 0 / OPEN_1 / OPEN_2 / OPEN_3 / \
CALL SYS 0 2 4 SEQUENCE 1 0 0 1 24 15 3 'top' 0x00 9 ALL / @1 CALL SYS_100 0 2 4 SEQUENCE_1 1 0 0 1 24 15 3 'top' 0x00 9 ALL / \
@1 CALL SYS_200 0 2 4 SEQUENCE_2 1 0 0 1 24 15 3 'top' 0x00 9 ALL / @1 CALL SYS_300 0 2 4 SEQUENCE_3 1 0 0 1 24 15 3 'top' 0x00 9 ALL | \
EXCHANGED 0 1 SERVER / CREATED 0 0 1 0 1 0 CHANNEL CHANNEL / OPENED_1 / OPENED_2 / OPENED_3 / \
ACCEPTED 0 13 0 4 SEQUENCED 1 0 SLOTS 24 0 15 0 9 13 / ACCEPTED 0 13 0 4 SEQUENCED_1 1 0 SLOTS 24 0 15 0 9 13 / \
ACCEPTED 0 13 0 4 SEQUENCED_2 1 0 SLOTS 24 0 15 0 9 13 / \
ACCEPTED 0 0 0 4 SEQUENCED_3 1 0 SLOTS 24 0 15 0 9 0 ALL 236 ALL 2 0 0 1 0 0 1 1 0 0 0 0 0 1 90 0 12 0 0 4 0 4 \
493 2 6 'nobody' 0x0000 6 'nobody' 0x0000 0 67108864 0 0 0 0 0 0 0 0 0 0 0 0 4 SETTABLE 101 1 10 0x000000010103e4000000 0x0000 | \
9 4 9 M1 13 | 10 4 9 M1 13 | 11 4 9 M1 13
";

#[test]
fn each_level(rt: HostRuntime) -> Result<(), Flaw> {
    let rows = rows_of(rt.alloc(), LEVELS)?;
    assert_eq!(rt; rows.len(), 5, "rows");
    for row in &rows {
        check_row(&rt, rt.alloc(), &with_clients(rt.alloc(), row)?)?;
    }
    Ok(())
}

/// The row of a tag of 1,024 bytes in a session of the least responses: of what it leaves GETATTR would need more.
fn long_tag(alloc: Global) -> Result<String, AllocError> {
    let tag = "61".repeat(alloc, 1024)?;
    format!(in alloc;
        "a tag that leaves no room for attributes | CALL SYS EXCHANGE 'c1' REST / \
CALL SYS CREATE 0 1 1 0 0 65536 2048 65536 32 16 0 CHANNEL 0 0 / \
CALL SYS 1024 0x{tag} 2 3 SEQUENCE 1 0 0 1 24 9 1 2 | \
EXCHANGED 0 1 SERVER / CREATED 0 0 1 0 1 0 0 65536 2048 2048 32 16 0 CHANNEL / \
ACCEPTED 0 10066 1024 0x{tag} 3 SEQUENCED 1 0 SLOTS 24 0 9 10066 | 3 3 9 R 10066"
    )
}

/// The row of a name of 256 bytes, and of one of 255.
fn long_names(alloc: Global) -> Result<String, AllocError> {
    let name = "61".repeat(alloc, 256)?;
    let shorter = "61".repeat(alloc, 255)?;
    format!(in alloc;
        "long names | CALL SYS 0 2 3 SEQUENCE 1 0 0 1 24 15 256 0x{name} / \
CALL SYS 0 2 3 SEQUENCE 2 0 0 1 24 15 255 0x{shorter} 0x00 | \
ACCEPTED 0 63 0 3 SEQUENCED 1 0 SLOTS 24 0 15 63 / ACCEPTED 0 2 0 3 SEQUENCED 2 0 SLOTS 24 0 15 2 | \
3 3 15 A 63 | 4 3 15 N 2"
    )
}

/// Operations that stand first in their COMPOUND, in a table of requests, replies and lines.
const FIRST: &str = "
GETATTR and PUTFH first | CALL SYS 0 2 1 9 1 2 / CALL SYS 0 2 2 22 12 0 0 1 9 1 2 | \
ACCEPTED 0 10071 0 1 9 10071 / ACCEPTED 0 10071 0 1 22 10071 | 1 1 9 S 10071 | 2 1 22 S 10071
";

#[test]
fn room_and_place(rt: HostRuntime) -> Result<(), Flaw> {
    check_row(&rt, rt.alloc(), &long_tag(rt.alloc())?)?;
    check_opened(&rt, rt.alloc(), &long_names(rt.alloc())?, 1)?;
    check(&rt, rt.alloc(), FIRST, 1)
}
