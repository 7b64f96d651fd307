//! Files in recordings, by a client of level 0: their opens, state ids, data and sizes. All are laid out by hand, in
//! words, from RFC 8881 sections 8.2 (state ids), 9.7 (share reservations), 18.2 (CLOSE), 18.3 (COMMIT), 18.16 (OPEN),
//! 18.22 (READ), 18.30 (SETATTR) and 18.32 (WRITE).
//!
//! Of the operations' numbers, 4 is CLOSE, 5 COMMIT, 9 GETATTR, 10 GETFH, 18 OPEN, 22 PUTFH, 24 PUTROOTFH, 25 READ, 34
//! SETATTR and 38 WRITE. An OPEN goes on with a sequence that isn't looked at, what it is for, and what it denies: 1 is
//! reading, 2 writing. Of the attributes' bits, 8 is change, 16 size, and in the second word 2 mode.
//!
//! The root is node 1 of level 0; its change number is 1. The first node that level 0 makes is 5, and its first open 1.
use lnfs_test_support::flaw::Flaw;
use lnfs_test_support::operations::check_operations;
use lnfs_test_support::sessions::check_opened;
use std::alloc::{AllocError, Global};

/// In each of these tables: a name; the operations behind a SEQUENCE; the status of the COMPOUND, the count of its
/// results and the results behind that of SEQUENCE; and the line of the audit stream, without the event's place.
///
/// OPEN.
const OPENED: &str = "
a mode | 24 18 0 3 0 BY_O 1 0 2 0 2 4 448 CALLED_F 10 9 2 26 10 | \
0 5 24 0 18 0 ID_1 1 0 1 0 2 4 2 0 2 0 10 0 12 0 0 5 9 0 2 26 10 28 1 0 1 0 0 448 1
a size of 0, guarded | 24 18 0 2 0 BY_O 1 1 1 16 8 0 0 CALLED_F 10 | 0 4 24 0 18 0 ID_1 1 0 1 0 2 4 1 16 0 10 0 12 0 0 5
made by a verifier, and found by it | 24 18 0 1 0 BY_O SOLE CALLED_F 24 18 0 1 0 BY_P SOLE CALLED_F 10 | \
0 6 24 0 MADE_F 24 0 18 0 1 0 0 2 KEPT 10 0 12 0 0 5
found by its verifier, and cut | \
24 18 0 3 0 BY_O SOLE CALLED_F SIX 24 18 0 2 0 BY_O 1 3 7 9 1 16 8 0 0 CALLED_F 9 1 24 | \
0 7 24 0 MADE_F WROTE_6 24 0 18 0 2 0 0 1 1 0 2 0 2 4 1 16 0 9 0 1 24 16 0 3 0 0
its own label, in another format | 24 18 0 1 0 BY_O 1 0 3 0 0 65536 16 103 0 4 'open' CALLED_F 9 LABELLED | \
0 4 24 0 18 0 ID_1 1 0 1 0 2 4 LABELLED 0 9 0 LABEL_0
once more by its owner, by the name and by the handle | \
24 18 0 1 0 BY_O PLAIN CALLED_F 24 18 0 2 2 BY_O 0 CALLED_F 18 0 1 0 BY_O 0 4 38 3 0 0 1 0 0 2 0 25 3 0 0 1 0 0 1 | \
0 8 24 0 MADE_F 24 0 18 0 2 0 0 1 KEPT 18 0 3 0 0 1 HELD 38 0 0 2 0 0 25 0 1 0
one that is there keeps its data and its mode | \
24 MAKE_F SIX 24 18 0 1 0 BY_P 1 0 2 0 2 4 448 CALLED_F 9 2 24 2 | \
0 7 24 0 MADE_F WROTE_6 24 0 18 0 1 0 0 2 KEPT 9 0 2 24 2 20 0 2 0 6 420
one that is there is cut, and keeps its mode | \
24 MAKE_F SIX 24 18 0 2 0 BY_P 1 0 2 16 2 12 0 0 448 CALLED_F 9 2 24 2 | \
0 7 24 0 MADE_F WROTE_6 24 0 18 0 1 0 0 2 1 0 2 0 2 4 1 16 0 9 0 2 24 2 20 0 3 0 0 420
bits that want delegations, beside that of reading | 24 18 0 0x00000401 0 BY_O PLAIN CALLED_F 38 ID_1 0 0 2 0 | \
10038 4 24 0 MADE_F 38 10038 | 4 38 O 10038
a sequence and a client id that aren't looked at | 24 18 7 3 0 9 9 1 'o' 0x000000 PLAIN CALLED_F | 0 3 24 0 MADE_F
closed, and opened again | 24 MAKE_F 4 0 ID_1 18 0 3 3 BY_P 0 4 4 9 0 0 0 2 | \
0 6 24 0 MADE_F 4 0 CLOSED 18 0 1 0 0 2 HELD 4 0 CLOSED
more access, under which is written, and which ends with the open | \
24 18 0 1 0 BY_O PLAIN CALLED_F 18 0 2 2 BY_O 0 4 38 2 0 0 1 0 0 2 4 'abcd' 25 2 0 0 1 0 0 4 4 0 2 0 0 1 18 0 3 3 BY_P 0 4 | \
0 8 24 0 MADE_F 18 0 2 0 0 1 HELD 38 0 4 2 0 0 25 0 1 4 'abcd' 4 0 CLOSED 18 0 1 0 0 2 HELD
more access, which another denies | \
24 18 0 1 0 BY_O PLAIN CALLED_F 18 0 1 2 BY_P 0 4 18 0 2 0 BY_O 0 4 | \
10015 5 24 0 MADE_F 18 0 1 0 0 2 HELD 18 10015 | 5 18 O 10015
more that is denied, which another has | \
24 18 0 1 0 BY_O PLAIN CALLED_F 18 0 1 0 BY_P 0 4 18 0 1 1 BY_O 0 4 | \
10015 5 24 0 MADE_F 18 0 1 0 0 2 HELD 18 10015 | 5 18 O 10015
";

/// Arguments of OPEN. Each refusal stands before that of the next rows.
const ARGUMENTS: &str = "
for nothing, before a bad name | 24 18 0 4 0 BY_O 0 0 1 0x2f000000 | 22 3 24 0 18 22 | 3 18 A 22
4 that is denied, before a bad name | 24 18 0 1 4 BY_O 0 0 1 0x2f000000 | 22 3 24 0 18 22 | 3 18 A 22
a handle that is to be made, before a bad attribute | 18 0 1 0 BY_O 1 0 1 0x00001000 0 4 | 22 2 18 22 | 2 18 A 22
a size, for reading, before a bad name | 24 18 0 1 0 BY_O SIZED 0 1 0x2f000000 | 22 3 24 0 18 22 | 3 18 A 22
a slash, before a bad attribute | 18 0 1 0 BY_O 1 0 1 0x00001000 0 0 1 0x2f000000 | 10040 2 18 10040 | 2 18 A 10040
no name | 24 18 0 1 0 BY_O 0 0 0 | 22 3 24 0 18 22 | 3 18 A 22
bytes that are no text | 24 18 0 1 0 BY_O 0 0 1 0xff000000 | 22 3 24 0 18 22 | 3 18 A 22
a dot | 24 18 0 1 0 BY_O 0 0 1 '.' 0x000000 | 10041 3 24 0 18 10041 | 3 18 A 10041
two dots | 24 18 0 1 0 BY_O PLAIN 0 2 '..' 0x0000 | 10041 3 24 0 18 10041 | 3 18 A 10041
an attribute that there isn't, before the handle | 18 0 1 0 BY_O 1 0 1 0x00001000 0 CALLED_F | 10032 2 18 10032 | 2 18 A 10032
the same beside a verifier | 18 0 1 0 BY_O 1 3 7 9 1 0x00001000 0 CALLED_F | 10032 2 18 10032 | 2 18 A 10032
one that can't be set | 18 0 1 0 BY_O 1 1 2 0 0x00200000 0 CALLED_F | 22 2 18 22 | 2 18 A 22
a list that ends early | 24 18 0 1 0 BY_O 1 0 2 0 2 0 CALLED_F | 10036 3 24 0 18 10036 | 3 18 A 10036
a size that isn't 0 | 24 18 0 2 0 BY_O 1 0 1 16 8 0 1 CALLED_F | 22 3 24 0 18 22 | 3 18 A 22
the same, before a bad label | 24 18 0 2 0 BY_O 1 0 3 16 0 65536 24 0 1 999 0 1 0x78000000 CALLED_F | 22 3 24 0 18 22 | 3 18 A 22
a mode of 13 bits | 24 18 0 1 0 BY_O 1 0 2 0 2 4 4096 CALLED_F | 22 3 24 0 18 22 | 3 18 A 22
a label of no format | 18 0 1 0 BY_O 1 0 3 0 0 65536 16 999 0 1 0x78000000 CALLED_F | 10092 2 18 10092 | 2 18 A 10092
bytes that are no label | 18 0 1 0 BY_O 1 0 3 0 0 65536 16 101 1 1 0x78000000 CALLED_F | 10093 2 18 10093 | 2 18 A 10093
no handle | 18 0 1 0 BY_O PLAIN CALLED_F | 10020 2 18 10020 | 2 18 N 10020
no handle to claim | 18 0 1 0 BY_O 0 4 | 10020 2 18 10020 | 2 18 N 10020
a claim of what was open before | 24 18 0 1 0 BY_O 0 1 0 | 10004 3 24 0 18 10004 | 3 18 X 10004
a verifier without attributes | 24 18 0 1 0 BY_O 1 2 7 9 CALLED_F | 10004 3 24 0 18 10004 | 3 18 X 10004
a way to make files that there isn't | 24 18 0 1 0 BY_O 1 4 0 | 22 3 24 0 18 22 | 3 18 X 22
a way to open that there isn't | 24 18 0 1 0 BY_O 2 0 | 22 3 24 0 18 22 | 3 18 X 22
";

/// What OPEN finds.
const FOUND: &str = "
no such name | 24 18 0 1 0 BY_O 0 CALLED_F | 2 3 24 0 18 2 | 3 18 N 2
a name in a file | 24 MAKE_F 18 0 1 0 BY_O PLAIN CALLED_F | 20 4 24 0 MADE_F 18 20 | 4 18 N 20
a name in a link | 24 6 5 1 'x' 0x000000 1 'l' 0x000000 0 0 18 0 1 0 BY_O 0 CALLED_F | \
20 4 24 0 6 0 1 0 1 0 2 0 18 20 | 4 18 N 20
a name in a directory of level 1 | ONE 18 0 1 0 BY_O PLAIN CALLED_F | 13 3 22 0 18 13 | 3 18 M1 13
a directory of level 1, guarded | 24 18 0 3 3 BY_O GUARDED 0 3 'one' 0x00 | 21 3 24 0 18 21 | 3 18 N 21
the handle of a directory | 24 18 0 1 0 BY_O 0 4 | 21 3 24 0 18 21 | 3 18 N 21
a link, guarded | 24 6 5 1 'x' 0x000000 1 'l' 0x000000 0 0 24 18 0 1 0 BY_O GUARDED 0 1 'l' 0x000000 | \
10029 5 24 0 6 0 1 0 1 0 2 0 24 0 18 10029 | 5 18 N 10029
the handle of a link | 24 6 5 1 'x' 0x000000 1 'l' 0x000000 0 0 18 0 1 0 BY_O 0 4 | \
10029 4 24 0 6 0 1 0 1 0 2 0 18 10029 | 4 18 N 10029
a file, guarded | 24 MAKE_F 24 18 0 1 0 BY_O GUARDED CALLED_F | 17 5 24 0 MADE_F 24 0 18 17 | 5 18 N 17
a file of another verifier | 24 18 0 1 0 BY_O SOLE CALLED_F 24 18 0 1 0 BY_O 1 3 7 8 0 0 CALLED_F | \
17 5 24 0 MADE_F 24 0 18 17 | 5 18 N 17
a file without a verifier | 24 MAKE_F 24 18 0 1 0 BY_O 1 3 0 0 0 0 CALLED_F | 17 5 24 0 MADE_F 24 0 18 17 | 5 18 N 17
a file of level 1, guarded | 24 MAKE_F 34 ANON LABEL_1 24 18 0 3 3 BY_P GUARDED CALLED_F | \
17 6 24 0 MADE_F 34 0 LABELLED 24 0 18 17 | 6 18 N 17
a file of level 1, for reading and writing | 24 MAKE_F 34 ANON LABEL_1 24 18 0 3 3 BY_P SIZED CALLED_F | \
13 6 24 0 MADE_F 34 0 LABELLED 24 0 18 13 | 6 18 M1 13
a file of level 1, for writing | 24 MAKE_F 34 ANON LABEL_1 18 0 2 3 BY_P 0 4 | \
13 5 24 0 MADE_F 34 0 LABELLED 18 13 | 5 18 M2 13
a label of level 1, for reading and writing | 24 18 0 3 3 BY_O 1 0 LABEL_1 CALLED_F | 13 3 24 0 18 13 | 3 18 M1 13
a label of level 1, for writing | 24 18 0 2 3 BY_O 1 1 LABEL_1 CALLED_F | 13 3 24 0 18 13 | 3 18 M2 13
a file that another denies | 24 18 0 1 1 BY_O PLAIN CALLED_F 24 18 0 1 0 BY_P 0 CALLED_F | \
10015 5 24 0 MADE_F 24 0 18 10015 | 5 18 O 10015
a file that another denies, guarded | 24 18 0 1 3 BY_O PLAIN CALLED_F 24 18 0 1 0 BY_P GUARDED CALLED_F | \
17 5 24 0 MADE_F 24 0 18 17 | 5 18 N 17
";

#[test]
fn opens(rt: HostRuntime) -> Result<(), Flaw> {
    check_operations(&rt, rt.alloc(), OPENED, 14)?;
    check_operations(&rt, rt.alloc(), ARGUMENTS, 24)?;
    check_operations(&rt, rt.alloc(), FOUND, 18)
}

/// State ids with a meaning of their own. With each, READ, WRITE, SETATTR of a size, and CLOSE.
const SPECIAL: &str = "
of no open, where nothing is denied | 24 MAKE_F 38 ANON 0 0 2 4 'abcd' 25 ANON 0 0 4 34 ANON SIZE 2 | \
0 6 24 0 MADE_F 38 0 4 2 0 0 25 0 1 4 'abcd' 34 0 1 16
of no open, where reading is denied | \
24 18 0 3 1 BY_O PLAIN CALLED_F 38 ANON 0 0 2 4 'abcd' 34 ANON SIZE 2 25 ANON 0 0 4 | \
10012 6 24 0 MADE_F 38 0 4 2 0 0 34 0 1 16 25 10012 | 6 25 O 10012
of no open, where writing is denied | 24 18 0 3 2 BY_O PLAIN CALLED_F 25 ANON 0 0 4 38 ANON 0 0 2 4 'abcd' | \
10012 5 24 0 MADE_F 25 0 1 0 38 10012 | 5 38 O 10012
of no open, where a size is denied | 24 18 0 3 2 BY_O PLAIN CALLED_F 34 ANON SIZE 2 | \
10012 4 24 0 MADE_F 34 10012 0 | 4 34 O 10012
of no open, with no bytes | 24 18 0 3 2 BY_O PLAIN CALLED_F 38 ANON 0 0 2 0 | \
10012 4 24 0 MADE_F 38 10012 | 4 38 O 10012
past what is denied, reading | 24 18 0 3 3 BY_O PLAIN CALLED_F 25 BYPASS 0 0 4 | 0 4 24 0 MADE_F 25 0 1 0
past what is denied, writing | 24 18 0 3 2 BY_O PLAIN CALLED_F 38 BYPASS 0 0 2 4 'abcd' | \
10012 4 24 0 MADE_F 38 10012 | 4 38 O 10012
past what is denied, a size | 24 18 0 3 2 BY_O PLAIN CALLED_F 34 BYPASS SIZE 2 | \
10012 4 24 0 MADE_F 34 10012 0 | 4 34 O 10012
past what is denied, where that is reading | \
24 18 0 3 1 BY_O PLAIN CALLED_F 38 BYPASS 0 0 2 4 'abcd' 34 BYPASS SIZE 2 25 BYPASS 0 0 4 | \
0 6 24 0 MADE_F 38 0 4 2 0 0 34 0 1 16 25 0 1 2 'ab' 0x0000
that of the COMPOUND, reading | 24 MAKE_F 25 CURRENT 0 0 4 | 10025 4 24 0 MADE_F 25 10025 | 4 25 O 10025
that of the COMPOUND, writing | 24 MAKE_F 38 CURRENT 0 0 2 0 | 10025 4 24 0 MADE_F 38 10025 | 4 38 O 10025
that of the COMPOUND, a size | 24 MAKE_F 34 CURRENT SIZE 16777217 | 10025 4 24 0 MADE_F 34 10025 0 | 4 34 O 10025
of no open, to be closed | 24 MAKE_F 4 0 ANON | 10025 4 24 0 MADE_F 4 10025 | 4 4 O 10025
past what is denied, to be closed | 24 MAKE_F 4 0 BYPASS | 10025 4 24 0 MADE_F 4 10025 | 4 4 O 10025
that of the COMPOUND, to be closed | 24 MAKE_F 4 0 CURRENT | 10025 4 24 0 MADE_F 4 10025 | 4 4 O 10025
one to be closed, without a handle | 4 0 ANON | 10020 2 4 10020 | 2 4 N 10020
";

/// State ids of opens, and such as look like them.
const ORDINARY: &str = "
of the sequence 0 | 24 MAKE_F 38 0 0 0 1 0 0 2 4 'abcd' 25 0 0 0 1 0 0 4 34 0 0 0 1 SIZE 2 4 0 0 0 0 1 | \
0 7 24 0 MADE_F 38 0 4 2 0 0 25 0 1 4 'abcd' 34 0 1 16 4 0 CLOSED
of the next sequence, reading | 24 MAKE_F 25 2 0 0 1 0 0 4 | 10025 4 24 0 MADE_F 25 10025 | 4 25 O 10025
of the next sequence, writing | 24 MAKE_F 38 2 0 0 1 0 0 2 0 | 10025 4 24 0 MADE_F 38 10025 | 4 38 O 10025
of the next sequence, a size | 24 MAKE_F 34 2 0 0 1 SIZE 2 | 10025 4 24 0 MADE_F 34 10025 0 | 4 34 O 10025
of the next sequence, to be closed | 24 MAKE_F 4 0 2 0 0 1 | 10025 4 24 0 MADE_F 4 10025 | 4 4 O 10025
of an old sequence, reading | 24 MAKE_F 18 0 1 0 BY_O 0 4 25 ID_1 0 0 4 | \
10024 5 24 0 MADE_F 18 0 2 0 0 1 HELD 25 10024 | 5 25 O 10024
of an old sequence, writing | 24 MAKE_F 18 0 1 0 BY_O 0 4 38 ID_1 0 0 2 0 | \
10024 5 24 0 MADE_F 18 0 2 0 0 1 HELD 38 10024 | 5 38 O 10024
of an old sequence, a size | 24 MAKE_F 18 0 1 0 BY_O 0 4 34 ID_1 SIZE 2 | \
10024 5 24 0 MADE_F 18 0 2 0 0 1 HELD 34 10024 0 | 5 34 O 10024
of an old sequence, to be closed | 24 MAKE_F 18 0 1 0 BY_O 0 4 4 0 ID_1 | \
10024 5 24 0 MADE_F 18 0 2 0 0 1 HELD 4 10024 | 5 4 O 10024
of another level, reading | 24 MAKE_F 25 1 3 0 1 0 0 4 | 10025 4 24 0 MADE_F 25 10025 | 4 25 M9 10025
of another level, writing | 24 MAKE_F 38 1 3 0 1 0 0 2 0 | 10025 4 24 0 MADE_F 38 10025 | 4 38 M9 10025
of another level, a size | 24 MAKE_F 34 1 3 0 1 SIZE 2 | 10025 4 24 0 MADE_F 34 10025 0 | 4 34 M9 10025
of another level, to be closed | 24 MAKE_F 4 0 1 3 0 1 | 10025 4 24 0 MADE_F 4 10025 | 4 4 M9 10025
of a level that there isn't | 24 MAKE_F 25 1 4 0 1 0 0 4 | 10025 4 24 0 MADE_F 25 10025 | 4 25 M9 10025
ones, of the sequence 0 | 24 MAKE_F 25 0 0xffffffffffffffffffffffff 0 0 4 | \
10025 4 24 0 MADE_F 25 10025 | 4 25 M9 10025
zeros, of the sequence 2 | 24 MAKE_F 25 2 0 0 0 0 0 4 | 10025 4 24 0 MADE_F 25 10025 | 4 25 O 10025
of no open | 24 MAKE_F 25 1 0 0 2 0 0 4 | 10025 4 24 0 MADE_F 25 10025 | 4 25 O 10025
of a number of 33 bits | 24 MAKE_F 25 1 0 1 1 0 0 4 | 10025 4 24 0 MADE_F 25 10025 | 4 25 O 10025
of another file | 24 MAKE_F 24 18 0 3 0 BY_O PLAIN 0 1 'g' 0x000000 25 ID_1 0 0 4 | \
10025 6 24 0 MADE_F 24 0 18 0 1 0 0 2 1 0 2 0 3 4 0 0 25 10025 | 6 25 O 10025
of a directory | 24 MAKE_F 24 4 0 ID_1 | 10025 5 24 0 MADE_F 24 0 4 10025 | 5 4 O 10025
of an open that ended | 24 MAKE_F 4 0 ID_1 25 ID_1 0 0 4 | 10025 5 24 0 MADE_F 4 0 CLOSED 25 10025 | 5 25 O 10025
of an open that ended, to be closed | 24 MAKE_F 4 0 ID_1 4 0 ID_1 | 10025 5 24 0 MADE_F 4 0 CLOSED 4 10025 | 5 4 O 10025
for writing, reading | 24 18 0 2 0 BY_O PLAIN CALLED_F 25 ID_1 0 0 4 | 10038 4 24 0 MADE_F 25 10038 | 4 25 O 10038
for reading, writing | 24 18 0 1 0 BY_O PLAIN CALLED_F 38 ID_1 0 0 2 0 | 10038 4 24 0 MADE_F 38 10038 | 4 38 O 10038
for reading, a size | 24 18 0 1 0 BY_O PLAIN CALLED_F 34 ID_1 SIZE 2 | 10038 4 24 0 MADE_F 34 10038 0 | 4 34 O 10038
for writing, whose open denies all others | 24 18 0 2 3 BY_O PLAIN CALLED_F 34 ID_1 SIZE 2 38 ID_1 0 0 2 4 'abcd' | \
0 5 24 0 MADE_F 34 0 1 16 38 0 4 2 0 0
";

#[test]
fn state_ids(rt: HostRuntime) -> Result<(), Flaw> {
    check_operations(&rt, rt.alloc(), SPECIAL, 16)?;
    check_operations(&rt, rt.alloc(), ORDINARY, 26)
}

/// READ, WRITE and COMMIT.
const DATA: &str = "
pieces | 24 MAKE_F SIX 25 ID_1 0 0 6 25 ID_1 0 0 5 25 ID_1 0 1 2 25 ID_1 0 4 9 25 ID_1 0 6 1 25 ID_1 0 7 1 \
25 ID_1 0xffffffffffffffff 4 25 ID_1 0 0 0 25 ID_1 0 6 0 25 ID_1 0 0 0xffffffff | \
0 14 24 0 MADE_F WROTE_6 25 0 1 6 'abcdef' 0x0000 25 0 0 5 'abcde' 0x000000 25 0 0 2 'bc' 0x0000 25 0 1 2 'ef' 0x0000 \
25 0 1 0 25 0 1 0 25 0 1 0 25 0 0 0 25 0 1 0 25 0 1 6 'abcdef' 0x0000
READ of a directory | 24 25 CURRENT 0 0 1 | 21 3 24 0 25 21 | 3 25 N 21
READ of a directory of level 1 | ONE 25 CURRENT 0 0 1 | 21 3 22 0 25 21 | 3 25 N 21
READ of a link | 24 6 5 1 'x' 0x000000 1 'l' 0x000000 0 0 25 CURRENT 0 0 1 | \
10029 4 24 0 6 0 1 0 1 0 2 0 25 10029 | 4 25 N 10029
READ of a file of level 1 | 24 MAKE_F 34 ANON LABEL_1 25 CURRENT 0 0 1 | \
13 5 24 0 MADE_F 34 0 LABELLED 25 13 | 5 25 M1 13
READ without a handle | 25 CURRENT 0 0 1 | 10020 2 25 10020 | 2 25 N 10020
READ of a file that is gone | 24 MAKE_F 32 24 28 1 'f' 0x000000 31 25 CURRENT 0 0 1 | \
70 8 24 0 MADE_F 32 0 24 0 28 0 1 0 2 0 3 31 0 25 70 | 8 25 N 70
each way to be stable | \
24 MAKE_F 38 ID_1 0 0 0 1 'a' 0x000000 38 ID_1 0 1 1 1 'b' 0x000000 38 ID_1 0 2 2 1 'c' 0x000000 25 ID_1 0 0 9 9 1 24 | \
0 8 24 0 MADE_F 38 0 1 2 0 0 38 0 1 2 0 0 38 0 1 2 0 0 25 0 1 3 'abc' 0x00 9 0 1 24 16 0 4 0 3
over data, and past its end | 24 MAKE_F SIX 38 ID_1 0 2 2 2 'XY' 0x0000 38 ID_1 0 5 2 3 'pqr' 0x00 25 ID_1 0 0 9 | \
0 7 24 0 MADE_F WROTE_6 38 0 2 2 0 0 38 0 3 2 0 0 25 0 1 8 'abXYepqr'
far past the end | 24 MAKE_F 38 ID_1 0 70000 2 2 'ab' 0x0000 25 ID_1 0 69996 8 25 ID_1 0 0 4 9 1 16 | \
0 7 24 0 MADE_F 38 0 2 2 0 0 25 0 1 6 0 'ab' 0x0000 25 0 0 4 0 9 0 1 16 8 0 70002
no bytes, past the greatest size | 24 MAKE_F 38 ID_1 0xffffffffffffffff 2 0 9 1 24 | \
0 5 24 0 MADE_F 38 0 0 2 0 0 9 0 1 24 16 0 1 0 0
the last byte of the greatest size | 24 MAKE_F 38 ID_1 0 16777215 2 1 'a' 0x000000 9 1 16 | \
0 5 24 0 MADE_F 38 0 1 2 0 0 9 0 1 16 8 0 16777216
a byte behind it | 24 MAKE_F 38 ID_1 0 16777216 2 1 'a' 0x000000 | 27 4 24 0 MADE_F 38 27 | 4 38 N 27
two bytes, one of them behind it | 24 MAKE_F 38 ID_1 0 16777215 2 2 'ab' 0x0000 | 27 4 24 0 MADE_F 38 27 | 4 38 N 27
a byte at the last offset | 24 MAKE_F 38 ID_1 0xffffffffffffffff 2 1 'a' 0x000000 | 27 4 24 0 MADE_F 38 27 | 4 38 N 27
a way to be stable that there isn't, before the handle | 38 CURRENT 0 0 3 0 | 22 2 38 22 | 2 38 A 22
WRITE to a directory | 24 38 CURRENT 0 0 2 0 | 21 3 24 0 38 21 | 3 38 N 21
WRITE to a directory of level 1 | ONE 38 CURRENT 0 0 2 0 | 21 3 22 0 38 21 | 3 38 N 21
WRITE to a link | 24 6 5 1 'x' 0x000000 1 'l' 0x000000 0 0 38 CURRENT 0 0 2 0 | \
10029 4 24 0 6 0 1 0 1 0 2 0 38 10029 | 4 38 N 10029
WRITE to a file of level 1 | 24 MAKE_F 34 ANON LABEL_1 38 CURRENT 0 16777216 2 1 'a' 0x000000 | \
13 5 24 0 MADE_F 34 0 LABELLED 38 13 | 5 38 M2 13
WRITE without a handle | 38 ANON 0 0 2 0 | 10020 2 38 10020 | 2 38 N 10020
COMMIT | 24 MAKE_F SIX 5 0 0 0 5 0xffffffffffffffff 0xffffffff | 0 6 24 0 MADE_F WROTE_6 5 0 0 0 5 0 0 0
COMMIT of a directory | 24 5 0 0 0 | 21 3 24 0 5 21 | 3 5 N 21
COMMIT of a link | 24 6 5 1 'x' 0x000000 1 'l' 0x000000 0 0 5 0 0 0 | 10029 4 24 0 6 0 1 0 1 0 2 0 5 10029 | 4 5 N 10029
COMMIT of a file of level 1 | 24 MAKE_F 34 ANON LABEL_1 5 0 0 0 | 13 5 24 0 MADE_F 34 0 LABELLED 5 13 | 5 5 M2 13
COMMIT without a handle | 5 0 0 0 | 10020 2 5 10020 | 2 5 N 10020
";

/// SETATTR of a size.
const SIZES: &str = "
cut, grown with zeros, and as it is | \
24 MAKE_F SIX 34 ID_1 SIZE 3 25 ID_1 0 0 9 34 ID_1 SIZE 6 25 ID_1 0 0 9 34 ID_1 SIZE 6 9 1 24 | \
0 10 24 0 MADE_F WROTE_6 34 0 1 16 25 0 1 3 'abc' 0x00 34 0 1 16 25 0 1 6 'abc' 0x0000000000 34 0 1 16 9 0 1 24 16 0 5 0 6
the greatest, and one more | 24 MAKE_F 34 ANON SIZE 16777216 9 1 16 34 ANON SIZE 16777217 | \
27 6 24 0 MADE_F 34 0 1 16 9 0 1 16 8 0 16777216 34 27 0 | 6 34 N 27
one of 33 bits | 24 MAKE_F 34 ID_1 1 16 8 1 0 | 27 4 24 0 MADE_F 34 27 0 | 4 34 N 27
with a mode | 24 MAKE_F 34 ANON 2 16 2 12 0 3 448 9 2 24 2 | 0 5 24 0 MADE_F 34 0 2 16 2 9 0 2 24 2 20 0 3 0 3 448
a mode alone, under a state id that isn't looked at | 24 MAKE_F 34 CURRENT 2 0 2 4 448 9 2 24 2 | \
0 5 24 0 MADE_F 34 0 2 0 2 9 0 2 24 2 20 0 2 0 0 448
of a directory of level 1 | ONE 34 CURRENT SIZE 0 | 21 3 22 0 34 21 0 | 3 34 N 21
of a file of level 1 | 24 MAKE_F 34 ANON LABEL_1 34 CURRENT SIZE 16777217 | \
13 5 24 0 MADE_F 34 0 LABELLED 34 13 0 | 5 34 M2 13
with a label, before the handle | 34 ANON 3 16 0 65536 32 0 0 101 1 10 0x00000001010180000000 0x0000 | \
22 2 34 22 0 | 2 34 A 22
without a handle | 34 ANON SIZE 0 | 10020 2 34 10020 0 | 2 34 N 10020
";

/// Files under other operations: 3 is ACCESS, 6 CREATE, 11 LINK, 15 LOOKUP, 16 LOOKUPP, 26 READDIR, 27 READLINK, 28 REMOVE,
/// 29 RENAME, 32 SAVEFH and 37 VERIFY.
const OTHERS: &str = "
all attributes | 24 MAKE_F 38 ID_1 0 0 2 4 'abcd' 9 ALL | 0 5 24 0 MADE_F 38 0 4 2 0 0 \
9 0 ALL 232 ALL 1 0 0 2 0 4 1 1 0 0 0 0 0 1 90 0 12 0 0 5 0 5 420 1 6 'nobody' 0x0000 6 'nobody' 0x0000 \
0 67108860 0 4 0 100 0 0 100 0 0 100 0 0 5 SETTABLE 101 1 6 0x000000010000 0x0000
access | 24 MAKE_F 3 63 | 0 4 24 0 MADE_F 3 0 63 63
a size that is compared | 24 MAKE_F SIX 37 1 16 8 0 6 37 1 16 8 0 5 | 10027 6 24 0 MADE_F WROTE_6 37 0 37 10027 | 6 37 N 10027
a name in it | 24 MAKE_F 15 1 'x' 0x000000 | 20 4 24 0 MADE_F 15 20 | 4 15 N 20
its parent | 24 MAKE_F 16 | 20 4 24 0 MADE_F 16 20 | 4 16 N 20
its names | 24 MAKE_F 26 0 0 0 0 0 1000 0 | 20 4 24 0 MADE_F 26 20 | 4 26 N 20
its text | 24 MAKE_F 27 | 10083 4 24 0 MADE_F 27 10083 | 4 27 N 10083
a directory in it | 24 MAKE_F 6 2 1 'd' 0x000000 0 0 | 20 4 24 0 MADE_F 6 20 | 4 6 N 20
a name of it that is removed | 24 MAKE_F 28 1 'x' 0x000000 | 20 4 24 0 MADE_F 28 20 | 4 28 N 20
its name in a listing | 24 MAKE_F SIX 24 26 0 5 0 0 0 1000 1 0x00000812 | \
0 6 24 0 MADE_F WROTE_6 24 0 26 0 0 0 1 0 6 1 'f' 0x000000 1 0x00000812 16 1 0 6 0 0 1
a second name | 24 MAKE_F 32 24 11 1 'm' 0x000000 15 1 'm' 0x000000 9 2 10 8 | \
0 8 24 0 MADE_F 32 0 24 0 11 0 1 0 2 0 3 15 0 9 0 2 10 8 16 1 0 2 2
a name over that of another, whose opens end | \
24 MAKE_F 24 18 0 3 3 BY_P PLAIN 0 1 'g' 0x000000 24 32 29 1 'f' 0x000000 1 'g' 0x000000 15 1 'g' 0x000000 10 18 0 3 3 BY_O 0 4 | \
0 11 24 0 MADE_F 24 0 18 0 1 0 0 2 1 0 2 0 3 4 0 0 24 0 32 0 29 0 1 0 3 0 4 1 0 3 0 4 15 0 10 0 12 0 0 5 18 0 2 0 0 1 HELD
a name over that of a directory | 24 MAKE_F 24 6 2 1 'd' 0x000000 0 0 24 32 29 1 'f' 0x000000 1 'd' 0x000000 | \
17 8 24 0 MADE_F 24 0 6 0 1 0 2 0 3 0 24 0 32 0 29 17 | 8 29 N 17
what it denies goes with its last name | \
24 18 0 1 3 BY_O PLAIN CALLED_F 24 28 1 'f' 0x000000 18 0 3 0 BY_P PLAIN CALLED_F 10 25 ID_1 0 0 1 | \
10025 8 24 0 MADE_F 24 0 28 0 1 0 2 0 3 18 0 1 0 0 2 1 0 3 0 4 4 0 0 10 0 12 0 0 6 25 10025 | 8 25 O 10025
what it denies stays with a name | \
24 18 0 1 1 BY_O PLAIN CALLED_F 32 24 11 1 'm' 0x000000 28 1 'f' 0x000000 18 0 1 0 BY_P 0 0 1 'm' 0x000000 | \
10015 8 24 0 MADE_F 32 0 24 0 11 0 1 0 2 0 3 28 0 1 0 3 0 4 18 10015 | 8 18 O 10015
";

/// The row of 40,000 bytes, of which a READ gives at most 32,768.
fn long_data(alloc: Global) -> Result<String, AllocError> {
    let most = "61".repeat(alloc, 32_768)?;
    let rest = "61".repeat(alloc, 7_232)?;
    format!(in alloc;
        "more than one READ gives | CALL SYS 0 2 6 SEQUENCE 1 0 0 1 24 MAKE_F 38 ID_1 0 0 2 40000 0x{most} 0x{rest} \
25 ID_1 0 0 40000 25 ID_1 0 32768 8000 | \
ACCEPTED 0 0 0 6 SEQUENCED 1 0 SLOTS 24 0 MADE_F 38 0 40000 2 0 0 25 0 0 32768 0x{most} 25 0 1 7232 0x{rest}"
    )
}

#[test]
fn contents(rt: HostRuntime) -> Result<(), Flaw> {
    check_operations(&rt, rt.alloc(), DATA, 26)?;
    check_operations(&rt, rt.alloc(), SIZES, 9)?;
    check_operations(&rt, rt.alloc(), OTHERS, 15)?;
    check_opened(&rt, rt.alloc(), &long_data(rt.alloc())?, 1)
}
