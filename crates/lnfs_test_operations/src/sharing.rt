//! Files in recordings, by several levels, clients and owners. All are laid out by hand, in words, from RFC 8881 sections
//! 2.10.6 (requests that come again), 9.7 (share reservations), 18.2 (CLOSE), 18.16 (OPEN), 18.22 (READ), 18.32 (WRITE),
//! 18.35 to 18.37, 18.50 and 18.51.
//!
//! Of the operations' numbers, 4 is CLOSE, 9 GETATTR, 10 GETFH, 15 LOOKUP, 18 OPEN, 22 PUTFH, 24 PUTROOTFH, 25 READ, 26
//! READDIR, 34 SETATTR and 38 WRITE, and 42 EXCHANGE_ID, 43 CREATE_SESSION, 44 DESTROY_SESSION, 53 SEQUENCE, 57
//! DESTROY_CLIENTID and 58 RECLAIM_COMPLETE.
use lnfs_test_support::flaw::Flaw;
use lnfs_test_support::records::{check, check_row};
use lnfs_test_support::sessions::check_opened;
use lnfs_test_support::stories::{Story, check_stories};
use std::alloc::{AllocError, Global};

/// In a table: a name, what is recorded behind a client and its session, both the first of level 0, the replies behind
/// those to these, and the lines of the audit stream.
const CLIENTS: &str = "
a file that is made once, though it is asked again | \
CALL SYS 0 2 4 SEQUENCE 1 0 0 1 24 MAKE_F 10 / CALL_2 SYS 0 2 4 SEQUENCE 1 0 0 1 24 MAKE_F 10 / \
CALL SYS 0 2 4 SEQUENCE 1 0 0 1 24 18 0 3 0 BY_O PLAIN 0 1 'g' 0x000000 10 / \
CALL_2 SYS CREATE 0 1 1 0 CHANNEL CHANNEL 0 0 / CALL SYS CREATE 0 1 3 0 CHANNEL CHANNEL 0 0 / \
CALL SYS 0 2 3 SEQUENCE 2 0 0 1 24 26 0 5 0 0 0 1000 0 | \
ACCEPTED 0 0 0 4 SEQUENCED 1 0 SLOTS 24 0 MADE_F 10 0 12 0 0 5 / \
ACCEPTED_2 0 0 0 4 SEQUENCED 1 0 SLOTS 24 0 MADE_F 10 0 12 0 0 5 / ACCEPTED 0 10076 0 1 53 10076 / \
ACCEPTED_2 0 0 0 1 43 0 0 0 1 0 1 0 CHANNEL CHANNEL / ACCEPTED 0 10063 0 1 43 10063 / \
ACCEPTED 0 0 0 3 SEQUENCED 2 0 SLOTS 24 0 26 0 0 0 1 0 6 1 'f' 0x000000 0 0 0 1 | \
5 1 53 S 10076 | 7 1 43 S 10063
a refusal that is asked again, though it would succeed by now | \
CALL SYS 0 2 3 SEQUENCE 1 0 0 1 24 18 0 1 0 BY_O 0 CALLED_F / CALL SYS 0 2 3 SEQUENCE 1 1 0 1 24 MAKE_F / \
CALL_2 SYS 0 2 3 SEQUENCE 1 0 0 1 24 18 0 1 0 BY_O 0 CALLED_F | \
ACCEPTED 0 2 0 3 SEQUENCED 1 0 SLOTS 24 0 18 2 / ACCEPTED 0 0 0 3 SEQUENCED 1 1 SLOTS 24 0 MADE_F / \
ACCEPTED_2 0 2 0 3 SEQUENCED 1 0 SLOTS 24 0 18 2 | 3 3 18 N 2
a client with an open, which ends in another session | \
CALL SYS 0 2 3 SEQUENCE 1 0 0 1 24 MAKE_F / CALL SYS 0 2 1 57 0 1 / CALL SYS 0 2 1 44 0 0 1 0 / CALL SYS 0 2 1 57 0 1 / \
CALL SYS CREATE 0 1 2 0 CHANNEL CHANNEL 0 0 / CALL SYS 0 2 3 53 0 0 2 0 1 0 0 1 PUT_F 4 0 ID_1 / \
CALL SYS 0 2 1 44 0 0 2 0 / CALL SYS 0 2 1 57 0 1 | \
ACCEPTED 0 0 0 3 SEQUENCED 1 0 SLOTS 24 0 MADE_F / ACCEPTED 0 10074 0 1 57 10074 / ACCEPTED 0 0 0 1 44 0 / \
ACCEPTED 0 10074 0 1 57 10074 / CREATED 0 0 2 0 2 0 CHANNEL CHANNEL / \
ACCEPTED 0 0 0 3 53 0 0 0 2 0 1 0 SLOTS 22 0 4 0 CLOSED / ACCEPTED 0 0 0 1 44 0 / ACCEPTED 0 0 0 1 57 0 | \
4 1 57 S 10074 | 6 1 57 S 10074
a client whose open goes with its file | \
CALL SYS 0 2 5 SEQUENCE 1 0 0 1 24 MAKE_F 24 28 1 'f' 0x000000 / CALL SYS 0 2 1 44 0 0 1 0 / CALL SYS 0 2 1 57 0 1 | \
ACCEPTED 0 0 0 5 SEQUENCED 1 0 SLOTS 24 0 MADE_F 24 0 28 0 1 0 2 0 3 / ACCEPTED 0 0 0 1 44 0 / ACCEPTED 0 0 0 1 57 0
another client in its place, whose opens go | \
CALL SYS 0 2 3 SEQUENCE 1 0 0 1 24 18 0 3 3 BY_O PLAIN CALLED_F / CALL SYS 0 2 1 42 0 1 2 'c1' REST / \
CALL SYS 0 2 3 SEQUENCE 2 0 0 1 PUT_F 25 ID_1 0 0 1 / CALL SYS CREATE 0 2 1 0 CHANNEL CHANNEL 0 0 / \
CALL SYS 0 2 4 53 0 0 2 0 1 0 0 1 24 18 0 3 3 BY_O 0 CALLED_F 25 ID_1 0 0 1 | \
ACCEPTED 0 0 0 3 SEQUENCED 1 0 SLOTS 24 0 MADE_F / EXCHANGED 0 2 SERVER / \
ACCEPTED 0 0 0 3 SEQUENCED 2 0 SLOTS 22 0 25 0 1 0 / CREATED 0 0 2 0 1 0 CHANNEL CHANNEL / \
ACCEPTED 0 10025 0 4 53 0 0 0 2 0 1 0 SLOTS 24 0 18 0 1 0 0 2 KEPT 25 10025 | 7 4 25 O 10025
another client beside it, by an owner of the same bytes | \
CALL SYS EXCHANGE 'c2' REST / CALL SYS CREATE 0 2 1 0 CHANNEL CHANNEL 0 0 / \
CALL SYS 0 2 3 SEQUENCE 1 0 0 1 24 18 0 1 1 BY_O PLAIN CALLED_F / \
CALL SYS 0 2 3 53 0 0 2 0 1 0 0 1 PUT_F 25 ID_1 0 0 1 / CALL SYS 0 2 3 53 0 0 2 0 2 0 0 1 PUT_F 4 0 ID_1 / \
CALL SYS 0 2 3 53 0 0 2 0 3 0 0 1 24 18 0 1 0 BY_O 0 CALLED_F / CALL SYS 0 2 3 53 0 0 2 0 4 0 0 1 24 18 0 2 0 BY_O 0 CALLED_F | \
EXCHANGED 0 2 SERVER / CREATED 0 0 2 0 1 0 CHANNEL CHANNEL / ACCEPTED 0 0 0 3 SEQUENCED 1 0 SLOTS 24 0 MADE_F / \
ACCEPTED 0 10025 0 3 53 0 0 0 2 0 1 0 SLOTS 22 0 25 10025 / ACCEPTED 0 10025 0 3 53 0 0 0 2 0 2 0 SLOTS 22 0 4 10025 / \
ACCEPTED 0 10015 0 3 53 0 0 0 2 0 3 0 SLOTS 24 0 18 10015 / ACCEPTED 0 0 0 3 53 0 0 0 2 0 4 0 SLOTS 24 0 18 0 1 0 0 2 KEPT | \
6 3 25 O 10025 | 7 3 4 O 10025 | 8 3 18 O 10015
";

/// In a table: a name, what is recorded, the replies, and the lines of the audit stream.
///
/// Before an operation there are 128 bytes, those of the result so far, which are 64 behind SEQUENCE and PUTROOTFH and 72
/// behind another PUTROOTFH, and the most that its own result takes. Behind a tag of 1,024 bytes there are 1,024 more.
const ROOM: &str = "
room for 1,840 bytes, and none for another | \
CALL SYS EXCHANGE 'c1' REST / CALL SYS CREATE 0 1 1 0 0 65536 2048 65536 32 16 0 CHANNEL 0 0 / \
CALL SYS 0 2 3 SEQUENCE 1 0 0 1 24 25 ANON 0 0 1840 / CALL SYS 0 2 3 SEQUENCE 2 0 0 1 24 25 ANON 0 0 1841 / \
CALL SYS 0 2 4 SEQUENCE 3 0 0 1 24 24 25 ANON 0 0 1832 / CALL SYS 0 2 4 SEQUENCE 4 0 0 1 24 24 25 ANON 0 0 1833 / \
CALL SYS 0 2 2 SEQUENCE 5 0 0 1 25 ANON 0 0 4294967295 | \
EXCHANGED 0 1 SERVER / CREATED 0 0 1 0 1 0 0 65536 2048 2048 32 16 0 CHANNEL / \
ACCEPTED 0 21 0 3 SEQUENCED 1 0 SLOTS 24 0 25 21 / ACCEPTED 0 10066 0 3 SEQUENCED 2 0 SLOTS 24 0 25 10066 / \
ACCEPTED 0 21 0 4 SEQUENCED 3 0 SLOTS 24 0 24 0 25 21 / ACCEPTED 0 10066 0 4 SEQUENCED 4 0 SLOTS 24 0 24 0 25 10066 / \
ACCEPTED 0 10066 0 2 SEQUENCED 5 0 SLOTS 25 10066 | \
3 3 25 N 21 | 4 3 25 R 10066 | 5 4 25 N 21 | 6 4 25 R 10066 | 7 2 25 R 10066
operations on files without a session | \
CALL SYS 0 2 1 MAKE_F / CALL SYS 0 2 1 4 0 ID_1 / CALL SYS 0 2 1 25 ANON 0 0 1 / CALL SYS 0 2 1 38 ANON 0 0 3 0 / \
CALL SYS 0 2 1 5 0 0 0 / CALL SYS 0 2 1 34 ANON SIZE 0 / CALL SYS 0 2 1 18 0 1 0 BY_O 1 2 7 9 CALLED_F | \
ACCEPTED 0 10071 0 1 18 10071 / ACCEPTED 0 10071 0 1 4 10071 / ACCEPTED 0 10071 0 1 25 10071 / \
ACCEPTED 0 10071 0 1 38 10071 / ACCEPTED 0 10071 0 1 5 10071 / ACCEPTED 0 10071 0 1 34 10071 0 / \
ACCEPTED 0 10004 0 1 18 10004 | \
1 1 18 S 10071 | 2 1 4 S 10071 | 3 1 25 S 10071 | 4 1 38 S 10071 | 5 1 5 S 10071 | 6 1 34 S 10071 | 7 1 18 X 10004
";

/// Stories: a level alone, whose client and session begin; or a level, a sequence and seconds, the operations behind a
/// SEQUENCE, what is due, and the line of the audit stream.
const LEVELS: &str = "
# a reader from above
0
3
0 1 100 | 24 MAKE_F 4 0 ID_1 | 0 4 24 0 MADE_F 4 0 CLOSED
3 1 200 | 24 18 0 1 1 BY_O 0 CALLED_F | 13 3 24 0 18 13 | 3 18 M7 13
3 2 200 | 24 18 0 1 0 BY_O 0 CALLED_F 9 1 2 | 0 4 24 0 18 0 1 3 0 1 KEPT 9 0 1 2 4 1
3 3 200 | 24 18 0 2 0 BY_P 0 CALLED_F | 13 3 24 0 18 13 | 3 18 M2 13
3 4 200 | 24 18 0 3 1 BY_P SIZED CALLED_F | 13 3 24 0 18 13 | 3 18 M2 13
3 5 200 | 24 18 0 1 1 BY_P GUARDED CALLED_F | 17 3 24 0 18 17 | 3 18 N 17
0 2 200 | 24 18 0 1 1 BY_O 0 CALLED_F | 0 3 24 0 18 0 1 0 0 2 KEPT
3 6 200 | PUT_F 25 1 3 0 1 0 0 4 | 0 3 22 0 25 0 1 0
0 3 100 | PUT_F 9 2 0 0x00308000 | 0 3 22 0 9 0 2 0 0x00308000 36 0 100 0 0 100 0 0 100 0
0 4 300 | PUT_F 25 1 0 0 2 0 0 4 | 0 3 22 0 25 0 1 0
0 5 100 | PUT_F 9 2 0 0x00308000 | 0 3 22 0 9 0 2 0 0x00308000 36 0 300 0 0 100 0 0 100 0
3 7 100 | PUT_F 38 ANON 0 0 2 1 'a' 0x000000 | 13 3 22 0 38 13 | 3 38 M2 13
3 8 100 | PUT_F 34 ANON SIZE 0 | 13 3 22 0 34 13 0 | 3 34 M2 13
3 9 100 | PUT_F 5 0 0 0 | 13 3 22 0 5 13 | 3 5 M2 13
0 6 100 | 24 18 0 1 0 BY_P 0 CALLED_F | 10015 3 24 0 18 10015 | 3 18 O 10015
0 7 100 | PUT_F 25 ANON 0 0 1 | 10012 3 22 0 25 10012 | 3 25 O 10012
0 8 100 | PUT_F 38 ANON 0 0 2 1 'a' 0x000000 25 BYPASS 0 0 4 | 0 4 22 0 38 0 1 2 0 0 25 0 1 1 'a' 0x000000
3 10 100 | PUT_F 25 ANON 0 0 1 | 10012 3 22 0 25 10012 | 3 25 O 10012
3 11 100 | PUT_F 25 BYPASS 0 0 4 | 0 3 22 0 25 0 1 1 'a' 0x000000
3 12 100 | 24 18 0 1 0 BY_P 0 CALLED_F | 10015 3 24 0 18 10015 | 3 18 O 10015
3 13 100 | PUT_F 25 1 3 0 1 0 0 4 4 0 1 3 0 1 | 0 4 22 0 25 0 1 1 'a' 0x000000 4 0 CLOSED
# state ids of another level
0
3
0 1 100 | 24 MAKE_F | 0 3 24 0 MADE_F
3 1 100 | PUT_F 25 ID_1 0 0 1 | 10025 3 22 0 25 10025 | 3 25 M9 10025
3 2 100 | PUT_F 4 0 ID_1 | 10025 3 22 0 4 10025 | 3 4 M9 10025
3 3 100 | PUT_F 4 0 ANON | 10025 3 22 0 4 10025 | 3 4 O 10025
3 4 100 | PUT_F 25 1 3 0 1 0 0 1 | 10025 3 22 0 25 10025 | 3 25 O 10025
0 2 100 | PUT_F 25 ID_1 0 0 1 | 0 3 22 0 25 0 1 0
# numbers of nodes and opens, in each level
0
3
0 1 100 | 24 18 0 3 0 BY_O PLAIN 0 1 'a' 0x000000 10 | 0 4 24 0 MADE_F 10 0 12 0 0 5
3 1 100 | TOP 18 0 3 0 BY_O PLAIN 0 1 'x' 0x000000 10 TOP 18 0 3 0 BY_O PLAIN 0 1 'y' 0x000000 10 \
TOP 18 0 3 0 BY_O PLAIN 0 1 'z' 0x000000 10 | 0 10 22 0 18 0 1 3 0 1 1 0 1 0 2 4 0 0 10 0 12 3 0 1 \
22 0 18 0 1 3 0 2 1 0 2 0 3 4 0 0 10 0 12 3 0 2 22 0 18 0 1 3 0 3 1 0 3 0 4 4 0 0 10 0 12 3 0 3
0 2 100 | 24 18 0 3 0 BY_O PLAIN 0 1 'b' 0x000000 10 | 0 4 24 0 18 0 1 0 0 2 1 0 2 0 3 4 0 0 10 0 12 0 0 6
# what is looked for from beside
1
2
1 1 100 | ONE 18 0 3 0 BY_O PLAIN 0 1 'a' 0x000000 10 | 0 4 22 0 18 0 1 1 0 1 1 0 1 0 2 4 0 0 10 0 12 1 0 1
2 1 100 | 22 12 1 0 1 | 70 2 22 70 | 2 22 M8 70
2 2 100 | 22 12 1 0 9 | 70 2 22 70 | 2 22 M8 70
2 3 100 | ONE 15 1 'a' 0x000000 | 13 3 22 0 15 13 | 3 15 M1 13
2 4 100 | ONE 18 0 1 0 BY_O 0 0 1 'a' 0x000000 | 13 3 22 0 18 13 | 3 18 M1 13
2 5 100 | ONE 18 0 1 0 BY_O PLAIN 0 1 'b' 0x000000 | 13 3 22 0 18 13 | 3 18 M1 13
# labels of new files
1
3
1 1 100 | 24 18 0 1 0 BY_O 0 CALLED_F | 2 3 24 0 18 2 | 3 18 N 2
1 2 100 | 24 18 0 1 0 BY_O 1 0 LABEL_0 CALLED_F | 13 3 24 0 18 13 | 3 18 M3 13
1 3 100 | ONE 18 0 3 3 BY_O 1 0 LABEL_2 CALLED_F | 13 3 22 0 18 13 | 3 18 M4 13
1 4 100 | ONE 18 0 3 3 BY_O 1 0 LABEL_0 CALLED_F | 13 3 22 0 18 13 | 3 18 M4 13
1 5 100 | ONE 18 0 3 3 BY_O 1 0 LABEL_3 CALLED_F | 13 3 22 0 18 13 | 3 18 M1 13
1 6 100 | ONE 18 0 2 3 BY_O 1 0 LABEL_3 CALLED_F | 13 3 22 0 18 13 | 3 18 M2 13
1 7 100 | ONE 18 0 3 1 BY_O 1 0 LABEL_1 CALLED_F 9 LABELLED | 0 4 22 0 18 0 1 1 0 1 1 0 1 0 2 4 LABELLED 0 9 0 LABEL_1
3 1 100 | ONE 18 0 1 0 BY_O PLAIN 0 1 'g' 0x000000 | 13 3 22 0 18 13 | 3 18 M3 13
3 2 100 | ONE 18 0 1 0 BY_O PLAIN CALLED_F | 10015 3 22 0 18 10015 | 3 18 O 10015
# times of a file and of its directory
0
0 1 100 | 24 MAKE_F 24 9 2 8 0x00308000 | 0 5 24 0 MADE_F 24 0 9 0 2 8 0x00308000 44 0 2 0 0 0 0 100 0 0 100 0
0 2 200 | PUT_F 38 ANON 0 0 2 1 'a' 0x000000 | 0 3 22 0 38 0 1 2 0 0
0 3 300 | PUT_F 38 ANON 0 0 2 0 5 0 0 0 9 2 8 0x00308000 | \
0 5 22 0 38 0 0 2 0 0 5 0 0 0 9 0 2 8 0x00308000 44 0 2 0 100 0 0 200 0 0 200 0
0 4 400 | PUT_F 34 ANON SIZE 1 9 2 8 0x00308000 | 0 4 22 0 34 0 1 16 9 0 2 8 0x00308000 44 0 3 0 100 0 0 400 0 0 400 0
0 5 500 | PUT_F 34 ANON 2 0 2 4 448 9 2 8 0x00308000 | \
0 4 22 0 34 0 2 0 2 9 0 2 8 0x00308000 44 0 4 0 100 0 0 500 0 0 400 0
0 6 600 | 24 18 0 1 0 BY_P 0 CALLED_F 9 2 8 0x00308000 | \
0 4 24 0 18 0 1 0 0 2 KEPT 9 0 2 8 0x00308000 44 0 4 0 100 0 0 500 0 0 400 0
0 7 700 | 24 18 0 2 0 BY_P SIZED CALLED_F 9 2 8 0x00308000 | \
0 4 24 0 18 0 2 0 0 2 1 0 2 0 2 4 1 16 0 9 0 2 8 0x00308000 44 0 5 0 100 0 0 700 0 0 700 0
# what is refused changes nothing
0
0 1 100 | 24 18 0 3 2 BY_O PLAIN CALLED_F SIX | 0 4 24 0 MADE_F WROTE_6
0 2 200 | 24 18 0 2 0 BY_P SIZED CALLED_F | 10015 3 24 0 18 10015 | 3 18 O 10015
0 3 200 | PUT_F 34 ANON 2 16 2 12 0 3 448 | 10012 3 22 0 34 10012 0 | 3 34 O 10012
0 4 200 | PUT_F 34 ID_1 2 16 2 12 1 0 448 | 27 3 22 0 34 27 0 | 3 34 N 27
0 5 200 | PUT_F 38 ID_1 0 16777216 2 1 'a' 0x000000 | 27 3 22 0 38 27 | 3 38 N 27
0 6 200 | 24 18 0 3 0 BY_O 1 0 LABEL_1 0 1 'g' 0x000000 | 13 3 24 0 18 13 | 3 18 M1 13
0 7 100 | 24 9 1 24 15 1 'f' 0x000000 9 2 24 0x00300002 | \
0 5 24 0 9 0 1 24 16 0 2 0 4 15 0 9 0 2 24 0x00300002 44 0 2 0 6 420 0 100 0 0 100 0
";

/// The row of a file of zeros, which is read so that 136 bytes are left of a response of 2,048, and then 132: 128 are reserved,
/// and each of the results behind the READ takes 8. The place of an operation is tested before its room.
fn place_and_room(alloc: Global) -> Result<String, AllocError> {
    let zeros = "00".repeat(alloc, 1832)?;
    let fits = format!(in alloc; "SLOTS 22 0 25 0 0 1832 0x{zeros}")?;
    let fills = format!(in alloc; "SLOTS 22 0 25 0 0 1836 0x{zeros}00000000")?;
    format!(in alloc;
        "what is left behind a READ | \
CALL SYS EXCHANGE 'c1' REST / CALL SYS CREATE 0 1 1 0 0 65536 2048 65536 32 16 0 CHANNEL 0 0 / \
CALL SYS 0 2 4 SEQUENCE 1 0 0 1 24 MAKE_F 34 ANON SIZE 1900 / \
CALL SYS 0 2 4 SEQUENCE 2 0 0 1 PUT_F 25 ANON 0 0 1832 58 0 / \
CALL SYS 0 2 4 SEQUENCE 3 0 0 1 PUT_F 25 ANON 0 0 1832 57 0 1 / \
CALL SYS 0 2 4 SEQUENCE 4 0 0 1 PUT_F 25 ANON 0 0 1836 58 0 / \
CALL SYS 0 2 4 SEQUENCE 5 0 0 1 PUT_F 25 ANON 0 0 1836 57 0 1 | \
EXCHANGED 0 1 SERVER / CREATED 0 0 1 0 1 0 0 65536 2048 2048 32 16 0 CHANNEL / \
ACCEPTED 0 0 0 4 SEQUENCED 1 0 SLOTS 24 0 MADE_F 34 0 1 16 / \
ACCEPTED 0 0 0 4 SEQUENCED 2 0 {fits} 58 0 / ACCEPTED 0 10081 0 4 SEQUENCED 3 0 {fits} 57 10081 / \
ACCEPTED 0 10066 0 4 SEQUENCED 4 0 {fills} 58 10066 / ACCEPTED 0 10081 0 4 SEQUENCED 5 0 {fills} 57 10081 | \
5 4 57 S 10081 | 6 4 58 R 10066 | 7 4 57 S 10081"
    )
}

#[test]
fn clients_and_files(rt: HostRuntime) -> Result<(), Flaw> {
    check_opened(&rt, rt.alloc(), CLIENTS, 6)?;
    check(&rt, rt.alloc(), ROOM, 2)?;
    check_row(&rt, rt.alloc(), &place_and_room(rt.alloc())?)
}

#[test]
fn levels_and_files(rt: HostRuntime) -> Result<(), Flaw> {
    check_stories(&rt, rt.alloc(), LEVELS, 7)
}

/// Whether two sets of bits share one.
fn share(bits: usize, others: usize) -> bool {
    bits & others != 0
}

/// Adds an open of a new file by one owner, and one by another, which is refused where either denies what the other is
/// for; and gives the number of the last open. The pairs are told by their place.
fn put_pair(alloc: Global, story: &mut Story, place: usize, last: usize) -> Result<usize, Flaw> {
    let (access, deny) = (1 + place / 48 % 3, place / 12 % 4);
    let (other_access, other_deny) = (1 + place / 4 % 3, place % 4);
    let (sequence, name) = (place.saturating_add(1), place.saturating_add(1_000));
    let after = place.saturating_add(2);
    let first = last.saturating_add(1);
    let second = last.saturating_add(2);
    let refused = share(deny, other_access) || share(access, other_deny);
    let (status, told, line) = if refused {
        (
            "10015",
            String::from_str(alloc, "18 10015")?,
            " | 4 18 O 10015",
        )
    } else {
        ("0", format!(in alloc; "18 0 1 0 0 {second} HELD")?, "")
    };
    let text = format!(in alloc;
        "0 {sequence} 100 | 24 18 0 {access} {deny} BY_O PLAIN 0 4 '{name}' 18 0 {other_access} {other_deny} BY_P 0 4 | \
{status} 4 24 0 18 0 1 0 0 {first} 1 0 {sequence} 0 {after} 4 0 0 {told}{line}"
    )?;
    story.put(alloc, &text)?;
    Ok(if refused { first } else { second })
}

/// Adds a file of level 0 that level 3 has open for reading, an open of level 0 as its place tells, which that of level
/// 3 never refuses, and another of level 3, which is refused where level 0 denies reading; and gives the number of the
/// last open of level 3.
fn put_levels(alloc: Global, story: &mut Story, place: usize, last: usize) -> Result<usize, Flaw> {
    let (access, deny) = (1 + place / 4 % 3, place % 4);
    let (before, name) = (place.saturating_add(1), place.saturating_add(1_000));
    let after = place.saturating_add(2);
    let odd = place.saturating_mul(2).saturating_add(1);
    let even = odd.saturating_add(1);
    let (first, second) = (last.saturating_add(1), last.saturating_add(2));
    let refused = share(deny, 1);
    let (status, told, line) = if refused {
        (
            "10015",
            String::from_str(alloc, "18 10015")?,
            " | 4 18 O 10015",
        )
    } else {
        ("0", format!(in alloc; "18 0 1 3 0 {second} HELD")?, "")
    };
    story.put(
        alloc,
        &format!(in alloc;
            "0 {odd} 100 | 24 18 0 1 0 BY_O PLAIN 0 4 '{name}' 4 0 1 0 0 {odd} | \
0 4 24 0 18 0 1 0 0 {odd} 1 0 {before} 0 {after} 4 0 0 4 0 CLOSED"
        )?,
    )?;
    story.put(
        alloc,
        &format!(in alloc;
            "3 {odd} 100 | 24 18 0 1 0 BY_O 0 0 4 '{name}' | 0 3 24 0 18 0 1 3 0 {first} 1 0 {after} 0 {after} 4 0 0"
        )?,
    )?;
    story.put(
        alloc,
        &format!(in alloc;
            "0 {even} 100 | 24 18 0 {access} {deny} BY_P 0 0 4 '{name}' | \
0 3 24 0 18 0 1 0 0 {even} 1 0 {after} 0 {after} 4 0 0"
        )?,
    )?;
    story.put(
        alloc,
        &format!(in alloc;
            "3 {even} 100 | 24 15 4 '{name}' 18 0 1 0 BY_P 0 4 | {status} 4 24 0 15 0 {told}{line}"
        )?,
    )?;
    Ok(if refused { first } else { second })
}

/// Each access with each that is denied, twice over: by two owners, and by two levels.
#[test]
fn share_conflicts(rt: HostRuntime) -> Result<(), Flaw> {
    let alloc = rt.alloc();
    let mut owners = Story::new(alloc);
    owners.open(0)?;
    let mut last = 0usize;
    for place in 0..144usize {
        last = put_pair(alloc, &mut owners, place, last)?;
    }
    owners.check(&rt, alloc, "two owners")?;
    let mut levels = Story::new(alloc);
    levels.open(0)?;
    levels.open(3)?;
    last = 0;
    for place in 0..12usize {
        last = put_levels(alloc, &mut levels, place, last)?;
    }
    levels.check(&rt, alloc, "two levels")
}
