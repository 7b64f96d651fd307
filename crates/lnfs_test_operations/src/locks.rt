//! Byte-range locks in recordings, by several levels, clients and owners. All are laid out by hand, in words, from RFC 8881
//! sections 8.2 (state ids), 8.3 (leases), 9 (locks) and 18.10 to 18.12 (LOCK, LOCKT, LOCKU).
//!
//! Of the operations' numbers, 4 is CLOSE, 6 CREATE, 12 LOCK, 13 LOCKT, 14 LOCKU, 18 OPEN, 22 PUTFH, 24 PUTROOTFH, 25 READ, 34
//! SETATTR and 53 SEQUENCE. Behind 12 stand a type, whether it is reclaimed, an offset and a length of two words each, and 1 with
//! a sequence, the state id of an open, a sequence, a client and an owner, or 0 with the state id of a lock and a sequence. Of a
//! lock's state id the second word is the level, the third 1 and the fourth the number.
use lnfs_test_support::flaw::Flaw;
use lnfs_test_support::operations::check_operations;
use lnfs_test_support::records::{check, check_row};
use lnfs_test_support::sessions::check_opened;
use lnfs_test_support::stories::{Story, check_stories};
use std::alloc::{AllocError, Global};

/// In a table: a name; the operations behind a SEQUENCE; the status, the count of results and the results behind that of
/// SEQUENCE; and the line of the audit stream, without the event's place.
const TESTS: &str = "
a lock of no type | 24 MAKE_F 12 0 0 0 0 0 10 1 0 ID_1 0 0 1 1 'a' 0x000000 | 22 4 24 0 MADE_F 12 22 | 4 12 A 22
a test of no type | 24 MAKE_F 13 5 0 0 0 10 0 1 1 'a' 0x000000 | 22 4 24 0 MADE_F 13 22 | 4 13 A 22
an unlock of no type | 24 MAKE_F 14 0 0 1 0 1 1 0 0 0 10 | 22 4 24 0 MADE_F 14 22 | 4 14 A 22
a range of nothing | 24 MAKE_F 12 1 0 0 5 0 0 1 0 ID_1 0 0 1 1 'a' 0x000000 | 22 4 24 0 MADE_F 12 22 | 4 12 A 22
a range past the last offset | 24 MAKE_F 13 1 0 2 4294967295 4294967294 0 1 1 'a' 0x000000 | 22 4 24 0 MADE_F 13 22 | 4 13 A 22
a range up to the last offset but one | 24 MAKE_F 13 1 0 1 4294967295 4294967294 0 1 1 'a' 0x000000 | 0 4 24 0 MADE_F 13 0
the last offset | 24 MAKE_F 12 2 0 4294967295 4294967295 4294967295 4294967295 1 0 ID_1 0 0 1 1 'a' 0x000000 \
13 1 0 7 4294967295 4294967288 0 1 1 'b' 0x000000 13 1 0 7 4294967295 4294967295 0 1 1 'b' 0x000000 | \
10010 6 24 0 MADE_F 12 0 1 0 1 1 13 0 \
13 10010 4294967295 4294967295 4294967295 4294967295 2 0 1 1 'a' 0x000000 | 6 13 O 10010
without a file handle | 12 1 0 0 0 0 10 1 0 ID_1 0 0 1 1 'a' 0x000000 | 10020 2 12 10020 | 2 12 N 10020
a directory | 24 13 1 0 0 0 10 0 1 1 'a' 0x000000 | 21 3 24 0 13 21 | 3 13 N 21
a symbolic link | 24 6 5 4 'text' 1 'l' 0x000000 0 0 14 1 0 1 0 1 1 0 0 0 10 | \
10029 4 24 0 6 0 1 0 1 0 2 0 14 10029 | 4 14 N 10029
a file that is gone | 24 MAKE_F 32 24 28 1 'f' 0x000000 31 13 1 0 0 0 10 0 1 1 'a' 0x000000 | \
70 8 24 0 MADE_F 32 0 24 0 28 0 1 0 2 0 3 31 0 13 70 | 8 13 N 70
nothing to reclaim | 24 MAKE_F 12 1 1 0 0 0 10 1 0 ANON 0 0 1 1 'a' 0x000000 | 10033 4 24 0 MADE_F 12 10033 | 4 12 O 10033
a state id of no open | 24 MAKE_F 12 1 0 0 0 0 10 1 0 ANON 0 0 1 1 'a' 0x000000 | 10025 4 24 0 MADE_F 12 10025 | 4 12 O 10025
the state id that passes over | 24 MAKE_F 12 1 0 0 0 0 10 1 0 BYPASS 0 0 1 1 'a' 0x000000 | \
10025 4 24 0 MADE_F 12 10025 | 4 12 O 10025
an open that isn't there | 24 MAKE_F 12 1 0 0 0 0 10 1 0 1 0 0 2 0 0 1 1 'a' 0x000000 | \
10025 4 24 0 MADE_F 12 10025 | 4 12 O 10025
an open of another file | 24 MAKE_F 24 18 0 3 0 BY_O PLAIN 0 1 'g' 0x000000 12 1 0 0 0 0 10 1 0 ID_1 0 0 1 1 'a' 0x000000 | \
10025 6 24 0 MADE_F 24 0 18 0 1 0 0 2 1 0 2 0 3 4 0 0 12 10025 | 6 12 O 10025
an open of another level | 24 MAKE_F 12 1 0 0 0 0 10 1 0 1 1 0 1 0 0 1 1 'a' 0x000000 | \
10025 4 24 0 MADE_F 12 10025 | 4 12 M9 10025
a sequence of an open that is to come | 24 MAKE_F 12 1 0 0 0 0 10 1 0 2 0 0 1 0 0 1 1 'a' 0x000000 | \
10025 4 24 0 MADE_F 12 10025 | 4 12 O 10025
a sequence of an open that is past | 24 MAKE_F 24 18 0 3 0 BY_O 0 CALLED_F 12 1 0 0 0 0 10 1 0 ID_1 0 0 1 1 'a' 0x000000 | \
10024 6 24 0 MADE_F 24 0 18 0 2 0 0 1 KEPT 12 10024 | 6 12 O 10024
any sequence of an open | 24 MAKE_F 24 18 0 3 0 BY_O 0 CALLED_F 12 1 0 0 0 0 10 1 0 0 0 0 1 0 0 1 1 'a' 0x000000 | \
0 6 24 0 MADE_F 24 0 18 0 2 0 0 1 KEPT 12 0 1 0 1 1
for write, under an open for reading | 24 18 0 1 0 BY_O PLAIN CALLED_F 12 2 0 0 0 0 10 1 0 ID_1 0 0 1 1 'a' 0x000000 | \
10038 4 24 0 MADE_F 12 10038 | 4 12 O 10038
for write, and one would wait | 24 18 0 1 0 BY_O PLAIN CALLED_F 12 4 0 0 0 0 10 1 0 ID_1 0 0 1 1 'a' 0x000000 | \
10038 4 24 0 MADE_F 12 10038 | 4 12 O 10038
for read, under an open for writing | 24 18 0 2 0 BY_O PLAIN CALLED_F 12 3 0 0 0 0 10 1 0 ID_1 0 0 1 1 'a' 0x000000 | \
10038 4 24 0 MADE_F 12 10038 | 4 12 O 10038
for write, by a lock under an open for reading | 24 18 0 1 0 BY_O PLAIN CALLED_F \
12 1 0 0 0 0 10 1 0 ID_1 0 0 1 1 'a' 0x000000 12 2 0 0 0 0 10 0 1 0 1 1 0 | \
10038 5 24 0 MADE_F 12 0 1 0 1 1 12 10038 | 5 12 O 10038
a lock that isn't there | 24 MAKE_F 12 1 0 0 0 0 10 0 1 0 1 1 0 | 10025 4 24 0 MADE_F 12 10025 | 4 12 O 10025
a lock of another file | 24 MAKE_F 12 1 0 0 0 0 10 1 0 ID_1 0 0 1 1 'a' 0x000000 24 18 0 3 0 BY_O PLAIN 0 1 'g' 0x000000 \
14 1 0 1 0 1 1 0 0 0 10 | \
10025 7 24 0 MADE_F 12 0 1 0 1 1 24 0 18 0 1 0 0 2 1 0 2 0 3 4 0 0 14 10025 | 7 14 O 10025
a lock of another level | 24 MAKE_F 12 1 0 0 0 0 10 0 1 1 1 1 0 | 10025 4 24 0 MADE_F 12 10025 | 4 12 M9 10025
an open in the place of a lock | 24 MAKE_F 14 1 0 ID_1 0 0 0 10 | 10025 4 24 0 MADE_F 14 10025 | 4 14 O 10025
a lock in the place of an open | 24 MAKE_F 12 1 0 0 0 0 10 1 0 ID_1 0 0 1 1 'a' 0x000000 25 1 0 1 1 0 0 1 | \
10025 5 24 0 MADE_F 12 0 1 0 1 1 25 10025 | 5 25 O 10025
a sequence of a lock that is to come | 24 MAKE_F 12 1 0 0 0 0 10 1 0 ID_1 0 0 1 1 'a' 0x000000 14 1 0 2 0 1 1 0 0 0 10 | \
10025 5 24 0 MADE_F 12 0 1 0 1 1 14 10025 | 5 14 O 10025
a sequence of a lock that is past | 24 MAKE_F 12 1 0 0 0 0 10 1 0 ID_1 0 0 1 1 'a' 0x000000 12 1 0 0 20 0 10 0 1 0 1 1 0 \
14 1 0 0 0 1 1 0 0 0 10 14 1 0 1 0 1 1 0 0 0 10 | \
10024 7 24 0 MADE_F 12 0 1 0 1 1 12 0 2 0 1 1 14 0 3 0 1 1 14 10024 | 7 14 O 10024
what an owner has locked under an open, by these | 24 MAKE_F 12 1 0 0 0 0 10 1 0 ID_1 0 0 1 1 'a' 0x000000 \
12 2 0 0 5 0 10 1 0 ID_1 0 0 1 1 'a' 0x000000 12 2 0 0 30 0 1 1 0 ID_1 0 0 1 1 'b' 0x000000 | \
0 6 24 0 MADE_F 12 0 1 0 1 1 12 0 2 0 1 1 12 0 1 0 1 2
a lock that changes its kind and goes | 24 MAKE_F 12 1 0 0 0 0 10 1 0 ID_1 0 0 1 1 'a' 0x000000 \
12 2 0 0 5 0 10 0 1 0 1 1 0 13 1 0 0 0 5 0 1 1 'b' 0x000000 14 1 0 2 0 1 1 0 0 0 15 13 2 0 0 0 20 0 1 1 'b' 0x000000 | \
0 8 24 0 MADE_F 12 0 1 0 1 1 12 0 2 0 1 1 13 0 14 0 3 0 1 1 13 0
two locks for read, and one for write is in their way | 24 MAKE_F 12 1 0 0 0 0 10 1 0 ID_1 0 0 1 1 'a' 0x000000 \
12 3 0 0 5 0 10 1 0 ID_1 0 0 1 1 'b' 0x000000 13 2 0 12 0 1 0 1 1 'c' 0x000000 | \
10010 6 24 0 MADE_F 12 0 1 0 1 1 12 0 1 0 1 2 13 10010 0 5 0 10 1 0 1 1 'b' 0x000000 | 6 13 O 10010
two locks in the way, of which the first is told | 24 MAKE_F 12 1 0 0 0 0 10 1 0 ID_1 0 0 1 1 'a' 0x000000 \
12 3 0 0 5 0 10 1 0 ID_1 0 0 1 1 'b' 0x000000 13 2 0 7 0 1 0 1 1 'c' 0x000000 | \
10010 6 24 0 MADE_F 12 0 1 0 1 1 12 0 1 0 1 2 13 10010 0 0 0 10 1 0 1 1 'a' 0x000000 | 6 13 O 10010
one's own lock | 24 MAKE_F 12 2 0 0 0 0 10 1 0 ID_1 0 0 1 1 'a' 0x000000 13 2 0 0 0 10 0 7 1 'a' 0x000000 | \
0 5 24 0 MADE_F 12 0 1 0 1 1 13 0
ranges of one kind that touch are one | 24 MAKE_F 12 2 0 0 0 0 5 1 0 ID_1 0 0 1 1 'a' 0x000000 12 2 0 0 5 0 5 0 1 0 1 1 0 \
13 1 0 7 0 1 0 1 1 'b' 0x000000 | \
10010 6 24 0 MADE_F 12 0 1 0 1 1 12 0 2 0 1 1 13 10010 0 0 0 10 2 0 1 1 'a' 0x000000 | 6 13 O 10010
the ends of a range | 24 MAKE_F 12 2 0 0 10 0 10 1 0 ID_1 0 0 1 1 'a' 0x000000 13 1 0 9 0 1 0 1 1 'b' 0x000000 \
13 1 0 20 0 1 0 1 1 'b' 0x000000 13 1 0 19 0 1 0 1 1 'b' 0x000000 | \
10010 7 24 0 MADE_F 12 0 1 0 1 1 13 0 13 0 13 10010 0 10 0 10 2 0 1 1 'a' 0x000000 | 7 13 O 10010
the front of a range | 24 MAKE_F 12 2 0 0 10 0 10 1 0 ID_1 0 0 1 1 'a' 0x000000 13 1 0 10 0 1 0 1 1 'b' 0x000000 | \
10010 5 24 0 MADE_F 12 0 1 0 1 1 13 10010 0 10 0 10 2 0 1 1 'a' 0x000000 | 5 13 O 10010
a lock that ends with its open | 24 MAKE_F 12 2 0 0 0 0 10 1 0 ID_1 0 0 1 1 'a' 0x000000 4 0 ID_1 \
13 2 0 0 0 10 0 1 1 'b' 0x000000 14 2 0 1 0 1 1 0 0 0 10 | \
10025 7 24 0 MADE_F 12 0 1 0 1 1 4 0 CLOSED 13 0 14 10025 | 7 14 O 10025
";

/// In a table: a name, what is recorded behind a client and its session, both the first of level 0 and at 100 seconds, the
/// replies behind those to these, and the lines of the audit stream.
const CLIENTS: &str = "
a lock that is taken once, though it is asked again | \
CALL SYS 0 2 4 SEQUENCE 1 0 0 1 24 MAKE_F 12 1 0 0 0 0 10 1 0 ID_1 0 0 1 1 'a' 0x000000 / \
CALL_2 SYS 0 2 4 SEQUENCE 1 0 0 1 24 MAKE_F 12 1 0 0 0 0 10 1 0 ID_1 0 0 1 1 'a' 0x000000 / \
CALL SYS 0 2 3 SEQUENCE 2 0 0 1 PUT_F 12 1 0 0 20 0 10 0 1 0 1 1 0 | \
ACCEPTED 0 0 0 4 SEQUENCED 1 0 SLOTS 24 0 MADE_F 12 0 1 0 1 1 / ACCEPTED_2 0 0 0 4 SEQUENCED 1 0 SLOTS 24 0 MADE_F 12 0 1 0 1 1 / \
ACCEPTED 0 0 0 3 SEQUENCED 2 0 SLOTS 22 0 12 0 2 0 1 1
a denial that is asked again, though nothing stands in the way by now | \
CALL SYS 0 2 5 SEQUENCE 1 0 0 1 24 MAKE_F 12 2 0 0 0 0 10 1 0 ID_1 0 0 1 1 'a' 0x000000 13 1 0 0 0 1 0 1 1 'b' 0x000000 / \
CALL SYS 0 2 3 SEQUENCE 1 1 0 1 PUT_F 14 2 0 1 0 1 1 0 0 0 10 / \
CALL_2 SYS 0 2 5 SEQUENCE 1 0 0 1 24 MAKE_F 12 2 0 0 0 0 10 1 0 ID_1 0 0 1 1 'a' 0x000000 13 1 0 0 0 1 0 1 1 'b' 0x000000 | \
ACCEPTED 0 10010 0 5 SEQUENCED 1 0 SLOTS 24 0 MADE_F 12 0 1 0 1 1 13 10010 0 0 0 10 2 0 1 1 'a' 0x000000 / \
ACCEPTED 0 0 0 3 SEQUENCED 1 1 SLOTS 22 0 14 0 2 0 1 1 / \
ACCEPTED_2 0 10010 0 5 SEQUENCED 1 0 SLOTS 24 0 MADE_F 12 0 1 0 1 1 13 10010 0 0 0 10 2 0 1 1 'a' 0x000000 | 3 5 13 O 10010
a lock goes that was passed over | \
CALL SYS EXCHANGE 'c2' REST / CALL SYS CREATE 0 2 1 0 CHANNEL CHANNEL 0 0 / \
@0.100 CALL SYS 0 2 4 SEQUENCE 1 0 0 1 24 MAKE_F 12 2 0 0 0 0 10 1 0 ID_1 0 0 1 1 'a' 0x000000 / \
@0.190 CALL SYS 0 2 4 53 0 0 2 0 1 0 0 1 PUT_F 18 0 3 0 BY_O 0 4 12 1 0 0 0 0 1 1 0 1 0 0 2 0 0 2 1 'a' 0x000000 / \
@0.191 CALL SYS 0 2 3 53 0 0 2 0 2 0 0 1 PUT_F 12 1 0 0 0 0 1 1 0 1 0 0 2 0 0 2 1 'a' 0x000000 / \
@0.192 CALL SYS 0 2 3 SEQUENCE 2 0 0 1 PUT_F 14 2 0 1 0 1 1 0 0 0 10 | \
EXCHANGED 0 2 SERVER / CREATED 0 0 2 0 1 0 CHANNEL CHANNEL / ACCEPTED 0 0 0 4 SEQUENCED 1 0 SLOTS 24 0 MADE_F 12 0 1 0 1 1 / \
ACCEPTED 0 10010 0 4 53 0 0 0 2 0 1 0 SLOTS 22 0 18 0 1 0 0 2 HELD 12 10010 0 0 0 10 2 0 1 1 'a' 0x000000 / \
ACCEPTED 0 0 0 3 53 0 0 0 2 0 2 0 SLOTS 22 0 12 0 1 0 1 2 / \
ACCEPTED 0 10025 0 3 SEQUENCED 2 0 SLOTS 22 0 14 10025 | 6 4 12 O 10010 | 8 3 14 O 10025
a lock stays in whose range nothing is asked | \
CALL SYS EXCHANGE 'c2' REST / CALL SYS CREATE 0 2 1 0 CHANNEL CHANNEL 0 0 / \
@0.100 CALL SYS 0 2 4 SEQUENCE 1 0 0 1 24 MAKE_F 12 2 0 0 0 0 10 1 0 ID_1 0 0 1 1 'a' 0x000000 / \
@0.191 CALL SYS 0 2 5 53 0 0 2 0 1 0 0 1 PUT_F 18 0 3 0 BY_O 0 4 12 2 0 0 20 0 1 1 0 1 0 0 2 0 0 2 1 'a' 0x000000 \
13 2 0 0 0 10 0 2 1 'a' 0x000000 / \
@0.192 CALL SYS 0 2 3 SEQUENCE 2 0 0 1 PUT_F 14 2 0 1 0 1 1 0 0 0 5 / \
@0.193 CALL SYS 0 2 3 53 0 0 2 0 2 0 0 1 PUT_F 13 2 0 0 0 10 0 2 1 'a' 0x000000 | \
EXCHANGED 0 2 SERVER / CREATED 0 0 2 0 1 0 CHANNEL CHANNEL / ACCEPTED 0 0 0 4 SEQUENCED 1 0 SLOTS 24 0 MADE_F 12 0 1 0 1 1 / \
ACCEPTED 0 0 0 5 53 0 0 0 2 0 1 0 SLOTS 22 0 18 0 1 0 0 2 HELD 12 0 1 0 1 2 13 0 / \
ACCEPTED 0 0 0 3 SEQUENCED 2 0 SLOTS 22 0 14 0 2 0 1 1 / \
ACCEPTED 0 10010 0 3 53 0 0 0 2 0 2 0 SLOTS 22 0 13 10010 0 5 0 5 2 0 1 1 'a' 0x000000 | 8 3 13 O 10010
a lock of another client | \
CALL SYS EXCHANGE 'c2' REST / CALL SYS CREATE 0 2 1 0 CHANNEL CHANNEL 0 0 / \
CALL SYS 0 2 4 SEQUENCE 1 0 0 1 24 MAKE_F 12 2 0 0 0 0 10 1 0 ID_1 0 0 1 1 'a' 0x000000 / \
CALL SYS 0 2 3 53 0 0 2 0 1 0 0 1 PUT_F 14 2 0 1 0 1 1 0 0 0 10 | \
EXCHANGED 0 2 SERVER / CREATED 0 0 2 0 1 0 CHANNEL CHANNEL / ACCEPTED 0 0 0 4 SEQUENCED 1 0 SLOTS 24 0 MADE_F 12 0 1 0 1 1 / \
ACCEPTED 0 10025 0 3 53 0 0 0 2 0 1 0 SLOTS 22 0 14 10025 | 6 3 14 O 10025
";

/// In a table: a name, what is recorded, the replies, and the lines of the audit stream.
const OUTSIDE: &str = "
locks without a session | \
CALL SYS 0 2 1 12 1 0 0 0 0 10 1 0 ID_1 0 0 1 1 'a' 0x000000 / CALL SYS 0 2 1 13 1 0 0 0 10 0 1 1 'a' 0x000000 / \
CALL SYS 0 2 1 14 1 0 1 0 1 1 0 0 0 10 | \
ACCEPTED 0 10071 0 1 12 10071 / ACCEPTED 0 10071 0 1 13 10071 / ACCEPTED 0 10071 0 1 14 10071 | \
1 1 12 S 10071 | 2 1 13 S 10071 | 3 1 14 S 10071
";

/// Stories: a level alone, whose client and session begin; or a level, a sequence and seconds, the operations behind a
/// SEQUENCE, what is due, and the line of the audit stream.
const LEVELS: &str = "
# a lock, another beside it, and a part that is unlocked
0
3
0 1 100 | 24 MAKE_F 12 2 0 0 0 0 10 1 0 ID_1 0 0 1 1 'a' 0x000000 | 0 4 24 0 MADE_F 12 0 1 0 1 1
0 2 100 | PUT_F 12 1 0 0 9 0 1 1 0 ID_1 0 0 1 1 'b' 0x000000 | \
10010 3 22 0 12 10010 0 0 0 10 2 0 1 1 'a' 0x000000 | 3 12 O 10010
0 3 100 | PUT_F 14 2 0 1 0 1 1 0 4 0 2 12 1 0 0 4 0 2 1 0 ID_1 0 0 1 1 'b' 0x000000 | 0 4 22 0 14 0 2 0 1 1 12 0 1 0 1 2
3 1 100 | PUT_F 12 1 0 0 0 0 10 1 0 1 3 0 1 0 3 1 1 'c' 0x000000 | 13 3 22 0 12 13 | 3 12 M7 13
3 2 100 | PUT_F 13 1 0 0 0 10 0 3 1 'c' 0x000000 | 10010 3 22 0 13 10010 0 0 0 4 2 0 1 1 'a' 0x000000 | 3 13 O 10010
3 3 100 | PUT_F 12 1 1 0 0 0 10 1 0 1 3 0 1 0 3 1 1 'c' 0x000000 | 10033 3 22 0 12 10033 | 3 12 O 10033
0 4 100 | PUT_F 13 2 0 4 0 2 0 1 1 'c' 0x000000 | 10010 3 22 0 13 10010 0 4 0 2 1 0 1 1 'b' 0x000000 | 3 13 O 10010
0 5 100 | PUT_F 13 2 0 6 0 1 0 1 1 'c' 0x000000 | 10010 3 22 0 13 10010 0 6 0 4 2 0 1 1 'a' 0x000000 | 3 13 O 10010
# a file that is raised, with a lock from below
0
3
0 1 100 | 24 MAKE_F 12 2 0 0 0 0 10 1 0 ID_1 0 0 1 1 'a' 0x000000 34 ANON LABEL_3 | \
0 5 24 0 MADE_F 12 0 1 0 1 1 34 0 LABELLED
3 1 100 | PUT_F 18 0 3 0 BY_O 0 4 12 1 0 0 0 0 5 1 0 1 3 0 1 0 3 1 1 'c' 0x000000 | \
10010 4 22 0 18 0 1 3 0 1 HELD 12 10010 0 0 0 10 2 0 1 1 'a' 0x000000 | 4 12 O 10010
3 2 100 | PUT_F 12 2 0 0 20 0 5 1 0 1 3 0 1 0 3 1 1 'c' 0x000000 | 0 3 22 0 12 0 1 3 1 1
3 3 100 | PUT_F 13 1 0 0 0 30 0 3 1 'd' 0x000000 | 10010 3 22 0 13 10010 0 0 0 10 2 0 1 1 'a' 0x000000 | 3 13 O 10010
0 2 100 | PUT_F 14 2 0 1 0 1 1 0 0 0 30 | 0 3 22 0 14 0 2 0 1 1
0 3 100 | PUT_F 12 1 0 0 20 0 5 0 2 0 1 1 0 | 13 3 22 0 12 13 | 3 12 M7 13
0 4 100 | PUT_F 13 1 0 20 0 5 0 1 1 'b' 0x000000 | 13 3 22 0 13 13 | 3 13 M1 13
3 4 100 | PUT_F 13 1 0 0 0 30 0 3 1 'd' 0x000000 | 10010 3 22 0 13 10010 0 20 0 5 2 3 1 1 'c' 0x000000 | 3 13 O 10010
3 5 100 | PUT_F 12 2 0 0 0 0 5 0 1 3 1 1 0 | 0 3 22 0 12 0 2 3 1 1
# a silent client below, whose lock stays
0
3
0 1 100 | 24 MAKE_F 12 2 0 0 0 0 10 1 0 ID_1 0 0 1 1 'a' 0x000000 | 0 4 24 0 MADE_F 12 0 1 0 1 1
3 1 190 | PUT_F 13 1 0 0 0 10 0 3 1 'c' 0x000000 | 10010 3 22 0 13 10010 0 0 0 10 2 0 1 1 'a' 0x000000 | 3 13 O 10010
3 2 191 | PUT_F 13 1 0 0 0 10 0 3 1 'c' 0x000000 | 0 3 22 0 13 0
0 2 200 | PUT_F 14 2 0 1 0 1 1 0 0 0 5 | 0 3 22 0 14 0 2 0 1 1
3 3 201 | PUT_F 13 1 0 0 0 10 0 3 1 'c' 0x000000 | 10010 3 22 0 13 10010 0 5 0 5 2 0 1 1 'a' 0x000000 | 3 13 O 10010
";

/// A file of zeros is read so that 1,064 bytes are left of a response of 2,048, and then 1,060: 128 are reserved.
fn room_for_a_denial(alloc: Global) -> Result<String, AllocError> {
    let zeros = "00".repeat(alloc, 776)?;
    format!(in alloc;
        "room for what a lock that stands in the way has | \
CALL SYS EXCHANGE 'c1' REST / CALL SYS CREATE 0 1 1 0 0 65536 2048 65536 32 16 0 CHANNEL 0 0 / \
CALL SYS 0 2 4 SEQUENCE 1 0 0 1 24 MAKE_F 34 ANON SIZE 1900 / \
CALL SYS 0 2 4 SEQUENCE 2 0 0 1 PUT_F 25 ANON 0 0 776 13 1 0 0 0 10 0 1 1 'a' 0x000000 / \
CALL SYS 0 2 4 SEQUENCE 3 0 0 1 PUT_F 25 ANON 0 0 780 13 1 0 0 0 10 0 1 1 'a' 0x000000 | \
EXCHANGED 0 1 SERVER / CREATED 0 0 1 0 1 0 0 65536 2048 2048 32 16 0 CHANNEL / \
ACCEPTED 0 0 0 4 SEQUENCED 1 0 SLOTS 24 0 MADE_F 34 0 1 16 / \
ACCEPTED 0 0 0 4 SEQUENCED 2 0 SLOTS 22 0 25 0 0 776 0x{zeros} 13 0 / \
ACCEPTED 0 10066 0 4 SEQUENCED 3 0 SLOTS 22 0 25 0 0 780 0x{zeros}00000000 13 10066 | 5 4 13 R 10066"
    )
}

#[test]
fn tests_in_order(rt: HostRuntime) -> Result<(), Flaw> {
    check_operations(&rt, rt.alloc(), TESTS, 40)?;
    check(&rt, rt.alloc(), OUTSIDE, 1)?;
    check_row(&rt, rt.alloc(), &room_for_a_denial(rt.alloc())?)
}

#[test]
fn clients_and_levels(rt: HostRuntime) -> Result<(), Flaw> {
    check_opened(&rt, rt.alloc(), CLIENTS, 5)?;
    check_stories(&rt, rt.alloc(), LEVELS, 3)
}

/// The operations of a request behind its SEQUENCE, which are at most 31, and their results.
#[derive(Drop)]
struct Request {
    operations: String,
    results: String,
    count: usize,
}

impl Request {
    /// A PUTFH of the first file.
    fn new(alloc: Global) -> Result<Request, AllocError> {
        Ok(Request {
            operations: String::from_str(alloc, "PUT_F")?,
            results: String::from_str(alloc, "22 0")?,
            count: 2,
        })
    }

    /// Adds an operation and its result.
    fn put(&mut self, operation: &str, due: &str) -> Result<(), AllocError> {
        self.operations.push_str(" ")?;
        self.operations.push_str(operation)?;
        self.results.push_str(" ")?;
        self.results.push_str(due)?;
        self.count = self.count.saturating_add(1);
        Ok(())
    }

    /// Adds it to a story, under a sequence.
    fn tell(&self, alloc: Global, story: &mut Story, sequence: usize) -> Result<(), Flaw> {
        let Request {
            operations,
            results,
            count,
        } = self;
        let line = format!(in alloc; "0 {sequence} 100 | {operations} | 0 {count} {results}")?;
        story.put(alloc, &line)
    }
}

/// How many LOCKs stand in a request behind its SEQUENCE and a PUTFH, which has 32 operations then.
const LOCKS_OF_A_REQUEST: usize = 30;

/// Adds requests of LOCKs that are told by their number, up to so many, and gives the next sequence.
fn put_all<F: Fn(Global, usize) -> Result<(String, String), AllocError>>(
    alloc: Global,
    story: &mut Story,
    all: usize,
    told: F,
) -> Result<usize, Flaw>
    requires { F.IsAlwaysCallable told }
{
    let mut sequence = 2usize;
    let mut number = 0usize;
    for _ in 0..all.div_ceil(LOCKS_OF_A_REQUEST) {
        let mut request = Request::new(alloc)?;
        for _ in 0..LOCKS_OF_A_REQUEST.min(all.saturating_sub(number)) {
            number = number.saturating_add(1);
            let (lock, due) = told(alloc, number)?;
            request.put(&lock, &due)?;
        }
        request.tell(alloc, story, sequence)?;
        sequence = sequence.saturating_add(1);
    }
    Ok(sequence)
}

/// A lock of one byte, of an owner of its own.
fn of_an_owner(alloc: Global, number: usize) -> Result<(String, String), AllocError> {
    let owner = number.saturating_add(10_000);
    let lock = format!(in alloc; "12 1 0 0 0 0 1 1 0 ID_1 0 0 1 5 '{owner}' 0x000000")?;
    Ok((lock, format!(in alloc; "12 0 1 0 1 {number}")?))
}

/// A lock for read of one byte of the first lock, which is for write: it parts a range, so that there are two more.
fn of_a_part(alloc: Global, number: usize) -> Result<(String, String), AllocError> {
    let offset = number.saturating_mul(2);
    let sequence = number.saturating_add(1);
    let lock = format!(in alloc; "12 1 0 0 {offset} 0 1 0 0 0 1 1 0")?;
    Ok((lock, format!(in alloc; "12 0 {sequence} 0 1 1")?))
}

/// A level has 1,024 locks, and no further one: not of another client either, in whose way they don't stand since the lease of
/// theirs is over. When their open has ended, there is room again.
#[test]
fn locks_of_a_level(rt: HostRuntime) -> Result<(), Flaw> {
    let alloc = rt.alloc();
    let mut story = Story::new(alloc);
    story.open(0)?;
    story.put(alloc, "0 1 100 | 24 MAKE_F | 0 3 24 0 MADE_F")?;
    let next = put_all(alloc, &mut story, 1_024, of_an_owner)?;
    story.put(
        alloc,
        &format!(in alloc;
            "0 {next} 100 | PUT_F 12 1 0 0 5 0 1 0 1 0 1 1 0 12 1 0 0 0 0 1 1 0 ID_1 0 0 1 1 'x' 0x000000 | \
28 4 22 0 12 0 2 0 1 1 12 28 | 4 12 Q 28"
        )?,
    )?;
    story.tell("CALL SYS EXCHANGE 'c2' REST", "EXCHANGED 0 2 SERVER", "")?;
    story.tell(
        "CALL SYS CREATE 0 2 1 0 CHANNEL CHANNEL 0 0",
        "CREATED 0 0 2 0 1 0 CHANNEL CHANNEL",
        "",
    )?;
    story.tell(
        "@0.191 CALL SYS 0 2 4 53 0 0 2 0 1 0 0 1 PUT_F 18 0 3 0 BY_O 0 4 12 2 0 0 0 0 1 1 0 1 0 0 2 0 0 2 1 'x' 0x000000",
        "ACCEPTED 0 28 0 4 53 0 0 0 2 0 1 0 SLOTS 22 0 18 0 1 0 0 2 HELD 12 28",
        "4 12 Q 28",
    )?;
    let next = next.saturating_add(1);
    story.put(
        alloc,
        &format!(in alloc;
            "0 {next} 192 | PUT_F 4 0 ID_1 18 0 3 0 BY_P 0 4 12 1 0 0 0 0 1 1 0 1 0 0 3 0 0 1 1 'x' 0x000000 | \
0 5 22 0 4 0 CLOSED 18 0 1 0 0 3 HELD 12 0 1 0 1 1025"
        )?,
    )?;
    story.check(&rt, alloc, "locks of a level")
}

/// All locks of a level have 4,096 ranges, and no more, whoever asks for one and whether it comes by a lock or an unlock.
#[test]
fn ranges_of_a_level(rt: HostRuntime) -> Result<(), Flaw> {
    let alloc = rt.alloc();
    let mut story = Story::new(alloc);
    story.open(0)?;
    story.put(
        alloc,
        "0 1 100 | 24 MAKE_F 12 2 0 0 0 0 10000 1 0 ID_1 0 0 1 1 'a' 0x000000 | 0 4 24 0 MADE_F 12 0 1 0 1 1",
    )?;
    let next = put_all(alloc, &mut story, 2_047, of_a_part)?;
    story.put(
        alloc,
        &format!(in alloc;
            "0 {next} 100 | PUT_F 12 1 0 0 10000 0 1 0 0 0 1 1 0 12 1 0 0 20000 0 1 1 0 ID_1 0 0 1 1 'b' 0x000000 | \
28 4 22 0 12 0 2049 0 1 1 12 28 | 4 12 Q 28"
        )?,
    )?;
    let next = next.saturating_add(1);
    story.put(
        alloc,
        &format!(in alloc;
            "0 {next} 100 | PUT_F 12 1 0 0 20000 0 1 0 0 0 1 1 0 | 28 3 22 0 12 28 | 3 12 Q 28"
        )?,
    )?;
    let next = next.saturating_add(1);
    story.put(
        alloc,
        &format!(in alloc;
            "0 {next} 100 | PUT_F 14 1 0 0 0 1 1 0 9000 0 1 | 28 3 22 0 14 28 | 3 14 Q 28"
        )?,
    )?;
    let next = next.saturating_add(1);
    story.put(
        alloc,
        &format!(in alloc;
            "0 {next} 100 | PUT_F 14 1 0 0 0 1 1 0 2 0 1 14 1 0 0 0 1 1 0 9000 0 1 | 0 4 22 0 14 0 2050 0 1 1 14 0 2051 0 1 1"
        )?,
    )?;
    story.check(&rt, alloc, "ranges of a level")
}
