//! Sparse files and clones in recordings. All are laid out by hand, in words, from RFC 7862 sections 15.1 (ALLOCATE), 15.4
//! (DEALLOCATE), 15.11 (SEEK) and 15.13 (CLONE).
//!
//! Of the operations' numbers, 6 is CREATE, 9 GETATTR, 18 OPEN, 22 PUTFH, 24 PUTROOTFH, 25 READ, 32 SAVEFH, 34 SETATTR, 38 WRITE, 59
//! ALLOCATE, 62 DEALLOCATE, 69 SEEK and 71 CLONE. Behind 59 and 62 stand a state id, an offset and a length of two words each;
//! behind 69 a state id, an offset, and 0 for data or 1 for a hole; behind 71 the state ids of the source and of the target, their
//! offsets, and a count. Of attributes, 16 is the size, and 24 the change number and the size; of the second word, 0x00008000 is the
//! time of access. A block has 4,096 bytes.
use lnfs_test_support::flaw::Flaw;
use lnfs_test_support::operations::check_operations;
use lnfs_test_support::stories::check_stories;

/// In a table: a name; the operations behind a SEQUENCE; the status, the count of results and the results behind that of
/// SEQUENCE; and the line of the audit stream, without the event's place.
const SEEKS: &str = "
data and holes of a file of zeros but for one byte | 24 MAKE_F 34 ANON SIZE 10000 38 ANON 0 5000 2 1 0x01000000 \
69 ANON 0 0 0 69 ANON 0 4096 1 69 ANON 0 8192 0 69 ANON 0 0 1 69 ANON 0 9000 1 69 ANON 0 8191 0 69 ANON 0 10000 0 | \
6 12 24 0 MADE_F 34 0 1 16 38 0 1 2 0 0 69 0 0 0 4096 69 0 0 0 8192 69 0 1 0 10000 69 0 0 0 0 69 0 0 0 9000 69 0 0 0 8191 69 6 | \
12 69 N 6
zeros that were written are a hole | 24 MAKE_F 34 ANON SIZE 20480 38 ANON 0 4096 2 4 0x00000000 38 ANON 0 12300 2 1 0x01000000 \
69 ANON 0 0 0 69 ANON 0 12288 1 69 ANON 0 12301 0 69 ANON 0 16384 0 69 ANON 0 5000 1 | \
0 11 24 0 MADE_F 34 0 1 16 38 0 4 2 0 0 38 0 1 2 0 0 69 0 0 0 12288 69 0 0 0 16384 69 0 0 0 12301 69 0 1 0 20480 69 0 0 0 5000
the hole behind the end | 24 MAKE_F SIX 69 ID_1 0 0 1 69 ID_1 0 3 0 | 0 6 24 0 MADE_F WROTE_6 69 0 1 0 6 69 0 0 0 3
data in the last block | 24 MAKE_F 34 ANON SIZE 4096 38 ANON 0 4096 2 1 0x01000000 69 ID_1 0 0 0 69 ID_1 0 4096 1 | \
0 7 24 0 MADE_F 34 0 1 16 38 0 1 2 0 0 69 0 0 0 4096 69 0 1 0 4097
an empty file | 24 MAKE_F 69 ANON 0 0 0 | 6 4 24 0 MADE_F 69 6 | 4 69 N 6
no sort, without a file handle | 69 ANON 0 0 2 | 10090 2 69 10090 | 2 69 A 10090
a search without a file handle | 69 ANON 0 0 1 | 10020 2 69 10020 | 2 69 N 10020
a search in a directory | 24 69 ANON 0 0 0 | 10083 3 24 0 69 10083 | 3 69 N 10083
a search in a symbolic link | 24 6 5 4 'text' 1 'l' 0x000000 0 0 69 ANON 0 0 0 | 10083 4 24 0 6 0 1 0 1 0 2 0 69 10083 | 4 69 N 10083
a search by the current state id | 24 MAKE_F SIX 69 CURRENT 0 0 0 | 10025 5 24 0 MADE_F WROTE_6 69 10025 | 5 69 O 10025
a search under an open for writing | 24 18 0 2 0 BY_O PLAIN CALLED_F 69 ID_1 0 0 0 | 10038 4 24 0 MADE_F 69 10038 | 4 69 O 10038
";

/// The same of ALLOCATE and DEALLOCATE.
const REGIONS: &str = "
a file that grows, and one that doesn't | 24 MAKE_F 59 ID_1 0 100 0 28 9 1 24 59 ID_1 0 0 0 128 9 1 24 25 ID_1 0 126 10 | \
0 8 24 0 MADE_F 59 0 9 0 1 24 16 0 2 0 128 59 0 9 0 1 24 16 0 2 0 128 25 0 1 2 0x00000000
bytes that are cleared | 24 MAKE_F 38 ID_1 0 0 2 10 'abcdefghij' 0x0000 62 ID_1 0 2 0 3 9 1 24 62 ID_1 0 10 0 5 9 1 24 \
62 ID_1 0 8 0 100 9 1 24 25 ID_1 0 0 20 | \
0 11 24 0 MADE_F 38 0 10 2 0 0 62 0 9 0 1 24 16 0 3 0 10 62 0 9 0 1 24 16 0 3 0 10 62 0 9 0 1 24 16 0 4 0 10 \
25 0 1 10 'ab' 0x000000 'fgh' 0x0000 0x0000
data that is cleared is a hole | 24 MAKE_F 38 ID_1 0 4096 2 4 'abcd' 62 ID_1 0 4096 0 4 69 ID_1 0 0 0 | \
0 6 24 0 MADE_F 38 0 4 2 0 0 62 0 69 0 1 0 4100
a region of nothing, without a file handle | 59 ANON 0 0 0 0 | 22 2 59 22 | 2 59 A 22
nothing to clear, without a file handle | 62 ANON 0 7 0 0 | 22 2 62 22 | 2 62 A 22
a region past the last offset | 59 ANON 4294967295 4294967295 0 1 | 22 2 59 22 | 2 59 A 22
a region up to the last offset | 24 MAKE_F 62 ANON 4294967295 4294967294 0 1 59 ANON 4294967295 4294967294 0 1 | \
27 5 24 0 MADE_F 62 0 59 27 | 5 59 N 27
the most bytes that a file has, and one more | 24 MAKE_F 59 ID_1 0 0 0 16777216 59 ID_1 0 16777215 0 2 | \
27 5 24 0 MADE_F 59 0 59 27 | 5 59 N 27
a region without a file handle | 62 ANON 0 0 0 1 | 10020 2 62 10020 | 2 62 N 10020
a region of a directory | 24 59 ANON 0 0 0 1 | 10083 3 24 0 59 10083 | 3 59 N 10083
a region of a symbolic link | 24 6 5 4 'text' 1 'l' 0x000000 0 0 62 ANON 0 0 0 1 | 10083 4 24 0 6 0 1 0 1 0 2 0 62 10083 | 4 62 N 10083
a region under an open for reading | 24 18 0 1 0 BY_O PLAIN CALLED_F 62 ID_1 0 0 0 1 | 10038 4 24 0 MADE_F 62 10038 | 4 62 O 10038
a region by the current state id | 24 MAKE_F 59 CURRENT 0 0 0 1 | 10025 4 24 0 MADE_F 59 10025 | 4 59 O 10025
";

/// The same of CLONE.
const CLONES: &str = "
bytes of another file | 24 MAKE_F SIX 32 24 18 0 3 0 BY_O PLAIN 0 1 'g' 0x000000 71 ID_1 1 0 0 2 0 1 0 4 0 3 25 1 0 0 2 0 0 20 9 1 24 | \
0 10 24 0 MADE_F WROTE_6 32 0 24 0 18 0 1 0 0 2 1 0 2 0 3 4 0 0 71 0 25 0 1 7 0x00000000 'bcd' 0x00 9 0 1 24 16 0 2 0 7
all bytes from an offset on | 24 MAKE_F SIX 32 24 18 0 3 0 BY_O PLAIN 0 1 'g' 0x000000 71 ID_1 1 0 0 2 0 2 0 0 0 0 25 1 0 0 2 0 0 20 | \
0 9 24 0 MADE_F WROTE_6 32 0 24 0 18 0 1 0 0 2 1 0 2 0 3 4 0 0 71 0 25 0 1 4 'cdef'
no byte from the end on | 24 MAKE_F SIX 32 24 18 0 3 0 BY_O PLAIN 0 1 'g' 0x000000 71 ID_1 1 0 0 2 0 6 0 9 0 0 9 1 24 | \
0 9 24 0 MADE_F WROTE_6 32 0 24 0 18 0 1 0 0 2 1 0 2 0 3 4 0 0 71 0 9 0 1 24 16 0 1 0 0
bytes of the same file | 24 MAKE_F SIX 32 71 ID_1 ID_1 0 0 0 4 0 2 71 ID_1 ID_1 0 4 0 2 0 2 25 ID_1 0 0 20 | \
0 8 24 0 MADE_F WROTE_6 32 0 71 0 71 0 25 0 1 6 'ababab' 0x0000
ranges of one file with a byte in common | 24 MAKE_F SIX 32 71 ID_1 ID_1 0 0 0 1 0 2 | \
22 6 24 0 MADE_F WROTE_6 32 0 71 22 | 6 71 N 22
all bytes onto themselves | 24 MAKE_F SIX 32 71 ID_1 ID_1 0 0 0 0 0 0 | 22 6 24 0 MADE_F WROTE_6 32 0 71 22 | 6 71 N 22
more bytes than the source has | 24 MAKE_F SIX 32 71 ID_1 ID_1 0 5 0 10 0 2 | 22 6 24 0 MADE_F WROTE_6 32 0 71 22 | 6 71 N 22
bytes from past the end on | 24 MAKE_F SIX 32 71 ID_1 ID_1 0 7 0 10 0 0 | 22 6 24 0 MADE_F WROTE_6 32 0 71 22 | 6 71 N 22
a source that ends past the last offset | 71 ANON ANON 4294967295 4294967295 0 0 0 1 | 22 2 71 22 | 2 71 A 22
a target that ends past the last offset | 71 ANON ANON 0 0 4294967295 4294967295 0 1 | 22 2 71 22 | 2 71 A 22
a target that gets too large | 24 MAKE_F SIX 32 71 ID_1 ID_1 0 0 0 16777215 0 2 | 27 6 24 0 MADE_F WROTE_6 32 0 71 27 | 6 71 N 27
a target whose end has no number | 24 MAKE_F SIX 32 71 ID_1 ID_1 0 0 4294967295 4294967295 0 0 | \
27 6 24 0 MADE_F WROTE_6 32 0 71 27 | 6 71 N 27
no saved file handle | 24 MAKE_F 71 ANON ANON 0 0 0 0 0 0 | 10020 4 24 0 MADE_F 71 10020 | 4 71 N 10020
a directory as the source | 24 32 MAKE_F 71 ANON ANON 0 0 0 0 0 0 | 10083 5 24 0 32 0 MADE_F 71 10083 | 5 71 N 10083
a directory as the target | 24 MAKE_F 32 24 71 ANON ANON 0 0 0 0 0 0 | 10083 6 24 0 MADE_F 32 0 24 0 71 10083 | 6 71 N 10083
a source under an open for writing | 24 18 0 2 0 BY_O PLAIN CALLED_F 32 71 ID_1 ANON 0 0 0 0 0 0 | \
10038 5 24 0 MADE_F 32 0 71 10038 | 5 71 O 10038
a target under an open for reading | 24 18 0 1 0 BY_O PLAIN CALLED_F 32 71 ID_1 ID_1 0 0 0 0 0 0 | \
10038 5 24 0 MADE_F 32 0 71 10038 | 5 71 O 10038
half of the most bytes to the other half, and all of them to another file | \
24 MAKE_F 38 ID_1 0 8388607 2 2 'xy' 0x0000 34 ANON SIZE 16777216 32 71 ID_1 ID_1 0 0 0 8388608 0 8388608 25 ID_1 0 16777214 4 \
24 18 0 3 0 BY_O PLAIN 0 1 'g' 0x000000 71 ID_1 1 0 0 2 0 0 0 0 0 0 9 1 16 25 1 0 0 2 0 8388606 4 | \
0 13 24 0 MADE_F 38 0 2 2 0 0 34 0 1 16 32 0 71 0 25 0 1 2 0x00 'x' 0x0000 \
24 0 18 0 1 0 0 2 1 0 2 0 3 4 0 0 71 0 9 0 1 16 8 0 16777216 25 0 0 4 0x00 'x' 0x0000
";

/// Stories: a level alone, whose client and session begin; or a level, a sequence and seconds, the operations behind a
/// SEQUENCE, what is due, and the line of the audit stream.
const LEVELS: &str = "
# data goes up, and leaves no trace
0
1
0 1 100 | 24 MAKE_F SIX | 0 4 24 0 MADE_F WROTE_6
1 1 200 | PUT_F 32 ONE 18 0 3 0 BY_O PLAIN 0 1 'a' 0x000000 71 ANON 1 1 0 1 0 0 0 0 0 0 25 ANON 0 0 20 | \
0 7 22 0 32 0 22 0 18 0 1 1 0 1 1 0 1 0 2 4 0 0 71 0 25 0 1 6 'abcdef' 0x0000
0 2 300 | PUT_F 9 2 0 0x00008000 | 0 3 22 0 9 0 2 0 0x00008000 12 0 100 0
0 3 301 | PUT_F 69 ANON 0 0 0 9 2 0 0x00008000 | 0 4 22 0 69 0 0 0 0 9 0 2 0 0x00008000 12 0 301 0
1 2 302 | PUT_F 69 ANON 0 0 0 | 0 3 22 0 69 0 0 0 0
0 4 303 | PUT_F 9 2 0 0x00008000 32 71 ANON ANON 0 0 0 10 0 1 9 2 0 0x00008000 | \
0 6 22 0 9 0 2 0 0x00008000 12 0 301 0 32 0 71 0 9 0 2 0 0x00008000 12 0 303 0
# data doesn't go down
0
1
0 1 100 | 24 MAKE_F SIX | 0 4 24 0 MADE_F WROTE_6
1 1 100 | ONE 18 0 3 0 BY_O PLAIN 0 1 'a' 0x000000 32 PUT_F 71 ANON ANON 0 0 0 0 0 0 | \
13 6 22 0 18 0 1 1 0 1 1 0 1 0 2 4 0 0 32 0 22 0 71 13 | 6 71 M2 13
1 2 100 | PUT_F 62 ANON 0 0 0 1 | 13 3 22 0 62 13 | 3 62 M2 13
1 3 100 | PUT_F 59 ANON 0 0 0 1 | 13 3 22 0 59 13 | 3 59 M2 13
0 2 100 | 24 18 0 3 0 BY_O PLAIN 0 1 'g' 0x000000 34 ANON LABEL_1 69 ANON 0 0 0 | \
13 5 24 0 18 0 1 0 0 2 1 0 2 0 3 4 0 0 34 0 LABELLED 69 13 | 5 69 M1 13
0 3 100 | 22 12 0 0 6 32 PUT_F 71 ANON ANON 0 0 0 0 0 0 | 13 5 22 0 32 0 22 0 71 13 | 5 71 M1 13
0 4 100 | 22 12 0 0 6 32 24 71 ANON ANON 0 0 0 0 0 0 | 10083 5 22 0 32 0 24 0 71 10083 | 5 71 N 10083
# 4,096 bytes of level 1
1
1 1 100 | ONE 18 0 3 0 BY_O PLAIN 0 1 'a' 0x000000 34 ANON SIZE 4096 59 ANON 0 4095 0 1 9 1 24 | \
0 6 22 0 18 0 1 1 0 1 1 0 1 0 2 4 0 0 34 0 1 16 59 0 9 0 1 24 16 0 2 0 4096
1 2 100 | 22 12 1 0 1 59 ANON 0 4096 0 1 | 69 3 22 0 59 69 | 3 59 Q 69
1 3 100 | 22 12 1 0 1 59 ANON 0 16777216 0 1 | 27 3 22 0 59 27 | 3 59 N 27
1 4 100 | 22 12 1 0 1 32 71 ANON ANON 0 0 0 4096 0 1 | 69 4 22 0 32 0 71 69 | 4 71 Q 69
1 5 100 | 22 12 1 0 1 32 71 ANON ANON 0 0 0 4095 0 1 | 0 4 22 0 32 0 71 0
# a lock and a clone in one COMPOUND
0
0 1 100 | 24 MAKE_F SIX 12 2 0 0 0 0 10 1 0 ID_1 0 0 1 1 'a' 0x000000 32 71 ID_1 ID_1 0 0 0 6 0 6 13 1 0 0 0 1 0 1 1 'b' 0x000000 | \
10010 8 24 0 MADE_F WROTE_6 12 0 1 0 1 1 32 0 71 0 13 10010 0 0 0 10 2 0 1 1 'a' 0x000000 | 8 13 O 10010
";

#[test]
fn data_and_holes(rt: HostRuntime) -> Result<(), Flaw> {
    check_operations(&rt, rt.alloc(), SEEKS, 11)
}

#[test]
fn regions(rt: HostRuntime) -> Result<(), Flaw> {
    check_operations(&rt, rt.alloc(), REGIONS, 13)
}

#[test]
fn clones(rt: HostRuntime) -> Result<(), Flaw> {
    check_operations(&rt, rt.alloc(), CLONES, 18)
}

#[test]
fn levels(rt: HostRuntime) -> Result<(), Flaw> {
    check_stories(&rt, rt.alloc(), LEVELS, 4)
}
