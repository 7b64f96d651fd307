//! Labels that the server carries alone, in recordings under a policy with the mode `limited` (RFC 7862 section 9.6.2): each
//! is shown byte for byte as it was given. All is laid out by hand, in words.
//!
//! Of the operations' numbers, 4 is CLOSE, 6 CREATE, 9 GETATTR, 15 LOOKUP, 18 OPEN, 22 PUTFH, 24 PUTROOTFH, 26 READDIR and
//! 34 SETATTR. The number of no label format of the policy is 999, and so is 7.
use lnfs_test_support::flaw::Flaw;
use lnfs_test_support::operations::check_operations_under;
use lnfs_test_support::sessions::check_opened_under;
use lnfs_test_support::site::POLICY;
use std::alloc::{AllocError, Global};

/// In a table: a name; the operations behind a SEQUENCE, with their count; the status of the COMPOUND, the count of its
/// results and the results behind that of SEQUENCE; and the line of the audit stream, without the event's place.
const LABELS: &str = "
of the root and of a directory of the policy | 24 9 LABELLED 15 3 'one' 0x00 9 LABELLED | 0 5 24 0 9 0 LABEL_0 15 0 9 0 LABEL_1
of no format, set by CREATE | 24 6 2 1 'd' 0x000000 LABELLED 16 999 5 1 0x78000000 9 LABELLED | \
0 4 24 0 6 0 1 0 1 0 2 LABELLED 9 0 LABELLED 16 999 5 1 0x78000000
of no bytes, set by CREATE of a link | 24 6 5 1 't' 0x000000 1 'l' 0x000000 LABELLED 12 999 5 0 9 LABELLED | \
0 4 24 0 6 0 1 0 1 0 2 LABELLED 9 0 LABELLED 12 999 5 0
of a level in the second format, set by OPEN and shown by READDIR | \
24 18 0 3 0 BY_O 1 0 LABELLED 20 102 1 5 's1:c0' 0x000000 CALLED_F 24 26 0 5 0 0 0 1000 LABELLED | \
0 5 24 0 18 0 1 0 0 1 1 0 1 0 2 4 LABELLED 0 24 0 26 0 0 0 1 0 6 1 'f' 0x000000 LABELLED 20 102 1 5 's1:c0' 0x000000 0 1
inherited, at each making | 24 6 2 1 'd' 0x000000 LABELLED 16 999 5 1 0x78000000 6 2 1 'e' 0x000000 0 0 MAKE_F 9 LABELLED | \
0 6 24 0 6 0 1 0 1 0 2 LABELLED 6 0 1 0 1 0 2 0 MADE_F 9 0 LABELLED 16 999 5 1 0x78000000
set by SETATTR, lower than before | 22 12 0 0 4 9 LABELLED 34 0 0 0 0 LABELLED 16 7 0 2 'yz' 0x0000 9 LABELLED | \
0 5 22 0 9 0 LABEL_3 34 0 LABELLED 9 0 LABELLED 16 7 0 2 'yz' 0x0000
of one node alone | 24 6 2 1 'd' 0x000000 0 0 34 0 0 0 0 LABELLED 16 7 0 2 'yz' 0x0000 24 9 LABELLED 15 3 'two' 0x00 9 LABELLED | \
0 8 24 0 6 0 1 0 1 0 2 0 34 0 LABELLED 24 0 9 0 LABEL_0 15 0 9 0 LABEL_2
";

/// What is refused though no rule of labels but that of identifiers is asked.
const REFUSED: &str = "
a handle of another level | 22 12 1 0 9 | 70 2 22 70 | 2 22 N 70
a state id of another level | 24 MAKE_F 4 0 1 1 0 1 | 10025 4 24 0 MADE_F 4 10025 | 4 4 M9 10025
a size of a directory whose label is high | 22 12 0 0 4 34 0 0 0 0 1 16 8 0 0 | 21 3 22 0 34 21 0 | 3 34 N 21
";

/// In a table: a name, what is recorded behind a client and its session, the replies, and the lines of the audit stream.
const EVENTS: &str = "
a request that comes again | \
CALL SYS 0 2 4 SEQUENCE 1 0 0 1 24 6 2 1 'd' 0x000000 LABELLED 16 999 5 1 0x78000000 9 LABELLED / \
CALL_2 SYS 0 2 4 SEQUENCE 1 0 0 1 24 6 2 1 'd' 0x000000 LABELLED 16 999 5 1 0x78000000 9 LABELLED | \
ACCEPTED 0 0 0 4 SEQUENCED 1 0 SLOTS 24 0 6 0 1 0 1 0 2 LABELLED 9 0 LABELLED 16 999 5 1 0x78000000 / \
ACCEPTED_2 0 0 0 4 SEQUENCED 1 0 SLOTS 24 0 6 0 1 0 1 0 2 LABELLED 9 0 LABELLED 16 999 5 1 0x78000000
a guest of another level, and one of no guest line, are of level 0 | \
@1 CALL SYS_300 EXCHANGE 'c3' REST / @1 CALL SYS_5 EXCHANGE 'c5' REST | EXCHANGED 0 2 SERVER / EXCHANGED 0 3 SERVER
a caller who asserts a label | CREATE_7 ARGS_3 | DENIED 5 | 3 0 0 C 5
";

/// Labels of so many bytes, with the zeros that fill the last word: the list's length, and the label.
fn label_of(alloc: Global, size: usize, zeros: &str) -> Result<String, AllocError> {
    let bytes = "61".repeat(alloc, size)?;
    let list = size.saturating_add(12).saturating_add(zeros.len() / 2);
    format!(in alloc; "LABELLED {list} 999 5 {size} 0x{bytes}{zeros}")
}

/// Rows with the longest label, set by each operation that sets one, and with one that is too long.
fn long_labels(alloc: Global) -> Result<String, AllocError> {
    let most = label_of(alloc, 1024, "")?;
    let more = label_of(alloc, 1025, "000000")?;
    format!(in alloc;
        "
1,024 bytes, by CREATE | 24 6 2 1 'd' 0x000000 {most} 9 LABELLED | 0 4 24 0 6 0 1 0 1 0 2 LABELLED 9 0 {most}
by OPEN | 24 18 0 3 0 BY_O 1 0 {most} CALLED_F 9 LABELLED | 0 4 24 0 18 0 1 0 0 1 1 0 1 0 2 4 LABELLED 0 9 0 {most}
by SETATTR | 24 34 0 0 0 0 {most} 9 LABELLED | 0 4 24 0 34 0 LABELLED 9 0 {most}
1,025 bytes, by CREATE | 24 6 2 1 'd' 0x000000 {more} | 10093 3 24 0 6 10093 | 3 6 A 10093
by OPEN | 24 18 0 3 0 BY_O 1 0 {more} CALLED_F | 10093 3 24 0 18 10093 | 3 18 A 10093
by SETATTR | 24 34 0 0 0 0 {more} | 10093 3 24 0 34 10093 0 | 3 34 A 10093
"
    )
}

#[test]
fn labels_that_are_carried(rt: HostRuntime) -> Result<(), Flaw> {
    let limited = POLICY.replace(rt.alloc(), "mode enforcing", "mode limited")?;
    check_operations_under(&rt, rt.alloc(), &limited, LABELS, 7)?;
    check_operations_under(&rt, rt.alloc(), &limited, &long_labels(rt.alloc())?, 6)?;
    check_operations_under(&rt, rt.alloc(), &limited, REFUSED, 3)?;
    check_opened_under(&rt, rt.alloc(), &limited, EVENTS, 3)
}
