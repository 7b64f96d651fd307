//! Contexts in recordings: calls in them that are refused, their end, and how many a level has. All are laid out by hand, in
//! words, from RFC 2203 section 5 and RFC 7861 section 2, in this project's own layout.
//!
//! A signature is told by hand: the number of the parent, the length of what it covers, and 24 zero bytes. A DATA or a
//! DESTROY has 68 bytes from its xid through its credential. In a credential stand its length, the version, the gss_proc (0
//! DATA, 3 DESTROY, 5 CREATE), the sequence number, the service and the handle: its length, parent, level and number. Of the
//! operations' numbers, 42 is EXCHANGE_ID and 53 SEQUENCE.
use crate::asserting::{Refused, check_asserted, check_refused, check_under};
use crate::labels::cleared;
use lnfs_test_support::flaw::Flaw;
use lnfs_test_support::site::POLICY;
use std::alloc::{AllocError, Global};

/// The first context of level 3 and a slash, and the same behind the replies.
const BEFORE: &str = "CREATE_7 ARGS_3 / ";

const TOLD_BEFORE: &str = "SIGNED_56 0 64 9 16 7 3 0 1 ASSERT_3 CHECKSUM 64 ZEROS / ";

/// An EXCHANGE_ID in that context, and the reply where it makes the first client of level 3.
const CALL: &str = "DATA_1 BODY";

const CALLED: &str = "SIGNED_68 0 88 10 0 0 1 42 0 3 1 SERVER CHECKSUM 88 ZEROS";

/// In a table: a name, and a call behind the first context of level 3.
///
/// Calls whose credential, handle, parent or verifier isn't good, or whose procedure isn't the one that is due.
const UNKNOWN: &str = "
version 2 | CALL 6 36 2 0 10 2 16 7 3 0 1 VERF 68 ZEROS BODY
CREATE | CALL 6 36 3 5 10 2 16 7 3 0 1 VERF 68 ZEROS BODY
CONTINUE_INIT | CALL 6 36 3 2 10 2 16 7 3 0 1 VERF 68 ZEROS BODY
a gss_proc that there isn't | CALL 6 36 3 7 10 2 16 7 3 0 1 VERF 68 ZEROS BODY
no service | CALL 6 36 3 0 10 0 16 7 3 0 1 VERF 68 ZEROS BODY
without a signature | CALL 6 36 3 0 10 1 16 7 3 0 1 VERF 68 ZEROS BODY
with privacy | CALL 6 36 3 0 10 3 16 7 3 0 1 VERF 68 ZEROS BODY
in NULL | NULL 6 36 3 0 10 2 16 7 3 0 1 VERF 68 ZEROS BODY
in NULL, with no arguments | NULL 6 36 3 0 10 2 16 7 3 0 1 VERF 68 ZEROS
an empty handle | CALL 6 20 3 0 10 2 0 VERF 52 ZEROS BODY
the handle of a parent | CALL 6 24 3 0 10 2 4 7 VERF 56 ZEROS BODY
a handle of 12 bytes | CALL 6 32 3 0 10 2 12 7 3 1 VERF 64 ZEROS BODY
a handle of 15 bytes | CALL 6 36 3 0 10 2 15 7 3 0 1 VERF 68 ZEROS BODY
a handle of 17 bytes | CALL 6 40 3 0 10 2 17 7 3 0 1 0 VERF 72 ZEROS BODY
a word behind the handle | CALL 6 40 3 0 10 2 16 7 3 0 1 0 VERF 72 ZEROS BODY
the unknown parent 8 | DATA 8 3 0 1 6 32 8 68 ZEROS 48 10 EXCHANGE 'c1' REST 32 8 48 ZEROS
the unknown parent 8, signed by parent 7 | DATA 8 3 0 1 VERF 68 ZEROS BODY
a level that there isn't | DATA 7 4 0 1 VERF 68 ZEROS BODY
a level of 32 bits | DATA 7 0xffffffff 0 1 VERF 68 ZEROS BODY
a verifier of a byte less | DATA 7 3 0 1 VERF 67 ZEROS BODY
a verifier by parent 8 | DATA 7 3 0 1 6 32 8 68 ZEROS BODY
a verifier of 31 bytes | DATA 7 3 0 1 6 31 7 68 ZEROS BODY
a verifier of the flavor 0 | DATA 7 3 0 1 0 0 BODY
a bad verifier, before bad arguments | DATA 7 3 0 1 VERF 67 ZEROS
a bad verifier, before a context that isn't there | DATA 7 3 0 2 VERF 67 ZEROS BODY
the end, in COMPOUND | CALL 6 36 3 3 11 0 16 7 3 0 1 VERF 68 ZEROS
the end, of version 2 | NULL 6 36 2 3 11 0 16 7 3 0 1 VERF 68 ZEROS
the end, by a handle of 15 bytes | NULL 6 36 3 3 11 0 15 7 3 0 1 VERF 68 ZEROS
the end, by a handle of 17 bytes | NULL 6 40 3 3 11 0 17 7 3 0 1 0 VERF 72 ZEROS
the end, under the unknown parent 8 | DESTROY 8 3 0 1 6 32 8 68 ZEROS
the end, of a level that there isn't | DESTROY 7 4 0 1 VERF 68 ZEROS
the end, by a bad verifier | DESTROY 7 3 0 1 VERF 69 ZEROS
the end, by a bad verifier, with arguments | DESTROY 7 3 0 1 VERF 69 ZEROS 0
";

/// Calls whose arguments aren't wrapped or aren't signed or are no COMPOUND, and ends that have arguments.
const GARBAGE: &str = "
no arguments | DATA_1
arguments that aren't wrapped | DATA_1 EXCHANGE 'c1' REST
a checksum of a byte less | DATA_1 48 10 EXCHANGE 'c1' REST CHECKSUM 47 ZEROS
a checksum by parent 8 | DATA_1 48 10 EXCHANGE 'c1' REST 32 8 48 ZEROS
an empty checksum | DATA_1 48 10 EXCHANGE 'c1' REST 0
no checksum | DATA_1 48 10 EXCHANGE 'c1' REST
a word behind the checksum | DATA_1 BODY 0
an empty databody | DATA_1 0 CHECKSUM 0 ZEROS
a databody of 3 bytes | DATA_1 3 0x00000a 0x00 CHECKSUM 3 ZEROS
another sequence number | DATA_1 48 11 EXCHANGE 'c1' REST CHECKSUM 48 ZEROS
a sequence number alone | DATA_1 4 10 CHECKSUM 4 ZEROS
a tag alone | DATA_1 8 10 0 CHECKSUM 8 ZEROS
an operation that ends early | DATA_1 44 10 0 2 1 42 0 0 2 'c1' 0x0000 0 0 CHECKSUM 44 ZEROS
a word behind the last operation | DATA_1 52 10 EXCHANGE 'c1' REST 0 CHECKSUM 52 ZEROS
a boolean of 2 in SEQUENCE | DATA_1 52 10 0 2 1 SEQUENCE_3 1 0 0 2 CHECKSUM 52 ZEROS
a bad checksum, in a context that isn't there | DATA 7 3 0 2 VERF 68 ZEROS 48 10 EXCHANGE 'c1' REST CHECKSUM 47 ZEROS
the end, with a word | DESTROY_1 0
the end, with a byte | DESTROY_1 0x00
the end, with wrapped arguments | DESTROY_1 4 11 CHECKSUM 4 ZEROS
the end, with a word, of a context that isn't there | DESTROY 7 3 0 2 VERF 68 ZEROS 0
";

/// Calls in contexts that aren't there.
const NOT_THERE: &str = "
the next number | DATA 7 3 0 2 VERF 68 ZEROS BODY
the number 0 | DATA 7 3 0 0 VERF 68 ZEROS BODY
a number of 33 bits | DATA 7 3 1 1 VERF 68 ZEROS BODY
level 0 | DATA 7 0 0 1 VERF 68 ZEROS BODY
level 1 | DATA 7 1 0 1 VERF 68 ZEROS BODY
another sequence number | DATA 7 3 0 2 VERF 68 ZEROS 48 11 EXCHANGE 'c1' REST CHECKSUM 48 ZEROS
what is no COMPOUND | DATA 7 3 0 2 VERF 68 ZEROS 4 10 CHECKSUM 4 ZEROS
the end of the next number | DESTROY 7 3 0 2 VERF 68 ZEROS
the end of a number of 33 bits | DESTROY 7 3 1 1 VERF 68 ZEROS
the end at level 0 | DESTROY 7 0 0 1 VERF 68 ZEROS
";

/// How these are refused. The context is still there then, and nothing was done in it.
const UNKNOWN_CALL: Refused<'static> = Refused {
    before: BEFORE,
    told_before: TOLD_BEFORE,
    reply: "DENIED 13",
    line: "2 0 0 C 13",
    behind: CALL,
    told_behind: CALLED,
};

const GARBAGE_CALL: Refused<'static> = Refused {
    before: BEFORE,
    told_before: TOLD_BEFORE,
    reply: "SIGNED_68 4",
    line: "2 0 0 P 4",
    behind: CALL,
    told_behind: CALLED,
};

const LOST_CALL: Refused<'static> = Refused {
    before: BEFORE,
    told_before: TOLD_BEFORE,
    reply: "DENIED 14",
    line: "2 0 0 C 14",
    behind: CALL,
    told_behind: CALLED,
};

/// Under a parent that may assert up to level 1: calls at levels that it may not assert, and at such as it may, where there
/// is no context.
const NOT_CLEARED: &str = "
level 2 | DATA 7 2 0 1 VERF 68 ZEROS BODY
level 3 | DATA 7 3 0 1 VERF 68 ZEROS BODY
the end at level 3 | DESTROY 7 3 0 1 VERF 68 ZEROS
";

const CLEARED: &str = "
level 0 | DATA 7 0 0 1 VERF 68 ZEROS BODY
level 1 | DATA 7 1 0 1 VERF 68 ZEROS BODY
the end at level 1 | DESTROY 7 1 0 1 VERF 68 ZEROS
";

/// How these are refused, and behind each a context of level 0.
const NOT_CLEARED_CALL: Refused<'static> = Refused {
    before: "",
    told_before: "",
    reply: "DENIED 13",
    line: "1 0 0 C 13",
    behind: "CREATE_7 40 9 ASSERT_0 CHECKSUM 40 ZEROS",
    told_behind: "SIGNED_56 0 60 9 16 7 0 0 1 ASSERT_0 CHECKSUM 60 ZEROS",
};

const CLEARED_CALL: Refused<'static> = Refused {
    before: "",
    told_before: "",
    reply: "DENIED 14",
    line: "1 0 0 C 14",
    behind: "CREATE_7 40 9 ASSERT_0 CHECKSUM 40 ZEROS",
    told_behind: "SIGNED_56 0 60 9 16 7 0 0 1 ASSERT_0 CHECKSUM 60 ZEROS",
};

/// In a table: a name, what is recorded, the replies, and the lines of the audit stream.
///
/// Contexts that come and go. The service of the end isn't looked at.
const LIVES: &str = "
one that was never made | DATA 7 3 0 2 VERF 68 ZEROS BODY | DENIED 14 | 1 0 0 C 14
one that ends, and the next | \
CREATE_7 ARGS_3 / DESTROY_1 / DATA_1 BODY / DESTROY_1 / CREATE_7 ARGS_3 / DATA 7 3 0 2 VERF 68 ZEROS BODY / DATA_1 BODY | \
SIGNED_56 0 64 9 16 7 3 0 1 ASSERT_3 CHECKSUM 64 ZEROS / SIGNED_68 0 / DENIED 14 / DENIED 14 / \
SIGNED_56 0 64 9 16 7 3 0 2 ASSERT_3 CHECKSUM 64 ZEROS / SIGNED_68 0 88 10 0 0 1 42 0 3 1 SERVER CHECKSUM 88 ZEROS / \
DENIED 14 | 3 0 0 C 14 | 4 0 0 C 14 | 7 0 0 C 14
one that ends under another service, and another beside it | \
CREATE_7 ARGS_3 / CREATE_7 ARGS_3 / NULL 6 36 3 3 11 7 16 7 3 0 1 VERF 68 ZEROS / DATA_1 BODY / \
DATA 7 3 0 2 VERF 68 ZEROS BODY | \
SIGNED_56 0 64 9 16 7 3 0 1 ASSERT_3 CHECKSUM 64 ZEROS / SIGNED_56 0 64 9 16 7 3 0 2 ASSERT_3 CHECKSUM 64 ZEROS / \
SIGNED_68 0 / DENIED 14 / SIGNED_68 0 88 10 0 0 1 42 0 3 1 SERVER CHECKSUM 88 ZEROS | 4 0 0 C 14
one of level 0 and one of level 3, of the same number | \
CREATE_7 ARGS_3 / CREATE_7 40 9 ASSERT_0 CHECKSUM 40 ZEROS / DESTROY_1 / DATA 7 0 0 1 VERF 68 ZEROS BODY / DATA_1 BODY | \
SIGNED_56 0 64 9 16 7 3 0 1 ASSERT_3 CHECKSUM 64 ZEROS / SIGNED_56 0 60 9 16 7 0 0 1 ASSERT_0 CHECKSUM 60 ZEROS / \
SIGNED_68 0 / SIGNED_68 0 88 10 0 0 1 42 0 0 1 SERVER CHECKSUM 88 ZEROS / DENIED 14 | 5 0 0 C 14
";

/// What stands in a policy before its guests: another parent that may assert up to level 3.
const PARENT_9: &str = "\
parent 9 0202020202020202020202020202020202020202020202020202020202020202 3
guest 0 * 0";

/// Contexts of two parents, in which each signs with its own number.
const PARENTS: &str = "\
contexts of parents 7 and 9 | CREATE_7 ARGS_3 / \
NULL 6 24 3 5 9 2 4 9 6 32 9 56 ZEROS 44 9 ASSERT_3 32 9 44 ZEROS / \
DATA 9 3 0 1 6 32 9 68 ZEROS 48 10 EXCHANGE 'c1' REST 32 9 48 ZEROS / DATA 7 3 0 2 VERF 68 ZEROS BODY / \
DATA 7 3 0 1 6 32 9 68 ZEROS 48 10 EXCHANGE 'c1' REST 32 9 48 ZEROS / DATA 9 3 0 2 VERF 68 ZEROS BODY / \
DATA 9 3 0 2 6 32 9 68 ZEROS BODY / DESTROY 9 3 0 1 6 32 9 68 ZEROS / DESTROY 7 3 0 2 VERF 68 ZEROS / \
DATA 9 3 0 2 6 32 9 68 ZEROS 48 10 EXCHANGE 'c1' REST 32 9 48 ZEROS / DATA_1 48 10 EXCHANGE 'c2' REST CHECKSUM 48 ZEROS / \
DESTROY_1 / DATA 9 3 0 2 6 32 9 68 ZEROS 48 10 EXCHANGE 'c3' REST 32 9 48 ZEROS / DESTROY 9 3 0 2 6 32 9 68 ZEROS | \
SIGNED_56 0 64 9 16 7 3 0 1 ASSERT_3 CHECKSUM 64 ZEROS / \
1 1 0 6 32 9 56 ZEROS 0 64 9 16 9 3 0 2 ASSERT_3 32 9 64 ZEROS / \
DENIED 14 / DENIED 14 / DENIED 13 / DENIED 13 / 1 1 0 6 32 9 68 ZEROS 4 / DENIED 14 / DENIED 14 / \
1 1 0 6 32 9 68 ZEROS 0 88 10 0 0 1 42 0 3 1 SERVER 32 9 88 ZEROS / \
SIGNED_68 0 88 10 0 0 1 42 0 3 2 SERVER CHECKSUM 88 ZEROS / SIGNED_68 0 / \
1 1 0 6 32 9 68 ZEROS 0 88 10 0 0 1 42 0 3 3 SERVER 32 9 88 ZEROS / 1 1 0 6 32 9 68 ZEROS 0 | \
3 0 0 C 14 | 4 0 0 C 14 | 5 0 0 C 13 | 6 0 0 C 13 | 7 0 0 P 4 | 8 0 0 C 14 | 9 0 0 C 14";

#[test]
fn calls_that_are_refused(rt: HostRuntime) -> Result<(), Flaw> {
    let alloc = rt.alloc();
    check_refused(&rt, alloc, POLICY, UNKNOWN, 33, &UNKNOWN_CALL)?;
    check_refused(&rt, alloc, POLICY, GARBAGE, 20, &GARBAGE_CALL)?;
    check_refused(&rt, alloc, POLICY, NOT_THERE, 10, &LOST_CALL)
}

#[test]
fn levels_of_contexts(rt: HostRuntime) -> Result<(), Flaw> {
    let alloc = rt.alloc();
    let policy = cleared(alloc, "1")?;
    check_refused(&rt, alloc, &policy, NOT_CLEARED, 3, &NOT_CLEARED_CALL)?;
    check_refused(&rt, alloc, &policy, CLEARED, 3, &CLEARED_CALL)
}

#[test]
fn contexts_that_end(rt: HostRuntime) -> Result<(), Flaw> {
    check_asserted(&rt, rt.alloc(), LIVES, 4)
}

#[test]
fn contexts_of_two_parents(rt: HostRuntime) -> Result<(), Flaw> {
    let policy = POLICY.replace(rt.alloc(), "guest 0 * 0", PARENT_9)?;
    check_under(&rt, rt.alloc(), &policy, PARENTS)
}

/// How many contexts a level may have.
const MOST: usize = 1_024;

/// What is recorded once level 3 has all: one more, one of level 0, calls in the one that wasn't made and in the last that
/// was, and two more once another ended.
const WHEN_FULL: &str = "\
CREATE_7 ARGS_3 / CREATE_7 40 9 ASSERT_0 CHECKSUM 40 ZEROS / DATA 7 3 0 1025 VERF 68 ZEROS BODY / \
DATA 7 3 0 1024 VERF 68 ZEROS BODY / DESTROY 7 3 0 500 VERF 68 ZEROS / CREATE_7 ARGS_3 / CREATE_7 ARGS_3";

/// The replies to these, and their lines.
const FULL: &str = "\
SIGNED_56 5 / SIGNED_56 0 60 9 16 7 0 0 1 ASSERT_0 CHECKSUM 60 ZEROS / DENIED 14 / \
SIGNED_68 0 88 10 0 0 1 42 0 3 1 SERVER CHECKSUM 88 ZEROS / SIGNED_68 0 / \
SIGNED_56 0 64 9 16 7 3 0 1025 ASSERT_3 CHECKSUM 64 ZEROS / SIGNED_56 5 | \
1025 0 0 P 5 | 1027 0 0 C 14 | 1031 0 0 P 5";

/// The reply to a CREATE that asserts level 3, before and behind the number of the context.
const MADE: &str = "SIGNED_56 0 64 9 16 7 3 0 ";

const BEHIND: &str = " ASSERT_3 CHECKSUM 64 ZEROS / ";

/// The row of a level that has all its contexts.
fn full_level(alloc: Global) -> Result<String, AllocError> {
    let mut events = String::new(alloc);
    let mut replies = String::new(alloc);
    for before in 0..MOST {
        let number = before.saturating_add(1);
        events.push_str(BEFORE)?;
        replies.push_str(MADE)?;
        replies.push_str(&format!(in alloc; "{number}")?)?;
        replies.push_str(BEHIND)?;
    }
    format!(in alloc; "all contexts of a level | {events}{WHEN_FULL} | {replies}{FULL}")
}

#[test]
fn contexts_of_a_level(rt: HostRuntime) -> Result<(), Flaw> {
    check_under(&rt, rt.alloc(), POLICY, &full_level(rt.alloc())?)
}
