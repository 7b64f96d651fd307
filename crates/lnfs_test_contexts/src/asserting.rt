//! Contexts that are made in recordings, and calls for one that are refused. All are laid out by hand, in words, from RFC
//! 5531 sections 8.2 and 9, RFC 2203 section 5 and RFC 7861 section 2, in this project's own layout.
//!
//! A signature is told by hand: the number of the parent, the length of what it covers, and 24 zero bytes. A CREATE has 56
//! bytes from its xid through its credential. With a label of 10 bytes its databody has 44 bytes, and that of the reply 64,
//! since a handle of 16 bytes stands before the assertion there.
//!
//! In a credential stand its length, the version, the gss_proc (0 DATA, 3 DESTROY, 5 CREATE), the sequence number, the
//! service and the handle. The policy has one parent, 7, which may assert up to level 3, that is any level.
use crate::codecs::codecs_of;
use lnfs_commands::replay::replay;
use lnfs_gss3::TestMechanism;
use lnfs_outside::{CalmFiles, Files, MemSink};
use lnfs_policy::read_policy;
use lnfs_stage::{Status, World};
use lnfs_test_support::flaw::Flaw;
use lnfs_test_support::records::read_row;
use lnfs_test_support::rows::rows_of;
use lnfs_test_support::runs::{Ran, gives};
use lnfs_test_support::site::{POLICY, file};
use lnfs_vault::Vault;
use std::alloc::{AllocError, Global};
use std::process::Abort;

/// A CREATE that asserts level 3, and the reply where it makes the first context of that level.
const CREATE: &str = "CREATE_7 ARGS_3";

const CREATED: &str = "SIGNED_56 0 64 9 16 7 3 0 1 ASSERT_3 CHECKSUM 64 ZEROS";

/// In a table: a name, what is recorded, the replies, and the lines of the audit stream.
///
/// Contexts that are made.
const MADE: &str = "
of level 3 | CREATE_7 44 9 0 0 1 0 101 1 10 0x000000010103e4000000 0x0000 CHECKSUM 44 ZEROS | \
SIGNED_56 0 64 9 16 7 3 0 1 0 0 1 0 101 1 10 0x000000010103e4000000 0x0000 CHECKSUM 64 ZEROS
by a caller of another class | @1 CREATE_7 ARGS_3 | SIGNED_56 0 64 9 16 7 3 0 1 ASSERT_3 CHECKSUM 64 ZEROS
under another xid and another sequence number | \
7 0 2 100003 4 0 6 24 3 5 0xffffffff 2 4 7 VERF 56 ZEROS 44 0xffffffff ASSERT_3 CHECKSUM 44 ZEROS | \
7 1 0 VERF 56 ZEROS 0 64 0xffffffff 16 7 3 0 1 ASSERT_3 CHECKSUM 64 ZEROS
with pad bytes of another value | CREATE_7 40 9 ASSERT 101 1 6 0x000000010000 0xffff CHECKSUM 40 ZEROS | \
SIGNED_56 0 60 9 16 7 0 0 1 ASSERT 101 1 6 0x000000010000 0x0000 CHECKSUM 60 ZEROS
of two levels, each with its own numbers | \
CREATE_7 ARGS_3 / CREATE_7 40 9 ASSERT_0 CHECKSUM 40 ZEROS / CREATE_7 ARGS_3 / CREATE_7 40 9 ASSERT_0 CHECKSUM 40 ZEROS | \
SIGNED_56 0 64 9 16 7 3 0 1 ASSERT_3 CHECKSUM 64 ZEROS / SIGNED_56 0 60 9 16 7 0 0 1 ASSERT_0 CHECKSUM 60 ZEROS / \
SIGNED_56 0 64 9 16 7 3 0 2 ASSERT_3 CHECKSUM 64 ZEROS / SIGNED_56 0 60 9 16 7 0 0 2 ASSERT_0 CHECKSUM 60 ZEROS
";

/// Calls that are refused before anything is read of their credential.
const SHAPES: &str = "
another version of RPC | 1 0 3 100003 4 0 BY_7 VERF 56 ZEROS ARGS_3 | 1 1 1 0 2 2 | 1 0 0 V 0
another program | 1 0 2 100005 4 0 BY_7 VERF 56 ZEROS ARGS_3 | ACCEPTED 1 | 1 0 0 P 1
another version of NFS | 1 0 2 100003 3 0 BY_7 VERF 56 ZEROS ARGS_3 | ACCEPTED 2 4 4 | 1 0 0 P 2
another procedure | 1 0 2 100003 4 2 BY_7 VERF 56 ZEROS ARGS_3 | ACCEPTED 3 | 1 0 0 P 3
another flavor | NULL 5 24 3 5 9 2 4 7 VERF 56 ZEROS ARGS_3 | DENIED 5 | 1 0 0 C 5
a credential of 401 bytes | NULL 6 401 3 5 9 2 4 7 | DENIED 1 | 1 0 0 C 1
a verifier of 401 bytes | NULL BY_7 6 401 7 56 ZEROS | DENIED 1 | 1 0 0 C 1
a verifier that ends early | NULL BY_7 6 32 7 56 0 0 0 0 0 | DENIED 1 | 1 0 0 C 1
no verifier | NULL BY_7 | DENIED 1 | 1 0 0 C 1
";

/// In a table: a name, and a call.
///
/// Calls whose credential, parent or verifier isn't good, or whose procedure isn't NULL. Each is signed by its own length,
/// where no other signature is said.
const UNKNOWN: &str = "
version 1 | NULL 6 24 1 5 9 2 4 7 VERF 56 ZEROS ARGS_3
version 2 | NULL 6 24 2 5 9 2 4 7 VERF 56 ZEROS ARGS_3
version 4 | NULL 6 24 4 5 9 2 4 7 VERF 56 ZEROS ARGS_3
DATA with the handle of a parent | NULL 6 24 3 0 9 2 4 7 VERF 56 ZEROS ARGS_3
INIT | NULL 6 24 3 1 9 2 4 7 VERF 56 ZEROS ARGS_3
CONTINUE_INIT | NULL 6 24 3 2 9 2 4 7 VERF 56 ZEROS ARGS_3
DESTROY with the handle of a parent | NULL 6 24 3 3 9 2 4 7 VERF 56 ZEROS
BIND_CHANNEL | NULL 6 24 3 4 9 2 4 7 VERF 56 ZEROS ARGS_3
LIST | NULL 6 24 3 6 9 2 4 7 VERF 56 ZEROS ARGS_3
a gss_proc that there isn't | NULL 6 24 3 0xffffffff 9 2 4 7 VERF 56 ZEROS ARGS_3
no service | NULL 6 24 3 5 9 0 4 7 VERF 56 ZEROS ARGS_3
without a signature | NULL 6 24 3 5 9 1 4 7 VERF 56 ZEROS ARGS_3
with privacy | NULL 6 24 3 5 9 3 4 7 VERF 56 ZEROS ARGS_3
in COMPOUND | CALL 6 24 3 5 9 2 4 7 VERF 56 ZEROS ARGS_3
an empty credential | NULL 6 0 VERF 32 ZEROS ARGS_3
an empty credential and an empty verifier, without arguments | NULL 6 0 0 0
a credential that ends before the handle | NULL 6 16 3 5 9 2 VERF 48 ZEROS ARGS_3
a credential that ends in the handle | NULL 6 24 3 5 9 2 5 7 VERF 56 ZEROS ARGS_3
a word behind the handle | NULL 6 28 3 5 9 2 4 7 0 VERF 60 ZEROS ARGS_3
the body of an AUTH_SYS credential | NULL 6 24 0 1 0x61000000 0 0 0 VERF 56 ZEROS ARGS_3
an empty handle | NULL 6 20 3 5 9 2 0 VERF 52 ZEROS ARGS_3
a handle of 3 bytes | NULL 6 24 3 5 9 2 3 0x000007 0x00 VERF 56 ZEROS ARGS_3
a handle of 5 bytes | NULL 6 28 3 5 9 2 5 7 0x00 0x000000 VERF 60 ZEROS ARGS_3
a handle of 8 bytes | NULL 6 28 3 5 9 2 8 7 0 VERF 60 ZEROS ARGS_3
the handle of a context | NULL 6 36 3 5 9 2 16 7 3 0 1 VERF 68 ZEROS ARGS_3
the unknown parent 8 | NULL 6 24 3 5 9 2 4 8 6 32 8 56 ZEROS 44 9 ASSERT_3 32 8 44 ZEROS
the unknown parent 8, signed by parent 7 | NULL 6 24 3 5 9 2 4 8 VERF 56 ZEROS ARGS_3
the unknown parent 0 | NULL 6 24 3 5 9 2 4 0 6 32 0 56 ZEROS 44 9 ASSERT_3 32 0 44 ZEROS
a verifier of a byte more | NULL BY_7 VERF 57 ZEROS ARGS_3
a verifier of a byte less | NULL BY_7 VERF 55 ZEROS ARGS_3
a verifier by parent 8 | NULL BY_7 6 32 8 56 ZEROS ARGS_3
a verifier whose last byte is another | NULL BY_7 6 32 7 56 0 0 0 0 0 1 ARGS_3
a verifier of 31 bytes | NULL BY_7 6 31 7 56 ZEROS ARGS_3
a verifier of 33 bytes | NULL BY_7 6 33 7 56 ZEROS 0 ARGS_3
an empty verifier | NULL BY_7 6 0 ARGS_3
a verifier of the flavor 0 | NULL BY_7 0 32 7 56 ZEROS ARGS_3
a verifier of the flavor 1 | NULL BY_7 1 32 7 56 ZEROS ARGS_3
a verifier of a byte more, before a bad checksum | NULL BY_7 VERF 57 ZEROS 44 9 ASSERT_3 CHECKSUM 45 ZEROS
the unknown parent 8, before a bad label | NULL 6 24 3 5 9 2 4 8 6 32 8 56 ZEROS 32 9 ASSERT 101 1 0 32 8 32 ZEROS
";

/// Calls whose arguments aren't wrapped or aren't signed, or assert nothing.
const GARBAGE: &str = "
no arguments | CREATE_7
arguments that aren't wrapped | CREATE_7 ASSERT_3
a checksum of a byte more | CREATE_7 44 9 ASSERT_3 CHECKSUM 45 ZEROS
a checksum of a byte less | CREATE_7 44 9 ASSERT_3 CHECKSUM 43 ZEROS
a checksum by parent 8 | CREATE_7 44 9 ASSERT_3 32 8 44 ZEROS
a checksum whose last byte is another | CREATE_7 44 9 ASSERT_3 CHECKSUM 44 0 0 0 0 0 1
a checksum of 31 bytes | CREATE_7 44 9 ASSERT_3 31 7 44 ZEROS
a checksum of 33 bytes | CREATE_7 44 9 ASSERT_3 33 7 44 ZEROS 0
an empty checksum | CREATE_7 44 9 ASSERT_3 0
no checksum | CREATE_7 44 9 ASSERT_3
a word behind the checksum | CREATE_7 ARGS_3 0
a byte behind the checksum | CREATE_7 ARGS_3 0x00
a databody longer than the record | CREATE_7 0xffffffff 9 ASSERT_3 CHECKSUM 44 ZEROS
an empty databody | CREATE_7 0 CHECKSUM 0 ZEROS
a databody of 3 bytes | CREATE_7 3 0x000009 0x00 CHECKSUM 3 ZEROS
a databody of its sequence number alone | CREATE_7 4 9 CHECKSUM 4 ZEROS
another sequence number | CREATE_7 44 8 ASSERT_3 CHECKSUM 44 ZEROS
another sequence number, before a format that there isn't | CREATE_7 36 8 ASSERT 104 0 4 'open' CHECKSUM 36 ZEROS
an mp_auth | CREATE_7 44 9 1 0 1 0 101 1 10 0x000000010103e4000000 0x0000 CHECKSUM 44 ZEROS
a binding to a channel | CREATE_7 44 9 0 1 1 0 101 1 10 0x000000010103e4000000 0x0000 CHECKSUM 44 ZEROS
a boolean of 2 | CREATE_7 44 9 2 0 1 0 101 1 10 0x000000010103e4000000 0x0000 CHECKSUM 44 ZEROS
no assertion | CREATE_7 16 9 0 0 0 CHECKSUM 16 ZEROS
no assertion, and one behind | CREATE_7 44 9 0 0 0 0 101 1 10 0x000000010103e4000000 0x0000 CHECKSUM 44 ZEROS
two assertions, one of them there | CREATE_7 44 9 0 0 2 0 101 1 10 0x000000010103e4000000 0x0000 CHECKSUM 44 ZEROS
two assertions | CREATE_7 60 9 0 0 2 0 101 1 6 0x000000010000 0x0000 0 102 1 2 's0' 0x0000 CHECKSUM 60 ZEROS
privileges | CREATE_7 44 9 0 0 1 1 101 1 10 0x000000010103e4000000 0x0000 CHECKSUM 44 ZEROS
a label that isn't there | CREATE_7 32 9 ASSERT 101 1 10 CHECKSUM 32 ZEROS
a label without its last pad byte | CREATE_7 43 9 ASSERT_3 CHECKSUM 43 ZEROS
a word behind the label | CREATE_7 48 9 ASSERT_3 0 CHECKSUM 48 ZEROS
";

/// What a recording gives under a policy, with signatures that are told by hand.
fn replay_under(
    rt: &impl Abort,
    alloc: Global,
    policy: &str,
    traffic: &[u8],
) -> Result<Ran, AllocError> {
    let codecs = codecs_of(alloc)?;
    let read = read_policy(alloc, policy.as_bytes(), &codecs);
    let policy = read.ok().expect(rt, "a policy");
    let mut files = CalmFiles::new(vec![in alloc; file(alloc, "t", traffic)?]?);
    assert_eq!(rt; files.open("t"), Ok(true));
    let mut outside = World {
        files,
        out: MemSink::new(alloc, &[])?,
        audit: MemSink::new(alloc, &[])?,
    };
    let mut vault = Vault::new(alloc, policy, &codecs, TestMechanism)?;
    let ended = replay(alloc, &codecs, &mut vault, &mut outside);
    let World {
        files: _,
        out,
        audit,
    } = outside;
    Ok((Status::of(ended).number(), out, audit))
}

/// Plays what a row has recorded, under a policy.
pub fn check_under(rt: &impl Abort, alloc: Global, policy: &str, row: &str) -> Result<(), Flaw> {
    let (name, traffic, due) = read_row(alloc, row)?;
    let ran = replay_under(rt, alloc, policy, &traffic)?;
    gives(alloc, name, &ran, &due)
}

/// Plays each row of a table, which has so many, under the policy of all trials.
pub fn check_asserted(
    rt: &impl Abort,
    alloc: Global,
    table: &str,
    count: usize,
) -> Result<(), Flaw> {
    let rows = rows_of(alloc, table)?;
    assert_eq!(rt; rows.len(), count, "rows");
    for row in &rows {
        check_under(rt, alloc, POLICY, row)?;
    }
    Ok(())
}

/// How calls are refused, and what stands around each in its recording.
#[derive(Clone, Copy)]
pub struct Refused<'a> {
    /// The events before it and their replies, each with a slash behind it.
    pub before: &'a str,
    pub told_before: &'a str,
    /// The reply to the call, and its line.
    pub reply: &'a str,
    pub line: &'a str,
    /// The events behind it and their replies, which tell that nothing has changed.
    pub behind: &'a str,
    pub told_behind: &'a str,
}

/// A CREATE whose caller isn't known, one that asserts nothing, and behind each one that makes the first context.
const UNKNOWN_CREATE: Refused<'static> = Refused {
    before: "",
    told_before: "",
    reply: "DENIED 13",
    line: "1 0 0 C 13",
    behind: CREATE,
    told_behind: CREATED,
};

pub const GARBAGE_CREATE: Refused<'static> = Refused {
    before: "",
    told_before: "",
    reply: "SIGNED_56 4",
    line: "1 0 0 P 4",
    behind: CREATE,
    told_behind: CREATED,
};

/// The row of a name and a call that is refused, where it can be read.
fn row_of(alloc: Global, row: &str, by: &Refused<'_>) -> Result<Option<String>, AllocError> {
    let Some((name, call)) = row.split_once(" | ") else {
        return Ok(None);
    };
    let mut events = String::from_str(alloc, by.before)?;
    events.push_str(call)?;
    events.push_str(" / ")?;
    events.push_str(by.behind)?;
    let mut replies = String::from_str(alloc, by.told_before)?;
    replies.push_str(by.reply)?;
    replies.push_str(" / ")?;
    replies.push_str(by.told_behind)?;
    let line = by.line;
    let whole = format!(in alloc; "{name} | {events} | {replies} | {line}")?;
    Ok(Some(whole))
}

/// Plays each call of a table, which has so many, under a policy. All are refused alike.
pub fn check_refused(
    rt: &impl Abort,
    alloc: Global,
    policy: &str,
    table: &str,
    count: usize,
    by: &Refused<'_>,
) -> Result<(), Flaw> {
    let rows = rows_of(alloc, table)?;
    assert_eq!(rt; rows.len(), count, "rows");
    for row in &rows {
        let whole = row_of(alloc, row, by)?.expect(rt, row);
        check_under(rt, alloc, policy, &whole)?;
    }
    Ok(())
}

#[test]
fn contexts_that_are_made(rt: HostRuntime) -> Result<(), Flaw> {
    check_asserted(&rt, rt.alloc(), MADE, 5)
}

#[test]
fn callers_that_are_refused(rt: HostRuntime) -> Result<(), Flaw> {
    check_asserted(&rt, rt.alloc(), SHAPES, 9)?;
    check_refused(&rt, rt.alloc(), POLICY, UNKNOWN, 39, &UNKNOWN_CREATE)?;
    check_refused(&rt, rt.alloc(), POLICY, GARBAGE, 29, &GARBAGE_CREATE)
}
