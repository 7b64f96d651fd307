//! What is found of recorded replies, by one vault and by one for each level. All is laid out by hand, in words.
ghost use Rattle.std.specs.Prelude.{All};
ghost use Rattle.lnfs_types.specs.Moments.{Fits};

use crate::codecs::codecs_of;
use crate::recorded::{events_of, finds, records_of};
use lnfs_audit::{AuditError, Finding, audit, audit_purged};
use lnfs_gss3::TestMechanism;
use lnfs_policy::{Policy, read_policy};
use lnfs_test_support::clients::with_clients;
use lnfs_test_support::flaw::{Flaw, demand, read_of};
use lnfs_test_support::rows::{cells_of, counted_rows};
use lnfs_test_support::site::POLICY;
use lnfs_types::Event;
use std::alloc::{AllocError, Global};

/// In a table: a name; the events; the replies, each of which is framed; the bytes behind these; and what is found.
///
/// One client of level 0 alone. The reply to it has 112 bytes with its frame.
const ALONE: &str = "
as it was | CALL SYS EXCHANGE 'c1' REST | EXCHANGED 0 1 SERVER | | faithful 1
with another last byte | CALL SYS EXCHANGE 'c1' REST | \
EXCHANGED 0 1 1 0x00010000 0 0 0 12 'labelled-nfs' 12 'labelled-nfs' 1 | | differs 1
with the same status alone | CALL SYS EXCHANGE 'c1' REST | EXCHANGED 0 2 SERVER | | differs 1
with one byte more | CALL SYS EXCHANGE 'c1' REST | EXCHANGED 0 1 SERVER | 0x00 | surplus 112
with one record more | CALL SYS EXCHANGE 'c1' REST | EXCHANGED 0 1 SERVER / EXCHANGED 0 1 SERVER | | surplus 112
without a byte | CALL SYS EXCHANGE 'c1' REST | | | differs 1
without its last word | CALL SYS EXCHANGE 'c1' REST | | \
0x8000006c EXCHANGED 0 1 1 0x00010000 0 0 0 12 'labelled-nfs' 12 'labelled-nfs' | differs 1
as a shorter record | CALL SYS EXCHANGE 'c1' REST | \
EXCHANGED 0 1 1 0x00010000 0 0 0 12 'labelled-nfs' 12 'labelled-nfs' | | differs 1
as three fragments | CALL SYS EXCHANGE 'c1' REST | | 40 1 1 0 0 0 0 0 0 1 42 0 0x80000044 0 0 1 SERVER | faithful 1
as three fragments, and one byte more | CALL SYS EXCHANGE 'c1' REST | | \
40 1 1 0 0 0 0 0 0 1 42 0 0x80000044 0 0 1 SERVER 0x00 | surplus 120
behind a record that is too long | CALL SYS EXCHANGE 'c1' REST | | 0x80020001 | differs 1
";

/// Events without a level, and events without a reply.
const STRANGERS: &str = "
no call | 1 2 | | | faithful 1
no call, and a byte | 1 2 | | 0x00 | surplus 0
no call, and an empty record | 1 2 | | 0x80000000 | surplus 0
of each kind | CALL SYS EXCHANGE 'c1' REST / NULL 0 0 0 0 / 1 2 / @1 CALL SYS_5 EXCHANGE 'c5' REST / \
@1 CALL SYS_300 EXCHANGE 'c1' REST | EXCHANGED 0 1 SERVER / ACCEPTED 0 / DENIED 5 / EXCHANGED 3 1 SERVER | | faithful 5
with a reply to what is no call | 1 2 / NULL 0 0 0 0 | DENIED 5 / ACCEPTED 0 | | differs 2
";

/// Several levels. In the second row the reply to the fourth event shows how many clients other levels made.
const LEVELS: &str = "
clients of level 3, and then one of level 0 | \
@1 CALL SYS_300 0 2 1 42 0 0 1 'x' 0x000000 0 0 0 / @1 CALL SYS_300 0 2 1 42 0 0 1 'y' 0x000000 0 0 0 / \
@1 CALL SYS_300 0 2 1 42 0 0 1 'z' 0x000000 0 0 0 / CALL SYS EXCHANGE 'c1' REST | \
EXCHANGED 3 1 SERVER / EXCHANGED 3 2 SERVER / EXCHANGED 3 3 SERVER / EXCHANGED 0 1 SERVER | | faithful 4
by a server with one counter | \
@1 CALL SYS_300 0 2 1 42 0 0 1 'x' 0x000000 0 0 0 / @1 CALL SYS_300 0 2 1 42 0 0 1 'y' 0x000000 0 0 0 / \
@1 CALL SYS_300 0 2 1 42 0 0 1 'z' 0x000000 0 0 0 / CALL SYS EXCHANGE 'c1' REST | \
EXCHANGED 3 1 SERVER / EXCHANGED 3 2 SERVER / EXCHANGED 3 3 SERVER / EXCHANGED 0 4 SERVER | | differs 4
sessions of three levels | OPEN_1 / OPEN_2 / OPEN_3 | OPENED_1 / OPENED_2 / OPENED_3 | | faithful 6
in another order | OPEN_1 / OPEN_2 / OPEN_3 | OPENED_1 / OPENED_3 / OPENED_2 | | differs 3
";

/// The policy of a text.
fn policy_of(alloc: Global, text: &str) -> Result<Policy, Flaw> {
    let codecs = codecs_of(alloc)?;
    read_of(
        alloc,
        read_policy(alloc, text.as_bytes(), &codecs).ok(),
        text,
    )
}

/// What is found by one vault.
fn by_one(
    alloc: Global,
    policy: Policy,
    events: &[Event],
    records: &[u8],
) -> Result<Option<Finding>, AllocError>
    requires { All Fits events.now }
{
    let codecs = codecs_of(alloc)?;
    Ok(Some(audit(alloc, policy, &codecs, TestMechanism, events, records)?))
}

/// What is found by a vault for each level; nothing under a limited policy.
fn by_levels(
    alloc: Global,
    policy: Policy,
    events: &[Event],
    records: &[u8],
) -> Result<Option<Finding>, AllocError>
    requires { All Fits events.now }
{
    let codecs = codecs_of(alloc)?;
    match audit_purged(alloc, policy, &codecs, TestMechanism, events, records) {
        Ok(finding) => Ok(Some(finding)),
        Err(AuditError::Limited) => Ok(None),
        Err(AuditError::Memory) => Err(AllocError),
    }
}

/// Audits what a row has recorded, both ways.
fn check_row(alloc: Global, row: &str, whole: &str) -> Result<(), Flaw> {
    let cells = cells_of(alloc, whole)?;
    let [_, events, replies, rest, due] = cells.as_slice() else {
        return demand(alloc, false, "cells", row);
    };
    let events = events_of(alloc, events, row)?;
    let records = records_of(alloc, replies, rest, row)?;
    let found = by_one(alloc, policy_of(alloc, POLICY)?, &events, &records)?;
    finds(alloc, found, due, "by one", row)?;
    let found = by_levels(alloc, policy_of(alloc, POLICY)?, &events, &records)?;
    finds(alloc, found, due, "by levels", row)
}

/// The same of each row of a table, which has so many.
fn check_findings(alloc: Global, table: &str, count: usize) -> Result<(), Flaw> {
    for row in &counted_rows(alloc, table, count)? {
        let whole = with_clients(alloc, row)?;
        check_row(alloc, row, &whole)?;
    }
    Ok(())
}

#[test]
fn alone(rt: HostRuntime) -> Result<(), Flaw> {
    check_findings(rt.alloc(), ALONE, 11)
}

#[test]
fn strangers(rt: HostRuntime) -> Result<(), Flaw> {
    check_findings(rt.alloc(), STRANGERS, 5)
}

#[test]
fn levels(rt: HostRuntime) -> Result<(), Flaw> {
    check_findings(rt.alloc(), LEVELS, 4)
}

/// Where the clients enforce the labels there is nothing to purge: one vault tells, and levels don't.
#[test]
fn limited(rt: HostRuntime) -> Result<(), Flaw> {
    let alloc = rt.alloc();
    let limited = POLICY.replace(alloc, "mode enforcing", "mode limited")?;
    let row = "@1 CALL SYS_300 EXCHANGE 'c1' REST";
    let events = events_of(alloc, row, row)?;
    let records = records_of(alloc, "EXCHANGED 0 1 SERVER", "", row)?;
    let found = by_one(alloc, policy_of(alloc, &limited)?, &events, &records)?;
    finds(alloc, found, "faithful 1", "by one", row)?;
    let found = by_levels(alloc, policy_of(alloc, &limited)?, &events, &records)?;
    demand(alloc, found.is_none(), "limited", row)
}
