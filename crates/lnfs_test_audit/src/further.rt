//! The same where byte-range locks are served too: LOCK, LOCKT and LOCKU, of the numbers 12, 13 and 14.
ghost use Rattle.std.specs.Prelude.{All};
ghost use Rattle.lnfs_types.specs.Moments.{Fits};

use crate::codecs::codecs_of;
use crate::recorded::{events_of, finds, records_of};
use lnfs_audit::{Finding, Fresh, audit_purged_with_extra, audit_with_extra};
use lnfs_byte_locks::Ranges;
use lnfs_gss3::TestMechanism;
use lnfs_policy::{Policy, read_policy};
use lnfs_test_support::clients::with_clients;
use lnfs_test_support::flaw::{Flaw, demand, read_of};
use lnfs_test_support::rows::{cells_of, counted_rows};
use lnfs_test_support::site::POLICY;
use lnfs_types::Event;
use std::alloc::{AllocError, Global};

/// Nothing is locked in each new vault.
struct NoLocks;

impl Fresh<Ranges> for NoLocks {
    fn fresh(&self, alloc: Global) -> Result<Ranges, AllocError> {
        Ok(Ranges::new(alloc))
    }
}

/// In a table: a name; the events; the replies; and what is found. In the second row level 3 isn't told of what level 1 has
/// locked.
const LOCKED: &str = "
beside a lock, and above it | \
CALL SYS EXCHANGE 'c1' REST / CALL SYS CREATE 0 1 1 0 CHANNEL CHANNEL 0 0 / \
OPEN_1 / @1 CALL SYS_100 0 2 4 SEQUENCE_1 1 0 0 1 ONE 18 0 3 0 BY_O PLAIN 0 1 't' 0x000000 \
12 2 0 0 0 0 10 1 0 1 1 0 1 0 1 1 1 'a' 0x000000 / \
OPEN_2 / @1 CALL SYS_200 0 2 3 SEQUENCE_2 1 0 0 1 22 12 1 0 1 13 1 0 0 0 10 0 2 1 'b' 0x000000 / \
OPEN_3 / @1 CALL SYS_300 0 2 3 SEQUENCE_3 1 0 0 1 22 12 1 0 1 13 1 0 0 0 10 0 3 1 'c' 0x000000 | \
EXCHANGED 0 1 SERVER / CREATED 0 0 1 0 1 0 CHANNEL CHANNEL / \
OPENED_1 / ACCEPTED 0 0 0 4 SEQUENCED_1 1 0 SLOTS 22 0 18 0 1 1 0 1 1 0 1 0 2 4 0 0 12 0 1 1 1 1 / \
OPENED_2 / ACCEPTED 0 70 0 2 SEQUENCED_2 1 0 SLOTS 22 70 / \
OPENED_3 / ACCEPTED 0 10010 0 3 SEQUENCED_3 1 0 SLOTS 22 0 13 10010 0 0 0 10 2 1 1 1 'a' 0x000000 | faithful 11
free above a lock | \
CALL SYS EXCHANGE 'c1' REST / CALL SYS CREATE 0 1 1 0 CHANNEL CHANNEL 0 0 / \
OPEN_1 / @1 CALL SYS_100 0 2 4 SEQUENCE_1 1 0 0 1 ONE 18 0 3 0 BY_O PLAIN 0 1 't' 0x000000 \
12 2 0 0 0 0 10 1 0 1 1 0 1 0 1 1 1 'a' 0x000000 / \
OPEN_3 / @1 CALL SYS_300 0 2 3 SEQUENCE_3 1 0 0 1 22 12 1 0 1 13 1 0 0 0 10 0 3 1 'c' 0x000000 | \
EXCHANGED 0 1 SERVER / CREATED 0 0 1 0 1 0 CHANNEL CHANNEL / \
OPENED_1 / ACCEPTED 0 0 0 4 SEQUENCED_1 1 0 SLOTS 22 0 18 0 1 1 0 1 1 0 1 0 2 4 0 0 12 0 1 1 1 1 / \
OPENED_3 / ACCEPTED 0 0 0 3 SEQUENCED_3 1 0 SLOTS 22 0 13 0 | differs 8
";

/// The policy of all trials.
fn policy(alloc: Global) -> Result<Policy, Flaw> {
    let codecs = codecs_of(alloc)?;
    read_of(
        alloc,
        read_policy(alloc, POLICY.as_bytes(), &codecs).ok(),
        "a policy",
    )
}

/// What is found by one vault.
fn by_one(
    alloc: Global,
    policy: Policy,
    events: &[Event],
    records: &[u8],
) -> Result<Option<Finding>, AllocError>
    requires { All Fits events.now }
{
    let codecs = codecs_of(alloc)?;
    let ranges = Ranges::new(alloc);
    let finding = audit_with_extra(
        alloc,
        policy,
        &codecs,
        TestMechanism,
        ranges,
        events,
        records,
    )?;
    Ok(Some(finding))
}

/// What is found by a vault for each level.
fn by_levels(
    alloc: Global,
    policy: Policy,
    events: &[Event],
    records: &[u8],
) -> Result<Option<Finding>, AllocError>
    requires { All Fits events.now }
{
    let codecs = codecs_of(alloc)?;
    let found = audit_purged_with_extra(
        alloc,
        policy,
        &codecs,
        TestMechanism,
        &NoLocks,
        events,
        records,
    );
    Ok(found.ok())
}

/// Audits what a row has recorded, both ways.
fn check_row(alloc: Global, row: &str, whole: &str) -> Result<(), Flaw> {
    let cells = cells_of(alloc, whole)?;
    let [_, events, replies, due] = cells.as_slice() else {
        return demand(alloc, false, "cells", row);
    };
    let events = events_of(alloc, events, row)?;
    let records = records_of(alloc, replies, "", row)?;
    let found = by_one(alloc, policy(alloc)?, &events, &records)?;
    finds(alloc, found, due, "by one", row)?;
    let found = by_levels(alloc, policy(alloc)?, &events, &records)?;
    finds(alloc, found, due, "by levels", row)
}

#[test]
fn locked(rt: HostRuntime) -> Result<(), Flaw> {
    let alloc = rt.alloc();
    for row in &counted_rows(alloc, LOCKED, 2)? {
        let whole = with_clients(alloc, row)?;
        check_row(alloc, row, &whole)?;
    }
    Ok(())
}
