//! Byte-range locks in recordings, served by a vault and by a core: what LOCK, LOCKT and LOCKU answer, and that locks show to
//! those levels alone that dominate theirs. Their numbers are 12, 13 and 14; `lnfs_test_operations` tells their words.
use crate::codecs::codecs_of;
use lnfs_byte_locks::Ranges;
use lnfs_gss3::TestMechanism;
use lnfs_policy::{read_policy, write_policy};
use lnfs_test_support::clients::with_clients;
use lnfs_test_support::flaw::{Flaw, demand, read_of};
use lnfs_test_support::rows::{cells_of, counted_rows, frames_of, recording_of};
use lnfs_test_support::sessions::opened;
use lnfs_test_support::site::POLICY;
use lnfs_traffic::read_traffic;
use lnfs_types::Event;
use lnfs_vault::{Core, Served, VaultOf};
use std::alloc::{AllocError, Global};
use std::process::Abort;

/// In each table: a name, what is recorded behind the first client of level 0 and its session, and the replies.
///
/// Locks of one level.
const ALONE: &str = "
once, and not by another owner | \
CALL SYS 0 2 5 SEQUENCE 1 0 0 1 24 MAKE_F 12 2 0 0 0 0 10 1 0 ID_1 0 0 1 1 'a' 0x000000 12 1 0 0 9 0 1 1 0 ID_1 0 0 1 1 'b' 0x000000 | \
ACCEPTED 0 10010 0 5 SEQUENCED 1 0 SLOTS 24 0 MADE_F 12 0 1 0 1 1 12 10010 0 0 0 10 2 0 1 1 'a' 0x000000
without a handle | CALL SYS 0 2 2 SEQUENCE 1 0 0 1 13 1 0 0 0 10 0 1 1 'a' 0x000000 | ACCEPTED 0 10020 0 2 SEQUENCED 1 0 SLOTS 13 10020
a directory | CALL SYS 0 2 3 SEQUENCE 1 0 0 1 24 13 1 0 0 0 10 0 1 1 'a' 0x000000 | ACCEPTED 0 21 0 3 SEQUENCED 1 0 SLOTS 24 0 13 21
a part that is unlocked | \
CALL SYS 0 2 6 SEQUENCE 1 0 0 1 24 MAKE_F 12 2 0 0 0 0 10 1 0 ID_1 0 0 1 1 'a' 0x000000 14 2 0 1 0 1 1 0 4 0 2 \
12 1 0 0 4 0 2 1 0 ID_1 0 0 1 1 'b' 0x000000 | \
ACCEPTED 0 0 0 6 SEQUENCED 1 0 SLOTS 24 0 MADE_F 12 0 1 0 1 1 14 0 2 0 1 1 12 0 1 0 1 2
";

/// Locks of several levels. In the first two rows level 0 gets the same, with a lock of level 3 and without.
const BESIDE: &str = "
below a lock | \
CALL SYS 0 2 5 SEQUENCE 1 0 0 1 24 MAKE_F 12 2 0 0 0 0 10 1 0 ID_1 0 0 1 1 'a' 0x000000 34 ANON LABEL_3 / OPEN_3 / \
@1 CALL SYS_300 0 2 4 SEQUENCE_3 1 0 0 1 PUT_F 18 0 3 0 BY_O 0 4 12 2 0 0 20 0 5 1 0 1 3 0 1 0 3 1 1 'c' 0x000000 / \
CALL SYS 0 2 4 SEQUENCE 2 0 0 1 PUT_F 14 2 0 1 0 1 1 0 0 0 30 12 2 0 0 20 0 5 0 2 0 1 1 0 | \
ACCEPTED 0 0 0 5 SEQUENCED 1 0 SLOTS 24 0 MADE_F 12 0 1 0 1 1 34 0 LABELLED / OPENED_3 / \
ACCEPTED 0 0 0 4 SEQUENCED_3 1 0 SLOTS 22 0 18 0 1 3 0 1 HELD 12 0 1 3 1 1 / \
ACCEPTED 0 13 0 4 SEQUENCED 2 0 SLOTS 22 0 14 0 2 0 1 1 12 13
without it | \
CALL SYS 0 2 5 SEQUENCE 1 0 0 1 24 MAKE_F 12 2 0 0 0 0 10 1 0 ID_1 0 0 1 1 'a' 0x000000 34 ANON LABEL_3 / \
CALL SYS 0 2 4 SEQUENCE 2 0 0 1 PUT_F 14 2 0 1 0 1 1 0 0 0 30 12 2 0 0 20 0 5 0 2 0 1 1 0 | \
ACCEPTED 0 0 0 5 SEQUENCED 1 0 SLOTS 24 0 MADE_F 12 0 1 0 1 1 34 0 LABELLED / \
ACCEPTED 0 13 0 4 SEQUENCED 2 0 SLOTS 22 0 14 0 2 0 1 1 12 13
above a lock | \
CALL SYS 0 2 4 SEQUENCE 1 0 0 1 24 MAKE_F 12 2 0 0 0 0 10 1 0 ID_1 0 0 1 1 'a' 0x000000 / OPEN_3 / \
@1 CALL SYS_300 0 2 3 SEQUENCE_3 1 0 0 1 PUT_F 13 1 0 9 0 1 0 3 1 'c' 0x000000 | \
ACCEPTED 0 0 0 4 SEQUENCED 1 0 SLOTS 24 0 MADE_F 12 0 1 0 1 1 / OPENED_3 / \
ACCEPTED 0 10010 0 3 SEQUENCED_3 1 0 SLOTS 22 0 13 10010 0 0 0 10 2 0 1 1 'a' 0x000000
beside a lock, and above it | \
OPEN_1 / @1 CALL SYS_100 0 2 4 SEQUENCE_1 1 0 0 1 ONE 18 0 3 0 BY_O PLAIN 0 1 't' 0x000000 \
12 2 0 0 0 0 10 1 0 1 1 0 1 0 1 1 1 'a' 0x000000 / \
OPEN_2 / @1 CALL SYS_200 0 2 3 SEQUENCE_2 1 0 0 1 22 12 1 0 1 13 1 0 0 0 10 0 2 1 'b' 0x000000 / \
OPEN_3 / @1 CALL SYS_300 0 2 3 SEQUENCE_3 1 0 0 1 22 12 1 0 1 13 1 0 0 0 10 0 3 1 'c' 0x000000 | \
OPENED_1 / ACCEPTED 0 0 0 4 SEQUENCED_1 1 0 SLOTS 22 0 18 0 1 1 0 1 1 0 1 0 2 4 0 0 12 0 1 1 1 1 / \
OPENED_2 / ACCEPTED 0 70 0 2 SEQUENCED_2 1 0 SLOTS 22 70 / \
OPENED_3 / ACCEPTED 0 10010 0 3 SEQUENCED_3 1 0 SLOTS 22 0 13 10010 0 0 0 10 2 1 1 1 'a' 0x000000
";

/// The frames of the replies to events, in a new vault.
fn replies_to(rt: &impl Abort, alloc: Global, events: Vec<Event>) -> Result<Vec<u8>, AllocError> {
    let codecs = codecs_of(alloc)?;
    let read = read_policy(alloc, POLICY.as_bytes(), &codecs);
    let policy = read.ok().expect(rt, "a policy");
    let ranges = Ranges::new(alloc);
    let mut vault = VaultOf::with_extra(alloc, policy, &codecs, TestMechanism, ranges)?;
    let mut frames = Vec::new(alloc);
    for event in events {
        if !event.fits() {
            continue;
        }
        let Served { reply, .. } = vault.serve(&codecs, event)?;
        if let Some(reply) = reply {
            frames.extend_from_slice(&reply.into_frame())?;
        }
    }
    Ok(frames)
}

/// Whether a core gives back the policy that it was made of.
fn gives_back(alloc: Global, core: Core<TestMechanism, Ranges>) -> Result<bool, AllocError> {
    let (policy, _) = core.into_parts();
    let text = write_policy(alloc, &policy)?;
    Ok(text.as_slice() == POLICY.as_bytes())
}

/// The frames of the replies to events, by a core, which has no journal and is told their numbers; none where it
/// doesn't give back its policy.
fn replies_alone(
    rt: &impl Abort,
    alloc: Global,
    events: Vec<Event>,
) -> Result<Option<Vec<u8>>, AllocError> {
    let codecs = codecs_of(alloc)?;
    let read = read_policy(alloc, POLICY.as_bytes(), &codecs);
    let policy = read.ok().expect(rt, "a policy");
    let ranges = Ranges::new(alloc);
    let mut core = Core::with_extra(alloc, policy, &codecs, TestMechanism, ranges)?;
    let mut frames = Vec::new(alloc);
    let mut number: u64 = 0;
    for event in events {
        if !event.fits() {
            continue;
        }
        number = number.saturating_add(1);
        let Served { reply, .. } = core.step(&codecs, number, &event)?;
        if let Some(reply) = reply {
            frames.extend_from_slice(&reply.into_frame())?;
        }
    }
    Ok(gives_back(alloc, core)?.then_some(frames))
}

/// Serves what a row has recorded by a vault and by a core, and compares the replies.
fn check_row(rt: &impl Abort, alloc: Global, row: &str, whole: &str) -> Result<(), Flaw> {
    let cells = cells_of(alloc, whole)?;
    let [_, asked, told] = cells.as_slice() else {
        return demand(alloc, false, "cells", row);
    };
    let traffic = read_of(alloc, recording_of(alloc, asked)?, row)?;
    let due = read_of(alloc, frames_of(alloc, told)?, row)?;
    let events = read_of(alloc, read_traffic(alloc, &traffic).ok(), row)?;
    let replies = replies_to(rt, alloc, events)?;
    demand(alloc, replies.as_slice() == due.as_slice(), "replies", row)?;
    let events = read_of(alloc, read_traffic(alloc, &traffic).ok(), row)?;
    let replies = read_of(alloc, replies_alone(rt, alloc, events)?, row)?;
    demand(alloc, replies.as_slice() == due.as_slice(), "alone", row)
}

/// The same of each row of a table, which has so many.
fn check_locks(rt: &impl Abort, alloc: Global, table: &str, count: usize) -> Result<(), Flaw> {
    for row in &counted_rows(alloc, table, count)? {
        let whole = read_of(alloc, opened(alloc, row)?, row)?;
        let whole = with_clients(alloc, &whole)?;
        check_row(rt, alloc, row, &whole)?;
    }
    Ok(())
}

#[test]
fn alone(rt: HostRuntime) -> Result<(), Flaw> {
    check_locks(&rt, rt.alloc(), ALONE, 4)
}

#[test]
fn beside(rt: HostRuntime) -> Result<(), Flaw> {
    check_locks(&rt, rt.alloc(), BESIDE, 4)
}
