//! Facts of a server's state in checkpoints of the root alone, and in those where labels are carried alone.
use crate::codecs::codecs_of;
use crate::edited::{Base, check_after, check_table, edited};
use crate::words::Stock;
use lnfs_format::Codecs;
use lnfs_test_checkpoint_support::recordings::{LIMITED, LIMITED_POLICY};
use lnfs_test_checkpoint_support::served::{Given, checkpoint_after, events_of, resume, serve_all};
use lnfs_test_support::flaw::{Flaw, demand, read_of};
use lnfs_test_support::rows::frames_of;
use std::alloc::Global;

/// Of the checkpoint of a server that served nothing, in whose tree there is the root alone.
const ROOT: &str = "
the root alone | | taken
no root | node 0 drop | unfit
a root that is a file | node 0 kind file | unfit
a root of another number | node 0 number 2; last 0 nodes 2 | unfit
a root of another label | node 0 label 3 | unfit
";

/// Where labels are carried alone: of the checkpoint after the events of that policy, whose last node is the directory `d`.
const CARRIED: &str = "
as it was | | taken
a label of another level | node 4 label 1 | unfit
a client of another level | client 0 again; client 1 level 1; last 1 clients 1 | unfit
a number of another level | last 1 nodes 1 | unfit
a number of a lock of another level | last 1 locks 1 | unfit
no label as it was given | node 4 stored none | taken
a label of no bytes | node 4 stored '' | taken
";

#[test]
fn carried(rt: HostRuntime) -> Result<(), Flaw> {
    check_after(rt.alloc(), LIMITED_POLICY, LIMITED.events, 6000, CARRIED, 7)
}

/// In the last slot of the session: the labels of the root and of `top`, which aren't there as they were given.
const SHOWN: &str = "CALL SYS 0 2 5 SEQUENCE 1 15 0 1 24 9 LABELLED 22 12 0 0 4 9 LABELLED";

const FIRST_FORMAT: &str =
    "ACCEPTED 0 0 0 5 SEQUENCED 1 15 SLOTS 24 0 9 0 LABEL_0 22 0 9 0 LABEL_0";

/// Compares the labels that are shown behind a checkpoint.
fn check_shown(alloc: Global, codecs: &Codecs, bytes: &[u8]) -> Result<(), Flaw> {
    let mut server = resume(alloc, codecs, LIMITED_POLICY, bytes)?;
    let mut given = Given::new(alloc);
    let events = events_of(alloc, SHOWN)?;
    serve_all(alloc, codecs, &mut server, &events, &mut given)?;
    let due = read_of(alloc, frames_of(alloc, FIRST_FORMAT)?, SHOWN)?;
    let same = given.frames.as_slice() == due.as_slice();
    demand(alloc, same, "replies", SHOWN)
}

/// A label that isn't there as it was given is shown in the first format.
#[test]
fn labels_that_were_not_given(rt: HostRuntime) -> Result<(), Flaw> {
    let alloc = rt.alloc();
    let codecs = codecs_of(alloc)?;
    let events = events_of(alloc, LIMITED.events)?;
    let bytes = checkpoint_after(alloc, &codecs, LIMITED_POLICY, &events)?;
    let base = Base {
        policy: LIMITED_POLICY,
        levels: 4,
        bytes: &bytes,
    };
    let stock = Stock {
        long: &[],
        digits: &[],
    };
    let others = edited(alloc, base, stock, "node 0 stored none; node 3 stored none")?;
    check_shown(alloc, &codecs, &others)
}

/// The policy of all trials without its directories.
const BARE_POLICY: &str = "lnfs-policy 1
mode enforcing
level 0 1 0 -
level 1 1 1 c0
level 2 1 1 c1
level 3 1 3 c0.c2,c5
format 101 1 calipso
guest 0 * 0
";

#[test]
fn root(rt: HostRuntime) -> Result<(), Flaw> {
    let alloc = rt.alloc();
    let codecs = codecs_of(alloc)?;
    let bytes = checkpoint_after(alloc, &codecs, BARE_POLICY, &[])?;
    let base = Base {
        policy: BARE_POLICY,
        levels: 4,
        bytes: &bytes,
    };
    check_table(alloc, base, 1, ROOT, 5)
}
