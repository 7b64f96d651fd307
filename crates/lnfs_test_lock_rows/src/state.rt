//! A world of two levels with a file that a client has open, and rows of locks of that file.
use crate::codecs::codecs_of;
use lnfs_lock_rows::{LockRow, LockRows};
use lnfs_policy::{Policy, read_policy};
use lnfs_ranges::LockRange;
use lnfs_rows::{ClientRow, Data, EntryRow, Id, Kind, Lasts, Lists, NodeRow, OpenRow};
use lnfs_types::Moment;
use std::alloc::{AllocError, Global};
use std::test::Fail;

const POLICY: &[u8] = b"lnfs-policy 1
mode enforcing
level 0 1 0 -
level 1 1 1 c0
format 101 1 calipso
";

const NEVER: Moment = Moment { secs: 0, nanos: 0 };

pub(crate) const ROOT: Id = Id {
    level: 0,
    number: 1,
};

const FILE: Id = Id {
    level: 0,
    number: 2,
};

pub(crate) fn policy(alloc: Global) -> Result<Policy, Fail> {
    let codecs = codecs_of(alloc)?;
    Ok(read_policy(alloc, POLICY, &codecs)?)
}

fn one<T: Drop>(alloc: Global, item: T) -> Result<Vec<T>, AllocError> {
    let mut items = Vec::new(alloc);
    items.push(item)?;
    Ok(items)
}

/// A last number of each of the two levels.
fn two(alloc: Global, low: u64, high: u64) -> Result<Vec<u64>, AllocError> {
    let mut numbers = one(alloc, low)?;
    numbers.push(high)?;
    Ok(numbers)
}

fn node(id: Id, kind: Kind, cookies: u64) -> NodeRow<'static> {
    NodeRow {
        id,
        kind,
        label: 0,
        verifier: None,
        stored: None,
        mode: 0o755,
        content: Data::Bytes(b""),
        change: 1,
        accessed: NEVER,
        metadata: NEVER,
        modified: NEVER,
        cookies,
    }
}

fn client() -> ClientRow<'static> {
    ClientRow {
        id: ROOT,
        owner: b"client",
        verifier: *b"verifier",
        confirmed: true,
        sequence: 1,
        kept: None,
        reclaimed: false,
        seen: Some(1),
    }
}

/// Client 1 has the file open under number 1. The opens 2 and 3 went.
fn opening() -> OpenRow<'static> {
    OpenRow {
        id: ROOT,
        client: 1,
        owner: b"o",
        node: FILE,
        access: 3,
        deny: 0,
        sequence: 1,
    }
}

fn entry() -> EntryRow<'static> {
    EntryRow {
        directory: ROOT,
        cookie: 3,
        name: b"file",
        node: FILE,
    }
}

fn lasts(alloc: Global) -> Result<Lasts, AllocError> {
    Ok(Lasts {
        clients: two(alloc, 1, 0)?,
        sessions: two(alloc, 0, 0)?,
        contexts: two(alloc, 0, 0)?,
        nodes: two(alloc, 2, 0)?,
        opens: two(alloc, 3, 0)?,
    })
}

fn nodes(alloc: Global) -> Result<Vec<NodeRow<'static>>, AllocError> {
    let mut nodes = one(alloc, node(ROOT, Kind::Directory, 4))?;
    nodes.push(node(FILE, Kind::File, 3))?;
    Ok(nodes)
}

pub(crate) fn lists(alloc: Global) -> Result<Lists<'static>, AllocError> {
    Ok(Lists {
        clients: one(alloc, client())?,
        sessions: Vec::new(alloc),
        contexts: Vec::new(alloc),
        nodes: nodes(alloc)?,
        entries: one(alloc, entry())?,
        opens: one(alloc, opening())?,
        lasts: lasts(alloc)?,
    })
}

// ---- locks

pub(crate) fn range(first: u64, last: u64, write: bool) -> LockRange {
    LockRange { first, last, write }
}

/// A lock of the client's file for write, from byte 10 to 19, and for read behind it.
pub(crate) fn lock(
    alloc: Global,
    number: u64,
    opening: u64,
    owner: &'static [u8],
) -> Result<LockRow<'static>, AllocError> {
    let mut ranges = one(alloc, range(10, 19, true))?;
    ranges.push(range(20, 29, false))?;
    Ok(LockRow {
        id: Id { level: 0, number },
        client: 1,
        opening,
        owner,
        node: FILE,
        sequence: 1,
        ranges,
    })
}

/// The lock of owner `a` under the open that is there.
pub(crate) fn first(alloc: Global) -> Result<LockRow<'static>, AllocError> {
    lock(alloc, 2, 1, b"a")
}

/// Rows of such locks, where level 0 has given five numbers.
pub(crate) fn rows<'a>(alloc: Global, locks: Vec<LockRow<'a>>) -> Result<LockRows<'a>, AllocError> {
    Ok(LockRows {
        locks,
        lasts: two(alloc, 5, 0)?,
    })
}

pub(crate) fn one_lock<'a>(
    alloc: Global,
    lock: LockRow<'a>,
) -> Result<Vec<LockRow<'a>>, AllocError> {
    one(alloc, lock)
}
