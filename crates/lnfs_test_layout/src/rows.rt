//! The rows of the states, as values.
use lnfs_lock_rows::{LockRow, LockRows};
use lnfs_ranges::LockRange;
use lnfs_rows::{
    Channel, ClientRow, ContextRow, Data, EntryRow, Id, Kept, Kind, Lasts, Lists, NodeRow, OpenRow,
    SessionRow, SlotRow, StoredRow,
};
use lnfs_types::Moment;
use std::alloc::{AllocError, Global};

/// The last numbers of two levels.
fn two(alloc: Global, first: u64, second: u64) -> Result<Vec<u64>, AllocError> {
    let mut numbers = Vec::new(alloc);
    numbers.push(first)?;
    numbers.push(second)?;
    Ok(numbers)
}

/// A list of one row.
fn one<T: Drop>(alloc: Global, row: T) -> Result<Vec<T>, AllocError> {
    let mut rows = Vec::new(alloc);
    rows.push(row)?;
    Ok(rows)
}

fn slots(alloc: Global) -> Result<Vec<SlotRow<'static>>, AllocError> {
    let mut rows = one(
        alloc,
        SlotRow {
            sequence: 5,
            kept: None,
        },
    )?;
    rows.push(SlotRow {
        sequence: 6,
        kept: Some(Kept {
            arguments: b"",
            reply: b"r",
        }),
    })?;
    Ok(rows)
}

fn client() -> ClientRow<'static> {
    ClientRow {
        id: Id {
            level: 1,
            number: 2,
        },
        owner: b"ab",
        verifier: *b"verifier",
        confirmed: true,
        sequence: 3,
        kept: Some(Kept {
            arguments: b"x",
            reply: b"yz",
        }),
        reclaimed: false,
        seen: Some(9),
    }
}

fn session(alloc: Global) -> Result<SessionRow<'static>, AllocError> {
    Ok(SessionRow {
        id: Id {
            level: 1,
            number: 3,
        },
        client: 2,
        channel: Channel {
            max_request: 10,
            max_response: 11,
            max_cached: 12,
            max_operations: 13,
            max_requests: 14,
        },
        slots: slots(alloc)?,
    })
}

fn node(content: Data<'_>) -> NodeRow<'_> {
    NodeRow {
        id: Id {
            level: 1,
            number: 6,
        },
        kind: Kind::File,
        label: 1,
        verifier: Some(*b"exclusiv"),
        stored: Some(StoredRow {
            lfs: 7,
            pi: 8,
            bytes: b"l",
        }),
        mode: 0o644,
        content,
        change: 11,
        accessed: Moment {
            secs: 21,
            nanos: 22,
        },
        metadata: Moment {
            secs: 23,
            nanos: 24,
        },
        modified: Moment {
            secs: 25,
            nanos: 26,
        },
        cookies: 3,
    }
}

fn entry() -> EntryRow<'static> {
    EntryRow {
        directory: Id {
            level: 0,
            number: 1,
        },
        cookie: 3,
        name: b"f",
        node: Id {
            level: 1,
            number: 6,
        },
    }
}

fn open() -> OpenRow<'static> {
    OpenRow {
        id: Id {
            level: 1,
            number: 7,
        },
        client: 2,
        owner: b"o",
        node: Id {
            level: 1,
            number: 6,
        },
        access: 3,
        deny: 2,
        sequence: 1,
    }
}

/// A row of each kind, with a file's data as it is lent.
pub(crate) fn lists(alloc: Global, content: Data<'_>) -> Result<Lists<'_>, AllocError> {
    Ok(Lists {
        clients: one(alloc, client())?,
        sessions: one(alloc, session(alloc)?)?,
        contexts: one(
            alloc,
            ContextRow {
                id: Id {
                    level: 0,
                    number: 4,
                },
                parent: 2,
            },
        )?,
        nodes: one(alloc, node(content))?,
        entries: one(alloc, entry())?,
        opens: one(alloc, open())?,
        lasts: Lasts {
            clients: two(alloc, 0, 2)?,
            sessions: two(alloc, 0, 3)?,
            contexts: two(alloc, 4, 0)?,
            nodes: two(alloc, 1, 6)?,
            opens: two(alloc, 0, 7)?,
        },
    })
}

/// No row. A level without a number gave none.
pub(crate) fn no_rows(alloc: Global) -> Result<Lists<'static>, AllocError> {
    Ok(Lists {
        clients: Vec::new(alloc),
        sessions: Vec::new(alloc),
        contexts: Vec::new(alloc),
        nodes: Vec::new(alloc),
        entries: Vec::new(alloc),
        opens: Vec::new(alloc),
        lasts: Lasts {
            clients: two(alloc, 0, 0)?,
            sessions: Vec::new(alloc),
            contexts: two(alloc, 0, 0)?,
            nodes: Vec::new(alloc),
            opens: Vec::new(alloc),
        },
    })
}

fn ranges(alloc: Global) -> Result<Vec<LockRange>, AllocError> {
    let mut ranges = one(
        alloc,
        LockRange {
            first: 16,
            last: 31,
            write: true,
        },
    )?;
    ranges.push(LockRange {
        first: 32,
        last: u64::MAX,
        write: false,
    })?;
    Ok(ranges)
}

fn lock(alloc: Global) -> Result<LockRow<'static>, AllocError> {
    Ok(LockRow {
        id: Id {
            level: 1,
            number: 8,
        },
        client: 2,
        opening: 7,
        owner: b"p",
        node: Id {
            level: 1,
            number: 6,
        },
        sequence: 5,
        ranges: ranges(alloc)?,
    })
}

/// A lock of two ranges.
pub(crate) fn locks(alloc: Global) -> Result<LockRows<'static>, AllocError> {
    Ok(LockRows {
        locks: one(alloc, lock(alloc)?)?,
        lasts: two(alloc, 0, 8)?,
    })
}

/// No lock. A level without a number gave none.
pub(crate) fn no_locks(alloc: Global) -> LockRows<'static> {
    LockRows {
        locks: Vec::new(alloc),
        lasts: Vec::new(alloc),
    }
}
