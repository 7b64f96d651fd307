//! What is written, and what is read of it.
use crate::compare::same;
use crate::items::{EMPTY, EVENTS, SITE, STATE, Site, bytes_of};
use crate::locks::{LOCK, columns_of};
use crate::rows::{lists, locks, no_locks, no_rows};
use lnfs_content::Content;
use lnfs_layout::{Laid, read_layout, write_layout};
use lnfs_lock_rows::LockRows;
use lnfs_rows::{ClientRow, Data, Kind, Lists, NodeRow};
use lnfs_types::Moment;
use std::alloc::{AllocError, Global};
use std::process::Abort;

/// Compares what is written of lists and of locks with the items that are due.
fn is_written(
    rt: &impl Abort,
    alloc: Global,
    site: &Site,
    events: u64,
    lists: &Lists<'_>,
    locks: &LockRows<'_>,
    due: &str,
) -> Result<(), AllocError> {
    let came = write_layout(alloc, site.levels, &site.digest, events, lists, locks)?;
    let due = bytes_of(rt, alloc, due)?;
    same(rt, came.as_slice(), due.as_slice());
    Ok(())
}

#[test]
fn a_row_of_each_kind(rt: HostRuntime) -> Result<(), AllocError> {
    let alloc = rt.alloc();
    let rows = lists(alloc, Data::Bytes(b"def"))?;
    let own = locks(alloc)?;
    is_written(&rt, alloc, &SITE, EVENTS, &rows, &own, STATE)
}

/// Compares what is written of a file's data.
fn data_is_written(rt: &impl Abort, alloc: Global, content: &Content) -> Result<(), AllocError> {
    let rows = lists(alloc, Data::File(content))?;
    let own = locks(alloc)?;
    is_written(rt, alloc, &SITE, EVENTS, &rows, &own, STATE)
}

#[test]
fn data_of_a_file(rt: HostRuntime) -> Result<(), AllocError> {
    let alloc = rt.alloc();
    let mut content = Content::new(alloc);
    content.write(alloc, 0, b"def")?;
    data_is_written(&rt, alloc, &content)
}

#[test]
fn an_empty_world(rt: HostRuntime) -> Result<(), AllocError> {
    let alloc = rt.alloc();
    let rows = no_rows(alloc)?;
    let own = no_locks(alloc);
    is_written(&rt, alloc, &SITE, 0, &rows, &own, EMPTY)
}

fn same_clients(rt: &impl Abort, rows: &[ClientRow<'_>]) {
    same(rt, rows.len(), 1);
    for row in rows {
        same(rt, row.owner, b"ab".as_slice());
        same(rt, row.verifier, *b"verifier");
    }
}

fn same_nodes(rt: &impl Abort, rows: &[NodeRow<'_>]) {
    same(rt, rows.len(), 1);
    for row in rows {
        let modified = Moment {
            secs: 25,
            nanos: 26,
        };
        same(rt, row.kind, Kind::File);
        same(rt, row.modified, modified);
    }
}

/// Compares a few columns of what was read.
fn is_the_state(rt: &impl Abort, laid: &Laid<'_>) {
    same(rt, laid.events, EVENTS);
    same_clients(rt, &laid.lists.clients);
    same_nodes(rt, &laid.lists.nodes);
    same(rt, laid.lists.lasts.nodes.as_slice(), [1, 6].as_slice());
    same(rt, laid.locks.lasts.as_slice(), [0, 8].as_slice());
    same(rt, columns_of(rt, &laid.locks.locks), LOCK);
}

/// What is read of bytes in the layout.
pub(crate) fn read<'a>(rt: &impl Abort, alloc: Global, site: &Site, bytes: &'a [u8]) -> Laid<'a> {
    match read_layout(alloc, site.levels, &site.digest, bytes) {
        Ok(laid) => laid,
        Err(_) => panic!(rt; "refused"),
    }
}

/// It is written again as it was.
#[test]
fn a_state_is_read(rt: HostRuntime) -> Result<(), AllocError> {
    let alloc = rt.alloc();
    let bytes = bytes_of(&rt, alloc, STATE)?;
    let laid = read(&rt, alloc, &SITE, &bytes);
    is_the_state(&rt, &laid);
    is_written(
        &rt,
        alloc,
        &SITE,
        laid.events,
        &laid.lists,
        &laid.locks,
        STATE,
    )
}

#[test]
fn nothing_is_read_again(rt: HostRuntime) -> Result<(), AllocError> {
    let alloc = rt.alloc();
    let bytes = bytes_of(&rt, alloc, EMPTY)?;
    let laid = read(&rt, alloc, &SITE, &bytes);
    is_written(
        &rt,
        alloc,
        &SITE,
        laid.events,
        &laid.lists,
        &laid.locks,
        EMPTY,
    )
}
