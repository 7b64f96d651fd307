//! A small checkpoint, laid out by hand: of one level, with a row or two in each list.
use lnfs_test_support::flaw::{Flaw, read_of};
use lnfs_test_support::rows::{cells_of, counted_rows, frames_of};
use std::alloc::Global;

/// A policy of one level, without directories.
pub const SMALL_POLICY: &str = "lnfs-policy 1
mode enforcing
level 0 1 0 -
format 101 1 calipso
parent 7 0101010101010101010101010101010101010101010101010101010101010101 0
guest 0 * 0
";

/// A client, its session of one slot, a context, and a file that is made, stays open, and is locked by LOCK, which is 12: its
/// first 10 bytes, for write.
pub const SMALL_EVENTS: &str = "\
CALL SYS EXCHANGE 'c1' REST / \
CALL SYS CREATE 0 1 1 0 0 2048 2048 2048 4 1 0 CHANNEL 0 0 / \
CREATE_7 40 9 ASSERT_0 CHECKSUM 40 ZEROS / \
@0.101 CALL SYS 0 2 4 SEQUENCE 1 0 0 1 24 MAKE_F 12 2 0 0 0 0 10 1 0 ID_1 0 0 1 1 'a' 0x000000";

/// In each table the items of the checkpoint after these events, in order: a name, and the words of the item.
///
/// The name of the layout, the policy's digest, the number of events, and the last numbers of the one level.
const HEAD_ITEMS: &str = "
the name | 'LNFSCKP1'
the digest | 0x26e74c7c3165779d8539c1e3a241d0a7d2d0013eafaa58b948d7feb7430f8007
events | 0 4
last client | 0 1
last session | 0 1
last context | 0 1
last node | 0 2
last open | 0 1
last lock | 0 1
";

/// The client. It is kept what CREATE_SESSION brought and got.
const CLIENT_ITEMS: &str = "
clients | 0 1
client: level | 0
client: number | 0 1
client: owner's length | 0 2
client: owner | 'c1'
client: verifier | 0 0
client: confirmed | 0x01
client: sequence | 2
client: kept | 0x01
client: arguments' length | 0 96
client: arguments | 0 2 1 43 0 1 1 0 0 2048 2048 2048 4 1 0 CHANNEL 0 0
client: reply's length | 0 100
client: reply | 0 0 1 43 0 0 0 1 0 1 0 0 2048 2048 2048 4 1 0 CHANNEL
client: reclaimed | 0x00
client: seen | 0x01
client: seconds | 0 101
";

/// The session. Its slot keeps the COMPOUND that made and locked the file, and its result.
const SESSION_ITEMS: &str = "
sessions | 0 1
session: level | 0
session: number | 0 1
session: client | 0 1
session: request | 2048
session: response | 2048
session: cached | 2048
session: operations | 4
session: requests | 1
session: slots | 0 1
session: slot's sequence | 1
session: kept | 0x01
session: arguments' length | 0 184
session: arguments | 0 2 4 53 0 0 1 0 1 0 0 1 24 MAKE_F 12 2 0 0 0 0 10 1 0 ID_1 0 0 1 1 'a' 0x000000
session: reply's length | 0 144
session: reply | 0 0 4 53 0 0 0 1 0 1 0 0 0 0 24 0 MADE_F 12 0 1 0 1 1
";

/// The context, the root, and the file.
const NODE_ITEMS: &str = "
contexts | 0 1
context: level | 0
context: parent | 0 7
context: number | 0 1
nodes | 0 2
root: level | 0
root: number | 0 1
root: kind | 2
root: label | 0
root: stored | 0x00
root: mode | 493
root: content's length | 0 0
root: change | 0 2
root: accessed | 0 0
root: nanoseconds | 0
root: metadata | 0 101
root: nanoseconds | 0
root: modified | 0 101
root: nanoseconds | 0
root: verifier | 0x00
root: cookies | 0 4
file: level | 0
file: number | 0 2
file: kind | 1
file: label | 0
file: stored | 0x00
file: mode | 420
file: content's length | 0 0
file: change | 0 1
file: accessed | 0 101
file: nanoseconds | 0
file: metadata | 0 101
file: nanoseconds | 0
file: modified | 0 101
file: nanoseconds | 0
file: verifier | 0x00
file: cookies | 0 3
";

/// The file's name and its open.
const NAME_ITEMS: &str = "
entries | 0 1
entry: directory's level | 0
entry: directory | 0 1
entry: cookie | 0 3
entry: name's length | 0 1
entry: name | 'f'
entry: node's level | 0
entry: node | 0 2
opens | 0 1
open: level | 0
open: number | 0 1
open: client | 0 1
open: owner's length | 0 1
open: owner | 'o'
open: node's level | 0
open: node | 0 2
open: access | 3
open: deny | 0
open: sequence | 1
";

/// The lock.
const LOCK_ITEMS: &str = "
locks | 0 1
lock: level | 0
lock: number | 0 1
lock: client | 0 1
lock: open | 0 1
lock: owner's length | 0 1
lock: owner | 'a'
lock: node's level | 0
lock: node | 0 2
lock: sequence | 1
lock: ranges | 0 1
range: first | 0 0
range: last | 0 9
range: write | 0x01
";

/// Bytes that are laid out item by item, and where each item begins.
#[derive(Drop)]
pub struct LaidOut {
    pub bytes: Vec<u8>,
    pub begins: Vec<usize>,
}

/// Adds the item of a row.
fn put_item(alloc: Global, row: &str, laid: &mut LaidOut) -> Result<(), Flaw> {
    let cells = cells_of(alloc, row)?;
    let [_, words] = cells.as_slice() else {
        return Err(Flaw::new(alloc, "cells", row));
    };
    let framed = read_of(alloc, frames_of(alloc, words)?, row)?;
    laid.begins.push(laid.bytes.len())?;
    // an item has no frame of its own
    laid.bytes
        .extend_from_slice(framed.get(4..).unwrap_or(&[]))?;
    Ok(())
}

/// Adds the items of a table, which has so many.
fn put_items(alloc: Global, table: &str, count: usize, laid: &mut LaidOut) -> Result<(), Flaw> {
    for row in &counted_rows(alloc, table, count)? {
        put_item(alloc, row, laid)?;
    }
    Ok(())
}

/// The checkpoint after these events.
pub fn small(alloc: Global) -> Result<LaidOut, Flaw> {
    let mut laid = LaidOut {
        bytes: Vec::new(alloc),
        begins: Vec::new(alloc),
    };
    put_items(alloc, HEAD_ITEMS, 9, &mut laid)?;
    put_items(alloc, CLIENT_ITEMS, 16, &mut laid)?;
    put_items(alloc, SESSION_ITEMS, 16, &mut laid)?;
    put_items(alloc, NODE_ITEMS, 37, &mut laid)?;
    put_items(alloc, NAME_ITEMS, 19, &mut laid)?;
    put_items(alloc, LOCK_ITEMS, 14, &mut laid)?;
    Ok(laid)
}
