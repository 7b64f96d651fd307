//! Edits of the rows of a checkpoint, in words.
use crate::files::{edit_entry, edit_node, edit_open};
use crate::locks::edit_lock;
use crate::people::{edit_client, edit_context, edit_session};
use crate::words::{Stock, set_u64};
use lnfs_layout::Laid;
use lnfs_rows::Lasts;
use std::alloc::{AllocError, Global};

/// A word of an edit, and what stands behind it.
fn next_word(edit: &str) -> (&str, &str) {
    edit.split_once(' ').unwrap_or((edit, ""))
}

fn set_last(numbers: &mut Vec<u64>, level: usize, word: &str) -> bool {
    match numbers.get_mut(level) {
        Some(number) => set_u64(number, word),
        None => false,
    }
}

/// Puts the last number that a level gave of a kind.
fn edit_last(lasts: &mut Lasts, level: usize, kind: &str, word: &str) -> bool {
    match kind {
        "clients" => set_last(&mut lasts.clients, level, word),
        "sessions" => set_last(&mut lasts.sessions, level, word),
        "contexts" => set_last(&mut lasts.contexts, level, word),
        "nodes" => set_last(&mut lasts.nodes, level, word),
        "opens" => set_last(&mut lasts.opens, level, word),
        _ => false,
    }
}

/// Edits a row of a list at a place.
fn edit_row<'a>(
    alloc: Global,
    laid: &mut Laid<'a>,
    stock: Stock<'a>,
    list: &str,
    place: usize,
    what: &'a str,
) -> Result<bool, AllocError> {
    let (column, word) = next_word(what);
    match list {
        "client" => edit_client(&mut laid.lists.clients, stock, place, column, word),
        "session" => edit_session(alloc, &mut laid.lists.sessions, stock, place, column, word),
        "context" => edit_context(&mut laid.lists.contexts, place, column, word),
        "node" => edit_node(&mut laid.lists.nodes, stock, place, column, word),
        "entry" => edit_entry(&mut laid.lists.entries, stock, place, column, word),
        "open" => edit_open(&mut laid.lists.opens, stock, place, column, word),
        "lock" => edit_lock(alloc, &mut laid.locks.locks, stock, place, column, word),
        "last" if column == "locks" => Ok(set_last(&mut laid.locks.lasts, place, word)),
        "last" => Ok(edit_last(&mut laid.lists.lasts, place, column, word)),
        _ => Ok(false),
    }
}

/// Makes an edit, and tells whether it could be read. It is `LIST PLACE COLUMN WORD`, which puts what the word tells into a
/// column of the row at this place, from 0; `LIST PLACE again`, which puts the row behind itself once more; `LIST PLACE drop`,
/// which takes it away; `LIST PLACE swap OTHER`; `LIST PLACE many COUNT`, which puts so many rows behind it, each of the next
/// number; or `last LEVEL KIND NUMBER`.
pub fn edit<'a>(
    alloc: Global,
    laid: &mut Laid<'a>,
    stock: Stock<'a>,
    words: &'a str,
) -> Result<bool, AllocError> {
    let (list, rest) = next_word(words);
    let (place, what) = next_word(rest);
    match place.parse::<usize>() {
        Ok(place) => edit_row(alloc, laid, stock, list, place, what),
        Err(_) => Ok(false),
    }
}
