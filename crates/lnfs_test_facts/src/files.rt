//! Edits of nodes, names and opens.
use crate::arranged::{arranged, put_at};
use crate::people::set_id;
use crate::words::{Stock, digits_at, set_bytes, set_u32, set_u64};
use lnfs_rows::{Data, EntryRow, Kind, NodeRow, OpenRow, StoredRow};
use std::alloc::AllocError;

fn set_kind(kind: &mut Kind, word: &str) -> bool {
    *kind = match word {
        "file" => Kind::File,
        "directory" => Kind::Directory,
        _ => Kind::SymbolicLink,
    };
    matches!(word, "file" | "directory" | "link")
}

fn set_content<'a>(content: &mut Data<'a>, stock: Stock<'a>, word: &'a str) -> bool {
    let mut bytes: &'a [u8] = b"";
    let told = set_bytes(&mut bytes, stock, word);
    *content = Data::Bytes(bytes);
    told
}

/// A label of no format, or none.
fn set_stored<'a>(stored: &mut Option<StoredRow<'a>>, stock: Stock<'a>, word: &'a str) -> bool {
    if word == "none" {
        *stored = None;
        return true;
    }
    let mut bytes: &'a [u8] = b"";
    let told = set_bytes(&mut bytes, stock, word);
    *stored = Some(StoredRow {
        lfs: 999,
        pi: 5,
        bytes,
    });
    told
}

/// Puts a column of a node.
fn set_node<'a>(row: &mut NodeRow<'a>, stock: Stock<'a>, column: &str, word: &'a str) -> bool {
    match column {
        "kind" => set_kind(&mut row.kind, word),
        "label" => set_u32(&mut row.label, word),
        "stored" => set_stored(&mut row.stored, stock, word),
        "mode" => set_u32(&mut row.mode, word),
        "content" => set_content(&mut row.content, stock, word),
        "change" => set_u64(&mut row.change, word),
        "cookies" => set_u64(&mut row.cookies, word),
        _ => set_id(&mut row.id, column, word),
    }
}

/// Edits a node: a column, or where it stands.
pub fn edit_node<'a>(
    rows: &mut Vec<NodeRow<'a>>,
    stock: Stock<'a>,
    place: usize,
    column: &str,
    word: &'a str,
) -> Result<bool, AllocError> {
    match column {
        "again" | "drop" | "swap" => arranged(rows, place, column, word),
        _ => match rows.get_mut(place) {
            Some(row) => Ok(set_node(row, stock, column, word)),
            None => Ok(false),
        },
    }
}

/// Puts a column of an entry.
fn set_entry<'a>(row: &mut EntryRow<'a>, stock: Stock<'a>, column: &str, word: &'a str) -> bool {
    match column {
        "directory" => set_u64(&mut row.directory.number, word),
        "cookie" => set_u64(&mut row.cookie, word),
        "name" => set_bytes(&mut row.name, stock, word),
        "home" => set_u32(&mut row.node.level, word),
        "node" => set_u64(&mut row.node.number, word),
        _ => false,
    }
}

/// Puts so many further names of a node behind one, each under the next cookie.
fn add_entries<'a>(
    rows: &mut Vec<EntryRow<'a>>,
    stock: Stock<'a>,
    mut row: EntryRow<'a>,
    place: usize,
    count: usize,
) -> Result<bool, AllocError> {
    for step in 0..count {
        let Some(name) = digits_at(stock, step) else {
            return Ok(false);
        };
        row.name = name;
        row.cookie = row.cookie.saturating_add(1);
        let next = place.saturating_add(step).saturating_add(1);
        if !put_at(rows, next, row)? {
            return Ok(false);
        }
    }
    Ok(true)
}

/// Edits an entry: a column, or where it stands.
pub fn edit_entry<'a>(
    rows: &mut Vec<EntryRow<'a>>,
    stock: Stock<'a>,
    place: usize,
    column: &str,
    word: &'a str,
) -> Result<bool, AllocError> {
    let Some(row) = rows.get_mut(place) else {
        return Ok(false);
    };
    match column {
        "many" => {
            let row = *row;
            add_entries(rows, stock, row, place, word.parse::<usize>().unwrap_or(0))
        }
        "again" | "drop" | "swap" => arranged(rows, place, column, word),
        _ => Ok(set_entry(row, stock, column, word)),
    }
}

/// Puts a column of an open.
fn set_open<'a>(row: &mut OpenRow<'a>, stock: Stock<'a>, column: &str, word: &'a str) -> bool {
    match column {
        "client" => set_u64(&mut row.client, word),
        "owner" => set_bytes(&mut row.owner, stock, word),
        "home" => set_u32(&mut row.node.level, word),
        "node" => set_u64(&mut row.node.number, word),
        "access" => set_u32(&mut row.access, word),
        "deny" => set_u32(&mut row.deny, word),
        "sequence" => set_u32(&mut row.sequence, word),
        _ => set_id(&mut row.id, column, word),
    }
}

/// Puts so many further opens behind one, each of the next number and of an owner of its own.
fn add_opens<'a>(
    rows: &mut Vec<OpenRow<'a>>,
    stock: Stock<'a>,
    mut row: OpenRow<'a>,
    place: usize,
    count: usize,
) -> Result<bool, AllocError> {
    for step in 0..count {
        let Some(owner) = digits_at(stock, step) else {
            return Ok(false);
        };
        row.owner = owner;
        row.id.number = row.id.number.saturating_add(1);
        let next = place.saturating_add(step).saturating_add(1);
        if !put_at(rows, next, row)? {
            return Ok(false);
        }
    }
    Ok(true)
}

/// Edits an open: a column, or where it stands.
pub fn edit_open<'a>(
    rows: &mut Vec<OpenRow<'a>>,
    stock: Stock<'a>,
    place: usize,
    column: &str,
    word: &'a str,
) -> Result<bool, AllocError> {
    let Some(row) = rows.get_mut(place) else {
        return Ok(false);
    };
    match column {
        "many" => {
            let row = *row;
            add_opens(rows, stock, row, place, word.parse::<usize>().unwrap_or(0))
        }
        "again" | "drop" | "swap" => arranged(rows, place, column, word),
        _ => Ok(set_open(row, stock, column, word)),
    }
}
