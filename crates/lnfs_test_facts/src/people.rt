//! Edits of clients, sessions and contexts.
use crate::arranged::{arranged, moved, put_at};
use crate::words::{Stock, digits_at, set_bytes, set_u32, set_u64};
use lnfs_rows::{Channel, ClientRow, ContextRow, Id, Kept, SessionRow, SlotRow};
use std::alloc::{AllocError, Global};

/// Puts a part of an identifier.
pub fn set_id(id: &mut Id, column: &str, word: &str) -> bool {
    match column {
        "level" => set_u32(&mut id.level, word),
        "number" => set_u64(&mut id.number, word),
        _ => false,
    }
}

/// Puts bytes in the place of a reply that is kept.
fn set_reply<'a>(kept: &mut Option<Kept<'a>>, stock: Stock<'a>, word: &'a str) -> bool {
    let mut reply: &'a [u8] = b"";
    if !set_bytes(&mut reply, stock, word) {
        return false;
    }
    *kept = Some(Kept {
        arguments: b"",
        reply,
    });
    true
}

fn set_flag(place: &mut bool, word: &str) -> bool {
    *place = word == "yes";
    matches!(word, "yes" | "no")
}

fn set_seen(place: &mut Option<u64>, word: &str) -> bool {
    *place = word.parse::<u64>().ok();
    place.is_some() || word == "none"
}

/// Puts a column of a client.
fn set_client<'a>(row: &mut ClientRow<'a>, stock: Stock<'a>, column: &str, word: &'a str) -> bool {
    match column {
        "owner" => set_bytes(&mut row.owner, stock, word),
        "confirmed" => set_flag(&mut row.confirmed, word),
        "reply" => set_reply(&mut row.kept, stock, word),
        "seen" => set_seen(&mut row.seen, word),
        _ => set_id(&mut row.id, column, word),
    }
}

/// Puts so many further clients behind one, each of the next number and of an owner of its own.
fn add_clients<'a>(
    rows: &mut Vec<ClientRow<'a>>,
    stock: Stock<'a>,
    mut row: ClientRow<'a>,
    place: usize,
    count: usize,
) -> Result<bool, AllocError> {
    for step in 0..count {
        let Some(owner) = digits_at(stock, step) else {
            return Ok(false);
        };
        row.owner = owner;
        row.id.number = row.id.number.saturating_add(1);
        let next = place.saturating_add(step).saturating_add(1);
        if !put_at(rows, next, row)? {
            return Ok(false);
        }
    }
    Ok(true)
}

/// Edits a client: a column, or where it stands.
pub fn edit_client<'a>(
    rows: &mut Vec<ClientRow<'a>>,
    stock: Stock<'a>,
    place: usize,
    column: &str,
    word: &'a str,
) -> Result<bool, AllocError> {
    let Some(row) = rows.get_mut(place) else {
        return Ok(false);
    };
    match column {
        "many" => {
            let row = *row;
            add_clients(rows, stock, row, place, word.parse::<usize>().unwrap_or(0))
        }
        "again" | "drop" | "swap" => arranged(rows, place, column, word),
        _ => Ok(set_client(row, stock, column, word)),
    }
}

fn set_channel(channel: &mut Channel, column: &str, word: &str) -> bool {
    match column {
        "request" => set_u32(&mut channel.max_request, word),
        "response" => set_u32(&mut channel.max_response, word),
        "cached" => set_u32(&mut channel.max_cached, word),
        "operations" => set_u32(&mut channel.max_operations, word),
        "requests" => set_u32(&mut channel.max_requests, word),
        _ => false,
    }
}

/// A slot that no request came on.
const FRESH: SlotRow<'static> = SlotRow {
    sequence: 0,
    kept: None,
};

/// Leaves so many slots, or adds fresh ones up to there.
fn set_slots(slots: &mut Vec<SlotRow<'_>>, count: usize) -> Result<bool, AllocError> {
    slots.truncate(count);
    for _ in slots.len()..count {
        slots.push(FRESH)?;
    }
    Ok(true)
}

fn set_slot_reply<'a>(slots: &mut Vec<SlotRow<'a>>, stock: Stock<'a>, word: &'a str) -> bool {
    match slots.first_mut() {
        Some(slot) => set_reply(&mut slot.kept, stock, word),
        None => false,
    }
}

/// Puts a column of a session.
fn set_session<'a>(
    row: &mut SessionRow<'a>,
    stock: Stock<'a>,
    column: &str,
    word: &'a str,
) -> Result<bool, AllocError> {
    match column {
        "slots" => set_slots(&mut row.slots, word.parse::<usize>().unwrap_or(0)),
        "reply" => Ok(set_slot_reply(&mut row.slots, stock, word)),
        "client" => Ok(set_u64(&mut row.client, word)),
        "level" | "number" => Ok(set_id(&mut row.id, column, word)),
        _ => Ok(set_channel(&mut row.channel, column, word)),
    }
}

/// A session of the same client and channel, and of a number that is so much higher, whose slots are fresh.
fn session_like<'a>(
    alloc: Global,
    row: &SessionRow<'a>,
    higher: u64,
) -> Result<SessionRow<'a>, AllocError> {
    let mut slots = Vec::new(alloc);
    set_slots(&mut slots, row.slots.len())?;
    Ok(SessionRow {
        id: Id {
            level: row.id.level,
            number: row.id.number.saturating_add(higher),
        },
        client: row.client,
        channel: row.channel,
        slots,
    })
}

/// Puts a session behind one, like it and of a number that is so much higher.
fn add_session<'a>(
    alloc: Global,
    rows: &mut Vec<SessionRow<'a>>,
    place: usize,
    higher: u64,
) -> Result<bool, AllocError> {
    let Some(row) = rows.get(place) else {
        return Ok(false);
    };
    let row = session_like(alloc, row, higher)?;
    put_at(rows, place.saturating_add(1), row)
}

/// Puts so many sessions behind one, each of the next number.
fn add_sessions(
    alloc: Global,
    rows: &mut Vec<SessionRow<'_>>,
    place: usize,
    count: usize,
) -> Result<bool, AllocError> {
    for step in 0..count {
        if !add_session(alloc, rows, place.saturating_add(step), 1)? {
            return Ok(false);
        }
    }
    Ok(true)
}

/// Edits a session: a column, or where it stands.
pub fn edit_session<'a>(
    alloc: Global,
    rows: &mut Vec<SessionRow<'a>>,
    stock: Stock<'a>,
    place: usize,
    column: &str,
    word: &'a str,
) -> Result<bool, AllocError> {
    match column {
        "many" => add_sessions(alloc, rows, place, word.parse::<usize>().unwrap_or(0)),
        "again" => add_session(alloc, rows, place, 0),
        "drop" | "swap" => Ok(moved(rows, place, column, word)),
        _ => match rows.get_mut(place) {
            Some(row) => set_session(row, stock, column, word),
            None => Ok(false),
        },
    }
}

/// Puts a column of a context.
fn set_context(row: &mut ContextRow, column: &str, word: &str) -> bool {
    match column {
        "parent" => set_u64(&mut row.parent, word),
        _ => set_id(&mut row.id, column, word),
    }
}

/// Puts so many further contexts behind one, each of the next number.
fn add_contexts(
    rows: &mut Vec<ContextRow>,
    mut row: ContextRow,
    place: usize,
    count: usize,
) -> Result<bool, AllocError> {
    for step in 0..count {
        row.id.number = row.id.number.saturating_add(1);
        let next = place.saturating_add(step).saturating_add(1);
        if !put_at(rows, next, row)? {
            return Ok(false);
        }
    }
    Ok(true)
}

/// Edits a context: a column, or where it stands.
pub fn edit_context(
    rows: &mut Vec<ContextRow>,
    place: usize,
    column: &str,
    word: &str,
) -> Result<bool, AllocError> {
    let Some(row) = rows.get_mut(place) else {
        return Ok(false);
    };
    match column {
        "many" => {
            let row = *row;
            add_contexts(rows, row, place, word.parse::<usize>().unwrap_or(0))
        }
        "again" | "drop" | "swap" => arranged(rows, place, column, word),
        _ => Ok(set_context(row, column, word)),
    }
}
