//! Rows that are put at other places of their list.
use std::alloc::AllocError;

/// Puts a row at a place of a list, and tells whether the list has that place.
pub fn put_at<T: Drop>(rows: &mut Vec<T>, place: usize, row: T) -> Result<bool, AllocError> {
    if place > rows.len() {
        return Ok(false);
    }
    rows.insert(place, row)?;
    Ok(true)
}

/// Puts a row behind itself once more.
fn again<T: Copy + Drop>(rows: &mut Vec<T>, place: usize) -> Result<bool, AllocError> {
    match rows.get(place) {
        Some(row) => {
            let row = *row;
            put_at(rows, place.saturating_add(1), row)
        }
        None => Ok(false),
    }
}

/// Takes a row away.
fn take_away<T: Drop>(rows: &mut Vec<T>, place: usize) -> bool {
    if place >= rows.len() {
        return false;
    }
    let _row = rows.remove(place);
    true
}

/// Puts two rows into the places of each other.
fn swap<T: Drop>(rows: &mut Vec<T>, place: usize, other: &str) -> bool {
    match other.parse::<usize>() {
        Ok(other) if place < rows.len() && other < rows.len() => {
            rows.swap(place, other);
            true
        }
        _ => false,
    }
}

/// Takes a row away or swaps it with another, where words tell so.
pub fn moved<T: Drop>(rows: &mut Vec<T>, place: usize, how: &str, word: &str) -> bool {
    match how {
        "drop" => take_away(rows, place),
        "swap" => swap(rows, place, word),
        _ => false,
    }
}

/// The same, or puts it there once more.
pub fn arranged<T: Copy + Drop>(
    rows: &mut Vec<T>,
    place: usize,
    how: &str,
    word: &str,
) -> Result<bool, AllocError> {
    match how {
        "again" => again(rows, place),
        _ => Ok(moved(rows, place, how, word)),
    }
}
