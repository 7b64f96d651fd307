//! Clients of each level and their sessions, in the words of a row.
use std::alloc::{AllocError, Global};

/// Adds the events of a client of a level and its session. Those of level 0 are of class 0.
pub fn put_opening(row: &mut String, level: usize) -> Result<(), AllocError> {
    let class = level.min(1);
    write!(
        row,
        "@{class} CALL SYS_{level}00 EXCHANGE 'c1' REST / \
@{class} CALL SYS_{level}00 CREATE {level} 1 1 0 CHANNEL CHANNEL 0 0"
    )
}

/// Adds the replies to these.
pub fn put_opened(row: &mut String, level: usize) -> Result<(), AllocError> {
    write!(
        row,
        "EXCHANGED {level} 1 SERVER / CREATED {level} 0 1 0 1 0 CHANNEL CHANNEL"
    )
}

/// A row in whose place of OPEN_ and OPENED_ and a level stand the client and the session of that level, and the
/// replies to them.
pub fn with_clients(alloc: Global, row: &str) -> Result<String, AllocError> {
    let mut whole = String::new(alloc);
    for word in row.split(' ') {
        match word {
            "OPEN_1" => put_opening(&mut whole, 1)?,
            "OPEN_2" => put_opening(&mut whole, 2)?,
            "OPEN_3" => put_opening(&mut whole, 3)?,
            "OPENED_1" => put_opened(&mut whole, 1)?,
            "OPENED_2" => put_opened(&mut whole, 2)?,
            "OPENED_3" => put_opened(&mut whole, 3)?,
            _ => whole.push_str(word)?,
        }
        whole.push_str(" ")?;
    }
    Ok(whole)
}
