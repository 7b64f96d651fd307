//! What isn't as it is due.
use std::alloc::{AllocError, AllocFailed, Global};

/// Why a trial doesn't come out.
#[derive(Debug, Drop)]
pub enum Flaw {
    /// There was no memory.
    Memory,
    /// Something is otherwise than it is due, or can't be read: what it is, and the row or the name of
    /// what it is found in.
    Otherwise { what: &'static str, of: String },
}

impl Flaw {
    /// That something of a row or a name is otherwise.
    pub fn new(alloc: Global, what: &'static str, of: &str) -> Flaw {
        match String::from_str(alloc, of) {
            Ok(of) => Flaw::Otherwise { what, of },
            Err(_) => Flaw::Memory,
        }
    }
}

impl From<AllocError> for Flaw {
    fn from(_error: AllocError) -> Flaw {
        Flaw::Memory
    }
}

impl<T: Drop> From<AllocFailed<T>> for Flaw {
    fn from(_failed: AllocFailed<T>) -> Flaw {
        Flaw::Memory
    }
}

/// Goes on where something is as it is due.
///
/// # Errors
///
/// `Otherwise` where it isn't.
pub fn demand(alloc: Global, holds: bool, what: &'static str, of: &str) -> Result<(), Flaw> {
    if holds {
        Ok(())
    } else {
        Err(Flaw::new(alloc, what, of))
    }
}

/// What was read of a row, where it could be.
///
/// # Errors
///
/// `Otherwise` where it couldn't.
pub fn read_of<T>(alloc: Global, read: Option<T>, row: &str) -> Result<T, Flaw> {
    match read {
        Some(read) => Ok(read),
        None => Err(Flaw::new(alloc, "reading", row)),
    }
}
