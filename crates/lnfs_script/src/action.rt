//! What a client is asked to do.

use lnfs_calipso::Level;
use lnfs_types::Octets;

/// One thing that a client does, over one or more requests.
#[derive(Debug, Drop)]
pub enum Action {
    /// Becomes known to the server and begins a session.
    Mount,
    /// Tells the names of a directory with their labels.
    List {
        path: Octets,
    },
    /// Tells at most so many bytes of a file from an offset on.
    Read {
        path: Octets,
        offset: u64,
        count: u32,
    },
    /// Writes bytes into a file at an offset.
    Write {
        path: Octets,
        offset: u64,
        content: Octets,
    },
    /// Makes a file.
    Make {
        path: Octets,
    },
    /// Makes a directory of a level.
    Mkdir {
        path: Octets,
        level: Level,
    },
    /// Removes a file or a directory.
    Remove {
        path: Octets,
    },
    /// Gives a file or a directory a level above its own.
    Raise {
        path: Octets,
        level: Level,
    },
    /// Ends the session and is no longer known to the server.
    Leave,
}
