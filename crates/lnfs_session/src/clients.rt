//! The clients of all levels with their sessions.
ghost use Rattle.std.specs.Prelude.{◌≡◌, true, false, IfOk, map};
ghost use Rattle.lnfs_rows.specs.Told as told;
ghost use Rattle.lnfs_rows.specs.Lasts.{each_of};
ghost use Rattle.lnfs_session.specs.Standing.{no_lists};
ghost use Rattle.lnfs_session.specs.Makes.{MakesClients, lists_told};

use crate::records::Records;
use crate::sessions::Sessions;
use lnfs_rows::{ClientRow, SessionRow};
use std::alloc::{AllocError, Global};
use std::marker::Model;
use thiserror::Error;

/// Why a call was refused.
#[derive(Clone, Copy, Debug, PartialEq, Eq, Error)]
pub enum SessionError {
    /// The status of a failed test, and whether an id of another level failed it.
    #[error("the call is refused with status {code}")]
    Status { code: u32, foreign: bool },
    /// Memory was wanting.
    #[error("out of memory")]
    Memory,
}

impl From<AllocError> for SessionError {
    ghost use Rattle.std.specs.Prelude.{◌≡◌};
    ghost use Rattle.lnfs_session.specs.declared.clients.SessionError.TheVariants.{Memory};

    ghost from_gives = { λ _ e. e ≡ Memory };

    fn from(_error: AllocError) -> SessionError {
        SessionError::Memory
    }
}

/// The clients of all levels with their sessions, in the order of their identifiers, and the last numbers
/// that were given.
#[derive(Drop)]
pub struct Clients {
    pub(crate) alloc: Global,
    pub(crate) records: Records,
    pub(crate) sessions: Sessions,
}

impl Model for Clients {
    ghost use Rattle.lnfs_session.specs.Standing.{Lists};

    ghost Value = { Lists };

    ghost view = { λ c. record {
      clients = c.records.clients;
      sessions = c.sessions.sessions;
      client_lasts = c.records.lasts;
      session_lasts = c.sessions.lasts;
    } };
}

impl Clients {
    /// The clients and sessions of just these rows, with the last numbers of the levels, from level 0 on, which are 0
    /// where a level gave none.
    pub fn from_rows(
        alloc: Global,
        clients: &[ClientRow<'_>],
        sessions: &[SessionRow<'_>],
        last_clients: &[u64],
        last_sessions: &[u64],
    ) -> Result<Clients, AllocError>
        requires makes { MakesClients (lists_told clients.now sessions.now last_clients.now
            last_sessions.now) }
        ensures { IfOk result (λ all. all ≡ lists_told clients.now sessions.now last_clients.now
            last_sessions.now) }
    {
        Ok(Clients {
            alloc,
            records: Records::from_rows(alloc, clients, last_clients)?,
            sessions: Sessions::from_rows(alloc, sessions, last_sessions)?,
        })
    }

    /// The clients' records as rows, in the order of their identifiers.
    pub fn client_rows(&self) -> Result<Vec<ClientRow<'_>>, AllocError>
        ensures { IfOk result (λ rows. map told.client_of rows.items ≡ self.now.clients) }
    {
        self.records.rows()
    }

    /// The sessions as rows with their slots, in the order of their identifiers.
    pub fn session_rows(&self) -> Result<Vec<SessionRow<'_>>, AllocError>
        ensures { IfOk result (λ rows. map told.session_of rows.items ≡ self.now.sessions) }
    {
        self.sessions.rows(self.alloc)
    }

    /// The last number of a client that each of so many levels gave, 0 where a level gave none.
    pub fn last_clients(&self, levels: u32) -> Result<Vec<u64>, AllocError>
        ensures { IfOk result (λ lasts. lasts.items ≡ each_of levels self.now.client_lasts) }
    {
        self.records.last_numbers(levels)
    }

    /// The last number of a session that each of so many levels gave, 0 where a level gave none.
    pub fn last_sessions(&self, levels: u32) -> Result<Vec<u64>, AllocError>
        ensures { IfOk result (λ lasts. lasts.items ≡ each_of levels self.now.session_lasts) }
    {
        self.sessions.last_numbers(self.alloc, levels)
    }

    /// No client, and no number given yet. Takes no memory.
    pub fn new(alloc: Global) -> Clients
        ensures { result ≡ no_lists }
    {
        Clients {
            alloc,
            records: Records::new(alloc),
            sessions: Sessions::new(alloc),
        }
    }
}

/// A test failed with a status.
pub fn refused(code: u32) -> SessionError
    ensures { result ≡ SessionError.Status code false }
{
    SessionError::Status {
        code,
        foreign: false,
    }
}

/// An id is of another level.
pub fn foreign(code: u32) -> SessionError
    ensures { result ≡ SessionError.Status code true }
{
    SessionError::Status {
        code,
        foreign: true,
    }
}
