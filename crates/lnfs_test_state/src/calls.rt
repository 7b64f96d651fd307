//! Calls of clients, with their arguments.
use lnfs_arguments::{Channel, CreateSession, Sequence};
use lnfs_session::{ClientRef, Clients, Created, Seq, SessionError, SessionRef};
use lnfs_types::Items;
use std::alloc::{AllocError, Global};

/// The session of level 0 with the number 1.
pub(crate) const SESSION: SessionRef = SessionRef {
    level: 0,
    number: 1,
};

/// The seconds of the moment of each CREATE_SESSION.
pub(crate) const MADE_AT: u64 = 100;

pub(crate) const SESSION_ID: [u8; 16] = [0, 0, 0, 0, 0, 0, 0, 0, 0, 0, 0, 1, 0, 0, 0, 0];

/// The refusal of an operation, on a row of the caller's own level.
pub(crate) fn failed(code: u32) -> SessionError {
    SessionError::Status {
        code,
        foreign: false,
    }
}

/// A channel with more of each than is granted.
fn large_channel() -> Channel {
    Channel {
        headerpad: 4,
        maxrequest: 1_000_000,
        maxresponse: 1_000_000,
        cached: 9_000,
        operations: 100,
        requests: 100,
        ird: Some(1),
    }
}

fn create_args(alloc: Global, client: u64, sequence: u32) -> CreateSession {
    CreateSession {
        client,
        sequence,
        flags: 0,
        fore: large_channel(),
        back: large_channel(),
        program: 0,
        callbacks: Items::new(Vec::new(alloc)),
    }
}

fn sequence_args(sequence: u32, slot: u32) -> Sequence {
    Sequence {
        session: SESSION_ID,
        sequence,
        slot,
        highest: 0,
        cachethis: true,
    }
}

/// What a SEQUENCE is answered, in words.
fn told(came: Result<Seq<'_>, SessionError>) -> &'static str {
    match came {
        Ok(Seq::New { .. }) => "new",
        Ok(Seq::Replay(reply)) if reply == b"first".as_slice() => "first again",
        Ok(Seq::Replay(_)) => "another again",
        Err(SessionError::Status { code: 10053, .. }) => "no slot",
        Err(SessionError::Status { code: 10063, .. }) => "misordered",
        Err(SessionError::Status { code: 10065, .. }) => "too big",
        Err(SessionError::Status { code: 10070, .. }) => "too many",
        Err(SessionError::Status { code: 10076, .. }) => "false retry",
        Err(_) => "another error",
    }
}

/// Makes a session by a CREATE_SESSION of a level.
pub(crate) fn create(
    alloc: Global,
    clients: &mut Clients,
    level: u32,
    client: u64,
    sequence: u32,
) -> Result<Created, SessionError> {
    let args = create_args(alloc, client, sequence);
    clients.create_session(level, &args, b"create", MADE_AT)
}

/// The answer of a CREATE_SESSION is kept.
pub(crate) fn keep_made(
    alloc: Global,
    clients: &mut Clients,
    client: ClientRef,
) -> Result<(), AllocError> {
    let bytes = Vec::from_slice(alloc, b"create")?;
    let reply = Vec::from_slice(alloc, b"made")?;
    clients.keep_created(client, bytes, reply);
    Ok(())
}

/// A session with what is granted of a large channel.
pub(crate) fn new_session(session: u32, dropped: Option<ClientRef>) -> Created {
    let granted = Channel {
        headerpad: 0,
        maxrequest: 65_536,
        maxresponse: 65_536,
        cached: 65_536,
        operations: 32,
        requests: 16,
        ird: None,
    };
    Created::New {
        session,
        granted,
        dropped,
    }
}

/// Makes a client with a session, which has 16 slots.
pub(crate) fn begin(alloc: Global, clients: &mut Clients) -> Result<(), SessionError> {
    clients.exchange_id(0, [7; 8], b"owner", 0)?;
    create(alloc, clients, 0, 1, 1)?;
    Ok(())
}

/// How a SEQUENCE comes, in words.
pub(crate) fn came(
    clients: &Clients,
    slot: u32,
    sequence: u32,
    bytes: &[u8],
    size: u32,
    count: u32,
) -> &'static str {
    let args = sequence_args(sequence, slot);
    told(clients.sequence(0, &args, bytes, size, count))
}
