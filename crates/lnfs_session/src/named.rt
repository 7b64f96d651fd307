//! Identifiers as they are sent. Each has its level in it.
ghost use Rattle.std.specs.Prelude.{◌≡◌, [], ◌∷◌, drop, map};
ghost use Rattle.std.specs.Option.{option_map};
ghost use Rattle.std.specs.Str.{bytes_eq};
ghost use Rattle.lnfs_world.specs.World.{client_at};
ghost use Rattle.lnfs_operations.specs.Identifiers.{client_named, session_under};
ghost use Rattle.lnfs_session.specs.Listed.{id_of, client_of, session_of, session_key};

use crate::rows::{Client, ClientRef, Session, SessionRef};
use std::collections::BTreeMap;

/// The last bytes of a session id.
const PADDING: [u8; 4] = [0; 4];

/// The session of a session id.
pub fn session_named(id: &[u8; 16]) -> SessionRef
    ensures { result ≡ session_key id.now }
{
    SessionRef {
        level: u32::from_be_bytes([id[0], id[1], id[2], id[3]]),
        number: u64::from_be_bytes([id[4], id[5], id[6], id[7], id[8], id[9], id[10], id[11]]),
    }
}

/// Whether the last four bytes of a session id are zero.
fn is_padded(id: &[u8; 16]) -> bool
    ensures { result ≡ bytes_eq (drop 12 id.now) (0 ∷ 0 ∷ 0 ∷ 0 ∷ []) }
{
    &id[12..] == PADDING.as_slice()
}

/// The session of an id, whose last four bytes have to be zero.
pub fn session_under<'a>(
    sessions: &'a BTreeMap<SessionRef, Session>,
    id: &[u8; 16],
) -> Option<&'a Session>
    ensures { option_map (λ x. session_of (session_key id.now, x.now)) result
        ≡ session_under id.now (map session_of sessions.now.entries) }
{
    if !is_padded(id) {
        return None;
    }
    sessions.get(&session_named(id))
}

/// The record of a client id: the level and the number are its upper and its lower half.
pub fn client_named(id: u64) -> ClientRef
    ensures { id_of result ≡ client_named id }
{
    ClientRef {
        level: (id / 0x1_0000_0000) as u32,
        number: (id % 0x1_0000_0000) as u32,
    }
}

/// The record of an identifier.
pub fn client_at(clients: &BTreeMap<ClientRef, Client>, id: ClientRef) -> Option<&Client>
    ensures { option_map (λ x. client_of (id, x.now)) result
        ≡ client_at (map client_of clients.now.entries) (id_of id) }
{
    clients.get(&id)
}
