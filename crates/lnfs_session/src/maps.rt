//! Looks at maps of rows and changes them, as lists of rows.
ghost use Rattle.std.specs.Prelude.{◌≡◌, ◌||◌, true, IfSome, not, is_some, OnOk, OnErr, filter, map, option_map};
ghost use Rattle.std.specs.List.{find, list_all};
ghost use Rattle.lnfs_world.specs.Rows.{inserted};
ghost use Rattle.lnfs_world.specs.World.{client_order, session_order, session_at, same_id};
ghost use Rattle.lnfs_world.specs.Change.{is_session_of};
ghost use Rattle.lnfs_session.specs.Listed.{id_of, session_id_of, client_of, session_of};

use crate::rows::{Client, ClientRef, Session, SessionRef};
use std::alloc::AllocError;
use std::collections::BTreeMap;

/// Adds a client's record under a new identifier. Where memory is wanting, nothing changes.
pub fn add_client(
    clients: &mut BTreeMap<ClientRef, Client>,
    id: ClientRef,
    client: Client,
) -> Result<(), AllocError>
    ensures added { OnOk result (map client_of clients.new.entries
        ≡ inserted client_order (client_of (id, client)) (map client_of clients.old.entries)) }
    ensures kept { OnErr result (clients.new.entries ≡ clients.old.entries) }
{
    clients.insert(id, client)?;
    Ok(())
}

/// Adds a session under a new identifier. Where memory is wanting, nothing changes.
pub fn add_session(
    sessions: &mut BTreeMap<SessionRef, Session>,
    id: SessionRef,
    session: Session,
) -> Result<(), AllocError>
    ensures added { OnOk result (map session_of sessions.new.entries
        ≡ inserted session_order (session_of (id, session)) (map session_of sessions.old.entries)) }
    ensures kept { OnErr result (sessions.new.entries ≡ sessions.old.entries) }
{
    sessions.insert(id, session)?;
    Ok(())
}

/// A client's record goes.
pub fn drop_client(clients: &mut BTreeMap<ClientRef, Client>, id: ClientRef)
    ensures { map client_of clients.new.entries ≡ filter (λ c. not (same_id (id_of id) c.id))
        (map client_of clients.old.entries) }
{
    clients.remove(&id);
}

/// A session goes, if it is there. Answers whether it was.
pub fn drop_session(sessions: &mut BTreeMap<SessionRef, Session>, id: SessionRef) -> bool
    ensures there { result ≡ is_some (session_at (map session_of sessions.old.entries)
        (session_id_of id)) }
    ensures left { map session_of sessions.new.entries ≡ filter (λ x.
        not (same_id (session_id_of id) x.id)) (map session_of sessions.old.entries) }
{
    sessions.remove(&id).is_some()
}

/// The first session of a client, if it has one. The sessions of a level lie beside each other.
pub fn find_session(
    sessions: &BTreeMap<SessionRef, Session>,
    client: ClientRef,
) -> Option<SessionRef>
    ensures found { option_map session_id_of result
        ≡ option_map (λ x. x.id) (find (is_session_of (id_of client))
        (map session_of sessions.now.entries)) }
    // No other session has its identifier.
    ensures only { IfSome result (λ id. list_all (λ x. not (same_id (session_id_of id) x.id)
        || is_session_of (id_of client) x) (map session_of sessions.now.entries) ≡ true) }
{
    let first = SessionRef {
        level: client.level,
        number: 0,
    };
    for (id, session) in sessions.range(first..) {
        if id.level != client.level {
            return None;
        }
        if session.client == client.number {
            return Some(*id);
        }
    }
    None
}
