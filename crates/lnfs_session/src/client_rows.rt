//! The rows of clients, each under its identifier.
ghost use Rattle.std.specs.Prelude.{◌≡◌, true, OnOk, OnErr, map, option_map};
ghost use Rattle.lnfs_world.specs.Rows.{inserted};
ghost use Rattle.lnfs_world.specs.World.{client_order, client_at};
ghost use Rattle.lnfs_operations.specs.ExchangeId.{new_client};
ghost use Rattle.lnfs_operations.specs.Keeping.{next_sequence};
ghost use Rattle.lnfs_session.specs.Listed.{id_of, client_of, kept_of};
ghost use Rattle.lnfs_session.specs.Standing.{answered, clients_left, clients_set, confirmed, reclaimed, seen_at};

use crate::maps::drop_client;
use crate::rows::{Client, ClientRef, Kept};
use lnfs_types::Octets;
use lnfs_world::numbers::LAST_SEQUENCE;
use std::alloc::{AllocError, Global};
use std::collections::BTreeMap;

/// Adds a new record of an owner.
pub fn add_new(
    rows: &mut BTreeMap<ClientRef, Client>,
    alloc: Global,
    id: ClientRef,
    owner: &[u8],
    verifier: [u8; 8],
) -> Result<(), AllocError>
    ensures added { OnOk result (map client_of rows.new.entries
        ≡ inserted client_order (new_client (id_of id)
        (record { verifier = verifier; owner = owner.now; flags = 0 }))
        (map client_of rows.old.entries)) }
    ensures kept { OnErr result (rows.new.entries ≡ rows.old.entries) }
{
    let client = Client {
        owner: Octets::from_slice(alloc, owner)?,
        verifier,
        confirmed: false,
        sequence: 1,
        kept: None,
        reclaimed: false,
        seen: None,
    };
    rows.insert(id, client)?;
    Ok(())
}

/// A record goes, if there is one to go.
pub fn drop_any(rows: &mut BTreeMap<ClientRef, Client>, gone: Option<ClientRef>)
    ensures { map client_of rows.new.entries ≡ clients_left (option_map id_of gone)
        (map client_of rows.old.entries) }
{
    if let Some(id) = gone {
        drop_client(rows, id);
    }
}

/// A CREATE_SESSION has confirmed a record.
pub fn set_confirmed(rows: &mut BTreeMap<ClientRef, Client>, id: ClientRef)
    ensures { map client_of rows.new.entries ≡ clients_set confirmed
        (client_at (map client_of rows.old.entries) (id_of id)) (map client_of rows.old.entries) }
{
    let Some(row) = rows.get_mut(&id) else {
        return;
    };
    row.confirmed = true;
}

/// The sequence after one.
pub fn next_sequence(sequence: u32) -> u32
    ensures { result ≡ next_sequence sequence }
{
    if sequence == LAST_SEQUENCE {
        0
    } else {
        sequence + 1
    }
}

/// The sequence of a record moves, and the answer is kept in it.
pub fn keep_answer(rows: &mut BTreeMap<ClientRef, Client>, id: ClientRef, kept: Kept)
    ensures { map client_of rows.new.entries ≡ clients_set (answered (kept_of kept))
        (client_at (map client_of rows.old.entries) (id_of id)) (map client_of rows.old.entries) }
{
    let Some(row) = rows.get_mut(&id) else {
        return;
    };
    row.sequence = next_sequence(row.sequence);
    row.kept = Some(kept);
}

/// A client has said that it reclaims no more.
pub fn mark_reclaimed(rows: &mut BTreeMap<ClientRef, Client>, id: ClientRef)
    ensures { map client_of rows.new.entries ≡ clients_set reclaimed
        (client_at (map client_of rows.old.entries) (id_of id)) (map client_of rows.old.entries) }
{
    let Some(row) = rows.get_mut(&id) else {
        return;
    };
    row.reclaimed = true;
}

/// A client's lease begins again at so many seconds.
pub fn set_seen(rows: &mut BTreeMap<ClientRef, Client>, id: ClientRef, secs: u64)
    ensures { map client_of rows.new.entries ≡ clients_set (seen_at secs)
        (client_at (map client_of rows.old.entries) (id_of id)) (map client_of rows.old.entries) }
{
    let Some(row) = rows.get_mut(&id) else {
        return;
    };
    row.seen = Some(secs);
}
