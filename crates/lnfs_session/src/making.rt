//! Rows that were told, as they are kept.
ghost use Rattle.std.specs.Prelude.{◌≡◌, ◌≤◌, None, IfOk, map};
ghost use Rattle.std.specs.List.{AllByRecursion};
ghost use Rattle.std.specs.Option.{option_map};
ghost use Rattle.lnfs_world.specs.Rows.{Rising};
ghost use Rattle.lnfs_world.specs.World.{client_order, session_order};
ghost use Rattle.lnfs_rows.specs.Told as told;
ghost use Rattle.lnfs_session.specs.Listed.{kept_of, client_of, channel_of, slot_of, session_of};
ghost use Rattle.lnfs_session.specs.Makes.{IsNumber};

use crate::maps::{add_client, add_session};
use crate::rows::{Client, ClientRef, Kept, Session, SessionRef, Slot};
use lnfs_arguments::Channel;
use lnfs_rows::{ClientRow, Id, SessionRow, SlotRow};
use lnfs_types::Octets;
use lnfs_world::numbers::LAST_NUMBER;
use std::alloc::{AllocError, Global};
use std::collections::BTreeMap;

fn client_ref(id: Id) -> ClientRef
    requires { id.number ≤ LAST_NUMBER }
    ensures { result ≡ record { level = id.level; number = id.number } }
{
    ClientRef {
        level: id.level,
        number: id.number as u32,
    }
}

fn session_ref(id: Id) -> SessionRef
    ensures { result ≡ record { level = id.level; number = id.number } }
{
    SessionRef {
        level: id.level,
        number: id.number,
    }
}

fn make_kept(alloc: Global, kept: Option<lnfs_rows::Kept<'_>>) -> Result<Option<Kept>, AllocError>
    ensures { IfOk result (λ made. option_map kept_of made ≡ option_map told.kept_of kept.entry) }
{
    let Some(kept) = kept else {
        return Ok(None);
    };
    Ok(Some(Kept {
        arguments: Vec::from_slice(alloc, kept.arguments)?,
        reply: Vec::from_slice(alloc, kept.reply)?,
    }))
}

fn make_client(alloc: Global, row: &ClientRow<'_>) -> Result<Client, AllocError>
    ensures { IfOk result (λ client. client_of (
      record
          { level = row.now.id.level; number = row.now.id.number },
      client,
    )
        ≡ told.client_of row.now) }
{
    Ok(Client {
        owner: Octets::from_slice(alloc, row.owner)?,
        verifier: row.verifier,
        confirmed: row.confirmed,
        sequence: row.sequence,
        kept: make_kept(alloc, row.kept)?,
        reclaimed: row.reclaimed,
        seen: row.seen,
    })
}

/// Clients of rows, which lie in the order of their identifiers.
pub fn make_clients(
    alloc: Global,
    rows: &[ClientRow<'_>],
) -> Result<BTreeMap<ClientRef, Client>, AllocError>
    requires rise { Rising client_order (map told.client_of rows.now) }
    requires numbers { AllByRecursion (λ c. IsNumber c.id) (map told.client_of rows.now) }
    ensures { IfOk result (λ clients. map client_of clients.entries ≡ map told.client_of rows.now) }
{
    let mut clients = BTreeMap::new(alloc);
    for row in rows {
        let client = make_client(alloc, row)?;
        add_client(&mut clients, client_ref(row.id), client)?;
    }
    Ok(clients)
}

fn make_channel(row: lnfs_rows::Channel) -> Channel
    ensures sizes { channel_of result ≡ told.channel_of row }
    ensures plain { (result.headerpad ≡ 0) × (result.ird ≡ None) }
{
    Channel {
        headerpad: 0,
        maxrequest: row.max_request,
        maxresponse: row.max_response,
        cached: row.max_cached,
        operations: row.max_operations,
        requests: row.max_requests,
        ird: None,
    }
}

fn make_slot(alloc: Global, row: &SlotRow<'_>) -> Result<Slot, AllocError>
    ensures { IfOk result (λ slot. slot_of slot ≡ told.slot_of row.now) }
{
    Ok(Slot {
        sequence: row.sequence,
        kept: make_kept(alloc, row.kept)?,
    })
}

fn make_slots(alloc: Global, rows: &[SlotRow<'_>]) -> Result<Vec<Slot>, AllocError>
    ensures { IfOk result (λ slots. map slot_of slots.items ≡ map told.slot_of rows.now) }
{
    let mut slots = Vec::with_capacity(alloc, rows.len())?;
    for row in rows {
        slots.push(make_slot(alloc, row)?)?;
    }
    Ok(slots)
}

fn make_session(alloc: Global, row: &SessionRow<'_>) -> Result<Session, AllocError>
    requires { row.now.client ≤ LAST_NUMBER }
    ensures { IfOk result (λ session. session_of (
      record
          { level = row.now.id.level; number = row.now.id.number },
      session,
    )
        ≡ told.session_of row.now) }
{
    Ok(Session {
        client: row.client as u32,
        channel: make_channel(row.channel),
        slots: make_slots(alloc, &row.slots)?,
    })
}

/// Sessions of rows, which lie in the order of their identifiers.
pub fn make_sessions(
    alloc: Global,
    rows: &[SessionRow<'_>],
) -> Result<BTreeMap<SessionRef, Session>, AllocError>
    requires rise { Rising session_order (map told.session_of rows.now) }
    requires clients { AllByRecursion (λ x. x.client ≤ LAST_NUMBER) (map told.session_of rows.now) }
    ensures { IfOk result (λ sessions. map session_of sessions.entries ≡ map told.session_of
        rows.now) }
{
    let mut sessions = BTreeMap::new(alloc);
    for row in rows {
        let session = make_session(alloc, row)?;
        add_session(&mut sessions, session_ref(row.id), session)?;
    }
    Ok(sessions)
}
