//! What is kept, told as rows that lend what they are long of.
ghost use Rattle.std.specs.Prelude.{◌≡◌, IfOk, map};
ghost use Rattle.std.specs.Option.{option_map};
ghost use Rattle.lnfs_rows.specs.Told as told;
ghost use Rattle.lnfs_session.specs.Listed.{id_of, session_id_of, kept_of, client_of, channel_of, slot_of, session_of};

use crate::rows::{Client, ClientRef, Kept, Session, SessionRef, Slot};
use lnfs_arguments::Channel;
use lnfs_rows::{ClientRow, Id, SessionRow, SlotRow};
use std::alloc::{AllocError, Global};
use std::collections::BTreeMap;

fn client_id(id: ClientRef) -> Id
    ensures { told.id_of result ≡ id_of id }
{
    Id {
        level: id.level,
        number: u64::from(id.number),
    }
}

fn session_id(id: SessionRef) -> Id
    ensures { told.id_of result ≡ session_id_of id }
{
    Id {
        level: id.level,
        number: id.number,
    }
}

fn kept_row(kept: &Option<Kept>) -> Option<lnfs_rows::Kept<'_>>
    ensures { option_map told.kept_of result ≡ option_map kept_of kept.now }
{
    match kept {
        Some(kept) => Some(lnfs_rows::Kept {
            arguments: kept.arguments.as_slice(),
            reply: kept.reply.as_slice(),
        }),
        None => None,
    }
}

fn client_row(id: ClientRef, client: &Client) -> ClientRow<'_>
    ensures { told.client_of result ≡ client_of (id, client.now) }
{
    ClientRow {
        id: client_id(id),
        owner: client.owner.as_slice(),
        verifier: client.verifier,
        confirmed: client.confirmed,
        sequence: client.sequence,
        kept: kept_row(&client.kept),
        reclaimed: client.reclaimed,
        seen: client.seen,
    }
}

/// The rows of clients, in the order of their identifiers.
pub fn client_rows(
    alloc: Global,
    clients: &BTreeMap<ClientRef, Client>,
) -> Result<Vec<ClientRow<'_>>, AllocError>
    ensures { IfOk result (λ rows. map told.client_of rows.items ≡ map client_of
        clients.now.entries) }
{
    let mut rows = Vec::new(alloc);
    for (id, client) in clients.iter() {
        rows.push(client_row(*id, client))?;
    }
    Ok(rows)
}

fn channel_row(channel: &Channel) -> lnfs_rows::Channel
    ensures { told.channel_of result ≡ channel_of channel.now }
{
    lnfs_rows::Channel {
        max_request: channel.maxrequest,
        max_response: channel.maxresponse,
        max_cached: channel.cached,
        max_operations: channel.operations,
        max_requests: channel.requests,
    }
}

fn slot_row(slot: &Slot) -> SlotRow<'_>
    ensures { told.slot_of result ≡ slot_of slot.now }
{
    SlotRow {
        sequence: slot.sequence,
        kept: kept_row(&slot.kept),
    }
}

fn slot_rows(alloc: Global, slots: &[Slot]) -> Result<Vec<SlotRow<'_>>, AllocError>
    ensures { IfOk result (λ rows. map told.slot_of rows.items ≡ map slot_of slots.now) }
{
    let mut rows = Vec::with_capacity(alloc, slots.len())?;
    for slot in slots {
        rows.push(slot_row(slot))?;
    }
    Ok(rows)
}

fn session_row(
    alloc: Global,
    id: SessionRef,
    session: &Session,
) -> Result<SessionRow<'_>, AllocError>
    ensures { IfOk result (λ row. told.session_of row ≡ session_of (id, session.now)) }
{
    Ok(SessionRow {
        id: session_id(id),
        client: u64::from(session.client),
        channel: channel_row(&session.channel),
        slots: slot_rows(alloc, &session.slots)?,
    })
}

/// The rows of sessions with their slots, in the order of their identifiers.
pub fn session_rows(
    alloc: Global,
    sessions: &BTreeMap<SessionRef, Session>,
) -> Result<Vec<SessionRow<'_>>, AllocError>
    ensures { IfOk result (λ rows. map told.session_of rows.items ≡ map session_of
        sessions.now.entries) }
{
    let mut rows = Vec::new(alloc);
    for (id, session) in sessions.iter() {
        rows.push(session_row(alloc, *id, session)?)?;
    }
    Ok(rows)
}
