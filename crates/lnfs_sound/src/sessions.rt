//! Rows of sessions.
ghost use Rattle.std.specs.Prelude.{◌≡◌, ◌<◌, ◌≤◌, ◌+◌, ◌↔◌, ℕ, true, length, IfOk};
ghost use Rattle.lnfs_world.specs.Rows.{Rising};
ghost use Rattle.lnfs_world.specs.World.{id_order};
ghost use Rattle.lnfs_world.specs.Facts.{has_confirmed as is_confirmed_in};
ghost use Rattle.lnfs_site.specs.Site.{site_of};
ghost use Rattle.lnfs_operations.specs.Sizes.{IsGranted, FitsResponse};
ghost use Rattle.lnfs_rows.specs.Told.{id_of, channel_of, slot_of, session_of};
ghost use Rattle.lnfs_fit.specs.RowsOf.{ids_of, AreIdsOf};
ghost use Rattle.lnfs_sound.specs.Parts.{IsFitSlot, IsFitSession, AreSessions};
ghost use Rattle.lnfs_sound.specs.RowsOf.{clients_of, slots_of, sessions_of, nth_slot, nth_session};

use crate::clients::has_confirmed;
use lnfs_fit::{few_of_a_level, ids_fit};
use lnfs_operations::numbers::{
    LARGEST_WRAPPING, LEAST_SIZE, MOST_OPERATIONS, MOST_REQUESTS, MOST_SIZE, SESSIONS_OF_A_LEVEL,
};
use lnfs_rows::{Channel, ClientRow, Id, SessionRow, SlotRow};
use lnfs_site::Site;
use lnfs_world::numbers::LAST_SEQUENCE;
use std::alloc::{AllocError, Global};

fn id_at(rows: &[SessionRow<'_>], place: usize) -> Id
    requires { place < length rows.now }
    ensures { id_of result ≡ (nth_session (sessions_of rows.now) place).id }
{
    rows[place].id
}

fn client_at(rows: &[SessionRow<'_>], place: usize) -> u64
    requires { place < length rows.now }
    ensures { result ≡ (nth_session (sessions_of rows.now) place).client }
{
    rows[place].client
}

/// The identifiers of sessions, in their order.
fn ids_of_sessions(alloc: Global, rows: &[SessionRow<'_>]) -> Result<Vec<Id>, AllocError>
    ensures { IfOk result (λ ids. AreIdsOf (λ x. x.id) (sessions_of rows.now) ids.items) }
{
    let mut ids = Vec::with_capacity(alloc, rows.len())?;
    for place in 0..rows.len() {
        ids.push(id_at(rows, place))?;
    }
    Ok(ids)
}

fn is_size(size: u32) -> bool
    ensures { (result ≡ true) ↔ (LEAST_SIZE ≤ size) × (size ≤ MOST_SIZE) }
{
    LEAST_SIZE <= size && size <= MOST_SIZE
}

fn is_granted(channel: &Channel) -> bool
    ensures { (result ≡ true) ↔ IsGranted (channel_of channel.now) }
{
    is_size(channel.max_request)
        && is_size(channel.max_response)
        && is_size(channel.max_cached)
        && 1 <= channel.max_operations
        && channel.max_operations <= MOST_OPERATIONS
        && 1 <= channel.max_requests
        && channel.max_requests <= MOST_REQUESTS
}

/// Whether a result leaves room for its wrapping, as the body of a signed reply with its pad bytes (RFC 2203 section 5.3.2.2),
/// in a response of so many bytes.
fn fits_response(most: u32, reply: &[u8]) -> bool
    ensures { (result ≡ true) ↔ FitsResponse most reply.now }
{
    let len = reply.len();
    let most = most as usize;
    len <= most && len + (4 - len % 4) % 4 + LARGEST_WRAPPING as usize <= most
}

fn slot_fits(most: u32, slot: &SlotRow<'_>) -> bool
    ensures { (result ≡ true) ↔ IsFitSlot most (slot_of slot.now) }
{
    if slot.sequence > LAST_SEQUENCE {
        return false;
    }
    match slot.kept {
        Some(kept) => fits_response(most, kept.reply),
        None => true,
    }
}

fn slot_at<'b, 'a>(slots: &'b [SlotRow<'a>], place: usize) -> &'b SlotRow<'a>
    requires { place < length slots.now }
    ensures { slot_of result.now ≡ nth_slot (slots_of slots.now) place }
{
    &slots[place]
}

fn slot_fits_at(most: u32, slots: &[SlotRow<'_>], place: usize) -> bool
    requires { place < length slots.now }
    ensures { (result ≡ true) ↔ IsFitSlot most (nth_slot (slots_of slots.now) place) }
{
    slot_fits(most, slot_at(slots, place))
}

fn slots_fit(most: u32, slots: &[SlotRow<'_>]) -> bool
    ensures { (result ≡ true) ↔ ((k : ℕ) → k < length slots.now → IsFitSlot most (nth_slot (slots_of slots.now) k)) }
{
    for place in 0..slots.len() {
        if !slot_fits_at(most, slots, place) {
            return false;
        }
    }
    true
}

/// Whether a session has a slot for each request.
fn has_slots(row: &SessionRow<'_>) -> bool
    ensures { (result ≡ true) ↔ (length (session_of row.now).slots ≡ row.now.channel.max_requests) }
{
    row.slots.len() == row.channel.max_requests as usize
}

/// Whether a session is within its bounds, but for its identifier.
fn is_fit(row: &SessionRow<'_>) -> bool
    ensures { (result ≡ true) ↔ IsFitSession (session_of row.now) }
{
    if !is_granted(&row.channel) {
        return false;
    }
    if !has_slots(row) {
        return false;
    }
    slots_fit(row.channel.max_response, &row.slots)
}

fn is_fit_at(rows: &[SessionRow<'_>], place: usize) -> bool
    requires { place < length rows.now }
    ensures { (result ≡ true) ↔ IsFitSession (nth_session (sessions_of rows.now) place) }
{
    is_fit(&rows[place])
}

fn each_fits(rows: &[SessionRow<'_>]) -> bool
    ensures { (result ≡ true) ↔ ((k : ℕ) → k < length rows.now → IsFitSession (nth_session (sessions_of rows.now) k)) }
{
    for place in 0..rows.len() {
        if !is_fit_at(rows, place) {
            return false;
        }
    }
    true
}

/// Whether the client of each session is there, of its level, and confirmed.
fn have_clients(client_ids: &[Id], clients: &[ClientRow<'_>], rows: &[SessionRow<'_>]) -> bool
    requires ids { AreIdsOf (λ c. c.id) (clients_of clients.now) client_ids.now }
    requires rise { Rising id_order (ids_of client_ids.now) }
    ensures { (result ≡ true) ↔ ((k : ℕ) → k < length rows.now →
        is_confirmed_in (clients_of clients.now) (nth_session (sessions_of rows.now) k).id.level (nth_session (sessions_of rows.now) k).client ≡ true) }
{
    for place in 0..rows.len() {
        if !has_confirmed(
            client_ids,
            clients,
            id_at(rows, place).level,
            client_at(rows, place),
        ) {
            return false;
        }
    }
    true
}

/// Whether sessions are those of a world that a server may have, beside its clients. Both come with their identifiers.
fn fit_by_ids(
    alloc: Global,
    site: &Site<'_>,
    last: &[u64],
    client_ids: &[Id],
    clients: &[ClientRow<'_>],
    ids: &[Id],
    rows: &[SessionRow<'_>],
) -> Result<bool, AllocError>
    requires client_ids { AreIdsOf (λ c. c.id) (clients_of clients.now) client_ids.now }
    requires rise { Rising id_order (ids_of client_ids.now) }
    requires ids { AreIdsOf (λ x. x.id) (sessions_of rows.now) ids.now }
    ensures { IfOk result (λ sound. (sound ≡ true) ↔ AreSessions (site_of site.now) (clients_of clients.now) last.now (sessions_of rows.now)) }
{
    if !ids_fit(site, last, ids) {
        return Ok(false);
    }
    let few = few_of_a_level(alloc, site, ids, SESSIONS_OF_A_LEVEL as usize)?;
    if !few {
        return Ok(false);
    }
    if !each_fits(rows) {
        return Ok(false);
    }
    Ok(have_clients(client_ids, clients, rows))
}

/// Whether sessions are those of a world that a server may have, beside its clients, whose identifiers rise.
pub(crate) fn are_sessions(
    alloc: Global,
    site: &Site<'_>,
    last: &[u64],
    client_ids: &[Id],
    clients: &[ClientRow<'_>],
    rows: &[SessionRow<'_>],
) -> Result<bool, AllocError>
    requires client_ids { AreIdsOf (λ c. c.id) (clients_of clients.now) client_ids.now }
    requires rise { Rising id_order (ids_of client_ids.now) }
    ensures { IfOk result (λ sound. (sound ≡ true) ↔ AreSessions (site_of site.now) (clients_of clients.now) last.now (sessions_of rows.now)) }
{
    let ids = ids_of_sessions(alloc, rows)?;
    fit_by_ids(alloc, site, last, client_ids, clients, &ids, rows)
}
