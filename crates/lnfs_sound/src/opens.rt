//! Rows of opens.
ghost use Rattle.std.specs.Prelude.{◌≡◌, ◌<◌, ◌↔◌, ℕ, true, length, IfOk};
ghost use Rattle.lnfs_world.specs.Rows.{Rising, Apart};
ghost use Rattle.lnfs_world.specs.World.{id_order};
ghost use Rattle.lnfs_world.specs.Facts.{has_confirmed as is_confirmed_in, same_opening};
ghost use Rattle.lnfs_site.specs.Site.{site_of};
ghost use Rattle.lnfs_rows.specs.Told.{id_of, open_of};
ghost use Rattle.lnfs_fit.specs.RowsOf.{ids_of, AreIdsOf};
ghost use Rattle.lnfs_sound.specs.Parts.{is_among, has_node, IsFitOpen, FitOthers, AreOpens};
ghost use Rattle.lnfs_sound.specs.RowsOf.{clients_of, opens_of, nth_open};

use crate::clients::has_confirmed;
use lnfs_arguments::numbers::OWNER_LIMIT;
use lnfs_calipso::Level;
use lnfs_fit::{few_of_a_level, ids_fit, place_of};
use lnfs_operations::numbers::OPEN4_SHARE_ACCESS_BOTH;
use lnfs_rows::{ClientRow, Id, OpenRow};
use lnfs_site::Site;
use lnfs_world::numbers::{LAST_SEQUENCE, OPENS_OF_A_LEVEL};
use std::alloc::{AllocError, Global};
use std::collections::BTreeSet;

fn id_at(rows: &[OpenRow<'_>], place: usize) -> Id
    requires { place < length rows.now }
    ensures { id_of result ≡ (nth_open (opens_of rows.now) place).id }
{
    rows[place].id
}

fn client_at(rows: &[OpenRow<'_>], place: usize) -> u64
    requires { place < length rows.now }
    ensures { result ≡ (nth_open (opens_of rows.now) place).client }
{
    rows[place].client
}

fn owner_at<'a>(rows: &[OpenRow<'a>], place: usize) -> &'a [u8]
    requires { place < length rows.now }
    ensures { result.now ≡ (nth_open (opens_of rows.now) place).owner }
{
    rows[place].owner
}

fn node_at(rows: &[OpenRow<'_>], place: usize) -> Id
    requires { place < length rows.now }
    ensures { id_of result ≡ (nth_open (opens_of rows.now) place).node }
{
    rows[place].node
}

/// The identifiers of opens, in their order.
fn ids_of_opens(alloc: Global, rows: &[OpenRow<'_>]) -> Result<Vec<Id>, AllocError>
    ensures { IfOk result (λ ids. AreIdsOf (λ o. o.id) (opens_of rows.now) ids.items) }
{
    let mut ids = Vec::with_capacity(alloc, rows.len())?;
    for place in 0..rows.len() {
        ids.push(id_at(rows, place))?;
    }
    Ok(ids)
}

/// Whether an open is within its bounds, but for its identifier.
fn is_fit(row: &OpenRow<'_>) -> bool
    ensures { (result ≡ true) ↔ IsFitOpen (open_of row.now) }
{
    row.owner.len() <= OWNER_LIMIT as usize
        && 1 <= row.access
        && row.access <= OPEN4_SHARE_ACCESS_BOTH
        && row.deny <= OPEN4_SHARE_ACCESS_BOTH
        && 1 <= row.sequence
        && row.sequence <= LAST_SEQUENCE
}

fn row_at<'b, 'a>(rows: &'b [OpenRow<'a>], place: usize) -> &'b OpenRow<'a>
    requires { place < length rows.now }
    ensures { open_of result.now ≡ nth_open (opens_of rows.now) place }
{
    &rows[place]
}

fn is_fit_at(rows: &[OpenRow<'_>], place: usize) -> bool
    requires { place < length rows.now }
    ensures { (result ≡ true) ↔ IsFitOpen (nth_open (opens_of rows.now) place) }
{
    is_fit(row_at(rows, place))
}

fn each_fits(rows: &[OpenRow<'_>]) -> bool
    ensures { (result ≡ true) ↔ ((k : ℕ) → k < length rows.now → IsFitOpen (nth_open (opens_of rows.now) k)) }
{
    for place in 0..rows.len() {
        if !is_fit_at(rows, place) {
            return false;
        }
    }
    true
}

/// Whether the client of each open is there, of its level, and confirmed.
fn have_clients(client_ids: &[Id], clients: &[ClientRow<'_>], rows: &[OpenRow<'_>]) -> bool
    requires ids { AreIdsOf (λ c. c.id) (clients_of clients.now) client_ids.now }
    requires rise { Rising id_order (ids_of client_ids.now) }
    ensures { (result ≡ true) ↔ ((k : ℕ) → k < length rows.now →
        is_confirmed_in (clients_of clients.now) (nth_open (opens_of rows.now) k).id.level (nth_open (opens_of rows.now) k).client ≡ true) }
{
    for place in 0..rows.len() {
        if !has_confirmed(
            client_ids,
            clients,
            id_at(rows, place).level,
            client_at(rows, place),
        ) {
            return false;
        }
    }
    true
}

/// Whether an identifier is among those that rise.
fn is_among(ids: &[Id], id: Id) -> bool
    requires { Rising id_order (ids_of ids.now) }
    ensures { result ≡ is_among (ids_of ids.now) (id_of id) }
{
    place_of(ids, id).is_some()
}

fn has_node(site: &Site<'_>, node_ids: &[Id], id: Id, node: Id) -> bool
    requires { Rising id_order (ids_of node_ids.now) }
    ensures { result ≡ has_node (site_of site.now).dom (ids_of node_ids.now) (id_of id) (id_of node) }
{
    site.dominates(Level(id.level), Level(node.level)) && is_among(node_ids, node)
}

/// Whether the node of each open is there, and the open's level dominates its home.
fn have_nodes(site: &Site<'_>, node_ids: &[Id], rows: &[OpenRow<'_>]) -> bool
    requires { Rising id_order (ids_of node_ids.now) }
    ensures { (result ≡ true) ↔ ((k : ℕ) → k < length rows.now →
        has_node (site_of site.now).dom (ids_of node_ids.now) (nth_open (opens_of rows.now) k).id (nth_open (opens_of rows.now) k).node ≡ true) }
{
    for place in 0..rows.len() {
        if !has_node(site, node_ids, id_at(rows, place), node_at(rows, place)) {
            return false;
        }
    }
    true
}

/// Whether no two opens have the same client, owner and node.
fn openings_differ(alloc: Global, rows: &[OpenRow<'_>]) -> Result<bool, AllocError>
    ensures { IfOk result (λ differ. (differ ≡ true) ↔ Apart same_opening (opens_of rows.now)) }
{
    let mut seen: BTreeSet<(u32, u64, u32, u64, Vec<u8>)> = BTreeSet::new(alloc);
    for place in 0..rows.len() {
        let id = id_at(rows, place);
        let client = client_at(rows, place);
        let node = node_at(rows, place);
        let owner = Vec::from_slice(alloc, owner_at(rows, place))?;
        if !seen.insert((id.level, client, node.level, node.number, owner))? {
            return Ok(false);
        }
    }
    Ok(true)
}

/// Whether opens have their clients and their nodes, and differ.
fn fit_others(
    alloc: Global,
    site: &Site<'_>,
    client_ids: &[Id],
    clients: &[ClientRow<'_>],
    node_ids: &[Id],
    rows: &[OpenRow<'_>],
) -> Result<bool, AllocError>
    requires ids { AreIdsOf (λ c. c.id) (clients_of clients.now) client_ids.now }
    requires rise { Rising id_order (ids_of client_ids.now) }
    requires nodes_rise { Rising id_order (ids_of node_ids.now) }
    ensures { IfOk result (λ fit. (fit ≡ true) ↔ FitOthers (site_of site.now) (clients_of clients.now) (ids_of node_ids.now) (opens_of rows.now)) }
{
    if !have_clients(client_ids, clients, rows) {
        return Ok(false);
    }
    if !have_nodes(site, node_ids, rows) {
        return Ok(false);
    }
    openings_differ(alloc, rows)
}

/// Whether opens are those of a world that a server may have, beside its clients and nodes. All come with their identifiers.
fn fit_by_ids(
    alloc: Global,
    site: &Site<'_>,
    last: &[u64],
    client_ids: &[Id],
    clients: &[ClientRow<'_>],
    node_ids: &[Id],
    ids: &[Id],
    rows: &[OpenRow<'_>],
) -> Result<bool, AllocError>
    requires client_ids { AreIdsOf (λ c. c.id) (clients_of clients.now) client_ids.now }
    requires rise { Rising id_order (ids_of client_ids.now) }
    requires nodes_rise { Rising id_order (ids_of node_ids.now) }
    requires ids { AreIdsOf (λ o. o.id) (opens_of rows.now) ids.now }
    ensures { IfOk result (λ sound. (sound ≡ true) ↔ AreOpens (site_of site.now) (clients_of clients.now) (ids_of node_ids.now) last.now (opens_of rows.now)) }
{
    if !ids_fit(site, last, ids) {
        return Ok(false);
    }
    let few = few_of_a_level(alloc, site, ids, OPENS_OF_A_LEVEL as usize)?;
    if !few {
        return Ok(false);
    }
    if !each_fits(rows) {
        return Ok(false);
    }
    fit_others(alloc, site, client_ids, clients, node_ids, rows)
}

/// Whether opens are those of a world that a server may have, beside its clients and nodes, whose identifiers rise.
pub(crate) fn are_opens(
    alloc: Global,
    site: &Site<'_>,
    last: &[u64],
    client_ids: &[Id],
    clients: &[ClientRow<'_>],
    node_ids: &[Id],
    rows: &[OpenRow<'_>],
) -> Result<bool, AllocError>
    requires client_ids { AreIdsOf (λ c. c.id) (clients_of clients.now) client_ids.now }
    requires rise { Rising id_order (ids_of client_ids.now) }
    requires nodes_rise { Rising id_order (ids_of node_ids.now) }
    ensures { IfOk result (λ sound. (sound ≡ true) ↔ AreOpens (site_of site.now) (clients_of clients.now) (ids_of node_ids.now) last.now (opens_of rows.now)) }
{
    let ids = ids_of_opens(alloc, rows)?;
    fit_by_ids(alloc, site, last, client_ids, clients, node_ids, &ids, rows)
}
