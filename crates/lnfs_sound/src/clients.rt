//! Rows of clients.
ghost use Rattle.std.specs.Prelude.{◌≡◌, ◌<◌, ◌≤◌, ◌↔◌, ℕ, true, length, IfOk, IfSome};
ghost use Rattle.std.specs.Option.{option_map};
ghost use Rattle.lnfs_world.specs.Rows.{Rising, Apart};
ghost use Rattle.lnfs_world.specs.World.{id_order};
ghost use Rattle.lnfs_world.specs.Facts.{are_rivals, has_confirmed as is_confirmed_in};
ghost use Rattle.lnfs_site.specs.Site.{site_of};
ghost use Rattle.lnfs_operations.specs.declared.numbers.TheConstants.{MOST_CREATED};
ghost use Rattle.lnfs_rows.specs.Told.{id_of, kept_of, client_of};
ghost use Rattle.lnfs_fit.specs.RowsOf.{ids_of, AreIdsOf};
ghost use Rattle.lnfs_sound.specs.Keys.{flag};
ghost use Rattle.lnfs_sound.specs.Parts.{IsFitClient, AreClients};
ghost use Rattle.lnfs_sound.specs.RowsOf.{clients_of, nth_client};

use lnfs_arguments::numbers::OWNER_LIMIT;
use lnfs_fit::{few_of_a_level, ids_fit, place_of};
use lnfs_operations::numbers::{CLIENTS_OF_A_LEVEL, MOST_CREATED};
use lnfs_rows::{ClientRow, Id, Kept};
use lnfs_site::Site;
use lnfs_world::numbers::LAST_SEQUENCE;
use std::alloc::{AllocError, Global};
use std::collections::BTreeSet;

fn id_at(rows: &[ClientRow<'_>], place: usize) -> Id
    requires { place < length rows.now }
    ensures { id_of result ≡ (nth_client (clients_of rows.now) place).id }
{
    rows[place].id
}

fn owner_at<'a>(rows: &[ClientRow<'a>], place: usize) -> &'a [u8]
    requires { place < length rows.now }
    ensures { result.now ≡ (nth_client (clients_of rows.now) place).owner }
{
    rows[place].owner
}

fn is_confirmed_at(rows: &[ClientRow<'_>], place: usize) -> bool
    requires { place < length rows.now }
    ensures { result ≡ (nth_client (clients_of rows.now) place).confirmed }
{
    rows[place].confirmed
}

/// The identifiers of clients, in their order.
pub(crate) fn ids_of_clients(alloc: Global, rows: &[ClientRow<'_>]) -> Result<Vec<Id>, AllocError>
    ensures { IfOk result (λ ids. AreIdsOf (λ c. c.id) (clients_of rows.now) ids.items) }
{
    let mut ids = Vec::with_capacity(alloc, rows.len())?;
    for place in 0..rows.len() {
        ids.push(id_at(rows, place))?;
    }
    Ok(ids)
}

/// Whether a confirmed client stands in a level under a number. The identifiers are those of the clients.
pub(crate) fn has_confirmed(ids: &[Id], rows: &[ClientRow<'_>], level: u32, number: u64) -> bool
    requires ids { AreIdsOf (λ c. c.id) (clients_of rows.now) ids.now }
    requires rise { Rising id_order (ids_of ids.now) }
    ensures { result ≡ is_confirmed_in (clients_of rows.now) level number }
{
    match place_of(ids, Id { level, number }) {
        Some(place) => is_confirmed_at(rows, place),
        None => false,
    }
}

/// Whether the result of a CREATE_SESSION that is kept is short.
fn kept_fits(kept: &Option<Kept<'_>>) -> bool
    ensures { (result ≡ true) ↔ IfSome (option_map kept_of kept.now) (λ k. length k.reply ≤ MOST_CREATED) }
{
    match kept {
        Some(kept) => kept.reply.len() <= MOST_CREATED as usize,
        None => true,
    }
}

/// Whether a client is within its bounds, but for its identifier. By its type the verifier is eight bytes long.
fn is_fit(row: &ClientRow<'_>) -> bool
    ensures { (result ≡ true) ↔ IsFitClient (client_of row.now) }
{
    row.owner.len() <= OWNER_LIMIT as usize
        && row.verifier.as_slice().len() == 8
        && row.sequence <= LAST_SEQUENCE
        && kept_fits(&row.kept)
        && (!row.confirmed || row.seen.is_some())
}

fn row_at<'b, 'a>(rows: &'b [ClientRow<'a>], place: usize) -> &'b ClientRow<'a>
    requires { place < length rows.now }
    ensures { client_of result.now ≡ nth_client (clients_of rows.now) place }
{
    &rows[place]
}

fn is_fit_at(rows: &[ClientRow<'_>], place: usize) -> bool
    requires { place < length rows.now }
    ensures { (result ≡ true) ↔ IsFitClient (nth_client (clients_of rows.now) place) }
{
    is_fit(row_at(rows, place))
}

fn each_fits(rows: &[ClientRow<'_>]) -> bool
    ensures { (result ≡ true) ↔ ((k : ℕ) → k < length rows.now → IsFitClient (nth_client (clients_of rows.now) k)) }
{
    for place in 0..rows.len() {
        if !is_fit_at(rows, place) {
            return false;
        }
    }
    true
}

fn flag(set: bool) -> u64
    ensures { result ≡ flag set }
{
    if set { 1 } else { 0 }
}

/// Whether each level and owner has one confirmed record at most, and one that isn't.
fn rivals_differ(alloc: Global, rows: &[ClientRow<'_>]) -> Result<bool, AllocError>
    ensures { IfOk result (λ differ. (differ ≡ true) ↔ Apart are_rivals (clients_of rows.now)) }
{
    let mut seen: BTreeSet<(u32, u64, Vec<u8>)> = BTreeSet::new(alloc);
    for place in 0..rows.len() {
        let id = id_at(rows, place);
        let confirmed = flag(is_confirmed_at(rows, place));
        let owner = Vec::from_slice(alloc, owner_at(rows, place))?;
        if !seen.insert((id.level, confirmed, owner))? {
            return Ok(false);
        }
    }
    Ok(true)
}

/// Whether clients are those of a world that a server may have. The identifiers are those of the clients.
pub(crate) fn are_clients(
    alloc: Global,
    site: &Site<'_>,
    last: &[u64],
    ids: &[Id],
    rows: &[ClientRow<'_>],
) -> Result<bool, AllocError>
    requires { AreIdsOf (λ c. c.id) (clients_of rows.now) ids.now }
    ensures { IfOk result (λ sound. (sound ≡ true) ↔ AreClients (site_of site.now) last.now (clients_of rows.now)) }
{
    if !ids_fit(site, last, ids) {
        return Ok(false);
    }
    let few = few_of_a_level(alloc, site, ids, CLIENTS_OF_A_LEVEL as usize)?;
    if !few {
        return Ok(false);
    }
    if !each_fits(rows) {
        return Ok(false);
    }
    rivals_differ(alloc, rows)
}
