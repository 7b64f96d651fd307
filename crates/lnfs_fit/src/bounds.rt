//! Whether a node's row is within its bounds.
ghost use Rattle.std.specs.Prelude.{◌≡◌, ◌<◌, ◌≤◌, ◌↔◌, ℕ, true, length, IfSome};
ghost use Rattle.std.specs.Option.{option_map};
ghost use Rattle.lnfs_site.specs.Site.{site_of};
ghost use Rattle.lnfs_operations.specs.Sizes.{is_level};
ghost use Rattle.lnfs_types.specs.declared.limits.TheConstants.{LABEL_LIMIT};
ghost use Rattle.lnfs_rows.specs.Told.{bytes_of, stored_of, node_of};
ghost use Rattle.lnfs_fit.specs.Places.{nth_node};
ghost use Rattle.lnfs_fit.specs.Fits.{IsFitContent, IsFitNode};
ghost use Rattle.lnfs_fit.specs.RowsOf.{nodes_of};

use crate::ids::is_level;
use lnfs_calipso::Level;
use lnfs_operations::numbers::{MOST_MODE, MOST_TEXT};
use lnfs_rows::{Data, Kind, NodeRow, StoredRow};
use lnfs_site::Site;
use lnfs_types::LABEL_LIMIT;
use lnfs_world::numbers::{FIRST_COOKIE, LAST_CHANGE, LAST_COOKIE, MOST_FILE};

/// How many bytes a file or a link has.
fn size_of(content: &Data<'_>) -> u64
    ensures { result ≡ length (bytes_of content.now) }
{
    match content {
        Data::Bytes(bytes) => bytes.len() as u64,
        Data::File(content) => content.len(),
    }
}

fn content_fits(row: &NodeRow<'_>) -> bool
    ensures { (result ≡ true) ↔ IsFitContent (node_of row.now).kind (node_of row.now).inner }
{
    let size = size_of(&row.content);
    match row.kind {
        Kind::File => size <= MOST_FILE && row.cookies == FIRST_COOKIE as u64,
        Kind::Directory => {
            size == 0 && FIRST_COOKIE as u64 <= row.cookies && row.cookies <= LAST_COOKIE
        }
        Kind::SymbolicLink => size <= MOST_TEXT as u64 && row.cookies == FIRST_COOKIE as u64,
    }
}

/// Whether a label that is kept as it was given is short.
fn stored_fits(stored: &Option<StoredRow<'_>>) -> bool
    ensures { (result ≡ true) ↔ IfSome (option_map stored_of stored.now) (λ s. length s.bytes ≤ LABEL_LIMIT) }
{
    match stored {
        Some(stored) => stored.bytes.len() <= LABEL_LIMIT as usize,
        None => true,
    }
}

/// Whether what an exclusive create brought is eight bytes long, as its type says.
fn verifier_fits(verifier: &Option<[u8; 8]>) -> bool
    ensures { (result ≡ true) ↔ IfSome verifier.now (λ bytes. length bytes ≡ 8) }
{
    match verifier {
        Some(bytes) => bytes.as_slice().len() == 8,
        None => true,
    }
}

fn labels_fit(site: &Site<'_>, row: &NodeRow<'_>) -> bool
    ensures { (result ≡ true) ↔ ((site_of site.now).dom row.now.label row.now.id.level ≡ true) × (is_level (site_of site.now) row.now.label ≡ true) }
{
    is_level(site, row.label as u64) && site.dominates(Level(row.label), Level(row.id.level))
}

/// Whether a node is within its bounds, but for its identifier and its names, and its label dominates its home.
fn is_fit(site: &Site<'_>, row: &NodeRow<'_>) -> bool
    ensures { (result ≡ true) ↔ IsFitNode (site_of site.now) (node_of row.now) }
{
    labels_fit(site, row)
        && verifier_fits(&row.verifier)
        && row.mode <= MOST_MODE
        && row.change <= LAST_CHANGE
        && stored_fits(&row.stored)
        && content_fits(row)
}

fn is_fit_at(site: &Site<'_>, nodes: &[NodeRow<'_>], place: usize) -> bool
    requires { place < length nodes.now }
    ensures { (result ≡ true) ↔ IsFitNode (site_of site.now) (nth_node (nodes_of nodes.now) place) }
{
    is_fit(site, &nodes[place])
}

pub(crate) fn nodes_fit(site: &Site<'_>, nodes: &[NodeRow<'_>]) -> bool
    ensures { (result ≡ true) ↔ ((k : ℕ) → k < length nodes.now → IsFitNode (site_of site.now) (nth_node (nodes_of nodes.now) k)) }
{
    for place in 0..nodes.len() {
        if !is_fit_at(site, nodes, place) {
            return false;
        }
    }
    true
}
