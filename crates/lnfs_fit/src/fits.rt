//! Whether each name fits the node and the directory that it joins.
ghost use Rattle.std.specs.Prelude.{◌≡◌, ◌<◌, ◌==◌, ◌↔◌, ℕ, true, length};
ghost use Rattle.lnfs_world.specs.Rows.{Rising};
ghost use Rattle.lnfs_world.specs.World.{node_order};
ghost use Rattle.lnfs_site.specs.Site.{site_of};
ghost use Rattle.lnfs_fit.specs.Places.{nth_node, nth_entry, ArePlaced};
ghost use Rattle.lnfs_fit.specs.Fits.{fits_in};
ghost use Rattle.lnfs_fit.specs.RowsOf.{nodes_of, entries_of};

use crate::rows::{cookie_at, cookies_of, home_of, label_of};
use lnfs_calipso::Level;
use lnfs_rows::{EntryRow, NodeRow};
use lnfs_site::Site;

/// Whether a name fits, whose node and directory stand at two places.
fn is_fit_name(
    site: &Site<'_>,
    nodes: &[NodeRow<'_>],
    entries: &[EntryRow<'_>],
    entry: usize,
    name: usize,
    dir: usize,
) -> bool
    requires entry { entry < length entries.now }
    requires name { (name < length nodes.now) × ((nth_node (nodes_of nodes.now) name).id ≡ (nth_entry (entries_of entries.now) entry).node) }
    requires dir { (dir < length nodes.now) × ((nth_node (nodes_of nodes.now) dir).id ≡ (nth_entry (entries_of entries.now) entry).directory) }
    requires rise { Rising node_order (nodes_of nodes.now) }
    ensures { result ≡ fits_in (site_of site.now).dom (nodes_of nodes.now) (nth_entry (entries_of entries.now) entry) }
{
    let label = label_of(nodes, name);
    let above = label_of(nodes, dir);
    let home = home_of(nodes, name);
    let stands = cookie_at(entries, entry) < cookies_of(nodes, dir);
    let dominates = site.dominates(Level(label), Level(above));
    let is_of_it = (above == home) | (above == label);
    stands & (dominates & is_of_it)
}

/// Whether each name fits.
pub(crate) fn names_fit(
    site: &Site<'_>,
    nodes: &[NodeRow<'_>],
    entries: &[EntryRow<'_>],
    names: &[usize],
    dirs: &[usize],
) -> bool
    requires placed { ArePlaced (nodes_of nodes.now) (entries_of entries.now) names.now dirs.now }
    requires rise { Rising node_order (nodes_of nodes.now) }
    ensures { (result ≡ true) ↔ ((t : ℕ) → t < length entries.now → fits_in (site_of site.now).dom (nodes_of nodes.now) (nth_entry (entries_of entries.now) t) ≡ true) }
{
    for entry in 0..entries.len() {
        if !is_fit_name(site, nodes, entries, entry, names[entry], dirs[entry]) {
            return false;
        }
    }
    true
}
