//! Whether rows of nodes and entries fit together.
ghost use Rattle.std.specs.Prelude.{◌≡◌, ◌<◌, ◌↔◌, ℕ, true, length, IfOk};
ghost use Rattle.lnfs_world.specs.Rows.{Rising, Apart};
ghost use Rattle.lnfs_world.specs.World.{node_order, entry_order};
ghost use Rattle.lnfs_world.specs.Facts.{same_name};
ghost use Rattle.lnfs_operations.specs.Bounds.{EntryBounds};
ghost use Rattle.lnfs_site.specs.Site.{site_of};
ghost use Rattle.lnfs_fit.specs.Ids.{AreGiven};
ghost use Rattle.lnfs_fit.specs.Places.{nth_node, nth_entry, ArePlaced, IsTop};
ghost use Rattle.lnfs_fit.specs.Fits.{AreFit, IsFitNode};
ghost use Rattle.lnfs_fit.specs.RowsOf.{ids_of, nodes_of, entries_of, AreIdsOf};

use crate::apart::names_differ;
use crate::bounds::nodes_fit;
use crate::fits::names_fit;
use crate::homes::{homes_fit, names_are_few};
use crate::ids::{ids_fit, place_of};
use crate::names::entries_fit;
use crate::rows::{entries_rise, is_dir_at};
use crate::tree::{ROOT, is_tree_by_places, places_of};
use lnfs_rows::{EntryRow, Id, NodeRow};
use lnfs_site::Site;
use std::alloc::{AllocError, Global};

/// The rest of what has to hold, once each name has its places.
fn fit_by_places(
    alloc: Global,
    site: &Site<'_>,
    last: &[u64],
    ids: &[Id],
    nodes: &[NodeRow<'_>],
    entries: &[EntryRow<'_>],
    names: &[usize],
    dirs: &[usize],
    top: usize,
) -> Result<bool, AllocError>
    requires ids { AreIdsOf (λ n. n.id) (nodes_of nodes.now) ids.now }
    requires given { AreGiven (site_of site.now) last.now (ids_of ids.now) }
    requires entries { Rising entry_order (entries_of entries.now) }
    requires apart { Apart same_name (entries_of entries.now) }
    requires rise { Rising node_order (nodes_of nodes.now) }
    requires placed { ArePlaced (nodes_of nodes.now) (entries_of entries.now) names.now dirs.now }
    requires top { IsTop (nodes_of nodes.now) top }
    requires nodes { (k : ℕ) → k < length nodes.now → IsFitNode (site_of site.now) (nth_node (nodes_of nodes.now) k) }
    requires bounds { (t : ℕ) → t < length entries.now → EntryBounds (nth_entry (entries_of entries.now) t) }
    ensures { IfOk result (λ fits. (fits ≡ true) ↔ AreFit (site_of site.now) last.now (nodes_of nodes.now) (entries_of entries.now)) }
{
    if !names_fit(site, nodes, entries, names, dirs) {
        return Ok(false);
    }
    let held = homes_fit(alloc, nodes, entries, names, dirs)?;
    if !held {
        return Ok(false);
    }
    let few = names_are_few(alloc, nodes, entries, names, dirs)?;
    if !few {
        return Ok(false);
    }
    is_tree_by_places(alloc, nodes, entries, names, dirs, top)
}

/// The same, once it is known of each row that it fits by itself, and that names differ.
fn fit_together(
    alloc: Global,
    site: &Site<'_>,
    last: &[u64],
    ids: &[Id],
    nodes: &[NodeRow<'_>],
    entries: &[EntryRow<'_>],
) -> Result<bool, AllocError>
    requires ids { AreIdsOf (λ n. n.id) (nodes_of nodes.now) ids.now }
    requires given { AreGiven (site_of site.now) last.now (ids_of ids.now) }
    requires entries { Rising entry_order (entries_of entries.now) }
    requires apart { Apart same_name (entries_of entries.now) }
    requires nodes { (k : ℕ) → k < length nodes.now → IsFitNode (site_of site.now) (nth_node (nodes_of nodes.now) k) }
    requires bounds { (t : ℕ) → t < length entries.now → EntryBounds (nth_entry (entries_of entries.now) t) }
    ensures { IfOk result (λ fits. (fits ≡ true) ↔ AreFit (site_of site.now) last.now (nodes_of nodes.now) (entries_of entries.now)) }
{
    let Some(top) = place_of(ids, ROOT) else {
        return Ok(false);
    };
    if !is_dir_at(nodes, top) {
        return Ok(false);
    }
    match places_of(alloc, ids, nodes, entries)? {
        Some(places) => fit_by_places(
            alloc,
            site,
            last,
            ids,
            nodes,
            entries,
            &places.names,
            &places.dirs,
            top,
        ),
        None => Ok(false),
    }
}

/// Whether rows of nodes and entries, with the last numbers of levels, are those of a world that a server of the site may
/// have. The identifiers are those of the nodes.
pub fn are_fit(
    alloc: Global,
    site: &Site<'_>,
    last: &[u64],
    ids: &[Id],
    nodes: &[NodeRow<'_>],
    entries: &[EntryRow<'_>],
) -> Result<bool, AllocError>
    requires { AreIdsOf (λ n. n.id) (nodes_of nodes.now) ids.now }
    ensures { IfOk result (λ fits. (fits ≡ true) ↔ AreFit (site_of site.now) last.now (nodes_of nodes.now) (entries_of entries.now)) }
{
    if !ids_fit(site, last, ids) {
        return Ok(false);
    }
    if !nodes_fit(site, nodes) {
        return Ok(false);
    }
    if !entries_rise(entries) {
        return Ok(false);
    }
    if !entries_fit(entries) {
        return Ok(false);
    }
    let differ = names_differ(alloc, entries)?;
    if !differ {
        return Ok(false);
    }
    fit_together(alloc, site, last, ids, nodes, entries)
}
