//! Whether the directories of some rows are a tree.
ghost use Rattle.std.specs.Prelude.{◌≡◌, ◌<◌, ◌==◌, ◌||◌, ◌↔◌, ℕ, true, false, not, cond, length, slice_index, IfOk, IfSome, IfNone};
ghost use Rattle.std.specs.List.{AllByRecursion};
ghost use Rattle.lnfs_world.specs.Rows.{Rising};
ghost use Rattle.lnfs_world.specs.World.{id_order, node_order, entry_order, directory_at};
ghost use Rattle.lnfs_world.specs.Tree.{Tree, joins};
ghost use Rattle.lnfs_climb.specs.Firsts.{AreBelow};
ghost use Rattle.lnfs_fit.specs.Places.{nth_is_dir, ArePlaced, IsTop};
ghost use Rattle.lnfs_fit.specs.RowsOf.{ids_of, nodes_of, entries_of, AreIdsOf};

use crate::ids::place_of;
use crate::rows::{dir_at, is_dir_at, named_at};
use lnfs_climb::{all_reach, first_places};
use lnfs_rows::{EntryRow, Id, NodeRow};
use std::alloc::{AllocError, Global};

/// The directory that is there from the start.
pub(crate) const ROOT: Id = Id {
    level: 0,
    number: 1,
};

/// Where the node and the directory of each name stand.
#[derive(Debug, Drop)]
pub(crate) struct Places {
    pub names: Vec<usize>,
    pub dirs: Vec<usize>,
}

/// None where a name's node isn't there, or its directory is none.
pub(crate) fn places_of(
    alloc: Global,
    ids: &[Id],
    nodes: &[NodeRow<'_>],
    entries: &[EntryRow<'_>],
) -> Result<Option<Places>, AllocError>
    requires ids { AreIdsOf (λ n. n.id) (nodes_of nodes.now) ids.now }
    requires order { Rising id_order (ids_of ids.now) }
    requires rise { Rising node_order (nodes_of nodes.now) }
    ensures found { IfOk result (λ places. IfSome places (λ p. ArePlaced (nodes_of nodes.now) (entries_of entries.now) p.names.items p.dirs.items)) }
    ensures missing { IfOk result (λ places. IfNone places (AllByRecursion (λ e. joins (directory_at (nodes_of nodes.now)) e ≡ true) (entries_of entries.now) → ⊥)) }
{
    let mut names = Vec::with_capacity(alloc, entries.len())?;
    let mut dirs = Vec::with_capacity(alloc, entries.len())?;
    for entry in 0..entries.len() {
        let Some(name) = place_of(ids, named_at(entries, entry)) else {
            return Ok(None);
        };
        let Some(dir) = place_of(ids, dir_at(entries, entry)) else {
            return Ok(None);
        };
        if !is_dir_at(nodes, dir) {
            return Ok(None);
        }
        names.push(name)?;
        dirs.push(dir)?;
    }
    Ok(Some(Places { names, dirs }))
}

/// Whether each node but the root has a name, and the root none.
fn are_named(firsts: &[usize], count: usize, top: usize) -> bool
    requires { top < length firsts.now }
    ensures { (result ≡ true) ↔ ((slice_index firsts.now top ≡ count) × ((k : ℕ) → k < length firsts.now → (k == top) ≡ false → slice_index firsts.now k < count)) }
{
    if firsts[top] != count {
        return false;
    }
    for place in 0..firsts.len() {
        if place != top && firsts[place] >= count {
            return false;
        }
    }
    true
}

/// Whether each name of a directory is its first.
fn are_named_once(nodes: &[NodeRow<'_>], names: &[usize], firsts: &[usize]) -> bool
    requires within { AreBelow (length nodes.now) names.now }
    requires len { length firsts.now ≡ length nodes.now }
    ensures { (result ≡ true) ↔ ((t : ℕ) → t < length names.now → nth_is_dir (nodes_of nodes.now) (slice_index names.now t) ≡ true →
        slice_index firsts.now (slice_index names.now t) ≡ t) }
{
    for entry in 0..names.len() {
        let place = names[entry];
        if is_dir_at(nodes, place) && firsts[place] != entry {
            return false;
        }
    }
    true
}

/// The place above each place.
fn places_above(
    alloc: Global,
    nodes: &[NodeRow<'_>],
    dirs: &[usize],
    firsts: &[usize],
    top: usize,
) -> Result<Vec<usize>, AllocError>
    requires len { length firsts.now ≡ length nodes.now }
    requires named { (k : ℕ) → k < length firsts.now → (k == top) ≡ false → slice_index firsts.now k < length dirs.now }
    ensures len { IfOk result (λ ups. length ups.items ≡ length nodes.now) }
    ensures value { IfOk result (λ ups. (k : ℕ) → k < length nodes.now →
        slice_index ups.items k ≡ cond (k == top || not (nth_is_dir (nodes_of nodes.now) k)) top (slice_index dirs.now (slice_index firsts.now k))) }
{
    let mut ups = Vec::with_capacity(alloc, nodes.len())?;
    for place in 0..nodes.len() {
        let above = if place == top || !is_dir_at(nodes, place) {
            top
        } else {
            dirs[firsts[place]]
        };
        ups.push(above)?;
    }
    Ok(ups)
}

/// Whether the directories of rows that rise are a tree, where each name has its places, and the root has one.
pub fn is_tree_by_places(
    alloc: Global,
    nodes: &[NodeRow<'_>],
    entries: &[EntryRow<'_>],
    names: &[usize],
    dirs: &[usize],
    top: usize,
) -> Result<bool, AllocError>
    requires nodes { Rising node_order (nodes_of nodes.now) }
    requires entries { Rising entry_order (entries_of entries.now) }
    requires placed { ArePlaced (nodes_of nodes.now) (entries_of entries.now) names.now dirs.now }
    requires top { IsTop (nodes_of nodes.now) top }
    ensures { IfOk result (λ fits. (fits ≡ true) ↔ Tree (directory_at (nodes_of nodes.now)) (entries_of entries.now)) }
{
    let firsts = first_places(alloc, nodes.len(), names)?;
    if !are_named(&firsts, entries.len(), top) {
        return Ok(false);
    }
    if !are_named_once(nodes, names, &firsts) {
        return Ok(false);
    }
    let ups = places_above(alloc, nodes, dirs, &firsts, top)?;
    all_reach(alloc, &ups, top)
}
