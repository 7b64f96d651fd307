//! Whether each node is at home, or held there by a name, and has no more names than it may.
ghost use Rattle.std.specs.Prelude.{◌≡◌, ◌<◌, ◌≤◌, ◌+◌, ◌||◌, ◌↔◌, ℕ, true, nat_lt, length, slice_index, IfOk};
ghost use Rattle.lnfs_world.specs.Rows.{Rising};
ghost use Rattle.lnfs_world.specs.World.{Id, node_order, label_at};
ghost use Rattle.lnfs_world.specs.Names.{names_of};
ghost use Rattle.lnfs_world.specs.declared.numbers.TheConstants.{MOST_NAMES};
ghost use Rattle.lnfs_world.specs.Facts.{is_held};
ghost use Rattle.lnfs_climb.specs.Firsts.{AreBelow};
ghost use Rattle.lnfs_fit.specs.Places.{nth_node, ArePlaced};
ghost use Rattle.lnfs_fit.specs.Fits.{holder, is_home};
ghost use Rattle.lnfs_fit.specs.RowsOf.{nodes_of, entries_of};

use crate::rows::{home_of, label_of};
use lnfs_climb::{first_places, stand_at_most};
use lnfs_rows::{EntryRow, NodeRow};
use lnfs_world::numbers::MOST_NAMES;
use std::alloc::{AllocError, Global};

/// The places of the nodes that each name holds.
fn holders(
    alloc: Global,
    nodes: &[NodeRow<'_>],
    names: &[usize],
    dirs: &[usize],
) -> Result<Vec<usize>, AllocError>
    requires names { AreBelow (length nodes.now) names.now }
    requires dirs { AreBelow (length nodes.now) dirs.now }
    requires len { length dirs.now ≡ length names.now }
    ensures len { IfOk result (λ held. length held.items ≡ length names.now) }
    ensures value { IfOk result (λ held. (t : ℕ) → t < length names.now → slice_index held.items t ≡ holder (nodes_of nodes.now) names.now dirs.now t) }
    ensures within { IfOk result (λ held. (t : ℕ) → t < length names.now → slice_index held.items t < length nodes.now + 1) }
{
    let mut held = Vec::with_capacity(alloc, names.len())?;
    for entry in 0..names.len() {
        let name = names[entry];
        let place = if label_of(nodes, dirs[entry]) == home_of(nodes, name) {
            name
        } else {
            nodes.len()
        };
        held.push(place)?;
    }
    Ok(held)
}

/// Whether each node is at home, or has a name that holds it.
fn are_home(nodes: &[NodeRow<'_>], firsts: &[usize], count: usize) -> bool
    requires { length nodes.now < length firsts.now }
    ensures { (result ≡ true) ↔ ((k : ℕ) → k < length nodes.now → (is_home (nodes_of nodes.now) k || nat_lt (slice_index firsts.now k) count) ≡ true) }
{
    for place in 0..nodes.len() {
        if label_of(nodes, place) != home_of(nodes, place) && firsts[place] >= count {
            return false;
        }
    }
    true
}

/// Whether each node is at home, or has a name in a directory whose label is its home.
pub(crate) fn homes_fit(
    alloc: Global,
    nodes: &[NodeRow<'_>],
    entries: &[EntryRow<'_>],
    names: &[usize],
    dirs: &[usize],
) -> Result<bool, AllocError>
    requires rise { Rising node_order (nodes_of nodes.now) }
    requires placed { ArePlaced (nodes_of nodes.now) (entries_of entries.now) names.now dirs.now }
    ensures { IfOk result (λ fits. (fits ≡ true) ↔ ((k : ℕ) → k < length nodes.now →
        (is_home (nodes_of nodes.now) k || is_held (label_at (nodes_of nodes.now)) (entries_of entries.now) (nth_node (nodes_of nodes.now) k).id) ≡ true)) }
{
    let held = holders(alloc, nodes, names, dirs)?;
    let firsts = first_places(alloc, nodes.len() + 1, &held)?;
    Ok(are_home(nodes, &firsts, entries.len()))
}

/// Whether no node has more names than it may.
pub(crate) fn names_are_few(
    alloc: Global,
    nodes: &[NodeRow<'_>],
    entries: &[EntryRow<'_>],
    names: &[usize],
    dirs: &[usize],
) -> Result<bool, AllocError>
    requires rise { Rising node_order (nodes_of nodes.now) }
    requires placed { ArePlaced (nodes_of nodes.now) (entries_of entries.now) names.now dirs.now }
    ensures { IfOk result (λ few. (few ≡ true) ↔ ((i : Id) → names_of (entries_of entries.now) i ≤ MOST_NAMES)) }
{
    stand_at_most(alloc, nodes.len(), names, MOST_NAMES as usize)
}
