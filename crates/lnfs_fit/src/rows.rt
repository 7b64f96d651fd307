//! What rows tell, by their places.
ghost use Rattle.std.specs.Prelude.{◌≡◌, ◌<◌, ◌↔◌, true, length};
ghost use Rattle.std.specs.Ordering.{is_lt};
ghost use Rattle.lnfs_world.specs.Rows.{Rising};
ghost use Rattle.lnfs_world.specs.World.{entry_order, is_directory};
ghost use Rattle.lnfs_rows.specs.Told.{id_of, kind_of, entry_of};
ghost use Rattle.lnfs_fit.specs.Places.{nth_node, nth_entry, nth_is_dir};
ghost use Rattle.lnfs_fit.specs.RowsOf.{nodes_of, entries_of};

use crate::ids::is_before;
use lnfs_rows::{EntryRow, Id, Kind, NodeRow};

/// Whether a name lies before another, by directory and cookie.
fn is_row_before(a: &EntryRow<'_>, b: &EntryRow<'_>) -> bool
    ensures { result ≡ is_lt (entry_order (entry_of a.now) (entry_of b.now)) }
{
    is_before(a.directory, b.directory)
        || !is_before(b.directory, a.directory) && a.cookie < b.cookie
}

fn is_entry_before(entries: &[EntryRow<'_>], a: usize, b: usize) -> bool
    requires a { a < length entries.now }
    requires b { b < length entries.now }
    ensures { result ≡ is_lt (entry_order (nth_entry (entries_of entries.now) a) (nth_entry (entries_of entries.now) b)) }
{
    is_row_before(&entries[a], &entries[b])
}

pub(crate) fn entries_rise(entries: &[EntryRow<'_>]) -> bool
    ensures { (result ≡ true) ↔ Rising entry_order (entries_of entries.now) }
{
    for place in 1..entries.len() {
        if !is_entry_before(entries, place - 1, place) {
            return false;
        }
    }
    true
}

/// The home of a node.
pub(crate) fn home_of(nodes: &[NodeRow<'_>], place: usize) -> u32
    requires { place < length nodes.now }
    ensures { result ≡ (nth_node (nodes_of nodes.now) place).id.level }
{
    nodes[place].id.level
}

fn is_directory(kind: Kind) -> bool
    ensures { result ≡ is_directory (kind_of kind) }
{
    matches!(kind, Kind::Directory)
}

pub(crate) fn is_dir_at(nodes: &[NodeRow<'_>], place: usize) -> bool
    requires { place < length nodes.now }
    ensures { result ≡ nth_is_dir (nodes_of nodes.now) place }
{
    is_directory(nodes[place].kind)
}

/// The node that a name names.
pub(crate) fn named_at(entries: &[EntryRow<'_>], place: usize) -> Id
    requires { place < length entries.now }
    ensures { id_of result ≡ (nth_entry (entries_of entries.now) place).node }
{
    entries[place].node
}

pub(crate) fn dir_at(entries: &[EntryRow<'_>], place: usize) -> Id
    requires { place < length entries.now }
    ensures { id_of result ≡ (nth_entry (entries_of entries.now) place).directory }
{
    entries[place].directory
}

pub(crate) fn name_at<'a>(entries: &[EntryRow<'a>], place: usize) -> &'a [u8]
    requires { place < length entries.now }
    ensures { result.now ≡ (nth_entry (entries_of entries.now) place).name }
{
    entries[place].name
}

pub(crate) fn label_of(nodes: &[NodeRow<'_>], place: usize) -> u32
    requires { place < length nodes.now }
    ensures { result ≡ (nth_node (nodes_of nodes.now) place).label }
{
    nodes[place].label
}

/// The cookie that a directory's next name takes.
pub(crate) fn cookies_of(nodes: &[NodeRow<'_>], place: usize) -> u64
    requires { place < length nodes.now }
    ensures { result ≡ (nth_node (nodes_of nodes.now) place).inner.cookies }
{
    nodes[place].cookies
}

pub(crate) fn cookie_at(entries: &[EntryRow<'_>], place: usize) -> u64
    requires { place < length entries.now }
    ensures { result ≡ (nth_entry (entries_of entries.now) place).cookie }
{
    entries[place].cookie
}
