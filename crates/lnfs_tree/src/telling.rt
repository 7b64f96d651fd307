//! A tree, told as the rows of a world.

ghost use Rattle.std.specs.Prelude.{◌≡◌, ◌++◌, IfOk, OnOk, map};
ghost use Rattle.lnfs_world.specs.Given.{stored_of};
ghost use Rattle.lnfs_world.specs.World.{last_of};
ghost use Rattle.lnfs_rows.specs.Told.{id_of as told_id, kind_of as told_kind, stored_of as told_stored, bytes_of, node_of, entry_of};
ghost use Rattle.lnfs_rows.specs.Lasts.{each_of};
ghost use Rattle.lnfs_tree.specs.Rows.{id_of, kind_of, row_of_entry};
ghost use Rattle.lnfs_tree.specs.Held.{held};
ghost use Rattle.lnfs_tree.specs.Flat.{content_of, row_of, last_row};

use crate::directory::Directory;
use crate::node::{Entry, NodeId, NodeKind};
use crate::store::{Node, NodeStore};
use crate::tree::Tree;
use lnfs_calipso::Level;
use lnfs_rows::{Data, EntryRow, Id, Kind, NodeRow, StoredRow};
use lnfs_world::Stored;
use slab::Slab;
use std::alloc::{AllocError, Global};
use std::collections::BTreeMap;

fn id_row(id: NodeId) -> Id
    ensures { told_id result ≡ id_of id }
{
    Id {
        level: id.home.0,
        number: u64::from(id.number),
    }
}

fn kind_row(kind: NodeKind) -> Kind
    ensures { told_kind result ≡ kind_of kind }
{
    match kind {
        NodeKind::File => Kind::File,
        NodeKind::Dir => Kind::Directory,
        NodeKind::Link => Kind::SymbolicLink,
    }
}

fn stored_row(stored: &Stored) -> StoredRow<'_>
    ensures { told_stored result ≡ stored_of stored.now }
{
    StoredRow {
        lfs: stored.lfs,
        pi: stored.pi,
        bytes: stored.bytes.as_slice(),
    }
}

/// A file's data or a symbolic link's text. A directory has none.
fn data_row(node: &Node) -> Data<'_>
    ensures { bytes_of result ≡ content_of (kind_of node.now.kind) node.now.bytes node.now.text }
{
    match node.kind {
        NodeKind::File => Data::File(&node.bytes),
        NodeKind::Dir => Data::Bytes(&[]),
        NodeKind::Link => Data::Bytes(node.text.as_slice()),
    }
}

fn node_row(node: &Node) -> NodeRow<'_>
    ensures { node_of result ≡ row_of node.now }
{
    NodeRow {
        id: id_row(node.id),
        kind: kind_row(node.kind),
        label: node.label.0,
        verifier: node.verifier,
        stored: match &node.stored {
            Some(stored) => Some(stored_row(stored)),
            None => None,
        },
        mode: node.mode,
        content: data_row(node),
        change: node.change,
        accessed: node.access,
        metadata: node.metadata,
        modified: node.modify,
        cookies: node.cookies,
    }
}

fn entry_row(directory: NodeId, entry: &Entry) -> EntryRow<'_>
    ensures { entry_of result ≡ row_of_entry (id_of directory) entry.now }
{
    EntryRow {
        directory: id_row(directory),
        cookie: entry.cookie,
        name: entry.name.as_slice(),
        node: id_row(entry.node),
    }
}

fn last_number(lasts: &BTreeMap<Level, u32>, level: Level) -> u64
    ensures { result ≡ last_of level.0 (map last_row lasts.now.entries) }
{
    match lasts.get(&level) {
        Some(last) => u64::from(*last),
        None => 0,
    }
}

fn numbers_of(
    alloc: Global,
    lasts: &BTreeMap<Level, u32>,
    levels: u32,
) -> Result<Vec<u64>, AllocError>
    ensures { IfOk result (λ numbers. numbers.items ≡ each_of levels (map last_row lasts.now.entries)) }
{
    let mut numbers = Vec::new(alloc);
    for level in 0..levels {
        numbers.push(last_number(lasts, Level(level)))?;
    }
    Ok(numbers)
}

impl Directory {
    /// Appends the names as those of a directory.
    fn append_rows<'a>(
        &'a self,
        directory: NodeId,
        rows: &mut Vec<EntryRow<'a>>,
    ) -> Result<(), AllocError>
        ensures { OnOk result (map entry_of rows.new.items
            ≡ map entry_of rows.old.items ++ map (row_of_entry (id_of directory)) self.now) }
    {
        for entry in self.by_cookie.values() {
            rows.push(entry_row(directory, entry))?;
        }
        Ok(())
    }
}

/// The nodes in their slots, in the order of the index.
fn nodes_of<'a>(
    alloc: Global,
    slots: &'a Slab<Node>,
    by_id: &BTreeMap<NodeId, usize>,
) -> Result<Vec<&'a Node>, AllocError>
    ensures { IfOk result (λ nodes. map (λ n. n.now) nodes.items ≡ held slots.now
        by_id.now.entries) }
{
    let mut nodes = Vec::new(alloc);
    for key in by_id.values() {
        // Each key of the index has its node.
        let Some(node) = slots.get(*key) else {
            continue;
        };
        nodes.push(node)?;
    }
    Ok(nodes)
}

impl NodeStore {
    /// The nodes in the order of their identifiers.
    fn nodes(&self, alloc: Global) -> Result<Vec<&Node>, AllocError>
        ensures { IfOk result (λ nodes. map (λ n. n.now) nodes.items ≡ self.now) }
    {
        nodes_of(alloc, &self.slots, &self.by_id)
    }
}

impl Tree {
    /// The nodes in the order of their identifiers; what they hold is lent.
    pub fn node_rows(&self, alloc: Global) -> Result<Vec<NodeRow<'_>>, AllocError>
        ensures { IfOk result (λ rows. map node_of rows.items ≡ self.now.nodes) }
    {
        let nodes = self.store.nodes(alloc)?;
        let mut rows = Vec::new(alloc);
        for node in &nodes {
            rows.push(node_row(node))?;
        }
        Ok(rows)
    }

    /// The names, by directory and cookie.
    pub fn entry_rows(&self, alloc: Global) -> Result<Vec<EntryRow<'_>>, AllocError>
        ensures { IfOk result (λ rows. map entry_of rows.items ≡ self.now.entries) }
    {
        let nodes = self.store.nodes(alloc)?;
        let mut rows = Vec::new(alloc);
        for node in &nodes {
            node.names.append_rows(node.id, &mut rows)?;
        }
        Ok(rows)
    }

    /// The last number of each of so many levels, 0 where a level gave none.
    pub fn last_numbers(&self, alloc: Global, levels: u32) -> Result<Vec<u64>, AllocError>
        ensures { IfOk result (λ numbers. numbers.items ≡ each_of levels self.now.lasts) }
    {
        numbers_of(alloc, &self.lasts, levels)
    }
}
