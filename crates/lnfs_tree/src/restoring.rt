//! A tree, made of the rows of a world.

ghost use Rattle.std.specs.Prelude.{◌≡◌, ◌≤◌, ◌<◌, [], length, map, IfOk, OnOk, option_map};
ghost use Rattle.std.specs.List.{AllByRecursion};
ghost use Rattle.lnfs_world.specs.Given.{stored_of};
ghost use Rattle.lnfs_world.specs.Rows.{updated};
ghost use Rattle.lnfs_rows.specs.Told.{id_of as told_id, kind_of as told_kind, stored_of as told_stored, bytes_of, node_of, entry_of};
ghost use Rattle.lnfs_rows.specs.Lasts.{given_of};
ghost use Rattle.lnfs_tree.specs.Rows.{id_of, kind_of};
ghost use Rattle.lnfs_tree.specs.Held.{node_at, is_node, IsOpenTo};
ghost use Rattle.lnfs_tree.specs.Flat.{content_of, row_of, entries_in, last_row, links_at, IsTree};
ghost use Rattle.lnfs_tree.specs.Makes.{rows_told, IsNumbered, HoldsBy, IsStorable, MakesNodes, MakesNames, MakesTree, IsBare, with_entry, first_parent as first_of, with_more_links};

use crate::directory::Directory;
use crate::node::{NodeId, NodeKind};
use crate::store::{Node, NodeStore, node_mut};
use crate::tree::Tree;
use lnfs_calipso::Level;
use lnfs_content::Content;
use lnfs_rows::{Data, EntryRow, Id, Kind, NodeRow, StoredRow};
use lnfs_types::Octets;
use lnfs_world::Stored;
use lnfs_world::numbers::{LAST_NUMBER, MOST_FILE, MOST_NAMES};
use std::alloc::{AllocError, Global};
use std::collections::BTreeMap;

fn node_id(id: Id) -> NodeId
    requires { id.number ≤ LAST_NUMBER }
    ensures { id_of result ≡ told_id id }
{
    NodeId {
        home: Level(id.level),
        number: id.number as u32,
    }
}

fn node_kind(kind: Kind) -> NodeKind
    ensures { kind_of result ≡ told_kind kind }
{
    match kind {
        Kind::File => NodeKind::File,
        Kind::Directory => NodeKind::Dir,
        Kind::SymbolicLink => NodeKind::Link,
    }
}

fn label_of(alloc: Global, row: &Option<StoredRow<'_>>) -> Result<Option<Stored>, AllocError>
    ensures { IfOk result (λ label. option_map stored_of label ≡ option_map told_stored row.now) }
{
    match row {
        Some(label) => Ok(Some(Stored {
            lfs: label.lfs,
            pi: label.pi,
            bytes: Octets::from_slice(alloc, label.bytes)?,
        })),
        None => Ok(None),
    }
}

/// All bytes of a file.
fn read_all(alloc: Global, content: &Content) -> Result<Vec<u8>, AllocError>
    ensures { IfOk result (λ bytes. bytes.items ≡ content.now) }
{
    content.read(alloc, 0, content.len() as u32)
}

fn text_of(alloc: Global, from: &Data<'_>) -> Result<Octets, AllocError>
    ensures { IfOk result (λ text. text ≡ bytes_of from.now) }
{
    match from {
        Data::Bytes(bytes) => Octets::from_slice(alloc, bytes),
        Data::File(content) => Ok(Octets::new(read_all(alloc, content)?)),
    }
}

fn content_from(alloc: Global, bytes: &[u8]) -> Result<Content, AllocError>
    requires { length bytes.now ≤ MOST_FILE }
    ensures { IfOk result (λ content. content ≡ bytes.now) }
{
    let mut content = Content::new(alloc);
    content.write(alloc, 0, bytes)?;
    Ok(content)
}

fn data_of(alloc: Global, from: &Data<'_>) -> Result<Content, AllocError>
    requires { length (bytes_of from.now) ≤ MOST_FILE }
    ensures { IfOk result (λ content. content ≡ bytes_of from.now) }
{
    match from {
        Data::Bytes(bytes) => content_from(alloc, bytes),
        Data::File(content) => {
            let bytes = read_all(alloc, content)?;
            content_from(alloc, &bytes)
        }
    }
}

/// The data of a file, and the text of a symbolic link.
fn parts_of(alloc: Global, kind: NodeKind, from: &Data<'_>) -> Result<(Content, Octets), AllocError>
    requires { HoldsBy (kind_of kind) (bytes_of from.now) }
    ensures { IfOk result (λ parts. content_of (kind_of kind) parts.0 parts.1 ≡ bytes_of from.now) }
{
    match kind {
        NodeKind::File => Ok((data_of(alloc, from)?, Octets::new(Vec::new(alloc)))),
        NodeKind::Dir => Ok((Content::new(alloc), Octets::new(Vec::new(alloc)))),
        NodeKind::Link => Ok((Content::new(alloc), text_of(alloc, from)?)),
    }
}

/// A node that no directory names yet, and that names none.
fn bare_node(alloc: Global, row: &NodeRow<'_>) -> Result<Node, AllocError>
    requires { IsStorable (node_of row.now) }
    ensures row { IfOk result (λ node. row_of node ≡ node_of row.now) }
    ensures bare { IfOk result IsBare }
{
    let kind = node_kind(row.kind);
    let (bytes, text) = parts_of(alloc, kind, &row.content)?;
    let stored = label_of(alloc, &row.stored)?;
    Ok(Node {
        id: node_id(row.id),
        kind,
        label: Level(row.label),
        verifier: row.verifier,
        stored,
        mode: row.mode,
        text,
        bytes,
        change: row.change,
        access: row.accessed,
        metadata: row.metadata,
        modify: row.modified,
        cookies: row.cookies,
        parent: None,
        links: 0,
        names: Directory::new(alloc),
    })
}

fn first_parent(parent: Option<NodeId>, directory: NodeId) -> Option<NodeId>
    ensures { result ≡ first_of parent directory }
{
    match parent {
        Some(parent) => Some(parent),
        None => Some(directory),
    }
}

impl Node {
    /// Counts one more name, which a directory has.
    fn count_name(&mut self, directory: NodeId)
        requires { self.old.links < MOST_NAMES }
        ensures { self.new ≡ with_more_links directory self.old }
    {
        self.links += 1;
        self.parent = first_parent(self.parent, directory);
    }
}

impl NodeStore {
    /// Puts a name into a directory, behind all that it has. Its counter of cookies stays.
    fn put_entry(
        &mut self,
        alloc: Global,
        id: NodeId,
        cookie: u64,
        name: &[u8],
        child: NodeId,
    ) -> Result<(), AllocError>
        requires { IsOpenTo self.old (id_of id) cookie name.now }
        ensures { OnOk result (self.new ≡ updated (is_node (id_of id))
            (with_entry cookie name.now child) self.old) }
    {
        let Some(node) = node_mut(&mut self.slots, &self.by_id, id) else {
            unreachable!();
        };
        node.names.insert(alloc, cookie, name, child)?;
        Ok(())
    }

    /// Counts one more name of a node, which a directory has.
    fn count_name(&mut self, id: NodeId, directory: NodeId)
        requires { links_at (node_at self.old (id_of id)) < MOST_NAMES }
        ensures { self.new ≡ updated (is_node (id_of id)) (with_more_links directory) self.old }
    {
        let Some(node) = node_mut(&mut self.slots, &self.by_id, id) else {
            return;
        };
        node.count_name(directory);
    }

    /// The nodes of rows, without names.
    fn of_nodes(alloc: Global, nodes: &[NodeRow<'_>]) -> Result<NodeStore, AllocError>
        requires { MakesNodes (map node_of nodes.now) }
        ensures rows { IfOk result (λ store. map row_of store ≡ map node_of nodes.now) }
        ensures bare { IfOk result (λ store. AllByRecursion IsBare store) }
    {
        let mut store = NodeStore::new(alloc);
        for row in nodes {
            let node = bare_node(alloc, row)?;
            store.insert(node)?;
        }
        Ok(store)
    }

    /// The nodes of rows, with their names.
    fn of_rows(
        alloc: Global,
        nodes: &[NodeRow<'_>],
        entries: &[EntryRow<'_>],
    ) -> Result<NodeStore, AllocError>
        requires nodes { MakesNodes (map node_of nodes.now) }
        requires names { MakesNames (map node_of nodes.now) (map entry_of entries.now) }
        ensures nodes { IfOk result (λ store. map row_of store ≡ map node_of nodes.now) }
        ensures entries { IfOk result (λ store. entries_in store ≡ map entry_of entries.now) }
        ensures tree { IfOk result IsTree }
    {
        let mut store = NodeStore::of_nodes(alloc, nodes)?;
        for entry in entries {
            let directory = node_id(entry.directory);
            let node = node_id(entry.node);
            store.put_entry(alloc, directory, entry.cookie, entry.name, node)?;
            store.count_name(node, directory);
        }
        Ok(store)
    }
}

/// The last numbers of those levels that gave one.
fn lasts_of(alloc: Global, numbers: &[u64]) -> Result<BTreeMap<Level, u32>, AllocError>
    requires { AllByRecursion IsNumbered (given_of numbers.now) }
    ensures { IfOk result (λ lasts. map last_row lasts.entries ≡ given_of numbers.now) }
{
    let mut lasts = BTreeMap::new(alloc);
    for level in 0..numbers.len() {
        let number = numbers[level];
        if number == 0 {
            continue;
        }
        lasts.insert(Level(level as u32), number as u32)?;
    }
    Ok(lasts)
}

impl Tree {
    /// The tree of just these rows. Of the last numbers, one for each level from level 0 on, 0 stands where a level gave
    /// none.
    pub fn from_rows(
        alloc: Global,
        nodes: &[NodeRow<'_>],
        entries: &[EntryRow<'_>],
        lasts: &[u64],
    ) -> Result<Tree, AllocError>
        requires makes { MakesTree (rows_told nodes.now entries.now lasts.now) }
        ensures { IfOk result (λ tree. tree ≡ rows_told nodes.now entries.now lasts.now) }
    {
        let store = NodeStore::of_rows(alloc, nodes, entries)?;
        let lasts = lasts_of(alloc, lasts)?;
        Ok(Tree { store, lasts })
    }
}
