//! Data that is copied from file to file (RFC 7862 section 15.13).

ghost use Rattle.std.specs.Prelude.{◌≡◌, ◌+◌, ◌≤◌, true, false, [], length, OnOk, OnErr};
ghost use Rattle.lnfs_world.specs.Effects.{read_at, written};
ghost use Rattle.lnfs_world.specs.Rows.{updated};
ghost use Rattle.lnfs_world.specs.World.{same_id};
ghost use Rattle.lnfs_content.specs.Sparse.{lie_apart};
ghost use Rattle.lnfs_tree.specs.Rows.{id_of};

use crate::node::{NodeId, TreeError};
use crate::store::{Node, NodeStore, node_mut};
use crate::tree::Tree;
use lnfs_content::Content;
use lnfs_types::Moment;
use lnfs_world::numbers::MOST_FILE;
use std::alloc::{AllocError, Global};
use std::mem;

/// Whether two ranges of so many bytes have none in common.
fn lie_apart(from: u64, to: u64, count: u64) -> bool
    ensures { result ≡ lie_apart from to count }
{
    count <= from.abs_diff(to)
}

impl Node {
    ghost use Rattle.lnfs_tree.specs.Held.{with_moved};

    /// Writes so many bytes to another place. The times step as with the names of a directory.
    pub fn copy_within(
        &mut self,
        alloc: Global,
        from: u64,
        to: u64,
        count: u64,
        at: Moment,
    ) -> Result<(), AllocError>
        requires there { from + count ≤ length self.old.bytes }
        requires fits { to + count ≤ MOST_FILE }
        requires apart { lie_apart from to count ≡ true }
        ensures ok { OnOk result (self.new ≡ with_moved from to count at self.old) }
        ensures err { OnErr result (self.new ≡ self.old) }
    {
        self.bytes.copy_within(alloc, from, to, count)?;
        self.step_names(at);
        Ok(())
    }
}

impl NodeStore {
    ghost use Rattle.lnfs_tree.specs.Held.{is_node, node_at, bytes_in, with_bytes, with_written, with_moved};

    /// Takes the bytes of a node out of it.
    fn take_bytes(&mut self, alloc: Global, id: NodeId) -> Content
        ensures bytes { result ≡ bytes_in (node_at self.old (id_of id)) }
        ensures nodes { self.new ≡ updated (is_node (id_of id)) (with_bytes []) self.old }
    {
        let Some(node) = node_mut(&mut self.slots, &self.by_id, id) else {
            return Content::new(alloc);
        };
        mem::replace(&mut node.bytes, Content::new(alloc))
    }

    /// Sets the bytes of a node, if it is there.
    fn set_bytes(&mut self, id: NodeId, bytes: Content)
        ensures { self.new ≡ updated (is_node (id_of id)) (with_bytes bytes) self.old }
    {
        let Some(node) = node_mut(&mut self.slots, &self.by_id, id) else {
            return;
        };
        node.bytes = bytes;
    }

    /// Writes so many bytes of a node to another. The times of that step as with the names of a directory.
    pub fn copy(
        &mut self,
        alloc: Global,
        from: NodeId,
        to: NodeId,
        source: u64,
        target: u64,
        count: u64,
        at: Moment,
    ) -> Result<(), AllocError>
        requires others { same_id (id_of to) (id_of from) ≡ false }
        requires there { source + count ≤ length (bytes_in (node_at self.old (id_of from))) }
        requires fits { target + count ≤ MOST_FILE }
        ensures ok { OnOk result (self.new ≡ updated (is_node (id_of to))
            (with_written target
            (read_at source count (bytes_in (node_at self.old (id_of from)))) at) self.old) }
        ensures err { OnErr result (self.new ≡ self.old) }
    {
        let mut bytes = self.take_bytes(alloc, to);
        let copied = self.copy_to(alloc, from, &mut bytes, source, target, count);
        self.set_bytes(to, bytes);
        copied?;
        self.step_names(to, at);
        Ok(())
    }

    /// Writes so many bytes of a node to another place of it, if it is there.
    pub fn copy_within(
        &mut self,
        alloc: Global,
        id: NodeId,
        from: u64,
        to: u64,
        count: u64,
        at: Moment,
    ) -> Result<(), AllocError>
        requires there { from + count ≤ length (bytes_in (node_at self.old (id_of id))) }
        requires fits { to + count ≤ MOST_FILE }
        requires apart { lie_apart from to count ≡ true }
        ensures ok { OnOk result (self.new ≡ updated (is_node (id_of id))
            (with_moved from to count at) self.old) }
        ensures err { OnErr result (self.new ≡ self.old) }
    {
        let Some(node) = node_mut(&mut self.slots, &self.by_id, id) else {
            return Ok(());
        };
        node.copy_within(alloc, from, to, count, at)?;
        Ok(())
    }

    /// Writes so many bytes of a node to others.
    fn copy_to(
        &self,
        alloc: Global,
        from: NodeId,
        bytes: &mut Content,
        source: u64,
        target: u64,
        count: u64,
    ) -> Result<(), AllocError>
        requires there { source + count ≤ length (bytes_in (node_at self.now (id_of from))) }
        requires fits { target + count ≤ MOST_FILE }
        ensures ok { OnOk result (bytes.new ≡ written target
            (read_at source count (bytes_in (node_at self.now (id_of from)))) bytes.old) }
        ensures err { OnErr result (bytes.new ≡ bytes.old) }
    {
        match self.get(from) {
            Some(node) => bytes.copy_from(alloc, &node.bytes, source, target, count),
            None => bytes.copy_from(alloc, &Content::new(alloc), source, target, count),
        }
    }
}

impl Tree {
    ghost use Rattle.lnfs_tree.specs.Changed.{Does, copy_of, move_of};

    /// Writes so many bytes of a file, from an offset on, to another file. No bytes change nothing.
    ///
    /// # Errors
    ///
    /// In this order, and then nothing has changed: of the source, `Stale` where there is no such node, `IsDir` of a
    /// directory, `Inval` of a symbolic link; of the target likewise; `Inval` where so many bytes aren't there; `FBig`
    /// where the target would have more bytes than one may; and `Memory`.
    pub fn copy(
        &mut self,
        alloc: Global,
        from: NodeId,
        to: NodeId,
        source: u64,
        target: u64,
        count: u64,
        at: Moment,
    ) -> Result<(), TreeError>
        requires { same_id (id_of to) (id_of from) ≡ false }
        ensures { Does (λ u. u)
            (copy_of self.old (id_of from) (id_of to) source target count at) self.old self.new
            result }
    {
        let other = self.store.file(from)?;
        let file = self.store.file(to)?;
        if !other.bytes.covers(source, count) {
            return Err(TreeError::Inval);
        }
        if !file.bytes.takes_of(&other.bytes, source, target, count) {
            return Err(TreeError::FBig);
        }
        if count == 0 {
            return Ok(());
        }
        self.store.copy(alloc, from, to, source, target, count, at)?;
        Ok(())
    }

    /// Writes so many bytes of a file, from an offset on, to another place of it. No bytes change nothing.
    ///
    /// # Errors
    ///
    /// In this order, and then nothing has changed: `Stale` where there is no such node, `IsDir` of a directory, `Inval`
    /// of a symbolic link, where so many bytes aren't there, and where the ranges have a byte in common; `FBig` where the
    /// file would have more bytes than one may; and `Memory`.
    pub fn copy_within(
        &mut self,
        alloc: Global,
        id: NodeId,
        from: u64,
        to: u64,
        count: u64,
        at: Moment,
    ) -> Result<(), TreeError>
        ensures { Does (λ u. u) (move_of self.old (id_of id) from to count at) self.old self.new
            result }
    {
        let file = self.store.file(id)?;
        if !file.bytes.covers(from, count) {
            return Err(TreeError::Inval);
        }
        if !lie_apart(from, to, count) {
            return Err(TreeError::Inval);
        }
        if !file.bytes.takes_of(&file.bytes, from, to, count) {
            return Err(TreeError::FBig);
        }
        if count == 0 {
            return Ok(());
        }
        self.store.copy_within(alloc, id, from, to, count, at)?;
        Ok(())
    }
}
