//! The data of files (RFC 8881 sections 18.22, 18.30 and 18.32).

ghost use Rattle.std.specs.Prelude.{◌≡◌, ◌≢◌, ◌+◌, ◌≤◌, Err, length, OnOk, OnErr};
ghost use Rattle.std.specs.Result.{result_map_both};
ghost use Rattle.lnfs_world.specs.Rows.{updated};
ghost use Rattle.lnfs_tree.specs.Rows.{id_of};

use crate::node::{NodeId, NodeKind, TreeError};
use crate::store::{Node, NodeStore, node_mut};
use crate::tree::Tree;
use lnfs_content::Content;
use lnfs_types::Moment;
use lnfs_world::numbers::MOST_FILE;
use std::alloc::{AllocError, Global};

impl Node {
    ghost use Rattle.lnfs_tree.specs.Held.{with_size, with_written, with_zeroed};

    /// Sets how many bytes there are. The times step as with the names of a directory.
    pub fn set_size(&mut self, size: u64, at: Moment)
        requires { size ≤ MOST_FILE }
        ensures { self.new ≡ with_size size at self.old }
    {
        self.bytes.set_size(size);
        self.step_names(at);
    }

    /// Writes bytes. The times step as with the names of a directory.
    pub fn write(
        &mut self,
        alloc: Global,
        offset: u64,
        bytes: &[u8],
        at: Moment,
    ) -> Result<(), AllocError>
        requires { offset + length bytes.now ≤ MOST_FILE }
        ensures ok { OnOk result (self.new ≡ with_written offset bytes.now at self.old) }
        ensures err { OnErr result (self.new ≡ self.old) }
    {
        self.bytes.write(alloc, offset, bytes)?;
        self.step_names(at);
        Ok(())
    }

    /// Makes zeros of the bytes of a region. The times step as with the names of a directory.
    pub fn zero(&mut self, alloc: Global, first: u64, end: u64, at: Moment)
        ensures { self.new ≡ with_zeroed first end at self.old }
    {
        self.bytes.zero(alloc, first, end);
        self.step_names(at);
    }
}

impl NodeStore {
    ghost use Rattle.lnfs_tree.specs.Held.{is_node, node_at, file_in, with_size, with_written, with_zeroed};

    /// The node of a file.
    ///
    /// # Errors
    ///
    /// `Stale` where there is no such node, `IsDir` and `Inval` where it is a directory or a symbolic link.
    pub fn file(&self, id: NodeId) -> Result<&Node, TreeError>
        ensures { result_map_both (λ n. n.now) (λ e. e) result
            ≡ file_in (node_at self.now (id_of id)) }
    {
        match self.get(id) {
            Some(node) => match node.kind {
                NodeKind::File => Ok(node),
                NodeKind::Dir => Err(TreeError::IsDir),
                NodeKind::Link => Err(TreeError::Inval),
            },
            None => Err(TreeError::Stale),
        }
    }

    /// Sets how many bytes a node has.
    pub fn set_size(&mut self, id: NodeId, size: u64, at: Moment)
        requires { size ≤ MOST_FILE }
        ensures { self.new ≡ updated (is_node (id_of id)) (with_size size at) self.old }
    {
        let Some(node) = node_mut(&mut self.slots, &self.by_id, id) else {
            return;
        };
        node.set_size(size, at);
    }

    /// Writes bytes to a node, if it is there.
    pub fn write(
        &mut self,
        alloc: Global,
        id: NodeId,
        offset: u64,
        bytes: &[u8],
        at: Moment,
    ) -> Result<(), AllocError>
        requires { offset + length bytes.now ≤ MOST_FILE }
        ensures ok { OnOk result (self.new ≡ updated (is_node (id_of id))
            (with_written offset bytes.now at) self.old) }
        ensures err { OnErr result (self.new ≡ self.old) }
    {
        let Some(node) = node_mut(&mut self.slots, &self.by_id, id) else {
            return Ok(());
        };
        node.write(alloc, offset, bytes, at)?;
        Ok(())
    }

    /// Makes zeros of the bytes of a region of a node.
    pub fn zero(&mut self, alloc: Global, id: NodeId, first: u64, end: u64, at: Moment)
        ensures { self.new ≡ updated (is_node (id_of id)) (with_zeroed first end at) self.old }
    {
        let Some(node) = node_mut(&mut self.slots, &self.by_id, id) else {
            return;
        };
        node.zero(alloc, first, end, at);
    }
}

impl Tree {
    ghost use Rattle.lnfs_tree.specs.Rows.{file_found, read_found, Gives};
    ghost use Rattle.lnfs_tree.specs.Changed.{Does, set_size_of, write_of, zero_of};
    ghost use Rattle.lnfs_tree.specs.declared.node.TreeError.TheVariants.{Memory};

    /// The data of a file, which `Content::append_to` appends to a reply.
    ///
    /// # Errors
    ///
    /// In this order: `Stale` where there is no such node, `IsDir` of a directory, `Inval` of a symbolic link.
    pub fn file(&self, id: NodeId) -> Result<&Content, TreeError>
        ensures { result_map_both (λ c. c.now) (λ e. e) result ≡ file_found self.now (id_of id) }
    {
        let node = self.store.file(id)?;
        Ok(&node.bytes)
    }

    /// The bytes of a file from an offset on, so many or all up to the end.
    ///
    /// # Errors
    ///
    /// In this order: `Stale` where there is no such node, `IsDir` of a directory, `Inval` of a symbolic link; and
    /// `Memory`.
    pub fn read(
        &self,
        alloc: Global,
        id: NodeId,
        offset: u64,
        count: u32,
    ) -> Result<Vec<u8>, TreeError>
        ensures { Gives (λ bytes. bytes.items) (read_found self.now (id_of id) offset count)
            result }
    {
        let node = self.store.file(id)?;
        Ok(node.bytes.read(alloc, offset, count)?)
    }

    /// Sets how many bytes a file has: cuts it, or fills it up with zeros. Takes no memory.
    ///
    /// # Errors
    ///
    /// In this order, and then nothing has changed: `Stale` where there is no such node, `IsDir` of a directory, `Inval`
    /// of a symbolic link, `FBig` where a file may not have so many.
    pub fn set_size(&mut self, id: NodeId, size: u64, at: Moment) -> Result<(), TreeError>
        ensures does { Does (λ u. u) (set_size_of self.old (id_of id) size at) self.old self.new
            result }
        ensures calm { result ≢ Err Memory }
    {
        let _file = self.store.file(id)?;
        if size > MOST_FILE {
            return Err(TreeError::FBig);
        }
        self.store.set_size(id, size, at);
        Ok(())
    }

    /// Writes bytes to a file from an offset on. What is between its end and the offset is zeros; no bytes change
    /// nothing.
    ///
    /// # Errors
    ///
    /// In this order, and then nothing has changed: `Stale` where there is no such node, `IsDir` of a directory, `Inval`
    /// of a symbolic link, `FBig` where the file would have more bytes than one may; and `Memory`.
    pub fn write(
        &mut self,
        alloc: Global,
        id: NodeId,
        offset: u64,
        bytes: &[u8],
        at: Moment,
    ) -> Result<(), TreeError>
        ensures { Does (λ u. u) (write_of self.old (id_of id) offset bytes.now at) self.old self.new
            result }
    {
        let file = self.store.file(id)?;
        if !file.bytes.takes(offset, bytes) {
            return Err(TreeError::FBig);
        }
        if bytes.is_empty() {
            return Ok(());
        }
        self.store.write(alloc, id, offset, bytes, at)?;
        Ok(())
    }

    /// Makes zeros of the bytes of a file from an offset up to another. How many there are stays. Where there is none
    /// nothing changes. Takes no memory.
    ///
    /// # Errors
    ///
    /// In this order, and then nothing has changed: `Stale` where there is no such node, `IsDir` of a directory, `Inval`
    /// of a symbolic link.
    pub fn zero(
        &mut self,
        alloc: Global,
        id: NodeId,
        first: u64,
        end: u64,
        at: Moment,
    ) -> Result<(), TreeError>
        ensures does { Does (λ u. u) (zero_of self.old (id_of id) first end at) self.old self.new
            result }
        ensures calm { result ≢ Err Memory }
    {
        let file = self.store.file(id)?;
        if !file.bytes.has(first, end) {
            return Ok(());
        }
        self.store.zero(alloc, id, first, end, at);
        Ok(())
    }
}
