//! Data of files and times of access that further operations set. What each level uses is counted with them; whether a level's
//! limit allows it, the operation asks before.
ghost use Rattle.std.specs.Prelude.{◌≡◌, ◌≢◌, false, Err};
ghost use Rattle.lnfs_world.specs.World.{same_id, node_at};
ghost use Rattle.lnfs_tree.specs.Rows.{id_of, rows_of};
ghost use Rattle.lnfs_tree.specs.Changed.{set_size_of, write_of, zero_of, copy_of, move_of};
ghost use Rattle.lnfs_tree.specs.declared.node.TreeError.TheVariants.{Memory};
ghost use Rattle.lnfs_data.specs.Worlds.{DoesIn, with_access};

use crate::store::Store;
use lnfs_data::{copy, copy_within, law_worlds, set_size, touch, write, zero};
use lnfs_tree::{NodeId, TreeError};
use lnfs_types::Moment;
use std::alloc::Global;

impl Store {
    /// Sets how many bytes a file has, as `Tree::set_size` does, with its errors.
    pub fn set_size(&mut self, id: NodeId, size: u64, at: Moment) -> Result<(), TreeError>
        ensures does { DoesIn (set_size_of (rows_of self.old) (id_of id) size at) self.old self.new
            result }
        ensures calm { result ≢ Err Memory }
    {
        // The call says that what is done to the tree's rows is done to the world that has them.
        law_worlds();
        set_size(&mut self.tree, &mut self.quota, id, size, at)
    }

    /// Writes bytes to a file from an offset on, as `Tree::write` does, with its errors.
    pub fn write(
        &mut self,
        alloc: Global,
        id: NodeId,
        offset: u64,
        bytes: &[u8],
        at: Moment,
    ) -> Result<(), TreeError>
        ensures { DoesIn (write_of (rows_of self.old) (id_of id) offset bytes.now at) self.old
            self.new result }
    {
        law_worlds();
        write(
            alloc,
            &mut self.tree,
            &mut self.quota,
            id,
            offset,
            bytes,
            at,
        )
    }

    /// Makes zeros of the bytes of a file from an offset up to another, as `Tree::zero` does, with its errors.
    pub fn zero(
        &mut self,
        alloc: Global,
        id: NodeId,
        first: u64,
        end: u64,
        at: Moment,
    ) -> Result<(), TreeError>
        ensures does { DoesIn (zero_of (rows_of self.old) (id_of id) first end at) self.old self.new
            result }
        ensures calm { result ≢ Err Memory }
    {
        law_worlds();
        zero(alloc, &mut self.tree, &mut self.quota, id, first, end, at)
    }

    /// Writes so many bytes of a file to another, as `Tree::copy` does, with its errors.
    pub fn copy(
        &mut self,
        alloc: Global,
        from: NodeId,
        to: NodeId,
        source: u64,
        target: u64,
        count: u64,
        at: Moment,
    ) -> Result<(), TreeError>
        requires { same_id (id_of to) (id_of from) ≡ false }
        ensures { DoesIn
            (copy_of (rows_of self.old) (id_of from) (id_of to) source target count at) self.old
            self.new result }
    {
        law_worlds();
        copy(
            alloc,
            &mut self.tree,
            &mut self.quota,
            from,
            to,
            source,
            target,
            count,
            at,
        )
    }

    /// Writes so many bytes of a file to another place of it, as `Tree::copy_within` does, with its errors.
    pub fn copy_within(
        &mut self,
        alloc: Global,
        id: NodeId,
        from: u64,
        to: u64,
        count: u64,
        at: Moment,
    ) -> Result<(), TreeError>
        ensures { DoesIn (move_of (rows_of self.old) (id_of id) from to count at) self.old self.new
            result }
    {
        law_worlds();
        copy_within(
            alloc,
            &mut self.tree,
            &mut self.quota,
            id,
            from,
            to,
            count,
            at,
        )
    }

    /// Sets the time of access of a node, if it is there.
    pub fn touch(&mut self, id: NodeId, at: Moment)
        ensures { self.new
            ≡ with_access (id_of id) at self.old (node_at self.old.nodes (id_of id)) }
    {
        law_worlds();
        touch(&mut self.tree, &self.quota, id, at);
    }
}
