//! Data of files that is set. The totals stay those of the tree.
ghost use Rattle.std.specs.Prelude.{◌≡◌, ◌≢◌, false, Err, OnErr};
ghost use Rattle.lnfs_quota.specs.Totals.{AreTotals};
ghost use Rattle.lnfs_world.specs.World.{same_id};
ghost use Rattle.lnfs_tree.specs.Rows.{id_of};
ghost use Rattle.lnfs_tree.specs.Changed.{Does, set_size_of, write_of, zero_of, copy_of, move_of};
ghost use Rattle.lnfs_tree.specs.declared.node.TreeError.TheVariants.{Memory};
ghost use Rattle.lnfs_data.specs.Charges.{IsAccessed};

use crate::charges::{charge_of, settle};
use lnfs_quota::{Quota, law_totals};
use lnfs_tree::{NodeId, Tree, TreeError};
use lnfs_types::Moment;
use std::alloc::Global;

/// Sets how many bytes a file has, as `Tree::set_size` does, with its errors.
pub fn set_size(
    tree: &mut Tree,
    quota: &mut Quota,
    id: NodeId,
    size: u64,
    at: Moment,
) -> Result<(), TreeError>
    requires { AreTotals quota.old tree.old.nodes }
    ensures does { Does (λ u. u) (set_size_of tree.old (id_of id) size at) tree.old tree.new result }
    ensures calm { result ≢ Err Memory }
    ensures counts { AreTotals quota.new tree.new.nodes }
    ensures err { OnErr result (quota.new ≡ quota.old) }
{
    tree.law_order();
    let before = charge_of(tree, id);
    tree.set_size(id, size, at)?;
    settle(tree, quota, id, before);
    Ok(())
}

/// Writes bytes to a file from an offset on, as `Tree::write` does, with its errors.
pub fn write(
    alloc: Global,
    tree: &mut Tree,
    quota: &mut Quota,
    id: NodeId,
    offset: u64,
    bytes: &[u8],
    at: Moment,
) -> Result<(), TreeError>
    requires { AreTotals quota.old tree.old.nodes }
    ensures does { Does (λ u. u) (write_of tree.old (id_of id) offset bytes.now at) tree.old
        tree.new result }
    ensures counts { AreTotals quota.new tree.new.nodes }
    ensures err { OnErr result (quota.new ≡ quota.old) }
{
    tree.law_order();
    let before = charge_of(tree, id);
    tree.write(alloc, id, offset, bytes, at)?;
    settle(tree, quota, id, before);
    Ok(())
}

/// Makes zeros of the bytes of a file from an offset up to another, as `Tree::zero` does, with its errors. The size stays, and
/// with it what its level uses.
pub fn zero(
    alloc: Global,
    tree: &mut Tree,
    quota: &mut Quota,
    id: NodeId,
    first: u64,
    end: u64,
    at: Moment,
) -> Result<(), TreeError>
    requires { AreTotals quota.old tree.old.nodes }
    ensures does { Does (λ u. u) (zero_of tree.old (id_of id) first end at) tree.old tree.new
        result }
    ensures calm { result ≢ Err Memory }
    ensures counts { AreTotals quota.new tree.new.nodes }
    ensures err { OnErr result (quota.new ≡ quota.old) }
{
    tree.law_order();
    let before = charge_of(tree, id);
    tree.zero(alloc, id, first, end, at)?;
    settle(tree, quota, id, before);
    Ok(())
}

/// Writes so many bytes of a file to another, as `Tree::copy` does, with its errors.
pub fn copy(
    alloc: Global,
    tree: &mut Tree,
    quota: &mut Quota,
    from: NodeId,
    to: NodeId,
    source: u64,
    target: u64,
    count: u64,
    at: Moment,
) -> Result<(), TreeError>
    requires counts { AreTotals quota.old tree.old.nodes }
    requires others { same_id (id_of to) (id_of from) ≡ false }
    ensures does { Does (λ u. u) (copy_of tree.old (id_of from) (id_of to) source target count at)
        tree.old tree.new result }
    ensures counts { AreTotals quota.new tree.new.nodes }
    ensures err { OnErr result (quota.new ≡ quota.old) }
{
    tree.law_order();
    let before = charge_of(tree, to);
    tree.copy(alloc, from, to, source, target, count, at)?;
    settle(tree, quota, to, before);
    Ok(())
}

/// Writes so many bytes of a file to another place of it, as `Tree::copy_within` does, with its errors.
pub fn copy_within(
    alloc: Global,
    tree: &mut Tree,
    quota: &mut Quota,
    id: NodeId,
    from: u64,
    to: u64,
    count: u64,
    at: Moment,
) -> Result<(), TreeError>
    requires { AreTotals quota.old tree.old.nodes }
    ensures does { Does (λ u. u) (move_of tree.old (id_of id) from to count at) tree.old tree.new
        result }
    ensures counts { AreTotals quota.new tree.new.nodes }
    ensures err { OnErr result (quota.new ≡ quota.old) }
{
    tree.law_order();
    let before = charge_of(tree, id);
    tree.copy_within(alloc, id, from, to, count, at)?;
    settle(tree, quota, id, before);
    Ok(())
}

/// Sets the time of access of a node, if it is there.
fn access(tree: &mut Tree, id: NodeId, at: Moment)
    ensures { IsAccessed (id_of id) at tree.old tree.new }
{
    // Where there is no node nothing has changed.
    let _touched = tree.touch(id, at);
}

/// Sets the time of access of a node, if it is there. What levels use stays.
pub fn touch(tree: &mut Tree, quota: &Quota, id: NodeId, at: Moment)
    requires { AreTotals quota.now tree.old.nodes }
    ensures accessed { IsAccessed (id_of id) at tree.old tree.new }
    ensures counts { AreTotals quota.now tree.new.nodes }
{
    // The call says that the totals stay where the content keeps its length.
    law_totals();
    access(tree, id, at);
}
