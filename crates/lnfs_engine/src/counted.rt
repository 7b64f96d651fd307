//! What each level uses to begin with.
ghost use Rattle.std.specs.Prelude.{◌≡◌, IfOk};
ghost use Rattle.std.specs.List.{AllByRecursion};
ghost use Rattle.lnfs_world.specs.Usage.{bytes_of};
ghost use Rattle.lnfs_quota.specs.Totals.{IsInBounds, AreTotals};

use lnfs_quota::Quota;
use lnfs_tree::Tree;
use std::alloc::{AllocError, Global};

/// What each level uses where the nodes are those of a tree without bytes.
pub fn counted(alloc: Global, tree: &Tree) -> Result<Quota, AllocError>
    requires empty { AllByRecursion (λ n. bytes_of n n.kind ≡ 0) tree.now.nodes }
    requires bounds { AllByRecursion IsInBounds tree.now.nodes }
    ensures { IfOk result (λ quota. AreTotals quota tree.now.nodes) }
{
    let homes = tree.homes(alloc)?;
    Quota::counted_homes(alloc, &homes)
}
