//! What stands before all events, as a tree.
ghost use Rattle.std.specs.Prelude.{◌≡◌, IfOk};
ghost use Rattle.std.specs.List.{AllByRecursion};
ghost use Rattle.lnfs_site.specs.Site.{first_world};
ghost use Rattle.lnfs_quota.specs.Totals.{IsInBounds};
ghost use Rattle.lnfs_tree.specs.Rows.{rows_of};

use lnfs_site::{Site, first_dirs, root_label};
use lnfs_tree::Tree;
use std::alloc::{AllocError, Global};

/// The root and the directories of the policy.
#[tactic(auto, unfolding(lnfs_site::specs::Site::first_world))]
fn first_directories(alloc: Global, site: &Site<'_>) -> Result<Tree, AllocError>
    ensures { IfOk result (λ tree. tree ≡ rows_of (first_world site.now)) }
{
    let dirs = first_dirs(alloc, site)?;
    let label = root_label(alloc, site)?;
    Tree::new(alloc, site.policy().lattice(), &dirs, label)
}

/// The tree that stands before all events. Its homes and labels are levels that a policy may list.
///
/// # Errors
///
/// `AllocError` where there is no memory.
pub fn first_tree(alloc: Global, site: &Site<'_>) -> Result<Tree, AllocError>
    ensures tree { IfOk result (λ tree. tree ≡ rows_of (first_world site.now)) }
    ensures bounds { IfOk result (λ tree. AllByRecursion IsInBounds tree.nodes) }
{
    // The calls say that the levels of the directories are among those of the policy, and that these are few.
    let policy = site.policy();
    policy.law_policy();
    let _levels = policy.lattice().len();
    first_directories(alloc, site)
}
