//! COMMIT (RFC 8881 section 18.3).
ghost use Rattle.std.specs.Prelude.{◌≡◌};
ghost use Rattle.lnfs_world.specs.World.{World};
ghost use Rattle.lnfs_world.specs.Outcome.{Place};
ghost use Rattle.lnfs_site.specs.Site.{site_of};
ghost use Rattle.lnfs_operations.specs.Write as operation;
ghost use Rattle.lnfs_nodes.specs.Trees.{with_tree, answered, stays};
ghost use Rattle.lnfs_nodes.specs.Acts.{placed};

use crate::files::check_file;
use lnfs_monitor::Question;
use lnfs_nodes::{Caller, check_allowed, node_held};
use lnfs_operations::Refusal;
use lnfs_site::Site;
use lnfs_tree::Tree;

/// Says that what was written to the current file stands. It does from the start, so that nothing is done.
///
/// # Errors
///
/// In this order: NFS4ERR_NOFILEHANDLE and NFS4ERR_STALE of the current file handle, NFS4ERR_ISDIR and NFS4ERR_SYMLINK
/// where it is no file, and NFS4ERR_ACCESS where the subject may not write it.
pub fn commit(site: &Site<'_>, tree: &Tree, caller: &Caller) -> Result<(), Refusal>
    ensures { (p : Place) (rest : World) →
        let at = placed p caller.now in
        operation.commit (site_of site.now) at (with_tree rest tree.now)
        ≡ stays at (answered (λ it. it) result) }
{
    let held = node_held(tree, caller.current)?;
    check_file(&held)?;
    let label = held.facts.label;
    check_allowed(site, caller.subject, &Question::Write { label })
}
