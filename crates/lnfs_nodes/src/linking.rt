//! LINK (RFC 8881 section 18.9).
ghost use Rattle.std.specs.Prelude.{◌≡◌, IfOk, OnErr};
ghost use Rattle.lnfs_world.specs.World.{World};
ghost use Rattle.lnfs_world.specs.Facts.{NodeFacts};
ghost use Rattle.lnfs_world.specs.Outcome.{Place};
ghost use Rattle.lnfs_site.specs.Site.{site_of};
ghost use Rattle.lnfs_operations.specs.Link as operation;
ghost use Rattle.lnfs_tree.specs.Rows.{id_of};
ghost use Rattle.lnfs_tree.specs.Changed.{link_of};
ghost use Rattle.lnfs_nodes.specs.Trees.{with_tree};
ghost use Rattle.lnfs_nodes.specs.Acts.{placed, checked, Acts};
ghost use Rattle.lnfs_nodes.specs.Told.{follows, cinfo_of};

use crate::calls::{Caller, check_allowed, check_directory, check_name, settled_by};
use crate::held::{namespace, node_held};
use lnfs_arguments::statuses::NFS4ERR_ISDIR;
use lnfs_monitor::Question;
use lnfs_operations::Refusal;
use lnfs_site::Site;
use lnfs_tree::{Info, NodeId, Tree};
use std::alloc::{AllocError, Global};

/// The node of a further name, and the directory.
#[derive(Clone, Copy, Debug)]
struct Ends {
    node: NodeId,
    dir: NodeId,
}

/// The tests that come before the tree's own.
fn check_link(site: &Site<'_>, tree: &Tree, caller: &Caller, name: &[u8]) -> Result<Ends, Refusal>
    ensures { (p : Place) (rest : World) →
        let at = placed p caller.now in
        operation.link (site_of site.now) name.now at (with_tree rest tree.now)
        ≡ checked at result (λ ends. follows (λ a. cinfo_of a) at
        (link_of tree.now (id_of ends.node) (id_of ends.dir) name.now caller.now.moment)) }
{
    check_name(name)?;
    let node = node_held(tree, caller.saved)?;
    let dir = node_held(tree, caller.current)?;
    if node.facts.kind.is_dir() {
        return Err(namespace(NFS4ERR_ISDIR));
    }
    check_directory(&dir)?;
    let label = dir.facts.label;
    check_allowed(site, caller.subject, &Question::Change { dir: label })?;
    let label = node.facts.label;
    check_allowed(site, caller.subject, &Question::Drop { child: label })?;
    Ok(Ends {
        node: node.id,
        dir: dir.id,
    })
}

/// Gives the node of the saved file handle a further name in the current directory. Answers the change numbers of the
/// directory.
///
/// # Errors
///
/// In this order: what refuses the name, NFS4ERR_NOFILEHANDLE and NFS4ERR_STALE of the saved file handle and of the
/// current one, NFS4ERR_ISDIR where the saved one is a directory, NFS4ERR_NOTDIR where the current one is none,
/// NFS4ERR_ACCESS where the subject may not change the directory's names, and where it may not take out the node,
/// NFS4ERR_EXIST where the name is there, NFS4ERR_MLINK where the node has as many names as one may have, and
/// NFS4ERR_NOSPC where the directory has no cookie left.
///
/// `AllocError` where there is no memory.
pub fn link(
    alloc: Global,
    site: &Site<'_>,
    tree: &mut Tree,
    caller: &Caller,
    name: &[u8],
) -> Result<Result<Info, Refusal>, AllocError>
    requires facts { NodeFacts (site_of site.now).dom tree.old.nodes tree.old.entries
        tree.old.lasts }
    ensures acts { IfOk result (λ answer. (p : Place) (rest : World) →
        let at = placed p caller.now in
        Acts (λ r. cinfo_of r) at rest tree.old tree.new
        (operation.link (site_of site.now) name.now at (with_tree rest tree.old)) answer) }
    ensures memory { OnErr result (tree.new ≡ tree.old) }
{
    let ends = match check_link(site, tree, caller, name) {
        Ok(ends) => ends,
        Err(why) => return Ok(Err(why)),
    };
    match tree.link(alloc, ends.node, ends.dir, name, caller.moment) {
        Ok(info) => Ok(Ok(info)),
        Err(error) => Ok(Err(settled_by(error)?)),
    }
}
