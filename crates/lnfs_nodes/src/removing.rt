//! REMOVE (RFC 8881 section 18.25).
ghost use Rattle.std.specs.Prelude.{◌≡◌, Some, IfOk};
ghost use Rattle.std.specs.Option.{option_map};
ghost use Rattle.lnfs_world.specs.World.{World};
ghost use Rattle.lnfs_world.specs.Facts.{NodeFacts};
ghost use Rattle.lnfs_world.specs.Outcome.{Place};
ghost use Rattle.lnfs_site.specs.Site.{site_of};
ghost use Rattle.lnfs_operations.specs.Remove as operation;
ghost use Rattle.lnfs_tree.specs.Rows.{id_of};
ghost use Rattle.lnfs_tree.specs.Changed.{gone_of, remove_of};
ghost use Rattle.lnfs_nodes.specs.Trees.{with_tree};
ghost use Rattle.lnfs_nodes.specs.Acts.{placed, checked, ActsLeaving, without_opens};
ghost use Rattle.lnfs_nodes.specs.Told.{follows, cinfo_of, gone_from, gone_bytes};

use crate::calls::{Caller, check_allowed, check_directory, check_name, node_named, refused_by};
use crate::held::node_held;
use lnfs_monitor::Question;
use lnfs_operations::Refusal;
use lnfs_site::Site;
use lnfs_tree::{Dropped, Info, NodeId, NodeKind, Tree};

/// The tests that come before the tree's own, and the directory of the name.
fn check_remove(
    site: &Site<'_>,
    tree: &Tree,
    caller: &Caller,
    name: &[u8],
) -> Result<NodeId, Refusal>
    ensures checked { (p : Place) (rest : World) →
        let at = placed p caller.now in
        operation.remove (site_of site.now) name.now at (with_tree rest tree.now)
        ≡ checked at result (λ dir. follows (λ a. cinfo_of a.0) at
        (remove_of tree.now (id_of dir) name.now caller.now.moment)) }
    ensures dir { IfOk result (λ dir. option_map id_of caller.now.current ≡ Some (id_of dir)) }
{
    check_name(name)?;
    let dir = node_held(tree, caller.current)?;
    check_directory(&dir)?;
    let label = dir.facts.label;
    check_allowed(site, caller.subject, &Question::Change { dir: label })?;
    let child = node_named(tree, &dir, name)?;
    let label = child.facts.label;
    check_allowed(site, caller.subject, &Question::Drop { child: label })?;
    Ok(dir.id)
}

/// Takes a name out of the current directory, and its node with the last one. Answers the change numbers of the
/// directory, and the node that went: its opens go with it.
///
/// # Errors
///
/// In this order: what refuses the name, NFS4ERR_NOFILEHANDLE and NFS4ERR_STALE of the current file handle,
/// NFS4ERR_NOTDIR where it is no directory, NFS4ERR_ACCESS where the subject may not change its names, NFS4ERR_NOENT
/// where it has no such name, NFS4ERR_ACCESS where the subject may not take out what it names, and NFS4ERR_NOTEMPTY of
/// a directory that holds names.
pub fn remove(
    site: &Site<'_>,
    tree: &mut Tree,
    caller: &Caller,
    name: &[u8],
) -> Result<(Info, Option<Dropped>), Refusal>
    requires facts { NodeFacts (site_of site.now).dom tree.old.nodes tree.old.entries
        tree.old.lasts }
    ensures acts { (p : Place) (rest : World) →
        let at = placed p caller.now in
        ActsLeaving (λ r. cinfo_of r.0) (λ r. at) (λ r. without_opens (option_map gone_of r.1)) at
        rest tree.old tree.new (operation.remove (site_of site.now) name.now at
        (with_tree rest tree.old)) result }
    ensures gone { IfOk result (λ r. option_map gone_of r.1
        ≡ gone_from tree.old (option_map id_of caller.now.current) name.now) }
{
    let dir = check_remove(site, tree, caller, name)?;
    match tree.remove(dir, name, caller.moment) {
        Ok(done) => Ok(done),
        Err(error) => Err(refused_by(error)),
    }
}

/// The bytes that a node which went leaves free at the level of its label: those of a file.
pub fn gone_bytes(gone: &Dropped) -> u64
    ensures { result ≡ gone_bytes (gone_of gone.now) }
{
    match gone.kind {
        NodeKind::File => gone.size,
        NodeKind::Dir | NodeKind::Link => 0,
    }
}
