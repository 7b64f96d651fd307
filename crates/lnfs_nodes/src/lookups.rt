//! LOOKUP and LOOKUPP (RFC 8881 sections 18.13 and 18.14).
ghost use Rattle.std.specs.Prelude.{◌≡◌};
ghost use Rattle.std.specs.Option.{option_map};
ghost use Rattle.lnfs_world.specs.World.{World};
ghost use Rattle.lnfs_world.specs.Outcome.{Place};
ghost use Rattle.lnfs_site.specs.Site.{site_of};
ghost use Rattle.lnfs_operations.specs.Lookup.{lookup, lookup_parent};
ghost use Rattle.lnfs_tree.specs.Rows.{id_of};
ghost use Rattle.lnfs_nodes.specs.Trees.{with_tree, goes};

use crate::held::{denied, namespace, node_held};
use crate::naming::name_refusal;
use lnfs_arguments::statuses::{NFS4ERR_NOENT, NFS4ERR_NOTDIR, NFS4ERR_SYMLINK};
use lnfs_calipso::Level;
use lnfs_monitor::Question;
use lnfs_operations::{Gate, Refusal};
use lnfs_site::Site;
use lnfs_tree::{NodeId, NodeKind, Tree};

/// What a name in the current directory names, which becomes the current file handle.
///
/// # Errors
///
/// In this order: what refuses the name, NFS4ERR_NOFILEHANDLE and NFS4ERR_STALE of the current file handle,
/// NFS4ERR_SYMLINK or NFS4ERR_NOTDIR where it is no directory, NFS4ERR_ACCESS where the subject may not read it, and
/// NFS4ERR_NOENT where it has no such name.
pub fn lookup(
    site: &Site<'_>,
    tree: &Tree,
    subject: Level,
    current: Option<NodeId>,
    name: &[u8],
) -> Result<NodeId, Refusal>
    ensures { (p : Place) (rest : World) →
        let at = record p { subject = subject.0; current = option_map id_of current } in
        lookup (site_of site.now) name.now at (with_tree rest tree.now) ≡ goes at result }
{
    if let Some(status) = name_refusal(name) {
        return Err(Refusal {
            gate: Gate::Argument,
            status,
        });
    }
    let dir = node_held(tree, current)?;
    match dir.facts.kind {
        NodeKind::Link => return Err(namespace(NFS4ERR_SYMLINK)),
        NodeKind::File => return Err(namespace(NFS4ERR_NOTDIR)),
        NodeKind::Dir => {}
    }
    let label = dir.facts.label;
    if let Some(why) = denied(site, subject, &Question::Read { label }) {
        return Err(why);
    }
    match tree.lookup(dir.id, name) {
        Ok(id) => Ok(id),
        Err(_) => Err(namespace(NFS4ERR_NOENT)),
    }
}

/// The directory that names the current one, which becomes the current file handle. The root has none.
///
/// # Errors
///
/// In this order: NFS4ERR_NOFILEHANDLE and NFS4ERR_STALE of the current file handle, NFS4ERR_NOTDIR where it is no
/// directory, NFS4ERR_ACCESS where the subject may not read it, and NFS4ERR_NOENT of the root.
pub fn lookup_parent(
    site: &Site<'_>,
    tree: &Tree,
    subject: Level,
    current: Option<NodeId>,
) -> Result<NodeId, Refusal>
    ensures { (p : Place) (rest : World) →
        let at = record p { subject = subject.0; current = option_map id_of current } in
        lookup_parent (site_of site.now) at (with_tree rest tree.now) ≡ goes at result }
{
    let dir = node_held(tree, current)?;
    if dir.facts.kind != NodeKind::Dir {
        return Err(namespace(NFS4ERR_NOTDIR));
    }
    let label = dir.facts.label;
    if let Some(why) = denied(site, subject, &Question::Read { label }) {
        return Err(why);
    }
    match tree.parent(dir.id) {
        Ok(id) => Ok(id),
        Err(_) => Err(namespace(NFS4ERR_NOENT)),
    }
}
