//! RENAME (RFC 8881 section 18.26).
ghost use Rattle.std.specs.Prelude.{◌≡◌, true, Some, IfOk, IfErr, OnErr};
ghost use Rattle.std.specs.Option.{option_map};
ghost use Rattle.lnfs_world.specs.World.{Node, World, is_directory};
ghost use Rattle.lnfs_world.specs.Names.{entry_at};
ghost use Rattle.lnfs_world.specs.Facts.{NodeFacts};
ghost use Rattle.lnfs_world.specs.Outcome.{Place, Outcome};
ghost use Rattle.lnfs_site.specs.Site.{site_of};
ghost use Rattle.lnfs_operations.specs.Chain.{Answer, refuse};
ghost use Rattle.lnfs_operations.specs.Rename as operation;
ghost use Rattle.lnfs_tree.specs.Rows.{id_of};
ghost use Rattle.lnfs_tree.specs.Changed.{gone_of, rename_of};
ghost use Rattle.lnfs_nodes.specs.Trees.{with_tree, Holds};
ghost use Rattle.lnfs_nodes.specs.Acts.{failed, placed, checked, ActsLeaving, without_opens};
ghost use Rattle.lnfs_nodes.specs.Told.{follows};
ghost use Rattle.lnfs_nodes.specs.Renames.{with_ends, AreEnds, renamed_of, giving_way, gone_past};

use crate::calls::{Caller, check_allowed, check_directory, check_name, node_named, settled_by};
use crate::held::{Held, namespace, node_held};
use lnfs_arguments::statuses::NFS4ERR_NOENT;
use lnfs_calipso::Level;
use lnfs_monitor::Question;
use lnfs_operations::Refusal;
use lnfs_site::Site;
use lnfs_tree::{Dropped, Info, NodeId, Tree};
use std::alloc::{AllocError, Global};

/// The directories from which and to which a name moves.
#[derive(Clone, Copy, Debug)]
struct Ends {
    from: Held,
    to: Held,
}

/// Both directories, where the subject may change the names of each.
fn check_ends(site: &Site<'_>, tree: &Tree, caller: &Caller) -> Result<Ends, Refusal>
    ensures refused { IfErr result (λ why. (p : Place) (rest : World) (next : Node → Node →
        Outcome (Answer operation.Renamed)) →
        let at = placed p caller.now in
        with_ends (site_of site.now) at (with_tree rest tree.now) next
        ≡ refuse at why.gate why.status) }
    ensures ends { IfOk result (λ ends. AreEnds (site_of site.now) caller.now.subject.0 tree.now
        (option_map id_of caller.now.saved) (option_map id_of caller.now.current) ends.from
        ends.to) }
{
    let from = node_held(tree, caller.saved)?;
    let to = node_held(tree, caller.current)?;
    check_directory(&from)?;
    check_directory(&to)?;
    let label = from.facts.label;
    check_allowed(site, caller.subject, &Question::Change { dir: label })?;
    let label = to.facts.label;
    check_allowed(site, caller.subject, &Question::Change { dir: label })?;
    Ok(Ends { from, to })
}

/// What the rules of labels refuse where another node than the one that moves has the new name.
fn check_other(
    site: &Site<'_>,
    tree: &Tree,
    subject: Level,
    mover: NodeId,
    to: &Held,
    new: &[u8],
) -> Result<(), Refusal>
    ensures { (d : Node) → Holds tree.now d to.now → is_directory d.kind ≡ true →
        failed result ≡ giving_way (site_of site.now) subject.0 tree.now.nodes (id_of mover)
        (entry_at tree.now.entries d.id new.now) }
{
    let Ok(other) = tree.lookup(to.id, new) else {
        return Ok(());
    };
    if other == mover {
        return Ok(());
    }
    let Some(facts) = tree.node(other) else {
        return Err(namespace(NFS4ERR_NOENT));
    };
    let label = facts.label;
    check_allowed(site, subject, &Question::Drop { child: label })
}

/// The tests that come before the tree's own.
fn check_rename(
    site: &Site<'_>,
    tree: &Tree,
    caller: &Caller,
    old: &[u8],
    new: &[u8],
) -> Result<Ends, Refusal>
    requires facts { NodeFacts (site_of site.now).dom tree.now.nodes tree.now.entries
        tree.now.lasts }
    ensures checked { (p : Place) (rest : World) →
        let at = placed p caller.now in
        operation.rename (site_of site.now) old.now new.now at (with_tree rest tree.now)
        ≡ checked at result (λ ends. follows (λ a. renamed_of a.0 a.1) at
        (rename_of tree.now (id_of ends.from.id) old.now (id_of ends.to.id) new.now
        caller.now.moment)) }
    ensures from { IfOk result (λ ends. option_map id_of caller.now.saved
        ≡ Some (id_of ends.from.id)) }
    ensures to { IfOk result (λ ends. option_map id_of caller.now.current
        ≡ Some (id_of ends.to.id)) }
{
    site.policy().law_preorder();
    check_name(old)?;
    check_name(new)?;
    let ends = check_ends(site, tree, caller)?;
    let mover = node_named(tree, &ends.from, old)?;
    check_other(site, tree, caller.subject, mover.id, &ends.to, new)?;
    Ok(ends)
}

/// Moves a name of the saved directory to a name of the current one; what has that name gives way, but where both name
/// one node, nothing is done. Answers the change numbers of both directories, and the node that went: its opens go with
/// it.
///
/// # Errors
///
/// In this order: what refuses the old name, and the new one, NFS4ERR_NOFILEHANDLE and NFS4ERR_STALE of the saved file
/// handle and of the current one, NFS4ERR_NOTDIR where either is no directory, NFS4ERR_ACCESS where the subject may not
/// change the names of either, NFS4ERR_NOENT where the old name isn't there; where another node has the new name,
/// NFS4ERR_ACCESS where the subject may not take it out, and NFS4ERR_EXIST where it may not give way; NFS4ERR_INVAL
/// where a directory would go under itself, and NFS4ERR_NOSPC where the directory has no cookie left.
///
/// `AllocError` where there is no memory.
pub fn rename(
    alloc: Global,
    site: &Site<'_>,
    tree: &mut Tree,
    caller: &Caller,
    old: &[u8],
    new: &[u8],
) -> Result<Result<(Info, Info, Option<Dropped>), Refusal>, AllocError>
    requires facts { NodeFacts (site_of site.now).dom tree.old.nodes tree.old.entries
        tree.old.lasts }
    ensures acts { IfOk result (λ answer. (p : Place) (rest : World) →
        let at = placed p caller.now in
        ActsLeaving (λ r. renamed_of r.0 r.1) (λ r. at) (λ r.
        without_opens (option_map gone_of r.2)) at rest tree.old tree.new
        (operation.rename (site_of site.now) old.now new.now at (with_tree rest tree.old))
        answer) }
    ensures gone { IfOk result (λ answer. IfOk answer (λ r. option_map gone_of r.2
        ≡ gone_past tree.old (option_map id_of caller.now.saved) old.now
        (option_map id_of caller.now.current) new.now)) }
    ensures memory { OnErr result (tree.new ≡ tree.old) }
{
    let ends = match check_rename(site, tree, caller, old, new) {
        Ok(ends) => ends,
        Err(why) => return Ok(Err(why)),
    };
    let (from, to) = (ends.from.id, ends.to.id);
    match tree.rename(alloc, from, old, to, new, caller.moment) {
        Ok(done) => Ok(Ok(done)),
        Err(error) => Ok(Err(settled_by(error)?)),
    }
}
