//! The current file, and what is tested of it before it is read or written.
ghost use Rattle.std.specs.Prelude.{◌≡◌, Ok, IfOk};
ghost use Rattle.std.specs.Option.{option_map};
ghost use Rattle.lnfs_world.specs.World.{File, Node, World};
ghost use Rattle.lnfs_world.specs.Outcome.{Place};
ghost use Rattle.lnfs_site.specs.Site.{site_of};
ghost use Rattle.lnfs_monitor.specs.Questions.{asked};
ghost use Rattle.lnfs_operations.specs.Files.{where_file};
ghost use Rattle.lnfs_tree.specs.Rows.{id_of, kind_of};
ghost use Rattle.lnfs_nodes.specs.Trees.{held_in, IsHeld};
ghost use Rattle.lnfs_nodes.specs.Acts.{failed, placed};
ghost use Rattle.lnfs_files.specs.Worlds.{with_files};
ghost use Rattle.lnfs_files.specs.Leases.{Leases};
ghost use Rattle.lnfs_files.specs.Tests.{passed, refused, refusal_in};
ghost use Rattle.lnfs_files.specs.Uses.{way_of, asks_of, where_current_usable};

use crate::state_ids::{Way, check_usable};
use lnfs_arguments::StateId;
use lnfs_arguments::statuses::{NFS4ERR_ISDIR, NFS4ERR_SYMLINK};
use lnfs_calipso::Level;
use lnfs_monitor::Question;
use lnfs_nodes::{Caller, Held, check_allowed, namespace, node_held};
use lnfs_open::{ClientKey, Opens};
use lnfs_operations::Refusal;
use lnfs_site::Site;
use lnfs_tree::{NodeKind, Tree};

/// What refuses a node that has to be a file: NFS4ERR_ISDIR of a directory, NFS4ERR_SYMLINK of a symbolic link.
pub fn check_file(held: &Held) -> Result<(), Refusal>
    ensures { (p : Place) (n : Node) → kind_of held.now.facts.kind ≡ n.kind →
        failed result ≡ refusal_in (where_file p n (passed p)) }
{
    match held.facts.kind {
        NodeKind::File => Ok(()),
        NodeKind::Dir => Err(namespace(NFS4ERR_ISDIR)),
        NodeKind::Link => Err(namespace(NFS4ERR_SYMLINK)),
    }
}

/// What the rules of labels are asked of a use.
fn question(way: Way, label: Level) -> Question<'static>
    ensures { asked result ≡ asks_of (way_of way) label.0 }
{
    match way {
        Way::Reading => Question::Read { label },
        Way::Writing => Question::Write { label },
    }
}

/// The file that the current file handle names, where a state id lets it be used. `over` tells of clients whether their
/// leases are over.
///
/// # Errors
///
/// In this order: NFS4ERR_NOFILEHANDLE and NFS4ERR_STALE of the current file handle, NFS4ERR_ISDIR and NFS4ERR_SYMLINK
/// where it is no file, NFS4ERR_ACCESS by the rules of labels, and those of `check_usable`.
pub fn usable_file<F: Fn(ClientKey) -> bool>(
    site: &Site<'_>,
    tree: &Tree,
    opens: &Opens,
    caller: &Caller,
    client: Option<u32>,
    id: &StateId,
    way: Way,
    over: &F,
) -> Result<Held, Refusal>
    requires { F.IsAlwaysCallable over.now }
    ensures refused { (p : Place) (rest : World) →
        Leases (F.post over.now) rest caller.now.moment → p.client ≡ client →
        let at = placed p caller.now in
        refused result
        ≡ refusal_in (where_current_usable (site_of site.now) at
        (with_files rest tree.now opens.now) id.now (way_of way) (λ n. passed at)) }
    ensures held { IfOk result (λ held. IsHeld tree.now
        (held_in tree.now.nodes (option_map id_of caller.now.current)) (Ok held)) }
    ensures file { IfOk result (λ held. kind_of held.facts.kind ≡ File) }
{
    let held = node_held(tree, caller.current)?;
    check_file(&held)?;
    let question = question(way, held.facts.label);
    check_allowed(site, caller.subject, &question)?;
    check_usable(site, opens, caller, client, held.id, id, way, over)?;
    Ok(held)
}
