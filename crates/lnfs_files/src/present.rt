//! OPEN of a file that is there.
ghost use Rattle.std.specs.Prelude.{◌≡◌, Bool, Some, IfOk, IfErr, OnErr};
ghost use Rattle.lnfs_world.specs.World.{Id, Node, World};
ghost use Rattle.lnfs_world.specs.Outcome.{Place};
ghost use Rattle.lnfs_site.specs.Site.{site_of};
ghost use Rattle.lnfs_operations.specs.Open as operation;
ghost use Rattle.lnfs_tree.specs.Rows.{id_of};
ghost use Rattle.lnfs_open.specs.Listed.{node_id};
ghost use Rattle.lnfs_open.specs.Stopping.{Tells};
ghost use Rattle.lnfs_nodes.specs.Trees.{Holds};
ghost use Rattle.lnfs_nodes.specs.Acts.{placed};
ghost use Rattle.lnfs_quota.specs.Totals.{AreTotals};
ghost use Rattle.lnfs_files.specs.Worlds.{with_files};
ghost use Rattle.lnfs_files.specs.Acts.{ActsTo};
ghost use Rattle.lnfs_files.specs.Leases.{Leases};
ghost use Rattle.lnfs_files.specs.Openings.{args_of, wanted_of, opened_of, IsThere};
ghost use Rattle.lnfs_files.specs.Passing.{wish_of, Passes, Fails};

use crate::asked::Opening;
use crate::opened::{Opened, cut_set, state_id_of};
use crate::references::node_key;
use crate::sharing::check_openable;
use crate::values::put_size;
use crate::wanted::Wanted;
use lnfs_arguments::Cinfo;
use lnfs_nodes::{Caller, Held, no_space};
use lnfs_open::{ClientKey, NodeKey, OpenError, OpenRef, Opens};
use lnfs_operations::Refusal;
use lnfs_quota::{Quota, law_totals};
use lnfs_site::Site;
use lnfs_tree::Tree;
use std::alloc::{AllocError, Global};

/// Who opens, under which client, and what is asked.
#[derive(Drop)]
pub struct Opener<'a> {
    pub alloc: Global,
    pub site: &'a Site<'a>,
    pub caller: &'a Caller,
    /// Of the subject's level.
    pub client: ClientKey,
    pub args: &'a Opening<'a>,
}

/// Opens a file, and ends the opens that give way to that (RFC 8881 section 8.4.3).
///
/// # Errors
///
/// Those of `Opens::open`, which leave all as it was.
fn open_past<F: Fn(ClientKey) -> bool>(
    opener: &Opener<'_>,
    opens: &mut Opens,
    node: NodeKey,
    over: &F,
) -> Result<OpenRef, OpenError>
    requires { F.IsAlwaysCallable over.now }
    ensures refused { IfErr result (Fails (wish_of opener.now (node_id node)) opens.old opens.new) }
    ensures kept { OnErr result (opens.new ≡ opens.old) }
    ensures opened { (told : Id → Bool) → Tells (F.post over.now) told →
        IfOk result (Passes (wish_of opener.now (node_id node)) told opens.old opens.new) }
{
    let (client, args) = (opener.client, opener.args);
    // The calls say that no two opens have an identifier, and that none has the next one.
    opens.law_order();
    let _last = opens.last_number(client.level);
    let share = args.share();
    match opens.open(client, args.owner, node, share, args.deny) {
        Ok(id) => {
            opens.revoke(
                client.level,
                (client, args.owner),
                node,
                share,
                args.deny,
                over,
            );
            Ok(id)
        }
        Err(error) => Err(error),
    }
}

/// Opens a file that is there. It is cut where a size was given. `info` is what is told of the directory of its name.
///
/// Those of others that stood in its way but for the leases of their clients end, where they are of the subject's level.
///
/// Refused as `check_openable` does, and by NFS4ERR_NOSPC where an open has to be added and the subject's level has as
/// many as it may have.
///
/// # Errors
///
/// `AllocError` where there is no memory. Then nothing has changed.
pub fn open_present<F: Fn(ClientKey) -> bool>(
    opener: &Opener<'_>,
    tree: &mut Tree,
    opens: &mut Opens,
    quota: &mut Quota,
    wanted: &Wanted,
    info: Cinfo,
    held: &Held,
    over: &F,
) -> Result<Result<Opened, Refusal>, AllocError>
    requires told { F.IsAlwaysCallable over.now }
    requires level { opener.now.client.level ≡ opener.now.caller.now.subject }
    requires there { IsThere tree.old held.now }
    requires counts { AreTotals quota.old tree.old.nodes }
    ensures acts { IfOk result (λ told. (p : Place) (rest : World) (n : Node) →
        Leases (F.post over.now) rest opener.now.caller.now.moment → Holds tree.old n held.now →
        let at = placed p opener.now.caller.now in
        ActsTo opened_of (λ o. record at { current = Some (id_of o.node) }) at rest tree.old
        tree.new opens.old opens.new
        (operation.open_present (site_of opener.now.site.now) (args_of opener.now.args.now) at
        (with_files rest tree.old opens.old) opener.now.client.number (wanted_of wanted.now)
        info n) told) }
    ensures tree { OnErr result (tree.new ≡ tree.old) }
    ensures opens { OnErr result (opens.new ≡ opens.old) }
    ensures quota { OnErr result (quota.new ≡ quota.old) }
    ensures counts { AreTotals quota.new tree.new.nodes }
{
    let (site, caller, client, args) = (opener.site, opener.caller, opener.client, opener.args);
    let sized = wanted.sized;
    if let Err(why) = check_openable(site, opens, caller, client, args, sized, held, over) {
        return Ok(Err(why));
    }
    let node = node_key(held.id);
    let id = match open_past(opener, opens, node, over) {
        Ok(id) => id,
        Err(error) => match error {
            OpenError::Full => return Ok(Err(no_space())),
            OpenError::Memory => return Err(AllocError),
            // No open is named.
            _ => unreachable!(),
        },
    };
    if sized {
        // The call says that the file's bytes are counted in its label.
        law_totals();
        put_size(tree, quota, held, 0, caller.moment);
    }
    Ok(Ok(Opened {
        id: state_id_of(id),
        node: held.id,
        info,
        set: cut_set(sized),
    }))
}
