//! SETATTR (RFC 8881 section 18.30, RFC 7862 section 12.2.4).
ghost use Rattle.std.specs.Prelude.{◌≡◌, Ok, IfOk, IfSome, OnErr, length};
ghost use Rattle.std.specs.Option.{option_map};
ghost use Rattle.lnfs_attrs.specs.declared.bitmap.Bitmap as bitmap;
ghost use Rattle.lnfs_world.specs.World.{File, Node, World};
ghost use Rattle.lnfs_world.specs.Facts.{NodeFacts};
ghost use Rattle.lnfs_world.specs.Outcome.{Place};
ghost use Rattle.lnfs_site.specs.Site.{site_of};
ghost use Rattle.lnfs_operations.specs.SetAttr as operation;
ghost use Rattle.lnfs_quota.specs.Totals.{AreTotals};
ghost use Rattle.lnfs_tree.specs.Rows.{id_of, kind_of};
ghost use Rattle.lnfs_nodes.specs.Trees.{Holds, IsHeld, held_in, refusal_of};
ghost use Rattle.lnfs_nodes.specs.Acts.{placed};
ghost use Rattle.lnfs_nodes.specs.GivenValues.{wanted_of};
ghost use Rattle.lnfs_files.specs.Worlds.{with_files};
ghost use Rattle.lnfs_files.specs.Leases.{Leases};
ghost use Rattle.lnfs_files.specs.Acts.{Acts};
ghost use Rattle.lnfs_files.specs.Charges.{IsListed};
ghost use Rattle.lnfs_files.specs.Setting.{size_refusal, wanted_done};

use crate::labelling::{raise, respell};
use crate::listing::law_listed;
use crate::values::set_values;
use lnfs_arguments::StateId;
use lnfs_arguments::statuses::{NFS4ERR_INVAL, NFS4ERR_ISDIR};
use lnfs_attrs::{Bitmap, RawAttrs};
use lnfs_nodes::{Caller, Held, Wanted, namespace, node_held, read_wanted, set_of};
use lnfs_open::{ClientKey, Opens};
use lnfs_operations::Refusal;
use lnfs_quota::Quota;
use lnfs_site::Site;
use lnfs_tree::{NodeKind, Tree};
use std::alloc::{AllocError, Global};

/// What refuses a size, which is that of a file.
fn size_refused(sized: bool, kind: NodeKind) -> Option<Refusal>
    ensures { option_map refusal_of result ≡ size_refusal sized (kind_of kind) }
{
    if !sized {
        return None;
    }
    match kind {
        NodeKind::Dir => Some(namespace(NFS4ERR_ISDIR)),
        NodeKind::Link => Some(namespace(NFS4ERR_INVAL)),
        NodeKind::File => None,
    }
}

/// Sets what is wanted of a node. Takes no memory.
fn set_wanted<F: Fn(ClientKey) -> bool>(
    site: &Site<'_>,
    tree: &mut Tree,
    opens: &Opens,
    quota: &mut Quota,
    caller: &Caller,
    client: Option<u32>,
    held: &Held,
    id: &StateId,
    wanted: Wanted,
    over: &F,
) -> Result<(), Refusal>
    requires told { F.IsAlwaysCallable over.now }
    requires facts { NodeFacts (site_of site.now).dom tree.old.nodes tree.old.entries
        tree.old.lasts }
    requires counts { AreTotals quota.old tree.old.nodes }
    requires held { IsHeld tree.old (held_in tree.old.nodes (option_map id_of caller.now.current))
        (Ok held.now) }
    requires file { IfSome wanted.size (λ size. kind_of held.now.facts.kind ≡ File) }
    requires listed { IfSome wanted.label (λ given. IsListed given.level.0) }
    ensures acts { (n : Node) (p : Place) (rest : World) (set : bitmap.Bitmap) →
        Leases (F.post over.now) rest caller.now.moment → p.client ≡ client →
        Holds tree.old n held.now →
        let at = placed p caller.now in
        Acts (λ it. set) at rest tree.old tree.new opens.now opens.now
        (wanted_done (site_of site.now) id.now at (with_files rest tree.old opens.now) n
        (wanted_of wanted) set) result }
    ensures counts { AreTotals quota.new tree.new.nodes }
    ensures levels { length quota.new ≡ length quota.old }
{
    let Some(given) = wanted.label else {
        let Wanted { size, mode, .. } = wanted;
        return set_values(
            site, tree, opens, quota, caller, client, held, id, size, mode, over,
        );
    };
    if site.is_limited() {
        respell(site, tree, quota, caller, held, given.spelled)
    } else {
        raise(site, tree, quota, caller, held, given.level)
    }
}

/// Sets attributes of the current file handle, and answers which. `over` tells of clients whether their leases are over.
///
/// Refused in this order: by NFS4ERR_ATTRNOTSUPP, NFS4ERR_INVAL and NFS4ERR_BADXDR of the attributes that are given,
/// NFS4ERR_INVAL of a mode, NFS4ERR_WRONG_LFS and NFS4ERR_BADLABEL of a label, NFS4ERR_INVAL where a label isn't set
/// alone, NFS4ERR_NOFILEHANDLE and NFS4ERR_STALE of the current file handle, NFS4ERR_ISDIR and NFS4ERR_INVAL of a size
/// where it is no file, NFS4ERR_ACCESS by the rules of labels; of a size by those of `check_usable`, NFS4ERR_FBIG and
/// NFS4ERR_DQUOT; and NFS4ERR_NOTEMPTY of a directory's label as long as it holds names.
///
/// # Errors
///
/// `AllocError` where there is no memory. Then nothing has changed.
pub fn set_attr<F: Fn(ClientKey) -> bool>(
    alloc: Global,
    site: &Site<'_>,
    tree: &mut Tree,
    opens: &Opens,
    quota: &mut Quota,
    caller: &Caller,
    client: Option<u32>,
    id: &StateId,
    given: &RawAttrs,
    over: &F,
) -> Result<Result<Bitmap, Refusal>, AllocError>
    requires told { F.IsAlwaysCallable over.now }
    requires facts { NodeFacts (site_of site.now).dom tree.old.nodes tree.old.entries
        tree.old.lasts }
    requires counts { AreTotals quota.old tree.old.nodes }
    ensures acts { IfOk result (λ told. (p : Place) (rest : World) →
        Leases (F.post over.now) rest caller.now.moment → p.client ≡ client →
        let at = placed p caller.now in
        Acts (λ set. set) at rest tree.old tree.new opens.now opens.now
        (operation.set_attr (site_of site.now) id.now given.now at
        (with_files rest tree.old opens.now)) told) }
    ensures counts { AreTotals quota.new tree.new.nodes }
    ensures levels { length quota.new ≡ length quota.old }
    ensures kept { OnErr result (tree.new ≡ tree.old) }
    ensures uncharged { OnErr result (quota.new ≡ quota.old) }
{
    // The call says that a label that is given is one of those that a policy may list.
    law_listed(site);
    let wanted = match read_wanted(alloc, site, given)? {
        Ok(wanted) => wanted,
        Err(why) => return Ok(Err(why)),
    };
    let held = match node_held(tree, caller.current) {
        Ok(held) => held,
        Err(why) => return Ok(Err(why)),
    };
    if let Some(why) = size_refused(wanted.size.is_some(), held.facts.kind) {
        return Ok(Err(why));
    }
    match set_wanted(
        site, tree, opens, quota, caller, client, &held, id, wanted, over,
    ) {
        Ok(()) => Ok(Ok(set_of(given))),
        Err(why) => Ok(Err(why)),
    }
}
