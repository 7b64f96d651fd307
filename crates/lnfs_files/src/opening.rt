//! OPEN (RFC 8881 section 18.16).
ghost use Rattle.std.specs.Prelude.{◌≡◌, true, Some, Ok, IfOk, IfSome, OnErr};
ghost use Rattle.std.specs.Option.{option_map};
ghost use Rattle.std.specs.List.{AllByRecursion};
ghost use Rattle.lnfs_world.specs.World.{Node, World, label_at, is_directory};
ghost use Rattle.lnfs_world.specs.Facts.{NodeFacts, is_good_open};
ghost use Rattle.lnfs_world.specs.Outcome.{Place};
ghost use Rattle.lnfs_site.specs.Site.{site_of};
ghost use Rattle.lnfs_arguments.specs.declared.types.Claim.TheVariants.{Handle};
ghost use Rattle.lnfs_operations.specs.Open as operation;
ghost use Rattle.lnfs_tree.specs.Rows.{id_of, kind_of};
ghost use Rattle.lnfs_open.specs.Lists.{Lists};
ghost use Rattle.lnfs_nodes.specs.Trees.{Holds, held_in, IsHeld};
ghost use Rattle.lnfs_nodes.specs.Acts.{placed};
ghost use Rattle.lnfs_quota.specs.Totals.{AreTotals};
ghost use Rattle.lnfs_files.specs.Worlds.{with_files};
ghost use Rattle.lnfs_files.specs.Leases.{Leases};
ghost use Rattle.lnfs_files.specs.Acts.{ActsTo};
ghost use Rattle.lnfs_files.specs.Charges.{IsListed};
ghost use Rattle.lnfs_files.specs.Openings.{args_of, wanted_of, opened_of, where_readable, Leads, Finds, IsOrMade};

use crate::absent::open_absent;
use crate::asked::{Opening, check_claim, check_words};
use crate::opened::{Opened, no_change, unchanged};
use crate::present::{Opener, open_present};
use crate::wanted::{Wanted, read_wanted};
use lnfs_arguments::Claim;
use lnfs_arguments::statuses::{NFS4ERR_NOENT, NFS4ERR_OP_NOT_IN_SESSION};
use lnfs_monitor::Question;
use lnfs_nodes::{Caller, Held, check_allowed, check_directory, namespace, node_held};
use lnfs_open::{ClientKey, Opens};
use lnfs_operations::{Gate, Refusal};
use lnfs_quota::Quota;
use lnfs_site::Site;
use lnfs_tree::Tree;
use std::alloc::{AllocError, Global};

/// The current directory, which the subject may look into.
///
/// # Errors
///
/// In this order: NFS4ERR_NOFILEHANDLE and NFS4ERR_STALE of the current file handle, NFS4ERR_NOTDIR where it is no
/// directory, and NFS4ERR_ACCESS where the subject may not read it.
fn readable_directory(site: &Site<'_>, tree: &Tree, caller: &Caller) -> Result<Held, Refusal>
    ensures leads { (p : Place) (rest : World) (s : Lists) →
        let at = placed p caller.now in
        Leads at (λ next. where_readable (site_of site.now) at (with_files rest tree.now s) next)
        tree.now result }
    ensures held { IfOk result (λ dir. IsHeld tree.now
        (held_in tree.now.nodes (option_map id_of caller.now.current)) (Ok dir)) }
    ensures kind { IfOk result (λ dir. is_directory (kind_of dir.facts.kind) ≡ true) }
{
    let dir = node_held(tree, caller.current)?;
    check_directory(&dir)?;
    let label = dir.facts.label;
    check_allowed(site, caller.subject, &Question::Read { label })?;
    Ok(dir)
}

/// The node of a name in a directory, if it has the name.
///
/// # Errors
///
/// NFS4ERR_NOENT where it has the name and the node isn't there, which no world comes to.
fn find_name(tree: &Tree, dir: &Held, name: &[u8]) -> Result<Option<Held>, Refusal>
    ensures { (p : Place) (d : Node) → Holds tree.now d dir.now → is_directory d.kind ≡ true →
        Finds p tree.now d name.now result }
{
    let Ok(id) = tree.lookup(dir.id, name) else {
        return Ok(None);
    };
    match tree.node(id) {
        Some(facts) => Ok(Some(Held { id, facts })),
        None => Err(namespace(NFS4ERR_NOENT)),
    }
}

/// Opens a name in the current directory.
///
/// # Errors
///
/// `AllocError` where there is no memory. Then nothing is open that wasn't, and a file may have been made.
fn open_name<F: Fn(ClientKey) -> bool>(
    opener: &Opener<'_>,
    tree: &mut Tree,
    opens: &mut Opens,
    quota: &mut Quota,
    wanted: Wanted,
    name: &[u8],
    over: &F,
) -> Result<Result<Opened, Refusal>, AllocError>
    requires told { F.IsAlwaysCallable over.now }
    requires level { opener.now.client.level ≡ opener.now.caller.now.subject }
    requires facts { NodeFacts (site_of opener.now.site.now).dom tree.old.nodes tree.old.entries
        tree.old.lasts }
    requires opens { AllByRecursion (λ o. is_good_open (site_of opener.now.site.now).dom
        (label_at tree.old.nodes) o ≡ true) opens.old.opens }
    requires counts { AreTotals quota.old tree.old.nodes }
    requires listed { IfSome wanted.label (λ given. IsListed given.level.0) }
    ensures acts { IfOk result (λ told. (p : Place) (rest : World) →
        Leases (F.post over.now) rest opener.now.caller.now.moment →
        let at = placed p opener.now.caller.now in
        ActsTo opened_of (λ o. record at { current = Some (id_of o.node) }) at rest tree.old
        tree.new opens.old opens.new
        (operation.open_name (site_of opener.now.site.now) (args_of opener.now.args.now) at
        (with_files rest tree.old opens.old) opener.now.client.number (wanted_of wanted)
        name.now) told) }
    ensures tree { OnErr result (IsOrMade tree.old tree.new) }
    ensures opens { OnErr result (opens.new ≡ opens.old) }
    ensures counts { AreTotals quota.new tree.new.nodes }
{
    let dir = match readable_directory(opener.site, tree, opener.caller) {
        Ok(dir) => dir,
        Err(why) => return Ok(Err(why)),
    };
    let found = match find_name(tree, &dir, name) {
        Ok(found) => found,
        Err(why) => return Ok(Err(why)),
    };
    match found {
        Some(held) => {
            let info = unchanged(&dir);
            open_present(opener, tree, opens, quota, &wanted, info, &held, over)
        }
        None => open_absent(opener, tree, opens, quota, wanted, &dir, name),
    }
}

/// Opens the current file.
///
/// # Errors
///
/// `AllocError` where there is no memory. Then nothing has changed.
fn open_handle<F: Fn(ClientKey) -> bool>(
    opener: &Opener<'_>,
    tree: &mut Tree,
    opens: &mut Opens,
    quota: &mut Quota,
    wanted: &Wanted,
    over: &F,
) -> Result<Result<Opened, Refusal>, AllocError>
    requires told { F.IsAlwaysCallable over.now }
    requires level { opener.now.client.level ≡ opener.now.caller.now.subject }
    requires counts { AreTotals quota.old tree.old.nodes }
    ensures acts { IfOk result (λ told. (p : Place) (rest : World) →
        Leases (F.post over.now) rest opener.now.caller.now.moment →
        let at = placed p opener.now.caller.now in
        ActsTo opened_of (λ o. record at { current = Some (id_of o.node) }) at rest tree.old
        tree.new opens.old opens.new
        (operation.open_claimed (site_of opener.now.site.now) (args_of opener.now.args.now) at
        (with_files rest tree.old opens.old) opener.now.client.number (wanted_of wanted.now)
        Handle) told) }
    ensures tree { OnErr result (tree.new ≡ tree.old) }
    ensures opens { OnErr result (opens.new ≡ opens.old) }
    ensures counts { AreTotals quota.new tree.new.nodes }
{
    let held = match node_held(tree, opener.caller.current) {
        Ok(held) => held,
        Err(why) => return Ok(Err(why)),
    };
    open_present(opener, tree, opens, quota, wanted, no_change(), &held, over)
}

/// Opens what is claimed.
///
/// # Errors
///
/// `AllocError` where there is no memory. Then nothing is open that wasn't, and a file may have been made.
fn open_claimed<F: Fn(ClientKey) -> bool>(
    opener: &Opener<'_>,
    tree: &mut Tree,
    opens: &mut Opens,
    quota: &mut Quota,
    wanted: Wanted,
    over: &F,
) -> Result<Result<Opened, Refusal>, AllocError>
    requires told { F.IsAlwaysCallable over.now }
    requires level { opener.now.client.level ≡ opener.now.caller.now.subject }
    requires facts { NodeFacts (site_of opener.now.site.now).dom tree.old.nodes tree.old.entries
        tree.old.lasts }
    requires opens { AllByRecursion (λ o. is_good_open (site_of opener.now.site.now).dom
        (label_at tree.old.nodes) o ≡ true) opens.old.opens }
    requires counts { AreTotals quota.old tree.old.nodes }
    requires listed { IfSome wanted.label (λ given. IsListed given.level.0) }
    ensures acts { IfOk result (λ told. (p : Place) (rest : World) →
        Leases (F.post over.now) rest opener.now.caller.now.moment →
        let at = placed p opener.now.caller.now in
        ActsTo opened_of (λ o. record at { current = Some (id_of o.node) }) at rest tree.old
        tree.new opens.old opens.new
        (operation.open_claimed (site_of opener.now.site.now) (args_of opener.now.args.now) at
        (with_files rest tree.old opens.old) opener.now.client.number (wanted_of wanted)
        opener.now.args.now.claim.now) told) }
    ensures tree { OnErr result (IsOrMade tree.old tree.new) }
    ensures opens { OnErr result (opens.new ≡ opens.old) }
    ensures counts { AreTotals quota.new tree.new.nodes }
{
    match opener.args.claim {
        Claim::Name { name } => open_name(
            opener,
            tree,
            opens,
            quota,
            wanted,
            name.as_slice(),
            over,
        ),
        Claim::Handle => open_handle(opener, tree, opens, quota, &wanted, over),
    }
}

/// Opens a file under a client of the subject's level, and makes it before where it isn't there and is to be made.
/// Answers the state id of the open, which is one that the client and the owner had of the file already, or a new one.
/// `over` tells of clients whether their leases are over: opens of such clients stand in nobody's way, and those of the
/// subject's level that would have end (RFC 8881 section 8.4.3).
///
/// Refused in this order: by NFS4ERR_OP_NOT_IN_SESSION where the operation came under no client; by NFS4ERR_INVAL of the
/// arguments, as `check_words` does; as the name is; by NFS4ERR_ATTRNOTSUPP, NFS4ERR_INVAL and NFS4ERR_BADXDR of the
/// attributes, NFS4ERR_INVAL of a size above 0 and of a mode, NFS4ERR_WRONG_LFS and NFS4ERR_BADLABEL of a label;
/// NFS4ERR_NOFILEHANDLE and NFS4ERR_STALE of the current file handle. Then of a name by NFS4ERR_NOTDIR where the current
/// file handle is no directory, and NFS4ERR_ACCESS where the subject may not read it. A file that is there is refused as
/// `check_openable` does, and one that is to be made as `check_makable` does, or by NFS4ERR_NOENT where none is. Last
/// comes NFS4ERR_NOSPC where there is no room for the node or the open.
///
/// # Errors
///
/// `AllocError` where there is no memory. Then nothing is open that wasn't, and a file may have been made.
pub fn open<F: Fn(ClientKey) -> bool>(
    alloc: Global,
    site: &Site<'_>,
    tree: &mut Tree,
    opens: &mut Opens,
    quota: &mut Quota,
    caller: &Caller,
    client: Option<u32>,
    args: &Opening<'_>,
    over: &F,
) -> Result<Result<Opened, Refusal>, AllocError>
    requires told { F.IsAlwaysCallable over.now }
    requires facts { NodeFacts (site_of site.now).dom tree.old.nodes tree.old.entries
        tree.old.lasts }
    requires opens { AllByRecursion (λ o. is_good_open (site_of site.now).dom
        (label_at tree.old.nodes) o ≡ true) opens.old.opens }
    requires counts { AreTotals quota.old tree.old.nodes }
    ensures acts { IfOk result (λ told. (p : Place) (rest : World) →
        Leases (F.post over.now) rest caller.now.moment → p.client ≡ client →
        let at = placed p caller.now in
        ActsTo opened_of (λ o. record at { current = Some (id_of o.node) }) at rest tree.old
        tree.new opens.old opens.new
        (operation.open_file (site_of site.now) (args_of args.now) at
        (with_files rest tree.old opens.old)) told) }
    ensures tree { OnErr result (IsOrMade tree.old tree.new) }
    ensures opens { OnErr result (opens.new ≡ opens.old) }
    ensures counts { AreTotals quota.new tree.new.nodes }
{
    let Some(number) = client else {
        return Ok(Err(Refusal {
            gate: Gate::Session,
            status: NFS4ERR_OP_NOT_IN_SESSION,
        }));
    };
    if let Err(why) = check_words(args) {
        return Ok(Err(why));
    }
    if let Err(why) = check_claim(args.claim) {
        return Ok(Err(why));
    }
    let wanted = match read_wanted(alloc, site, args.making)? {
        Ok(wanted) => wanted,
        Err(why) => return Ok(Err(why)),
    };
    let opener = Opener {
        alloc,
        site,
        caller,
        client: ClientKey {
            level: caller.subject,
            number,
        },
        args,
    };
    open_claimed(&opener, tree, opens, quota, wanted, over)
}
