//! What an OPEN may share and deny (RFC 8881 sections 9.7 and 18.16).
ghost use Rattle.std.specs.Prelude.{◌≡◌, cond, None, OnOk};
ghost use Rattle.lnfs_world.specs.World.{File, Node, World};
ghost use Rattle.lnfs_world.specs.Outcome.{Place, Outcome};
ghost use Rattle.lnfs_site.specs.Site.{site_of};
ghost use Rattle.lnfs_monitor.specs.Questions.{asked};
ghost use Rattle.lnfs_operations.specs.Chain.{Answer};
ghost use Rattle.lnfs_operations.specs.Open as operation;
ghost use Rattle.lnfs_tree.specs.Rows.{Rows, id_of, kind_of};
ghost use Rattle.lnfs_nodes.specs.Trees.{denial, Holds};
ghost use Rattle.lnfs_nodes.specs.Acts.{failed, placed, checked};
ghost use Rattle.lnfs_files.specs.Worlds.{with_files};
ghost use Rattle.lnfs_files.specs.Leases.{Leases};
ghost use Rattle.lnfs_files.specs.Openings.{args_of, where_openable, where_makable};

use crate::asked::Opening;
use crate::files::check_file;
use crate::references::node_key;
use lnfs_arguments::Making;
use lnfs_arguments::statuses::{NFS4ERR_EXIST, NFS4ERR_SHARE_DENIED};
use lnfs_calipso::Level;
use lnfs_monitor::Question;
use lnfs_nodes::{Caller, Held, check_allowed, namespace};
use lnfs_open::{ClientKey, Opens};
use lnfs_operations::numbers::{OPEN4_SHARE_ACCESS_READ, OPEN4_SHARE_ACCESS_WRITE};
use lnfs_operations::{Gate, Refusal};
use lnfs_site::Site;
use lnfs_tree::NodeId;

/// What the rules of labels refuse of a question that comes up in some cases alone.
fn check_asked(
    site: &Site<'_>,
    subject: Level,
    comes_up: bool,
    question: &Question<'_>,
) -> Result<(), Refusal>
    ensures { failed result
        ≡ cond comes_up (denial (site_of site.now) subject.0 (asked question.now)) None }
{
    if comes_up {
        check_allowed(site, subject, question)
    } else {
        Ok(())
    }
}

/// What the rules of labels refuse of what an open is for, and of what it denies.
///
/// # Errors
///
/// NFS4ERR_ACCESS.
fn check_shared(
    site: &Site<'_>,
    subject: Level,
    args: &Opening<'_>,
    label: Level,
) -> Result<(), Refusal>
    ensures { (p : Place) (next : Outcome (Answer operation.Opened)) →
        let at = record p { subject = subject.0 } in
        operation.where_shared (site_of site.now) at (args_of args.now) label.0 next
        ≡ checked at result (λ it. next) }
{
    let share = args.share();
    let reads = share & OPEN4_SHARE_ACCESS_READ != 0;
    check_asked(site, subject, reads, &Question::Read { label })?;
    let writes = share & OPEN4_SHARE_ACCESS_WRITE != 0;
    check_asked(site, subject, writes, &Question::Write { label })?;
    check_asked(site, subject, args.deny != 0, &Question::Deny { label })
}

/// Whether a file was made by an exclusive create with a verifier.
fn has_verifier(verifier: &[u8; 8], kept: Option<[u8; 8]>) -> bool
    ensures { result ≡ operation.has_verifier verifier.now kept }
{
    match kept {
        Some(kept) => kept.as_slice() == verifier.as_slice(),
        None => false,
    }
}

/// Whether a file may be there: a guarded create finds none, and an exclusive one that which it made itself.
fn may_be_there(making: &Option<Making>, held: &Held) -> bool
    ensures { (n : Node) → held.now.facts.verifier ≡ n.verifier →
        result ≡ operation.may_be_there making.now n }
{
    match making {
        None | Some(Making::Unchecked { .. }) => true,
        Some(Making::Guarded { .. }) => false,
        Some(Making::Exclusive { verifier, .. }) => has_verifier(verifier, held.facts.verifier),
    }
}

/// Whether another's open of a file denies what is asked, or is for what is to be denied. Opens of levels that the
/// subject doesn't dominate stand in nobody's way, and those of clients whose leases are over neither.
fn has_conflict<F: Fn(ClientKey) -> bool>(
    site: &Site<'_>,
    opens: &Opens,
    caller: &Caller,
    client: ClientKey,
    args: &Opening<'_>,
    node: NodeId,
    over: &F,
) -> bool
    requires { F.IsAlwaysCallable over.now }
    ensures { (p : Place) (rest : World) (t : Rows) (n : Node) →
        Leases (F.post over.now) rest caller.now.moment → client.level ≡ caller.now.subject → id_of node ≡ n.id →
        result ≡ operation.conflicts (site_of site.now) (args_of args.now) (placed p caller.now)
        (with_files rest t opens.now) client.number n }
{
    opens.conflicts(
        site.policy().lattice(),
        caller.subject,
        Some((client, args.owner)),
        node_key(node),
        args.share(),
        args.deny,
        over,
    )
}

/// What refuses the opening of a node that is there. `sized` tells whether it is to be cut, and `over` of clients whether
/// their leases are over.
///
/// # Errors
///
/// In this order: NFS4ERR_ISDIR and NFS4ERR_SYMLINK where it is no file, NFS4ERR_EXIST where it may not be there,
/// NFS4ERR_ACCESS by the rules of labels, and NFS4ERR_SHARE_DENIED where another's open stands in the way.
pub fn check_openable<F: Fn(ClientKey) -> bool>(
    site: &Site<'_>,
    opens: &Opens,
    caller: &Caller,
    client: ClientKey,
    args: &Opening<'_>,
    sized: bool,
    held: &Held,
    over: &F,
) -> Result<(), Refusal>
    requires told { F.IsAlwaysCallable over.now }
    requires level { client.level ≡ caller.now.subject }
    ensures file { OnOk result (kind_of held.now.facts.kind ≡ File) }
    ensures checked { (p : Place) (rest : World) (t : Rows) (n : Node)
        (next : Outcome (Answer operation.Opened)) →
        Leases (F.post over.now) rest caller.now.moment → Holds t n held.now →
        let at = placed p caller.now in
        where_openable (site_of site.now) (args_of args.now) at (with_files rest t opens.now)
        client.number sized n next ≡ checked at result (λ it. next) }
{
    check_file(held)?;
    if !may_be_there(args.making, held) {
        return Err(namespace(NFS4ERR_EXIST));
    }
    let label = held.facts.label;
    check_shared(site, caller.subject, args, label)?;
    check_asked(site, caller.subject, sized, &Question::Write { label })?;
    if has_conflict(site, opens, caller, client, args, held.id, over) {
        return Err(Refusal {
            gate: Gate::Open,
            status: NFS4ERR_SHARE_DENIED,
        });
    }
    Ok(())
}

/// What refuses a new file of a label in a directory.
///
/// # Errors
///
/// NFS4ERR_ACCESS where the subject may not change the names of the directory, where no file of the label may stand in
/// it, and by the rules of labels for the open.
pub fn check_makable(
    site: &Site<'_>,
    subject: Level,
    args: &Opening<'_>,
    dir: &Held,
    label: Level,
) -> Result<(), Refusal>
    ensures { (p : Place) (t : Rows) (d : Node) (next : Outcome (Answer operation.Opened)) →
        Holds t d dir.now →
        let at = record p { subject = subject.0 } in
        where_makable (site_of site.now) (args_of args.now) at d label.0 next
        ≡ checked at result (λ it. next) }
{
    let home = dir.facts.label;
    check_allowed(site, subject, &Question::Change { dir: home })?;
    let question = Question::Child {
        dir: home,
        child: label,
    };
    check_allowed(site, subject, &question)?;
    check_shared(site, subject, args, label)
}
