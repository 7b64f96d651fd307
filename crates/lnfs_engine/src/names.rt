//! The operations that make, name, move and take out nodes (RFC 8881 section 18).
ghost use Rattle.std.specs.Prelude.{◌≡◌, ◌<◌, List, Some, IfOk, length};
ghost use Rattle.std.specs.Option.{option_map};
ghost use Rattle.lnfs_world.specs.World.{Node, World};
ghost use Rattle.lnfs_world.specs.Facts.{NodeFacts};
ghost use Rattle.lnfs_results.specs.declared.types.OpResult.TheVariants as results;
ghost use Rattle.lnfs_operations.specs.Create as creating;
ghost use Rattle.lnfs_operations.specs.Link as linking;
ghost use Rattle.lnfs_operations.specs.Remove as removing;
ghost use Rattle.lnfs_operations.specs.Rename as renaming;
ghost use Rattle.lnfs_tree.specs.Rows.{id_of};
ghost use Rattle.lnfs_tree.specs.Changed.{gone_of};
ghost use Rattle.lnfs_quota.specs.declared.quota.Row.{Row};
ghost use Rattle.lnfs_quota.specs.Totals.{AreTotals};
ghost use Rattle.lnfs_nodes.specs.Told.{cinfo_of};
ghost use Rattle.lnfs_nodes.specs.Trees.{with_tree};
ghost use Rattle.lnfs_files.specs.Worlds.{with_files};
ghost use Rattle.lnfs_files.specs.Charges.{MayRise};
ghost use Rattle.lnfs_engine.specs.declared.place.Keeper as code;
ghost use Rattle.lnfs_engine.specs.Places.{place_of, IsOnNames, IsMoved};
ghost use Rattle.lnfs_engine.specs.Replies.{IsPlain};
ghost use Rattle.lnfs_engine.specs.Nodes.{told_as};
ghost use Rattle.lnfs_engine.specs.Performs.{site_in, sent_of, turn, Performs};
ghost use Rattle.lnfs_engine.specs.Names.{Serves, landed};
ghost use Rattle.lnfs_engine.specs.Counts.{IsHeld, TakenFrom, charged};
ghost use Rattle.lnfs_engine.specs.Stores.{opens_past};

use crate::going::take_gone;
use crate::place::{Place, Request, caller_of};
use crate::reply::{Answer, Came, say};
use lnfs_arguments::{Op, What};
use lnfs_attrs::RawAttrs;
use lnfs_files::{law_listed, room_for};
use lnfs_nodes::{Created, cinfo, create, link, remove, rename};
use lnfs_open::Opens;
use lnfs_operations::Refusal;
use lnfs_quota::Quota;
use lnfs_results::OpResult;
use lnfs_tree::{Dropped, Info, Tree};
use lnfs_xdr::XdrWriter;
use std::alloc::AllocError;

/// What LINK tells.
fn tell_link(told: Result<Info, Refusal>) -> Answer
    ensures answer { result ≡ told_as (λ i. results.Link (cinfo_of i)) told }
    ensures plain { IsPlain result }
{
    match told {
        Ok(info) => Ok(OpResult::Link { info: cinfo(info) }),
        Err(why) => Err(why),
    }
}

/// Answers a LINK.
fn on_link(
    request: &Request<'_>,
    tree: &mut Tree,
    place: &Place,
    name: &[u8],
) -> Result<Answer, AllocError>
    requires facts { NodeFacts (site_in request.now).dom tree.old.nodes tree.old.entries
        tree.old.lasts }
    ensures serves { IfOk result (λ answer. (rest : World) →
        Serves results.Link (linking.link (site_in request.now) name.now (place_of place.now)
        (with_tree rest tree.old)) answer (place_of place.now) (with_tree rest tree.old)
        (with_tree rest tree.new)) }
    ensures plain { IfOk result IsPlain }
    ensures counts { (rows : List Row) → AreTotals rows tree.old.nodes →
        AreTotals rows tree.new.nodes }
{
    let caller = caller_of(place);
    let told = link(request.alloc, request.site, tree, &caller, name)?;
    Ok(tell_link(told))
}

/// What REMOVE tells. What goes with the node that went is taken out.
fn take_removed(
    opens: &mut Opens,
    quota: &mut Quota,
    told: Result<(Info, Option<Dropped>), Refusal>,
) -> Answer
    requires held { IfOk told (λ r. IsHeld quota.old (option_map gone_of r.1)) }
    ensures answer { result ≡ told_as (λ r. results.Remove (cinfo_of r.0)) told }
    ensures plain { IsPlain result }
    ensures opens { opens.new ≡ opens_past (λ r. option_map gone_of r.1) told opens.old }
    ensures counts { (before after : List Node) → AreTotals quota.old before →
        TakenFrom (λ r. option_map gone_of r.1) told before after → AreTotals quota.new after }
{
    match told {
        Ok((info, gone)) => {
            take_gone(opens, quota, gone);
            Ok(OpResult::Remove { info: cinfo(info) })
        }
        Err(why) => Err(why),
    }
}

/// Answers a REMOVE.
fn on_remove(
    request: &Request<'_>,
    tree: &mut Tree,
    opens: &mut Opens,
    quota: &mut Quota,
    place: &Place,
    name: &[u8],
) -> Answer
    requires facts { NodeFacts (site_in request.now).dom tree.old.nodes tree.old.entries
        tree.old.lasts }
    requires counts { AreTotals quota.old tree.old.nodes }
    ensures serves { (rest : World) →
        Serves results.Remove (removing.remove (site_in request.now) name.now (place_of place.now)
        (with_files rest tree.old opens.old)) result (place_of place.now)
        (with_files rest tree.old opens.old) (with_files rest tree.new opens.new) }
    ensures plain { IsPlain result }
    ensures counts { AreTotals quota.new tree.new.nodes }
{
    let caller = caller_of(place);
    let told = remove(request.site, tree, &caller, name);
    take_removed(opens, quota, told)
}

/// What RENAME tells. What goes with the node that went is taken out.
fn take_renamed(
    opens: &mut Opens,
    quota: &mut Quota,
    told: Result<(Info, Info, Option<Dropped>), Refusal>,
) -> Answer
    requires held { IfOk told (λ r. IsHeld quota.old (option_map gone_of r.2)) }
    ensures answer { result ≡ told_as (λ r. results.Rename (cinfo_of r.0) (cinfo_of r.1)) told }
    ensures plain { IsPlain result }
    ensures opens { opens.new ≡ opens_past (λ r. option_map gone_of r.2) told opens.old }
    ensures counts { (before after : List Node) → AreTotals quota.old before →
        TakenFrom (λ r. option_map gone_of r.2) told before after → AreTotals quota.new after }
{
    match told {
        Ok((from, to, gone)) => {
            take_gone(opens, quota, gone);
            Ok(OpResult::Rename {
                source: cinfo(from),
                target: cinfo(to),
            })
        }
        Err(why) => Err(why),
    }
}

/// Answers a RENAME.
fn on_rename(
    request: &Request<'_>,
    tree: &mut Tree,
    opens: &mut Opens,
    quota: &mut Quota,
    place: &Place,
    old: &[u8],
    new: &[u8],
) -> Result<Answer, AllocError>
    requires facts { NodeFacts (site_in request.now).dom tree.old.nodes tree.old.entries
        tree.old.lasts }
    requires counts { AreTotals quota.old tree.old.nodes }
    ensures serves { IfOk result (λ answer. (rest : World) →
        Serves (λ r. results.Rename r.source r.target)
        (renaming.rename (site_in request.now) old.now new.now (place_of place.now)
        (with_files rest tree.old opens.old)) answer (place_of place.now)
        (with_files rest tree.old opens.old) (with_files rest tree.new opens.new)) }
    ensures plain { IfOk result IsPlain }
    ensures counts { AreTotals quota.new tree.new.nodes }
{
    let caller = caller_of(place);
    let told = rename(request.alloc, request.site, tree, &caller, old, new)?;
    Ok(take_renamed(opens, quota, told))
}

/// What CREATE tells. The new node is added to the total of the subject's level, and becomes the current file handle.
fn take_made(quota: &mut Quota, place: &mut Place, told: Result<Created, Refusal>) -> Answer
    requires known { IfOk told (λ c. place.old.subject.0 < length quota.old) }
    requires rises { IfOk told (λ c. MayRise quota.old place.old.subject.0) }
    ensures answer { result ≡ told_as (λ c. results.Create (cinfo_of c.info) c.set) told }
    ensures plain { IsPlain result }
    ensures place { place_of place.new ≡ landed (λ c.
        record (place_of place.old) { current = Some (id_of c.node) }) (place_of place.old) told }
    ensures quota { quota.new ≡ charged quota.old place.old.subject.0 told }
{
    match told {
        Ok(Created { node, info, set }) => {
            quota.charge_node(place.subject);
            place.current = Some(node);
            let info = cinfo(info);
            Ok(OpResult::Create { info, set })
        }
        Err(why) => Err(why),
    }
}

/// Answers a CREATE.
fn on_create(
    request: &Request<'_>,
    tree: &mut Tree,
    quota: &mut Quota,
    place: &mut Place,
    what: &What,
    name: &[u8],
    given: &RawAttrs,
) -> Result<Answer, AllocError>
    requires facts { NodeFacts (site_in request.now).dom tree.old.nodes tree.old.entries
        tree.old.lasts }
    requires counts { AreTotals quota.old tree.old.nodes }
    ensures serves { IfOk result (λ answer. (rest : World) →
        Serves (λ made. results.Create made.info made.set)
        (creating.create (site_in request.now) what.now name.now given.now (place_of place.old)
        (with_tree rest tree.old)) answer (place_of place.new) (with_tree rest tree.old)
        (with_tree rest tree.new)) }
    ensures plain { IfOk result IsPlain }
    ensures moved { IfOk result (λ answer. IsMoved (place_of place.old) (place_of place.new)) }
    ensures counts { AreTotals quota.new tree.new.nodes }
{
    let caller = caller_of(place);
    // The call says that a label that is given is one of those that a policy may list.
    law_listed(request.site);
    let room = room_for(request.site, quota, place.subject);
    let told = create(
        request.alloc,
        request.site,
        tree,
        &caller,
        room,
        what,
        name,
        given,
    )?;
    Ok(take_made(quota, place, told))
}

/// Serves an operation that makes, names, moves or takes out, and appends its result.
pub fn on_names(
    request: &Request<'_>,
    tree: &mut Tree,
    opens: &mut Opens,
    quota: &mut Quota,
    place: &mut Place,
    op: &Op<'_>,
    out: &mut XdrWriter,
) -> Result<Came, AllocError>
    requires own { IsOnNames op.now }
    requires facts { NodeFacts (site_in request.now).dom tree.old.nodes tree.old.entries
        tree.old.lasts }
    requires counts { AreTotals quota.old tree.old.nodes }
    ensures performs { IfOk result (λ came. (keeper : code.Keeper) (rest : World) →
        Performs request.now.begin out.old out.new keeper keeper (place_of place.new)
        (with_files rest tree.new opens.new) (turn (site_in request.now) (sent_of request.now)
        op.now (place_of place.old) (with_files rest tree.old opens.old)) came) }
    ensures moved { IfOk result (λ came. IsMoved (place_of place.old) (place_of place.new)) }
    ensures counts { AreTotals quota.new tree.new.nodes }
{
    match op {
        Op::Create { what, name, attrs } => {
            let name = name.as_slice();
            let answer = on_create(request, tree, quota, place, what, name, attrs)?;
            say(out, op, answer)
        }
        Op::Link { name } => {
            let answer = on_link(request, tree, place, name.as_slice())?;
            say(out, op, answer)
        }
        Op::Remove { name } => {
            let answer = on_remove(request, tree, opens, quota, place, name.as_slice());
            say(out, op, answer)
        }
        Op::Rename { old, new } => {
            let (old, new) = (old.as_slice(), new.as_slice());
            let answer = on_rename(request, tree, opens, quota, place, old, new)?;
            say(out, op, answer)
        }
        _ => unreachable!(),
    }
}
