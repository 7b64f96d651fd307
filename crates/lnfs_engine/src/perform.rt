//! One operation in its COMPOUND.
ghost use Rattle.std.specs.Prelude.{◌≡◌, ◌-◌, true, List, length, IfOk};
ghost use Rattle.std.specs.List.{AllByRecursion};
ghost use Rattle.lnfs_arguments.specs.declared.types.Op.TheVariants as ops;
ghost use Rattle.lnfs_results.specs.declared.types.OpResult.{OpResult};
ghost use Rattle.lnfs_results.specs.declared.types.OpResult.TheVariants as results;
ghost use Rattle.lnfs_world.specs.World.{World, label_at};
ghost use Rattle.lnfs_world.specs.Facts.{NodeFacts, is_good_open};
ghost use Rattle.lnfs_world.specs.Outcome.{Site};
ghost use Rattle.lnfs_world.specs.Both.{both, BothStand};
ghost use Rattle.lnfs_operations.specs.Sequence.{Sent};
ghost use Rattle.lnfs_operations.specs.Admission.{used};
ghost use Rattle.lnfs_operations.specs.Served.{Nowhere, row, operation};
ghost use Rattle.lnfs_session.specs.Standing.{standing};
ghost use Rattle.lnfs_engine.specs.Behind.{OpensBehind};
ghost use Rattle.lnfs_engine.specs.Places.{place_of, Stands, Starts, HasToBeFirst, IsOnClients};
ghost use Rattle.lnfs_engine.specs.Nodes.{told_as};
ghost use Rattle.lnfs_engine.specs.Replies.{Acts, own_of};
ghost use Rattle.lnfs_engine.specs.Performs.{site_in, sent_of, turn, Performs};

use crate::admission::admission;
use crate::clients::{destroy_clientid, exchange_id, reclaim_complete};
use crate::extra::Extra;
use crate::files::on_files;
use crate::further::{further, further_in};
use crate::names::on_names;
use crate::nodes::on_nodes;
use crate::place::{Keeper, Place, Request};
use crate::reply::{Came, say, say_bare, say_told};
use crate::sessions::{create_session, destroy_session, sequence};
use crate::store::Store;
use lnfs_arguments::Op;
use lnfs_arguments::statuses::{NFS4ERR_NOTSUPP, NFS4ERR_OP_NOT_IN_SESSION};
use lnfs_operations::{Gate, Refusal};
use lnfs_session::{ClientRef, Clients};
use lnfs_xdr::XdrWriter;
use std::alloc::AllocError;

/// Serves a RECLAIM_COMPLETE, which has to stand in a session.
fn reclaim_in(
    clients: &mut Clients,
    place: &Place,
    one_fs: bool,
) -> Result<Result<(), Refusal>, AllocError>
    ensures acts { IfOk result (λ answer. (site : Site) (sent : Sent) (rest : World) →
        let op = ops.ReclaimComplete one_fs in
        Acts (row site sent op (place_of place.now) (standing rest clients.old))
        (own_of op Nowhere (told_as (λ it. results.ReclaimComplete) answer))
        (place_of place.now) (standing rest clients.old) (standing rest clients.new)) }
    ensures sessions { IfOk result (λ answer. clients.new.sessions ≡ clients.old.sessions) }
{
    let Some(number) = place.client else {
        return Ok(Err(Refusal {
            gate: Gate::Session,
            status: NFS4ERR_OP_NOT_IN_SESSION,
        }));
    };
    let level = place.subject.0;
    reclaim_complete(clients, ClientRef { level, number }, one_fs)
}

/// Serves an operation on clients and sessions, or one that is refused by its number, and appends its result.
fn on_clients(
    request: &Request<'_>,
    store: &mut Store,
    place: &Place,
    keeper: &mut Keeper,
    op: &Op<'_>,
    out: &mut XdrWriter,
) -> Result<Came, AllocError>
    requires own { IsOnClients op.now }
    requires first { HasToBeFirst op.now → Starts (place_of place.now) keeper.old }
    requires opens { OpensBehind store.old.clients store.old.opens }
    requires stands { Stands (place_of place.now) store.old.sessions keeper.old }
    ensures performs { IfOk result (λ came.
        Performs request.now.begin out.old out.new keeper.old keeper.new (place_of place.now)
        store.new (turn (site_in request.now) (sent_of request.now) op.now (place_of place.now)
        store.old) came) }
    ensures stands { IfOk result (λ came. Stands (place_of place.now) store.new.sessions
        keeper.new) }
{
    let level = place.subject.0;
    match op {
        Op::ExchangeId {
            verifier,
            owner,
            flags,
            ..
        } => {
            let clients = &mut store.clients;
            let answer = exchange_id(clients, level, *verifier, owner.as_slice(), *flags)?;
            say_told(out, op, level, answer)
        }
        Op::CreateSession(args) => {
            let (clients, opens) = (&mut store.clients, &mut store.opens);
            create_session(clients, opens, request, args, op, place, keeper, out)
        }
        Op::DestroySession { session } => {
            let ended = destroy_session(&mut store.clients, level, *session)?;
            say_bare(out, op, ended)
        }
        Op::DestroyClientId { client } => {
            let ended = destroy_clientid(&mut store.clients, &store.opens, level, *client)?;
            say_bare(out, op, ended)
        }
        Op::ReclaimComplete { one_fs } => {
            let ended = reclaim_in(&mut store.clients, place, *one_fs)?;
            say_bare(out, op, ended)
        }
        Op::Outside { status, .. } => {
            let gate = Gate::Outside;
            let status = *status;
            say(out, op, Err(Refusal { gate, status }))
        }
        // One that no further operation serves.
        Op::Extra { .. } => {
            let gate = Gate::Outside;
            let status = NFS4ERR_NOTSUPP;
            say(out, op, Err(Refusal { gate, status }))
        }
        _ => unreachable!(),
    }
}

/// Serves an operation of the table whose place was tested, and appends its result.
fn serve(
    request: &Request<'_>,
    store: &mut Store,
    place: &mut Place,
    keeper: &mut Keeper,
    op: &Op<'_>,
    out: &mut XdrWriter,
) -> Result<Came, AllocError>
    requires first { HasToBeFirst op.now → Starts (place_of place.old) keeper.old }
    requires facts { NodeFacts (site_in request.now).dom store.old.nodes store.old.entries
        store.old.lasts.nodes }
    requires opens { OpensBehind store.old.clients store.old.opens }
    requires nodes { AllByRecursion (λ o. is_good_open (site_in request.now).dom
        (label_at store.old.nodes) o ≡ true) store.old.opens }
    requires stands { Stands (place_of place.old) store.old.sessions keeper.old }
    ensures performs { IfOk result (λ came.
        Performs request.now.begin out.old out.new keeper.old keeper.new (place_of place.new)
        store.new (turn (site_in request.now) (sent_of request.now) op.now (place_of place.old)
        store.old) came) }
    ensures stands { IfOk result (λ came. Stands (place_of place.new) store.new.sessions
        keeper.new) }
{
    match op {
        Op::Sequence(args) => sequence(&mut store.clients, request, args, op, place, keeper, out),
        Op::ExchangeId { .. }
        | Op::CreateSession(_)
        | Op::DestroySession { .. }
        | Op::DestroyClientId { .. }
        | Op::ReclaimComplete { .. }
        | Op::Outside { .. }
        | Op::Extra { .. } => on_clients(request, store, place, keeper, op, out),
        Op::Create { .. } | Op::Link { .. } | Op::Remove { .. } | Op::Rename { .. } => {
            let (tree, opens, quota) = (&mut store.tree, &mut store.opens, &mut store.quota);
            on_names(request, tree, opens, quota, place, op, out)
        }
        Op::Open { .. }
        | Op::Close { .. }
        | Op::Read { .. }
        | Op::Write { .. }
        | Op::Commit { .. }
        | Op::SetAttr { .. } => {
            let clients = &store.clients;
            let (tree, opens, quota) = (&mut store.tree, &mut store.opens, &mut store.quota);
            on_files(request, clients, tree, opens, quota, place, op, out)
        }
        _ => on_nodes(request, &mut store.tree, &store.quota, place, op, out),
    }
}

/// Runs an operation behind so many others, and appends its result.
pub fn perform<X: Extra>(
    request: &Request<'_>,
    store: &mut Store,
    extra: &mut X,
    place: &mut Place,
    keeper: &mut Keeper,
    done: usize,
    op: &Op<'_>,
    out: &mut XdrWriter,
) -> Result<Came, AllocError>
    requires first { done ≡ 0 → Starts (place_of place.old) keeper.old }
    requires stands { Stands (place_of place.old) store.old.sessions keeper.old }
    requires facts { BothStand X.extra.Fact (site_in request.now).dom (place_of place.old)
        (both store.old (X.rows extra.old)) }
    ensures performs { IfOk result (λ came. (so_far : List OpResult) → length so_far ≡ done →
        used request.now.compound.now so_far ≡ length out.old - request.now.begin →
        Performs request.now.begin out.old out.new keeper.old keeper.new (place_of place.new)
        (both store.new (X.rows extra.new))
        (operation X.extra (site_in request.now) (sent_of request.now) request.now.compound.now
        so_far op.now (place_of place.old) (both store.old (X.rows extra.old))) came) }
    ensures stands { IfOk result (λ came. Stands (place_of place.new) store.new.sessions
        keeper.new) }
{
    let written = out.mark().saturating_sub(request.begin);
    if let Some(why) = admission(request.compound, extra, keeper, done, written, op) {
        return say(out, op, Err(why));
    }
    match further_in(op, extra) {
        Some(asked) => further(request, store, extra, place, &asked, out),
        None => serve(request, store, place, keeper, op, out),
    }
}
