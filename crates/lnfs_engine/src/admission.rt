//! Whether an operation may run where it stands in its COMPOUND (RFC 8881 section 2.10.6).
ghost use Rattle.std.specs.Prelude.{◌≡◌, ℕ, List, length, None};
ghost use Rattle.std.specs.Option.{option_map};
ghost use Rattle.lnfs_results.specs.declared.types.OpResult.{OpResult};
ghost use Rattle.lnfs_world.specs.World.{World};
ghost use Rattle.lnfs_world.specs.Outcome as world;
ghost use Rattle.lnfs_operations.specs.Admission.{unless, place_refusal, room_refusal, admission, used};
ghost use Rattle.lnfs_operations.specs.declared.Gate.TheVariants as gates;
ghost use Rattle.lnfs_engine.specs.Places.{Stands, HasToBeFirst};
ghost use Rattle.lnfs_nodes.specs.Trees.{refusal_of};

use crate::place::Keeper;
use lnfs_arguments::statuses::{
    NFS4ERR_NOT_ONLY_OP, NFS4ERR_OP_NOT_IN_SESSION, NFS4ERR_REP_TOO_BIG, NFS4ERR_SEQUENCE_POS,
};
use lnfs_arguments::{Compound, ExtraGrammar, Op};
use lnfs_operations::numbers::RESERVED_ROOM;
use lnfs_operations::{Gate, Refusal};
use lnfs_results::reply_bound;

/// A refusal by the rules of sessions, where a test fails.
fn unless(test: bool, status: u32) -> Option<Refusal>
    ensures { option_map refusal_of result ≡ unless test gates.Session status }
{
    if test {
        return None;
    }
    Some(Refusal {
        gate: Gate::Session,
        status,
    })
}

/// What refuses an operation by its place, behind so many results (RFC 8881 section 2.10.6): SEQUENCE is
/// the first, those that make and end clients and sessions are the only one, and the others stand behind a
/// SEQUENCE.
fn place_refusal(compound: &Compound<'_>, done: usize, op: &Op<'_>) -> Option<Refusal>
    ensures refusal { (so_far : List OpResult) → length so_far ≡ done →
        option_map refusal_of result ≡ place_refusal compound.now so_far op.now }
    ensures first { result ≡ None → HasToBeFirst op.now → done ≡ 0 }
{
    let is_first = done == 0;
    match op {
        Op::Sequence(_) => unless(is_first, NFS4ERR_SEQUENCE_POS),
        Op::ExchangeId { .. }
        | Op::CreateSession(_)
        | Op::DestroySession { .. }
        | Op::DestroyClientId { .. } => {
            unless(is_first && compound.count == 1, NFS4ERR_NOT_ONLY_OP)
        }
        Op::Outside { .. } => None,
        _ => unless(!is_first, NFS4ERR_OP_NOT_IN_SESSION),
    }
}

/// What refuses an operation by the room of a response of its session: what is used, the bound of the
/// operation's result and what is reserved have to fit (RFC 8881 section 2.10.6.4).
fn room_refusal<E: ExtraGrammar>(
    keeper: &Keeper,
    written: usize,
    op: &Op<'_>,
    extra: &E,
) -> Option<Refusal>
    ensures { (p : world.Place) (w : World) (so_far : List OpResult) (c : Compound) →
        Stands p w.sessions keeper.now → used c so_far ≡ written
        → option_map refusal_of result ≡ room_refusal E.grammar c so_far op.now p w }
{
    let Keeper::Session(session) = keeper else {
        return None;
    };
    let most = (RESERVED_ROOM as usize).saturating_add(written);
    if most.saturating_add(reply_bound(op, extra) as usize) <= session.room as usize {
        return None;
    }
    Some(Refusal {
        gate: Gate::Room,
        status: NFS4ERR_REP_TOO_BIG,
    })
}

/// What refuses an operation before its own tests: its place, and then the room.
pub fn admission<E: ExtraGrammar>(
    compound: &Compound<'_>,
    extra: &E,
    keeper: &Keeper,
    done: usize,
    written: usize,
    op: &Op<'_>,
) -> Option<Refusal>
    ensures refusal { (p : world.Place) (w : World) (so_far : List OpResult) →
        Stands p w.sessions keeper.now → length so_far ≡ done → used compound.now so_far ≡ written
        → option_map refusal_of result ≡ admission E.grammar compound.now so_far op.now p w }
    ensures first { result ≡ None → HasToBeFirst op.now → done ≡ 0 }
{
    match place_refusal(compound, done, op) {
        Some(refusal) => Some(refusal),
        None => room_refusal(keeper, written, op, extra),
    }
}
