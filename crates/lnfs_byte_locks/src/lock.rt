//! LOCK (RFC 8881 section 18.10).
ghost use Rattle.std.specs.Prelude.{◌≡◌, ◌==◌, ◌&&◌, filter, IfOk, OnOk, OnErr};
ghost use Rattle.lnfs_site.specs.Site.{site_of};
ghost use Rattle.lnfs_operations.specs.Extra.{place_at};
ghost use Rattle.lnfs_engine.specs.Further.{spot_of};
ghost use Rattle.lnfs_locks.specs.Effects.{kept_with};
ghost use Rattle.lnfs_locks.specs.Facts.{LockFacts};
ghost use Rattle.lnfs_locks.specs.Lock as operation;
ghost use Rattle.lnfs_lock_args.specs.Values.{asked_of, lock_args_of};
ghost use Rattle.lnfs_byte_locks.specs.Answers.{Ends};
ghost use Rattle.lnfs_locking.specs.Rows.{with_ranges};
ghost use Rattle.lnfs_byte_locks.specs.Taking.{answer_of};
ghost use Rattle.lnfs_byte_locks.specs.Going.{goes, Keeps};
ghost use Rattle.lnfs_byte_locks.specs.Locking.{Takes, Comes};

use crate::answers::{refused, tested};
use crate::asks::find_asks;
use crate::denials::first_in_way;
use crate::standing::{Counting, Going};
use crate::states::state_text;
use crate::taking::{Taken, Taking, taking_of};
use lnfs_arguments::statuses::NFS4ERR_NOSPC;
use lnfs_engine::{ExtraRan, Spot, Store};
use lnfs_lock_args::LockArgs;
use lnfs_locking::{LockRow, Locks, Rival};
use lnfs_operations::{Gate, Refusal};
use lnfs_ranges::RangeList;
use lnfs_types::Octets;
use std::alloc::{AllocError, Global};

/// The lock that is taken, or what is answered where none is.
///
/// # Errors
///
/// `AllocError` where there is no memory.
fn comes(
    alloc: Global,
    store: &Store,
    locks: &Locks,
    at: &Spot<'_>,
    args: &LockArgs<'_>,
) -> Result<Result<Taking, ExtraRan>, AllocError>
    requires facts { LockFacts store.now locks.now }
    ensures { IfOk result (λ r. Comes (site_of at.now.site.now) (lock_args_of args.now) locks.now
        (place_at (spot_of at.now)) store.now r) }
{
    let asks = match find_asks(store, locks, at, args) {
        Ok(asks) => asks,
        Err(why) => return Ok(Err(refused(alloc, why))),
    };
    let (client, owner, asked) = (asks.client, asks.holder.owner, &args.asked);
    let in_way = first_in_way(store, locks, at, client, owner, asks.node, asked);
    if in_way.is_some() {
        return Ok(Err(tested(alloc, in_way)?));
    }
    let Some(taking) = taking_of(alloc, store, locks, at, &asks, asked)? else {
        let why = Refusal {
            gate: Gate::Quota,
            status: NFS4ERR_NOSPC,
        };
        return Ok(Err(refused(alloc, why)));
    };
    Ok(Ok(taking))
}

/// Keeps a lock that is taken, and drops those of its level that go.
///
/// # Errors
///
/// `AllocError` where there is no memory. Nothing has changed then.
fn keep(
    alloc: Global,
    locks: &mut Locks,
    taken: &Taken,
    ranges: RangeList,
    going: &Going<'_>,
) -> Result<(), AllocError>
    requires keeps { Keeps locks.old taken.now ranges going.now }
    ensures kept { OnOk result ((keeps : Keeps locks.old taken.now ranges going.now) →
        locks.new ≡ kept_with (with_ranges taken.now.seq ranges keeps.lock)
        (filter (λ x. x.id.level == taken.now.id.level && goes going.now x) locks.old.locks) locks.old) }
    ensures err { OnErr result (locks.new ≡ locks.old) }
{
    let Some(opening) = taken.opening else {
        locks.change(taken.id, taken.seq, ranges, going);
        return Ok(());
    };
    let row = LockRow {
        client: taken.client,
        opening,
        owner: Octets::from_slice(alloc, taken.owner.as_slice())?,
        node: taken.node,
        seq: taken.seq,
        ranges,
    };
    locks.begin(taken.id, row, going)?;
    Ok(())
}

/// Takes a lock, and drops those that go with it.
///
/// # Errors
///
/// `AllocError` where there is no memory. Nothing has changed then.
fn take(
    alloc: Global,
    store: &Store,
    locks: &mut Locks,
    at: &Spot<'_>,
    args: &LockArgs<'_>,
    taking: Taking,
) -> Result<ExtraRan, AllocError>
    requires facts { LockFacts store.now locks.old }
    requires takes { Takes (asked_of args.now.asked) locks.old (place_at (spot_of at.now)) store.now taking.taken taking.ranges }
    ensures { IfOk result (λ ran. (takes : Takes (asked_of args.now.asked) locks.old (place_at (spot_of at.now)) store.now taking.taken taking.ranges) →
        Ends (answer_of (asked_of args.now.asked) locks.old (place_at (spot_of at.now)) store.now takes.client takes.node takes.lock)
        ran locks.old locks.new) }
{
    let Taking { taken, ranges } = taking;
    let bytes = state_text(alloc, taken.id, taken.seq)?;
    let counting = Counting {
        opens: store.opens(),
        clients: store.clients(),
        moment: at.moment,
    };
    let rival = Rival {
        lattice: at.site.policy().lattice(),
        subject: at.subject,
        client: taken.client,
        owner: taken.owner.as_slice(),
    };
    let going = Going {
        counting,
        rival,
        node: taken.node,
        wanted: taken.wanted,
    };
    keep(alloc, locks, &taken, ranges, &going)?;
    Ok(ExtraRan {
        refusal: None,
        bytes,
    })
}

/// Locks a range, and drops the locks of the subject's level whose opens have ended and those that would stand in the way but for
/// their clients' leases.
///
/// # Errors
///
/// `AllocError` where there is no memory. Nothing has changed then.
pub fn lock(
    alloc: Global,
    store: &Store,
    locks: &mut Locks,
    at: &Spot<'_>,
    args: &LockArgs<'_>,
) -> Result<ExtraRan, AllocError>
    requires facts { LockFacts store.now locks.old }
    ensures { IfOk result (λ ran. Ends (operation.lock (site_of at.now.site.now) (lock_args_of args.now)
        locks.old (place_at (spot_of at.now)) store.now).answer ran locks.old locks.new) }
{
    match comes(alloc, store, locks, at, args)? {
        Ok(taking) => take(alloc, store, locks, at, args, taking),
        Err(ran) => Ok(ran),
    }
}
