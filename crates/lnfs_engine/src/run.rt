//! The operations of a COMPOUND in order, up to the first that fails (RFC 8881 section 16.2.3).
ghost use Rattle.std.specs.Prelude.{◌≡◌, ◌≤◌, ◌+◌, [], length, IfOk};
ghost use Rattle.lnfs_results.specs.Texts.{head_text};
ghost use Rattle.lnfs_world.specs.Both.{both, BothStand};
ghost use Rattle.lnfs_operations.specs.Served.{operation};
ghost use Rattle.lnfs_operations.specs.SlotRule.{run_behind, run_all};
ghost use Rattle.lnfs_results.specs.Numbered.{status_of_all};
ghost use Rattle.lnfs_engine.specs.Places.{place_of, Stands, Starts};
ghost use Rattle.lnfs_engine.specs.Performs.{site_in, sent_of};
ghost use Rattle.lnfs_engine.specs.Runs.{status_due, Ends};

use crate::extra::Extra;
use crate::perform::perform;
use crate::place::{Keeper, Place, Request};
use crate::reply::Came;
use crate::store::Store;
use lnfs_arguments::numbers::MINOR;
use lnfs_arguments::statuses::{NFS4_OK, NFS4ERR_MINOR_VERS_MISMATCH};
use lnfs_operations::Gate;
use lnfs_xdr::XdrWriter;
use std::alloc::AllocError;

/// What was refused: the operation's place in its COMPOUND, from 1, and its number as it was sent; both 0
/// where the COMPOUND as a whole was. And which test refused it, with which status.
#[derive(Clone, Copy, Debug, PartialEq, Eq)]
pub struct Denial {
    pub place: u32,
    pub number: u32,
    pub gate: Gate,
    pub status: u32,
}

/// How a COMPOUND ended.
#[derive(Clone, Copy)]
pub enum Ended {
    /// With new results: its status, how many results there are, and what was refused, if anything was.
    New {
        status: u32,
        count: u32,
        denial: Option<Denial>,
    },
    /// As it did the first time: what was kept stands in the place of new results.
    Again,
}

/// Runs the operations that were read, and appends their results behind the head.
fn run_operations<X: Extra>(
    request: &Request<'_>,
    store: &mut Store,
    extra: &mut X,
    place: &mut Place,
    keeper: &mut Keeper,
    out: &mut XdrWriter,
) -> Result<Ended, AllocError>
    requires few { length request.now.compound.now.ops ≤ 32 }
    requires first { Starts (place_of place.old) keeper.old }
    requires facts { BothStand X.extra.Fact (site_in request.now).dom (place_of place.old)
        (both store.old (X.rows extra.old)) }
    requires head { length out.old ≡ request.now.begin
        + length (head_text 0 request.now.compound.now.tag 0) }
    ensures ends { IfOk result (λ ended.
        let ran = run_behind (operation X.extra (site_in request.now) (sent_of request.now)
        request.now.compound.now) [] request.now.compound.now.ops (place_of place.old)
        (both store.old (X.rows extra.old)) in
        Ends request.now.begin out.old out.new keeper.new (place_of place.new)
        (both store.new (X.rows extra.new)) (status_of_all ran.results) ran ended) }
    ensures stands { IfOk result (λ ended. Stands (place_of place.new) store.new.sessions
        keeper.new) }
{
    request.site.policy().law_preorder();
    let ops = request.compound.ops.as_slice();
    let mut done = 0;
    while done < ops.len() {
        let op = &ops[done];
        match perform(request, store, extra, place, keeper, done, op, out)? {
            Came::Done => done += 1,
            Came::Refused(why) => {
                return Ok(Ended::New {
                    status: why.status,
                    count: done as u32 + 1,
                    denial: Some(Denial {
                        place: done as u32 + 1,
                        number: op.number(),
                        gate: why.gate,
                        status: why.status,
                    }),
                });
            }
            Came::Again => return Ok(Ended::Again),
        }
    }
    Ok(Ended::New {
        status: NFS4_OK,
        count: done as u32,
        denial: None,
    })
}

/// Runs a COMPOUND, and appends its results behind the head. Another minor version is refused as a whole.
#[tactic(auto, unfolding(lnfs_operations::specs::SlotRule::run_all))]
pub fn run_all<X: Extra>(
    request: &Request<'_>,
    store: &mut Store,
    extra: &mut X,
    place: &mut Place,
    keeper: &mut Keeper,
    out: &mut XdrWriter,
) -> Result<Ended, AllocError>
    requires few { length request.now.compound.now.ops ≤ 32 }
    requires first { Starts (place_of place.old) keeper.old }
    requires facts { BothStand X.extra.Fact (site_in request.now).dom (place_of place.old)
        (both store.old (X.rows extra.old)) }
    requires head { length out.old ≡ request.now.begin
        + length (head_text 0 request.now.compound.now.tag 0) }
    ensures ends { IfOk result (λ ended.
        let ran = run_all (operation X.extra (site_in request.now) (sent_of request.now)
        request.now.compound.now) request.now.compound.now (place_of place.old)
        (both store.old (X.rows extra.old)) in
        Ends request.now.begin out.old out.new keeper.new (place_of place.new)
        (both store.new (X.rows extra.new)) (status_due request.now.compound.now ran.results)
        ran ended) }
    ensures stands { IfOk result (λ ended. Stands (place_of place.new) store.new.sessions
        keeper.new) }
{
    if request.compound.minor != MINOR {
        return Ok(Ended::New {
            status: NFS4ERR_MINOR_VERS_MISMATCH,
            count: 0,
            denial: Some(Denial {
                place: 0,
                number: 0,
                gate: Gate::Outside,
                status: NFS4ERR_MINOR_VERS_MISMATCH,
            }),
        });
    }
    run_operations(request, store, extra, place, keeper, out)
}
