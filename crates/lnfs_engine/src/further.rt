//! Operations beside those of the table, in their COMPOUND.
ghost use Rattle.std.specs.Prelude.{◌≡◌, ℕ, List, IfOk, option_map};
ghost use Rattle.lnfs_world.specs.World.{Session};
ghost use Rattle.lnfs_world.specs.Both.{both, BothStand};
ghost use Rattle.lnfs_operations.specs.Extra as operations;
ghost use Rattle.lnfs_operations.specs.Extra.{further_deed};
ghost use Rattle.lnfs_operations.specs.Served.{said_reply, further_reply};
ghost use Rattle.lnfs_engine.specs.declared.place.Keeper.{Keeper};
ghost use Rattle.lnfs_engine.specs.Places.{place_of, further_in, Stands};
ghost use Rattle.lnfs_engine.specs.Replies.{Says};
ghost use Rattle.lnfs_engine.specs.Performs.{site_in, Performs};
ghost use Rattle.lnfs_engine.specs.Further.{said_of, spot_of, asked_of};

use crate::extra::{Extra, ExtraRan, Spot};
use crate::place::{Place, Request};
use crate::reply::Came;
use crate::store::Store;
use lnfs_arguments::statuses::NFS4_OK;
use lnfs_arguments::{ExtraGrammar, Op};
use lnfs_results::{OpResult, append_result};
use lnfs_site::Site;
use lnfs_xdr::XdrWriter;
use std::alloc::AllocError;

/// A further operation: its number and its arguments.
#[derive(Clone, Copy)]
pub struct FurtherOp<'a> {
    pub number: u32,
    pub args: &'a [u8],
}

/// The further operation that an operation is, where it is served.
pub fn further_in<'a, E: ExtraGrammar>(op: &'a Op<'_>, extra: &E) -> Option<FurtherOp<'a>>
    ensures { option_map asked_of result ≡ further_in E.grammar op.now }
{
    match op {
        Op::Extra { number, args } if extra.serves(*number) => Some(FurtherOp {
            number: *number,
            args: args.as_slice(),
        }),
        _ => None,
    }
}

/// Appends the result of a further operation.
fn tell(out: &mut XdrWriter, number: u32, ran: ExtraRan) -> Result<Came, AllocError>
    ensures { IfOk result (λ came. (begin : ℕ) →
        Says begin out.old out.new (said_reply number (said_of ran)) came) }
{
    let refusal = ran.refusal;
    let status = match refusal {
        Some(why) => why.status,
        None => NFS4_OK,
    };
    let told = OpResult::Extra {
        number,
        status,
        bytes: ran.bytes,
    };
    append_result(out, &told)?;
    match refusal {
        Some(why) => Ok(Came::Refused(why)),
        None => Ok(Came::Done),
    }
}

/// Where a further operation stands.
fn spot_at<'a>(site: &'a Site<'a>, place: &Place) -> Spot<'a>
    ensures site { result.site.now ≡ site.now }
    ensures spot { spot_of result ≡ operations.spot_of (place_of place.now) }
{
    Spot {
        site,
        subject: place.subject,
        moment: place.moment,
        client: place.client,
        current: place.current,
        saved: place.saved,
    }
}

/// Runs a further operation, and appends its result. Its place keeps all but the file handles.
pub fn further<X: Extra>(
    request: &Request<'_>,
    store: &mut Store,
    extra: &mut X,
    place: &mut Place,
    asked: &FurtherOp<'_>,
    out: &mut XdrWriter,
) -> Result<Came, AllocError>
    requires facts { BothStand X.extra.Fact (site_in request.now).dom (place_of place.old)
        (both store.old (X.rows extra.old)) }
    ensures performs { IfOk result (λ came. (keeper : Keeper) →
        Performs request.now.begin out.old out.new keeper keeper (place_of place.new)
        (both store.new (X.rows extra.new))
        (further_reply asked.now.number (further_deed X.extra (site_in request.now) asked.now.number
        asked.now.args.now) (place_of place.old) (both store.old (X.rows extra.old))) came) }
    // It leaves the sessions, and the place in them.
    ensures stands { IfOk result (λ came. (keeper : Keeper) →
        Stands (place_of place.old) store.old.sessions keeper →
        Stands (place_of place.new) store.new.sessions keeper) }
{
    request.site.policy().law_preorder();
    let mut at = spot_at(request.site, place);
    let ran = extra.run(request.alloc, store, &mut at, asked.number, asked.args)?;
    place.current = at.current;
    place.saved = at.saved;
    tell(out, asked.number, ran)
}
