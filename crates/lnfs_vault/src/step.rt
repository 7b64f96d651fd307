//! The step that an event makes, once its record is decoded: what its reply says, and its audit line.
ghost use Rattle.std.specs.Prelude.{◌≡◌, ◌≤◌, ◌<◌, ◌^◌, ◌++◌, ℕ, List, Some, None, true, length, IfOk};
ghost use Rattle.lnfs_types.specs.Moments.{Fits};
ghost use Rattle.lnfs_types.specs.declared.event.Event.{Event as any_event};
ghost use Rattle.lnfs_format.specs.declared.formats.TheConstants.{MAX_SPELLING};
ghost use Rattle.lnfs_policy.specs.Policy.{Policy as any_policy, dominance};
ghost use Rattle.lnfs_world.specs.Outcome.{begins_at};
ghost use Rattle.lnfs_world.specs.Both.{both, BothStand};
ghost use Rattle.lnfs_operations.specs.Sizes.{IsRead, is_level};
ghost use Rattle.lnfs_operations.specs.Bounds.{Bounds};
ghost use Rattle.lnfs_gss3.specs.Contexts.{has_context};
ghost use Rattle.lnfs_site.specs.Site.{site_of};
ghost use Rattle.lnfs_rpc.specs.Numbers.{head_length};
ghost use Rattle.lnfs_step.specs.Wrapping.{Wrapping as any_wrapping, answer_text, refusal_text};
ghost use Rattle.lnfs_step.specs.Request.{Run as run_task, MakeContext as make_task, EndContext as end_task, Asked as asked};
ghost use Rattle.lnfs_step.specs.Contexts.{is_there};
ghost use Rattle.lnfs_step.specs.Step.{step_with, step_of, done_for, line_of_cause};
ghost use Rattle.lnfs_step.specs.Journal.{IsKept};
ghost use Rattle.lnfs_vault.specs.Lines.{IsLineOf};
ghost use Rattle.lnfs_vault.specs.Requests.{seen_cause, seen_wrapping, seen_context, seen_call, seen_task, IsTask, HasForm};
ghost use Rattle.lnfs_vault.specs.Seals.{seal_of, seen_sealing, results_begun};
ghost use Rattle.lnfs_vault.specs.Sealed.{sealed_of};
ghost use Rattle.lnfs_vault.specs.Prepared.{BeginsFor, IsPrepared};
ghost use Rattle.lnfs_vault.specs.Says.{Says};

use crate::audit::AuditLine;
use crate::decode::Prepared;
use crate::lines::{line_of, line_of_cause};
use crate::request::{Call, Cause, CompoundCall, InContext, NewContext, Request, Sealing, Task};
use crate::unsealed::{Answer, Unsealed};
use lnfs_engine::{Engine, Extra, Store};
use lnfs_gss3::numbers::RPCSEC_GSS_CTXPROBLEM;
use lnfs_gss3::{ContextError, ContextHandle, Mechanism, put_create_results};
use lnfs_site::Site;
use lnfs_step::numbers::{GARBAGE_ARGS, SYSTEM_ERR};
use lnfs_types::Event;
use lnfs_xdr::XdrWriter;
use std::alloc::{AllocError, Global};

/// What a step says, before it is sealed, with its audit line.
#[derive(Debug, Drop)]
pub struct Said<'p> {
    pub unsealed: Unsealed<'p>,
    pub line: Option<AuditLine>,
}

/// An event, and its place in the journal.
#[derive(Clone, Copy)]
pub struct JournaledEvent<'a> {
    pub at: u64,
    pub event: &'a Event,
}

/// The refusal of a call as a whole, and its line.
#[tactic(auto, using(crate::proofs::Seals::refusal))]
fn refuse<'p, M: Mechanism>(
    alloc: Global,
    at: u64,
    xid: u32,
    sealing: Sealing<'p>,
    cause: Cause,
) -> Result<Said<'p>, AllocError>
    ensures reply { (w : any_wrapping) → seen_sealing sealing.entry ≡ seal_of M.signing w →
        IfOk result (λ said. sealed_of M.signing said.unsealed
        ≡ Some (refusal_text M.signing w xid (seen_cause cause))) }
    ensures line { IfOk result (λ said. IsLineOf at (Some (line_of_cause (seen_cause cause)))
        said.line) }
{
    let line = line_of_cause(alloc, at, cause)?;
    Ok(Said {
        unsealed: Unsealed::Refused {
            xid,
            sealing,
            cause,
        },
        line: Some(line),
    })
}

/// The answer to a call, with the results in the buffer that was begun for them.
#[tactic(auto, using(crate::proofs::Seals::answer))]
fn answered<'p, M: Mechanism>(
    call: &Call<'_, '_>,
    sealing: Sealing<'p>,
    built: Vec<u8>,
) -> Unsealed<'p>
    requires room { head_length ≤ length built.items }
    requires short { length built.items < 2 ^ 32 }
    requires seal { seen_sealing sealing ≡ seal_of M.signing (seen_wrapping call.now.wrapping) }
    ensures { (results : List ℕ) →
        built.items ≡ results_begun (seen_sealing sealing.entry) call.now.xid ++ results →
        sealed_of M.signing result ≡ Some (answer_text M.signing
        (seen_wrapping call.now.wrapping) call.now.xid results) }
{
    Unsealed::Answered(Answer {
        xid: call.xid,
        sealing,
        built,
    })
}

/// Runs the COMPOUND of an event, and answers it. Its result is built in the buffer that was begun for it.
fn run<'p, X: Extra, M: Mechanism>(
    alloc: Global,
    site: &Site<'_>,
    engine: &mut Engine<X>,
    arrival: JournaledEvent<'_>,
    call: &Call<'_, '_>,
    sealing: Sealing<'p>,
    run: &CompoundCall<'_>,
    out: XdrWriter,
) -> Result<Said<'p>, AllocError>
    requires event { Fits arrival.event.now }
    requires read { IsRead run.now.compound }
    requires few { length run.now.compound.ops ≤ 32 }
    requires level { is_level (site_of site.now) call.now.level.0 ≡ true }
    requires facts { BothStand X.extra.Fact (dominance site.now)
        (begins_at call.now.level.0 arrival.event.now.moment)
        (both engine.old.store (X.rows engine.old.extra)) }
    requires bounds { Bounds (site_of site.now) engine.old.store }
    requires seal { seen_sealing sealing ≡ seal_of M.signing (seen_wrapping call.now.wrapping) }
    requires begun { out ≡ results_begun (seen_sealing sealing) call.now.xid }
    ensures { IfOk result (λ said.
        Says M.signing arrival.entry.at (both engine.new.store (X.rows engine.new.extra))
        (done_for X.extra M.signing site.now (both engine.old.store (X.rows engine.old.extra))
        arrival.entry.event.now (seen_call call.now)
        (run_task run.now.arguments.now run.now.compound)) said) }
{
    site.policy().law_preorder();
    let size = arrival.event.message.len() as u32;
    let ran = engine.run(
        site,
        call.level,
        arrival.event.moment,
        size,
        run.arguments,
        &run.compound,
        out,
    )?;
    let line = line_of(alloc, arrival.at, &ran.denial)?;
    let unsealed = answered::<M>(call, sealing, ran.reply);
    Ok(Said { unsealed, line })
}

/// Makes a context, and answers its handle; or its level is full.
fn make_context<'p, X: Extra, M: Mechanism>(
    alloc: Global,
    engine: &mut Engine<X>,
    at: u64,
    call: &Call<'_, '_>,
    sealing: Sealing<'p>,
    asked: &NewContext,
    mut out: XdrWriter,
) -> Result<Said<'p>, AllocError>
    requires label { length asked.now.label ≤ MAX_SPELLING }
    requires seal { seen_sealing sealing ≡ seal_of M.signing (seen_wrapping call.now.wrapping) }
    requires begun { out ≡ results_begun (seen_sealing sealing) call.now.xid }
    ensures { (p : any_policy) (event : any_event) → IfOk result (λ said.
        Says M.signing at (both engine.new.store (X.rows engine.new.extra))
        (done_for X.extra M.signing p (both engine.old.store (X.rows engine.old.extra)) event
        (seen_call call.now) (make_task asked.now.parent
        (record { lfs = asked.now.lfs; pi = asked.now.pi; label = asked.now.label }))) said) }
{
    let made = engine.store.make_context(call.level, asked.parent);
    let number = match made {
        Ok(number) => number,
        Err(ContextError::Memory) => return Err(AllocError),
        Err(ContextError::Full | ContextError::Unknown) => {
            let cause = Cause::Called { stat: SYSTEM_ERR };
            return refuse::<M>(alloc, at, call.xid, sealing, cause);
        }
    };
    let handle = ContextHandle {
        parent: asked.parent,
        level: call.level,
        number,
    };
    let label = asked.label.as_slice();
    put_create_results(&mut out, &handle, asked.lfs, asked.pi, label)?;
    let unsealed = answered::<M>(call, sealing, out.into_bytes());
    Ok(Said {
        unsealed,
        line: None,
    })
}

/// Ends a context, which is there.
fn end_context<'p, X: Extra, M: Mechanism>(
    engine: &mut Engine<X>,
    at: u64,
    call: &Call<'_, '_>,
    sealing: Sealing<'p>,
    context: InContext,
) -> Said<'p>
    requires there { has_context engine.old.store.contexts call.now.level.0 context.parent
        context.number ≡ true }
    requires seal { seen_sealing sealing ≡ seal_of M.signing (seen_wrapping call.now.wrapping) }
    ensures { (p : any_policy) (event : any_event) →
        Says M.signing at (both engine.new.store (X.rows engine.new.extra))
        (done_for X.extra M.signing p (both engine.old.store (X.rows engine.old.extra)) event
        (seen_call call.now) (end_task context.number)) result }
{
    // The context is there, so that there is no error.
    let _done = engine
        .store
        .end_context(call.level, context.parent, context.number);
    Said {
        unsealed: Unsealed::Bare {
            xid: call.xid,
            sealing,
        },
        line: None,
    }
}

/// Whether the context that a call comes in is there, if it comes in one.
fn is_there(store: &Store, call: &Call<'_, '_>) -> bool
    ensures { result ≡ is_there store.now.contexts (seen_call call.now).level
        (seen_call call.now).context }
{
    match call.context {
        Some(context) => store.has_context(call.level, context.parent, context.number),
        None => true,
    }
}

/// Answers a call of a level.
fn answer<'p, X: Extra, M: Mechanism>(
    alloc: Global,
    site: &Site<'_>,
    engine: &mut Engine<X>,
    arrival: JournaledEvent<'_>,
    call: &Call<'_, '_>,
    sealing: Sealing<'p>,
    task: &Task<'_>,
    out: XdrWriter,
) -> Result<Said<'p>, AllocError>
    requires event { Fits arrival.event.now }
    requires task { IsTask (seen_task task.now) }
    requires form { HasForm call.now task.now }
    requires level { is_level (site_of site.now) call.now.level.0 ≡ true }
    requires kept { IsKept X.extra site.now (both engine.old.store (X.rows engine.old.extra)) }
    requires seal { seen_sealing sealing ≡ seal_of M.signing (seen_wrapping call.now.wrapping) }
    requires begins { BeginsFor (seen_task task.now) (seen_sealing sealing) call.now.xid out }
    ensures { IfOk result (λ said.
        Says M.signing arrival.entry.at (both engine.new.store (X.rows engine.new.extra))
        (step_of X.extra M.signing site.now (both engine.old.store (X.rows engine.old.extra))
        arrival.entry.event.now (asked (seen_call call.now) (seen_task task.now))) said) }
{
    let JournaledEvent { at, .. } = arrival;
    if !is_there(&engine.store, call) {
        let cause = Cause::Caller {
            stat: RPCSEC_GSS_CTXPROBLEM,
        };
        return refuse::<M>(alloc, at, call.xid, sealing, cause);
    }
    match task {
        Task::Garbled => {
            let cause = Cause::Called { stat: GARBAGE_ARGS };
            refuse::<M>(alloc, at, call.xid, sealing, cause)
        }
        Task::Run(compound) => {
            run::<X, M>(alloc, site, engine, arrival, call, sealing, compound, out)
        }
        Task::MakeContext(asked) => {
            make_context::<X, M>(alloc, engine, at, call, sealing, asked, out)
        }
        Task::EndContext(context) => {
            Ok(end_context::<X, M>(engine, at, call, sealing, *context))
        }
    }
}

/// Makes the step of an event whose record was decoded. What it says borrows nothing from the event.
#[tactic(auto, unfolding(lnfs_step::specs::Step::step_with))]
#[inline(always)]
pub fn make_step<'p, X: Extra, M: Mechanism>(
    alloc: Global,
    site: &Site<'_>,
    engine: &mut Engine<X>,
    arrival: JournaledEvent<'_>,
    prepared: Prepared<'p, '_>,
) -> Result<Said<'p>, AllocError>
    requires event { Fits arrival.event.now }
    requires kept { IsKept X.extra site.now (both engine.old.store (X.rows engine.old.extra)) }
    requires prepared { IsPrepared X.extra.grammar M.signing site.now arrival.event.now.class
        arrival.event.now.message prepared }
    ensures { IfOk result (λ said.
        Says M.signing arrival.entry.at (both engine.new.store (X.rows engine.new.extra))
        (step_with X.extra M.signing site.now (both engine.old.store (X.rows engine.old.extra))
        arrival.entry.event.now) said) }
{
    // a caller that has a level has one of the site
    site.policy().law_policy();
    let Prepared {
        asked,
        sealing,
        out,
    } = prepared;
    match asked {
        Request::Silent => Ok(Said {
            unsealed: Unsealed::Silent,
            line: None,
        }),
        Request::Refused { xid, cause, .. } => {
            refuse::<M>(alloc, arrival.at, xid, sealing, cause)
        }
        Request::Nothing { xid } => Ok(Said {
            unsealed: Unsealed::Bare { xid, sealing },
            line: None,
        }),
        Request::Asked(call, task) => answer::<X, M>(
            alloc, site, engine, arrival, &call, sealing, &task, out,
        ),
    }
}
