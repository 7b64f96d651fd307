//! The record of a request.
ghost use Rattle.std.specs.Prelude.{◌≡◌, ◌≤◌, ◌<◌, ◌^◌, length, map, All, IfOk};
ghost use Rattle.lnfs_types.specs.declared.limits.TheConstants.{RECORD_LIMIT};
ghost use Rattle.lnfs_requests.specs.Texts.{compound_text};
ghost use Rattle.lnfs_requests.specs.Fits.{OpFits};
ghost use Rattle.lnfs_answers.specs.Asking.{awaits_of};
ghost use Rattle.lnfs_arguments.specs.declared.numbers.TheConstants.{OP_LIMIT};
ghost use Rattle.lnfs_asking.specs.Sending.{PlanFits, PlanIsShort, call_by_guest, call_by_member, call_of, compound_of, plain_call, sent_of, sought_by};

use crate::labels::copy_label;
use crate::plan::{Plan, Speaker};
use crate::sent::{Sent, Sought};
use lnfs_answers::{Awaits, HANDLE_SIZE};
use lnfs_arguments::numbers::MINOR;
use lnfs_arguments::{Compound, Op};
use lnfs_calls::{end_call, sys_body, write_header};
use lnfs_gss3::Mechanism;
use lnfs_gss3::numbers::PROC_NULL;
use lnfs_policy::Parent;
use lnfs_requests::write_compound;
use lnfs_rpc::{Auth, PROC_COMPOUND};
use lnfs_signed_calls::{SignedCall, write_create, write_data, write_destroy};
use lnfs_types::{Items, Octets};
use lnfs_xdr::{AUTH_NONE, AUTH_SYS};
use std::alloc::{AllocError, Global};

/// The name of the machine in the credential of a guest.
const MACHINE: &[u8] = b"client";

/// What is awaited of each operation in turn.
fn awaits_of_all(alloc: Global, ops: &[Op<'_>]) -> Result<Vec<Awaits>, AllocError>
    ensures { IfOk result (λ awaited. awaited.items ≡ map awaits_of ops.now) }
{
    let mut awaited = Vec::new(alloc);
    for op in ops {
        awaited.push(Awaits::of(op))?;
    }
    Ok(awaited)
}

fn sought_by(alloc: Global, plan: &Plan<'_>) -> Result<Sought, AllocError>
    ensures { IfOk result (λ sought. sought ≡ sought_by plan.now) }
{
    match plan {
        Plan::Assert(label) => Ok(Sought::Context(copy_label(alloc, label)?)),
        Plan::Ask(ops) => {
            let awaited = awaits_of_all(alloc, ops.as_slice())?;
            Ok(Sought::Results(Items::new(awaited)))
        }
        Plan::End => Ok(Sought::End),
    }
}

/// A call by AUTH_SYS of a user in group 0 of the machine `client`.
#[tactic(auto, using(crate::proofs::Sizes::guest_short))]
fn plain_call(
    alloc: Global,
    uid: u32,
    xid: u32,
    procedure: u32,
    arguments: &[u8],
) -> Result<SignedCall, AllocError>
    ensures { IfOk result (λ call. call ≡ plain_call uid xid procedure arguments.now) }
{
    let body = sys_body(alloc, MACHINE, uid)?;
    let credential = Auth {
        flavor: AUTH_SYS,
        body: &body,
    };
    let verifier = Auth {
        flavor: AUTH_NONE,
        body: &[],
    };
    let header = write_header(alloc, xid, procedure, &credential)?;
    let message = end_call(alloc, &header, &verifier, arguments)?;
    Ok(SignedCall {
        message: Octets::new(message),
        header: header.len(),
    })
}

/// The arguments of a COMPOUND.
#[tactic(auto, using(crate::proofs::Sizes::compound_short))]
fn arguments_of(alloc: Global, ops: Items<Op<'_>>) -> Result<Vec<u8>, AllocError>
    requires fits { All OpFits ops }
    requires few { length ops ≤ OP_LIMIT }
    ensures text { IfOk result (λ v. v.items ≡ compound_text (compound_of ops.entry)) }
    ensures short { IfOk result (λ v. length v.items < 2 ^ 31) }
{
    let compound = Compound {
        tag: Octets::new(Vec::new(alloc)),
        minor: MINOR,
        count: ops.len() as u32,
        ops,
    };
    write_compound(alloc, &compound)
}

/// The call of a guest.
fn call_by_guest(
    alloc: Global,
    uid: u32,
    xid: u32,
    plan: Plan<'_>,
) -> Result<SignedCall, AllocError>
    requires { PlanFits plan }
    ensures call { IfOk result (λ call. call ≡ call_by_guest uid xid plan.entry) }
    ensures short { PlanIsShort plan.entry →
        IfOk result (λ call. length call.message ≤ RECORD_LIMIT) }
{
    match plan {
        Plan::Ask(ops) => {
            let arguments = arguments_of(alloc, ops)?;
            plain_call(alloc, uid, xid, PROC_COMPOUND, &arguments)
        }
        Plan::Assert(_) => plain_call(alloc, uid, xid, PROC_NULL, &[]),
        Plan::End => plain_call(alloc, uid, xid, PROC_NULL, &[]),
    }
}

/// The call of a member.
fn call_by_member<M: Mechanism>(
    alloc: Global,
    mechanism: &M,
    parent: &Parent,
    context: &[u8; HANDLE_SIZE],
    xid: u32,
    plan: Plan<'_>,
) -> Result<SignedCall, AllocError>
    requires { PlanFits plan }
    ensures call { IfOk result (λ call. call
        ≡ call_by_member M.signing parent.now context.now xid plan.entry) }
    ensures short { PlanIsShort plan.entry →
        IfOk result (λ call. length call.message ≤ RECORD_LIMIT) }
{
    match plan {
        Plan::Assert(label) => {
            let bytes = label.bytes.as_slice();
            write_create(alloc, mechanism, parent, xid, label.lfs, label.pi, bytes)
        }
        Plan::Ask(ops) => {
            let arguments = arguments_of(alloc, ops)?;
            write_data(alloc, mechanism, parent, xid, context, &arguments)
        }
        Plan::End => write_destroy(alloc, mechanism, parent, xid, context),
    }
}

fn call_of<M: Mechanism>(
    alloc: Global,
    mechanism: &M,
    speaker: &Speaker,
    xid: u32,
    plan: Plan<'_>,
) -> Result<SignedCall, AllocError>
    requires { PlanFits plan }
    ensures call { IfOk result (λ call. call ≡ call_of M.signing speaker.now xid plan.entry) }
    ensures short { PlanIsShort plan.entry →
        IfOk result (λ call. length call.message ≤ RECORD_LIMIT) }
{
    match speaker {
        Speaker::Guest { uid } => call_by_guest(alloc, *uid, xid, plan),
        Speaker::Member { parent, context } => {
            call_by_member(alloc, mechanism, parent, context, xid, plan)
        }
    }
}

/// Makes the request of a plan, under a transaction of its own.
///
/// # Errors
///
/// `AllocError` where there is no memory.
#[tactic(auto, unfolding(crate::specs::Sending::sent_of))]
pub fn send<M: Mechanism>(
    alloc: Global,
    mechanism: &M,
    speaker: &Speaker,
    xid: u32,
    plan: Plan<'_>,
) -> Result<Sent, AllocError>
    requires { PlanFits plan }
    ensures request { IfOk result (λ sent. sent ≡ sent_of M.signing speaker.now xid plan.entry) }
    ensures short { PlanIsShort plan.entry →
        IfOk result (λ sent. length sent.message ≤ RECORD_LIMIT) }
{
    let sought = sought_by(alloc, &plan)?;
    let call = call_of(alloc, mechanism, speaker, xid, plan)?;
    Ok(Sent {
        xid,
        header: call.header,
        sought,
        message: call.message,
    })
}
