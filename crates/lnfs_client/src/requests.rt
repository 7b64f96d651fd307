//! What is asked in each stage of an action.
ghost use Rattle.std.specs.Prelude.{◌≡◌, ◌≤◌, ◌<◌, ◌+◌, ◌∷◌, [], ◌++◌, true, false, length, replicate, unwrap_or, All, IfOk, OnOk, IfSome};
ghost use Rattle.lnfs_arguments.specs.declared.types.Making.TheVariants.{Guarded};
ghost use Rattle.lnfs_arguments.specs.declared.types.Claim.TheVariants.{Name};
ghost use Rattle.lnfs_arguments.specs.declared.numbers.TheConstants.{OWNER_LIMIT};
ghost use Rattle.lnfs_arguments.specs.SharedTexts.{AttrsFit};
ghost use Rattle.lnfs_requests.specs.Fits.{OpFits};
ghost use Rattle.lnfs_asking.specs.Labels.{IsShort, as_attributes, unspelled};
ghost use Rattle.lnfs_asking.specs.Sending.{PlanFits};
ghost use Rattle.lnfs_script.specs.Fits.{ActionFits, ActionSuits};
ghost use Rattle.lnfs_client.specs.Fits.{RunningFits};
ghost use Rattle.lnfs_client.specs.Requests.{access_write, asking, change, channel, guard, in_session, names_of, no_attrs, plan, to_target, walk};

use crate::known::{Known, Running};
use crate::paths::{last_name, put_way, put_whole_way};
use crate::stage::Stage;
use lnfs_arguments::{Channel, Claim, CreateSession, Making, Op, Sequence, Span, StateId, What};
use lnfs_asking::{ERROR_AND_LABEL, LABEL_ALONE, Plan, as_attributes, spell, unspelled};
use lnfs_attrs::{Bitmap, LabelValue, RawAttrs};
use lnfs_format::Codecs;
use lnfs_policy::Policy;
use lnfs_script::Action;
use lnfs_types::{Items, Octets};
use std::alloc::{AllocError, Global};

/// The sizes that are asked for the session, in both directions.
const CHANNEL: Channel = Channel {
    headerpad: 0,
    maxrequest: 65536,
    maxresponse: 65536,
    cached: 65536,
    operations: 32,
    requests: 16,
    ird: None,
};

/// The state id of nobody's open (RFC 8881 section 8.2.3).
pub const ANONYMOUS: StateId = StateId {
    seqid: 0,
    other: [0; 12],
};

/// The most bytes of the entries of one READDIR.
const LISTING_SIZE: u32 = 32_768;

/// `FILE_SYNC4`: how a WRITE is to be kept (RFC 8881 section 18.32.3).
const FILE_SYNC: u32 = 2;

/// `OPEN4_SHARE_ACCESS_WRITE` (RFC 8881 section 18.16.1).
const ACCESS_WRITE: u32 = 2;

/// The slot that is used.
const SLOT: u32 = 0;

fn sequence<'a>(session: [u8; 16], number: u32) -> Op<'a>
    ensures op { result ≡ Op.Sequence (record {
      session = session;
      sequence = number;
      slot = 0;
      highest = 0;
      cachethis = true;
    }) }
    ensures fits { OpFits result }
{
    Op::Sequence(Sequence {
        session,
        sequence: number,
        slot: SLOT,
        highest: SLOT,
        cachethis: true,
    })
}

/// SEQUENCE, with which each COMPOUND in the session begins.
fn in_session<'a>(known: &Known) -> Op<'a>
    ensures op { result ≡ in_session known.now }
    ensures fits { OpFits result }
{
    sequence(known.session, known.sequence)
}

/// A request of one operation.
fn alone<'a>(alloc: Global, op: Op<'a>) -> Result<Plan<'a>, AllocError>
    requires { OpFits op }
    ensures plan { IfOk result (λ plan. plan ≡ Plan.Ask (op.entry ∷ [])) }
    ensures fits { IfOk result PlanFits }
{
    let mut ops = Vec::new(alloc);
    ops.push(op)?;
    Ok(Plan::Ask(Items::new(ops)))
}

fn exchange<'a>(alloc: Global, known: &Known) -> Result<Plan<'a>, AllocError>
    requires { length known.now.owner ≤ OWNER_LIMIT }
    ensures plan { IfOk result (λ plan. plan ≡ Plan.Ask
        (Op.ExchangeId (replicate 8 0) known.now.owner 0 None ∷ [])) }
    ensures fits { IfOk result PlanFits }
{
    let op = Op::ExchangeId {
        verifier: [0; 8],
        owner: Octets::from_slice(alloc, known.owner.as_slice())?,
        flags: 0,
        implementation: None,
    };
    alone(alloc, op)
}

fn create_session<'a>(alloc: Global, client: u64, number: u32) -> Op<'a>
    ensures op { result ≡ Op.CreateSession (record {
      client = client;
      sequence = number;
      flags = 0;
      fore = channel;
      back = channel;
      program = 0;
      callbacks = [];
    }) }
    ensures fits { OpFits result }
{
    Op::CreateSession(CreateSession {
        client,
        sequence: number,
        flags: 0,
        fore: CHANNEL,
        back: CHANNEL,
        program: 0,
        callbacks: Items::new(Vec::new(alloc)),
    })
}

fn create<'a>(alloc: Global, known: &Known) -> Result<Plan<'a>, AllocError>
    ensures plan { IfOk result (λ plan. plan ≡ Plan.Ask (Op.CreateSession (record {
      client = known.now.client;
      sequence = known.now.creating;
      flags = 0;
      fore = channel;
      back = channel;
      program = 0;
      callbacks = [];
    }) ∷ [])) }
    ensures fits { IfOk result PlanFits }
{
    alone(alloc, create_session(alloc, known.client, known.creating))
}

fn reclaim<'a>(alloc: Global, known: &Known) -> Result<Plan<'a>, AllocError>
    ensures plan { IfOk result (λ plan. plan ≡ Plan.Ask
        (in_session known.now ∷ Op.ReclaimComplete false ∷ [])) }
    ensures fits { IfOk result PlanFits }
{
    let mut ops = Vec::new(alloc);
    ops.push(in_session(known))?;
    ops.push(Op::ReclaimComplete { one_fs: false })?;
    Ok(Plan::Ask(Items::new(ops)))
}

/// Appends what is asked at the node that an action is enforced on.
fn put_asking<'a>(ops: &mut Vec<Op<'a>>, action: &Action, cookie: u64) -> Result<(), AllocError>
    requires { ActionFits action.now }
    ensures ops { OnOk result (ops.new.items ≡ ops.old.items ++ asking action.now cookie) }
    ensures fits { All OpFits ops.old.items → OnOk result (All OpFits ops.new.items) }
{
    ops.push(Op::GetAttr { asked: LABEL_ALONE })?;
    match action {
        Action::List { .. } => ops.push(Op::ReadDir {
            cookie,
            verifier: [0; 8],
            dircount: LISTING_SIZE,
            maxcount: LISTING_SIZE,
            asked: ERROR_AND_LABEL,
        })?,
        Action::Read { offset, count, .. } => ops.push(Op::Read {
            id: ANONYMOUS,
            offset: *offset,
            count: *count,
        })?,
        _ => {}
    }
    Ok(())
}

fn ask<'a>(alloc: Global, known: &Known, running: &Running) -> Result<Plan<'a>, AllocError>
    requires { ActionFits running.now.action }
    ensures plan { IfOk result (λ plan. plan ≡ Plan.Ask (in_session known.now
        ∷ to_target running.now.action ++ asking running.now.action running.now.cookie)) }
    ensures fits { IfOk result PlanFits }
{
    let mut ops = Vec::new(alloc);
    ops.push(in_session(known))?;
    put_way(alloc, &mut ops, &running.action)?;
    put_asking(&mut ops, &running.action, running.cookie)?;
    Ok(Plan::Ask(Items::new(ops)))
}

/// No attributes. Takes no memory.
fn no_attrs(alloc: Global) -> RawAttrs
    ensures attrs { result ≡ no_attrs }
    ensures fit { AttrsFit result }
{
    RawAttrs {
        mask: Bitmap { words: [0; 8] },
        list: Octets::new(Vec::new(alloc)),
    }
}

/// An OPEN for writing that makes a file of this name.
fn make<'a>(alloc: Global, client: u64, owner: &[u8], name: Octets) -> Result<Op<'a>, AllocError>
    requires owner { length owner.now ≤ OWNER_LIMIT }
    requires name { length name ≤ 255 }
    ensures op { IfOk result (λ op. op ≡ Op.Open 0 access_write 0 client owner.now
        (Some (Guarded no_attrs)) (Name name)) }
    ensures fits { IfOk result OpFits }
{
    let owner = Octets::from_slice(alloc, owner)?;
    let attrs = no_attrs(alloc);
    Ok(Op::Open {
        seqid: 0,
        access: ACCESS_WRITE,
        deny: 0,
        client,
        owner,
        making: Some(Making::Guarded { attrs }),
        claim: Claim::Name { name },
    })
}

/// Appends what an action changes at the node that it is enforced on.
fn put_change<'a>(
    alloc: Global,
    policy: &Policy,
    codecs: &Codecs,
    known: &Known,
    action: &'a Action,
    ops: &mut Vec<Op<'a>>,
) -> Result<(), AllocError>
    requires owner { length known.now.owner ≤ OWNER_LIMIT }
    requires fits { ActionFits action.now }
    requires suits { ActionSuits policy.now action.now }
    ensures ops { OnOk result (ops.new.items ≡ ops.old.items
        ++ change policy.now known.now action.now) }
    ensures fits { All OpFits ops.old.items → OnOk result (All OpFits ops.new.items) }
    ensures few { OnOk result (length ops.new.items ≤ length ops.old.items + 1) }
{
    match action {
        Action::Write {
            offset,
            content,
            ..
        } => ops.push(Op::Write {
            id: ANONYMOUS,
            offset: *offset,
            stable: FILE_SYNC,
            content: Span::new(content.as_slice()),
        })?,
        Action::Make { .. } => {
            let name = last_name(alloc, action)?;
            ops.push(make(alloc, known.client, known.owner.as_slice(), name)?)?;
        }
        Action::Mkdir { level, .. } => ops.push(Op::Create {
            what: What::Dir,
            name: last_name(alloc, action)?,
            attrs: as_attributes(alloc, &spell(alloc, policy, codecs, *level)?)?,
        })?,
        Action::Remove { .. } => ops.push(Op::Remove {
            name: last_name(alloc, action)?,
        })?,
        Action::Raise { level, .. } => ops.push(Op::SetAttr {
            id: ANONYMOUS,
            attrs: as_attributes(alloc, &spell(alloc, policy, codecs, *level)?)?,
        })?,
        _ => {}
    }
    Ok(())
}

/// The comparison with the label that was read.
fn guard<'a>(alloc: Global, label: &Option<LabelValue>) -> Result<Op<'a>, AllocError>
    requires { IfSome label.now IsShort }
    ensures op { IfOk result (λ op. op
        ≡ Op.Verify (as_attributes (unwrap_or label.now unspelled))) }
    ensures fits { IfOk result OpFits }
{
    let attrs = match label {
        Some(label) => as_attributes(alloc, label)?,
        None => as_attributes(alloc, &unspelled(alloc))?,
    };
    Ok(Op::Verify { attrs })
}

/// Appends the comparison, and behind it what an action changes.
fn put_guarded<'a>(
    alloc: Global,
    policy: &Policy,
    codecs: &Codecs,
    known: &Known,
    running: &'a Running,
    ops: &mut Vec<Op<'a>>,
) -> Result<(), AllocError>
    requires owner { length known.now.owner ≤ OWNER_LIMIT }
    requires fits { RunningFits running.now }
    requires suits { ActionSuits policy.now running.now.action }
    ensures ops { OnOk result (ops.new.items ≡ ops.old.items
        ++ guard running.now ∷ change policy.now known.now running.now.action) }
    ensures fits { All OpFits ops.old.items → OnOk result (All OpFits ops.new.items) }
    ensures few { OnOk result (length ops.new.items ≤ length ops.old.items + 2) }
{
    ops.push(guard(alloc, &running.label)?)?;
    put_change(alloc, policy, codecs, known, &running.action, ops)
}

fn modify<'a>(
    alloc: Global,
    policy: &Policy,
    codecs: &Codecs,
    known: &Known,
    running: &'a Running,
) -> Result<Plan<'a>, AllocError>
    requires owner { length known.now.owner ≤ OWNER_LIMIT }
    requires fits { RunningFits running.now }
    requires suits { ActionSuits policy.now running.now.action }
    ensures plan { IfOk result (λ plan. plan ≡ Plan.Ask (in_session known.now
        ∷ to_target running.now.action ++ guard running.now
        ∷ change policy.now known.now running.now.action)) }
    ensures fits { IfOk result PlanFits }
{
    let mut ops = Vec::new(alloc);
    ops.push(in_session(known))?;
    put_way(alloc, &mut ops, &running.action)?;
    put_guarded(alloc, policy, codecs, known, running, &mut ops)?;
    Ok(Plan::Ask(Items::new(ops)))
}

/// The CLOSE of an open that was told.
fn close_of<'a>(seqid: u32, other: [u8; 12]) -> Op<'a>
    ensures op { result ≡ Op.Close 0 (record { seqid = seqid; other = other }) }
    ensures fits { OpFits result }
{
    Op::Close {
        seqid: 0,
        id: StateId { seqid, other },
    }
}

fn close<'a>(alloc: Global, known: &Known, running: &Running) -> Result<Plan<'a>, AllocError>
    requires { ActionFits running.now.action }
    ensures plan { IfOk result (λ plan. plan ≡ Plan.Ask (in_session known.now
        ∷ walk (names_of running.now.action) ++ Op.Close 0 running.now.opened ∷ [])) }
    ensures fits { IfOk result PlanFits }
{
    let mut ops = Vec::new(alloc);
    ops.push(in_session(known))?;
    put_whole_way(alloc, &mut ops, &running.action)?;
    ops.push(close_of(running.opened.seqid, running.opened.other))?;
    Ok(Plan::Ask(Items::new(ops)))
}

fn end_session<'a>(alloc: Global, session: [u8; 16]) -> Result<Plan<'a>, AllocError>
    ensures plan { IfOk result (λ plan. plan ≡ Plan.Ask (Op.DestroySession session ∷ [])) }
    ensures fits { IfOk result PlanFits }
{
    alone(alloc, Op::DestroySession { session })
}

fn end_client<'a>(alloc: Global, client: u64) -> Result<Plan<'a>, AllocError>
    ensures plan { IfOk result (λ plan. plan ≡ Plan.Ask (Op.DestroyClientId client ∷ [])) }
    ensures fits { IfOk result PlanFits }
{
    alone(alloc, Op::DestroyClientId { client })
}

/// What the next request of an action asks. Fails only for want of memory.
#[tactic(auto, unfolding(crate::specs::Requests::ops_of))]
pub fn plan<'a>(
    alloc: Global,
    policy: &Policy,
    codecs: &Codecs,
    known: &Known,
    running: &'a Running,
) -> Result<Plan<'a>, AllocError>
    requires owner { length known.now.owner ≤ OWNER_LIMIT }
    requires level { known.now.level.0 < length policy.now.labels }
    requires fits { RunningFits running.now }
    requires suits { ActionSuits policy.now running.now.action }
    ensures plan { IfOk result (λ made. made ≡ plan policy.now known.now running.now) }
    ensures fits { IfOk result PlanFits }
{
    match running.stage {
        Stage::Asserting => Ok(Plan::Assert(spell(alloc, policy, codecs, known.level)?)),
        Stage::Exchanging => exchange(alloc, known),
        Stage::Creating => create(alloc, known),
        Stage::Reclaiming => reclaim(alloc, known),
        Stage::Asking => ask(alloc, known, running),
        Stage::Changing => modify(alloc, policy, codecs, known, running),
        Stage::Closing => close(alloc, known, running),
        Stage::EndingSession => end_session(alloc, known.session),
        Stage::EndingClient => end_client(alloc, known.client),
        Stage::EndingContext => Ok(Plan::End),
    }
}
