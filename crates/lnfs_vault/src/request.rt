//! What a record asks, and of which level.
ghost use Rattle.std.specs.Prelude.{◌≡◌, ℕ, Err, IfOk};
ghost use Rattle.lnfs_rpc.specs.Calls.{seen_call};
ghost use Rattle.lnfs_policy.specs.Policy.{Policy};
ghost use Rattle.lnfs_gss3.specs.Mechanism.{Signing};
ghost use Rattle.lnfs_step.specs.Request.{wrapping_of, null_call, run_of, run_signed, asked_by, asked_of, request_with};
ghost use Rattle.lnfs_vault.specs.Requests.{seen_wrapping, seen_task, seen_asked, IsAsked, IsBrief, IsFormed};

use lnfs_arguments::{Compound, CompoundError, ExtraGrammar, read_compound};
use lnfs_calipso::Level;
use lnfs_format::Codecs;
use lnfs_gss3::numbers::{AUTH_BADCRED, SIGNATURE};
use lnfs_gss3::{Caller, Mechanism, body, who};
use lnfs_policy::{Parent, Policy};
use lnfs_rpc::{CallError, read_call};
use lnfs_step::numbers::GARBAGE_ARGS;
use lnfs_types::Octets;
use std::alloc::{AllocError, Global};

/// What refuses a call as a whole.
#[derive(Clone, Copy, Debug, PartialEq, Eq)]
pub enum Cause {
    /// Who calls: the `auth_stat`.
    Caller { stat: u32 },
    /// What is called: the `accept_stat`.
    Called { stat: u32 },
    /// The version of RPC.
    Version,
}

/// How the reply to a call is wrapped.
#[derive(Clone, Copy, Debug)]
pub enum Wrapping<'p, 'a> {
    /// By the empty verifier, and with results as they are.
    Plain,
    /// Signed under a parent, by the header of the call and the sequence number of its credential.
    Signed {
        parent: &'p Parent,
        header: &'a [u8],
        seq: u32,
    },
}

/// How a reply is sealed: of the record it has the signature of its header alone, so it borrows from the policy.
#[derive(Clone, Copy, Debug)]
pub enum Sealing<'p> {
    /// By the empty verifier, and with results as they are.
    Plain,
    /// Signed under a parent, with its signature of the header and the sequence number of the call's credential.
    Signed {
        parent: &'p Parent,
        mic: [u8; SIGNATURE],
        seq: u32,
    },
}

/// A context of the level of a call.
#[derive(Clone, Copy, Debug)]
pub struct InContext {
    pub parent: u32,
    pub number: u64,
}

/// A call of a level.
#[derive(Clone, Copy, Debug)]
pub struct Call<'p, 'a> {
    pub level: Level,
    pub xid: u32,
    pub wrapping: Wrapping<'p, 'a>,
    /// The context that it comes in, which has to be there.
    pub context: Option<InContext>,
}

/// A COMPOUND with the bytes of its arguments.
#[derive(Debug, Drop)]
pub struct CompoundCall<'a> {
    pub arguments: &'a [u8],
    pub compound: Compound<'a>,
}

/// A context that is asked for: its parent, and the label that is asserted, as it was sent.
#[derive(Debug, Drop)]
pub struct NewContext {
    pub parent: u32,
    pub lfs: u32,
    pub pi: u32,
    pub label: Octets,
}

/// What a call of a level asks.
#[derive(Debug, Drop)]
pub enum Task<'a> {
    /// Nothing that can be read.
    Garbled,
    Run(CompoundCall<'a>),
    MakeContext(NewContext),
    /// The end of the context that the call comes in.
    EndContext(InContext),
}

/// What a record asks. It borrows parents from the policy, and all else from the record.
#[derive(Debug, Drop)]
pub enum Request<'p, 'a> {
    /// Nothing: it is no call, and no reply is due.
    Silent,
    /// A call without a level, which is refused as a whole.
    Refused {
        xid: u32,
        wrapping: Wrapping<'p, 'a>,
        cause: Cause,
    },
    /// NULL.
    Nothing {
        xid: u32,
    },
    Asked(Call<'p, 'a>, Task<'a>),
}

/// The wrapping under the parent of a number.
fn wrapping_of<'p, 'a>(
    policy: &'p Policy,
    call: &lnfs_rpc::Call<'a>,
    parent: u32,
    seq: u32,
) -> Wrapping<'p, 'a>
    ensures { seen_wrapping result ≡ wrapping_of policy.now (seen_call call.now) parent seq }
{
    match policy.parent(parent) {
        Some(parent) => Wrapping::Signed {
            parent,
            header: call.header,
            seq,
        },
        None => Wrapping::Plain,
    }
}

/// NULL has no arguments.
fn null_call<'p, 'a>(xid: u32, args: &[u8]) -> Request<'p, 'a>
    ensures asked { seen_asked result ≡ null_call xid args.now }
    ensures form { IsFormed result }
{
    if args.is_empty() {
        Request::Nothing { xid }
    } else {
        Request::Refused {
            xid,
            wrapping: Wrapping::Plain,
            cause: Cause::Called { stat: GARBAGE_ARGS },
        }
    }
}

/// The COMPOUND that arguments are.
fn run_of<'a, E: ExtraGrammar>(
    alloc: Global,
    extra: &E,
    arguments: &'a [u8],
) -> Result<Task<'a>, AllocError>
    ensures task { IfOk result (λ task. seen_task task ≡ run_of E.grammar arguments.now) }
    ensures few { IfOk result IsBrief }
{
    match read_compound(alloc, arguments, extra) {
        Ok(compound) => Ok(Task::Run(CompoundCall {
            arguments,
            compound,
        })),
        Err(CompoundError::Garbage { .. }) => Ok(Task::Garbled),
        Err(CompoundError::Memory) => Err(AllocError),
    }
}

/// The COMPOUND in a signed body, whose sequence number has to be the credential's.
fn run_signed<'a, E: ExtraGrammar>(
    alloc: Global,
    extra: &E,
    aligned: bool,
    call: &lnfs_rpc::Call<'a>,
) -> Result<Task<'a>, AllocError>
    ensures task { IfOk result (λ task. seen_task task
        ≡ run_signed E.grammar aligned call.now.args.now) }
    ensures few { IfOk result IsBrief }
{
    if !aligned {
        return Ok(Task::Garbled);
    }
    match body(call) {
        Some(arguments) => run_of(alloc, extra, arguments),
        None => Ok(Task::Garbled),
    }
}

/// What a call asks of whom it comes from. The caller is judged before the arguments.
fn asked_by<'p, 'a, E: ExtraGrammar>(
    alloc: Global,
    policy: &'p Policy,
    extra: &E,
    call: &lnfs_rpc::Call<'a>,
    caller: Caller,
) -> Result<Request<'p, 'a>, AllocError>
    ensures asked { IfOk result (λ asked. seen_asked asked
        ≡ asked_by E.grammar policy.now (seen_call call.now) caller) }
    ensures form { IfOk result IsFormed }
{
    let xid = call.xid;
    let asked = match caller {
        Caller::Null => null_call(xid, call.args),
        Caller::Nobody { auth } => Request::Refused {
            xid,
            wrapping: Wrapping::Plain,
            cause: Cause::Caller { stat: auth },
        },
        Caller::Garbage { parent, seq } => Request::Refused {
            xid,
            wrapping: wrapping_of(policy, call, parent, seq),
            cause: Cause::Called { stat: GARBAGE_ARGS },
        },
        Caller::Guest { level } => Request::Asked(
            Call {
                level,
                xid,
                wrapping: Wrapping::Plain,
                context: None,
            },
            run_of(alloc, extra, call.args)?,
        ),
        Caller::Create {
            level,
            parent,
            seq,
            lfs,
            pi,
            label,
        } => Request::Asked(
            Call {
                level,
                xid,
                wrapping: wrapping_of(policy, call, parent, seq),
                context: None,
            },
            Task::MakeContext(NewContext {
                parent,
                lfs,
                pi,
                label,
            }),
        ),
        Caller::Data {
            level,
            parent,
            number,
            seq,
            aligned,
        } => Request::Asked(
            Call {
                level,
                xid,
                wrapping: wrapping_of(policy, call, parent, seq),
                context: Some(InContext { parent, number }),
            },
            run_signed(alloc, extra, aligned, call)?,
        ),
        // no results are signed, so no sequence number is said
        Caller::Destroy {
            level,
            parent,
            number,
        } => Request::Asked(
            Call {
                level,
                xid,
                wrapping: wrapping_of(policy, call, parent, 0),
                context: Some(InContext { parent, number }),
            },
            Task::EndContext(InContext { parent, number }),
        ),
    };
    Ok(asked)
}

/// The refusal of a record that is no call that is served.
fn refused<'p, 'a, E: ExtraGrammar>(error: CallError) -> Request<'p, 'a>
    ensures asked { (m : Signing) (policy : Policy) (class : ℕ) →
        seen_asked result ≡ asked_of E.grammar m policy class (Err error) }
    ensures form { IsFormed result }
{
    let (xid, cause) = match error {
        CallError::NotACall => return Request::Silent,
        CallError::BadHeader { xid } => (xid, Cause::Caller { stat: AUTH_BADCRED }),
        CallError::BadVersion { xid } => (xid, Cause::Version),
        CallError::BadProgram { xid, stat } => (xid, Cause::Called { stat }),
    };
    Request::Refused {
        xid,
        wrapping: Wrapping::Plain,
        cause,
    }
}

/// What a record of a class asks under a policy, where further operations are read too.
#[tactic(auto, unfolding(lnfs_step::specs::Request::request_with))]
fn read_request<'p, 'a, E: ExtraGrammar, M: Mechanism>(
    alloc: Global,
    policy: &'p Policy,
    codecs: &Codecs,
    mechanism: &M,
    extra: &E,
    class: u32,
    message: &'a [u8],
) -> Result<Request<'p, 'a>, AllocError>
    ensures asked { IfOk result (λ asked. seen_asked asked
        ≡ request_with E.grammar M.signing policy.now class message.now) }
    ensures form { IfOk result IsFormed }
{
    match read_call(message) {
        Ok(call) => {
            let caller = who(alloc, policy, codecs, mechanism, class, &call)?;
            asked_by(alloc, policy, extra, &call, caller)
        }
        Err(error) => Ok(refused::<E>(error)),
    }
}

/// What a record of a class asks under a policy, where further operations are read too. The codecs read the labels that are
/// asserted, and the mechanism checks what is signed.
#[tactic(auto, using(crate::proofs::Asking::is_asked))]
pub fn request_of<'p, 'a, E: ExtraGrammar, M: Mechanism>(
    alloc: Global,
    policy: &'p Policy,
    codecs: &Codecs,
    mechanism: &M,
    extra: &E,
    class: u32,
    message: &'a [u8],
) -> Result<Request<'p, 'a>, AllocError>
    ensures asked { IfOk result (λ asked. seen_asked asked
        ≡ request_with E.grammar M.signing policy.now class message.now) }
    ensures read { IfOk result (λ asked. IsAsked (seen_asked asked)) }
    ensures form { IfOk result IsFormed }
{
    read_request(alloc, policy, codecs, mechanism, extra, class, message)
}
