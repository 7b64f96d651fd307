//! The writers of the operations on clients and sessions.
ghost use Rattle.std.specs.Prelude.{◌≡◌, ◌++◌, ◌<◌, ◌≤◌, ◌^◌, length, All, OnOk};
ghost use Rattle.std.specs.List.{flat_map};
ghost use Rattle.lnfs_xdr.specs.Canon.{word};
ghost use Rattle.lnfs_requests.specs.Texts.{implementation_text, sys_text, callback_text, create_session_text, sequence_text, op_text};
ghost use Rattle.lnfs_requests.specs.Fits.{ImplementationFits, CallbackFits, CreateSessionFits, OpFits};

use lnfs_arguments::numbers::{
    OP_CREATE_SESSION, OP_DESTROY_CLIENTID, OP_DESTROY_SESSION, OP_EXCHANGE_ID,
    OP_RECLAIM_COMPLETE, OP_SEQUENCE, SP4_NONE,
};
use lnfs_arguments::{Callback, CreateSession, Implementation, Op, Sequence, put_channel};
use lnfs_attrs::put_words;
use lnfs_types::Octets;
use lnfs_xdr::{AUTH_NONE, AUTH_SYS, RPCSEC_GSS, XdrWriter};
use std::alloc::AllocError;

#[tactic(auto, unfolding(crate::specs::Texts::implementation_text))]
fn put_implementation(
    out: &mut XdrWriter,
    implementation: &Option<Implementation>,
) -> Result<(), AllocError>
    requires { ImplementationFits implementation.now }
    ensures { OnOk result (out.new ≡ out.old ++ implementation_text implementation.now) }
{
    match implementation {
        None => out.u32(0),
        Some(made) => {
            out.u32(1)?;
            out.opaque(made.domain.as_slice())?;
            out.opaque(made.name.as_slice())?;
            out.u64(made.secs)?;
            out.u32(made.nanos)
        }
    }
}

/// Appends EXCHANGE_ID (RFC 8881 section 18.35). Fails only for want of memory.
#[tactic(auto, unfolding(crate::specs::Texts::op_text))]
pub fn put_exchange_id(
    out: &mut XdrWriter,
    verifier: &[u8; 8],
    owner: &Octets,
    flags: u32,
    implementation: &Option<Implementation>,
) -> Result<(), AllocError>
    requires { OpFits (Op.ExchangeId verifier.now owner.now flags implementation.now) }
    ensures { OnOk result (out.new ≡ out.old ++ op_text
        (Op.ExchangeId verifier.now owner.now flags implementation.now)) }
{
    out.u32(OP_EXCHANGE_ID)?;
    out.fixed(verifier)?;
    out.opaque(owner.as_slice())?;
    out.u32(flags)?;
    out.u32(SP4_NONE)?;
    put_implementation(out, implementation)
}

/// Appends the body of an AUTH_SYS credential (RFC 5531 appendix A). Fails only for want of memory.
#[tactic(auto, unfolding(crate::specs::Texts::sys_text))]
pub fn put_sys(
    out: &mut XdrWriter,
    stamp: u32,
    machine: &[u8],
    uid: u32,
    gid: u32,
    gids: &[u32],
) -> Result<(), AllocError>
    requires machine { length machine.now < 2 ^ 32 }
    requires gids { length gids.now < 2 ^ 32 }
    ensures { OnOk result (out.new ≡ out.old ++ sys_text
        (record { stamp = stamp; machine = machine.now; uid = uid; gid = gid; gids = gids.now })) }
{
    out.u32(stamp)?;
    out.opaque(machine)?;
    out.u32(uid)?;
    out.u32(gid)?;
    put_words(out, gids)
}

#[tactic(auto, unfolding(crate::specs::Texts::callback_text))]
fn put_callback(out: &mut XdrWriter, callback: &Callback) -> Result<(), AllocError>
    requires { CallbackFits callback.now }
    ensures { OnOk result (out.new ≡ out.old ++ callback_text callback.now) }
{
    match callback {
        Callback::Nothing => out.u32(AUTH_NONE),
        Callback::Sys {
            stamp,
            machine,
            uid,
            gid,
            gids,
        } => {
            out.u32(AUTH_SYS)?;
            put_sys(out, *stamp, machine.as_slice(), *uid, *gid, gids.as_slice())
        }
        Callback::Gss {
            service,
            server,
            client,
        } => {
            out.u32(RPCSEC_GSS)?;
            out.u32(*service)?;
            out.opaque(server.as_slice())?;
            out.opaque(client.as_slice())
        }
    }
}

fn put_callbacks(out: &mut XdrWriter, callbacks: &[Callback]) -> Result<(), AllocError>
    requires few { length callbacks.now ≤ 16 }
    requires each { All CallbackFits callbacks.now }
    ensures { OnOk result (out.new ≡ out.old ++ word (length callbacks.now)
        ++ flat_map callback_text callbacks.now) }
{
    out.u32(callbacks.len() as u32)?;
    for callback in callbacks {
        put_callback(out, callback)?;
    }
    Ok(())
}

#[tactic(auto, unfolding(crate::specs::Texts::create_session_text))]
fn put_create_session_args(out: &mut XdrWriter, args: &CreateSession) -> Result<(), AllocError>
    requires { CreateSessionFits args.now }
    ensures { OnOk result (out.new ≡ out.old ++ create_session_text args.now) }
{
    out.u64(args.client)?;
    out.u32(args.sequence)?;
    out.u32(args.flags)?;
    put_channel(out, &args.fore)?;
    put_channel(out, &args.back)?;
    out.u32(args.program)?;
    put_callbacks(out, args.callbacks.as_slice())
}

/// Appends CREATE_SESSION (RFC 8881 section 18.36). Fails only for want of memory.
#[tactic(auto, unfolding(crate::specs::Texts::op_text))]
pub fn put_create_session(out: &mut XdrWriter, args: &CreateSession) -> Result<(), AllocError>
    requires { OpFits (Op.CreateSession args.now) }
    ensures { OnOk result (out.new ≡ out.old ++ op_text (Op.CreateSession args.now)) }
{
    out.u32(OP_CREATE_SESSION)?;
    put_create_session_args(out, args)
}

/// Appends DESTROY_SESSION (RFC 8881 section 18.37). Fails only for want of memory.
#[tactic(auto, unfolding(crate::specs::Texts::op_text))]
pub fn put_destroy_session(out: &mut XdrWriter, session: &[u8; 16]) -> Result<(), AllocError>
    ensures { OnOk result (out.new ≡ out.old ++ op_text (Op.DestroySession session.now)) }
{
    out.u32(OP_DESTROY_SESSION)?;
    out.fixed(session)
}

#[tactic(auto, unfolding(crate::specs::Texts::sequence_text))]
fn put_sequence_args(out: &mut XdrWriter, args: &Sequence) -> Result<(), AllocError>
    ensures { OnOk result (out.new ≡ out.old ++ sequence_text args.now) }
{
    out.fixed(&args.session)?;
    out.u32(args.sequence)?;
    out.u32(args.slot)?;
    out.u32(args.highest)?;
    out.boolean(args.cachethis)
}

/// Appends SEQUENCE (RFC 8881 section 18.46). Fails only for want of memory.
#[tactic(auto, unfolding(crate::specs::Texts::op_text))]
pub fn put_sequence(out: &mut XdrWriter, args: &Sequence) -> Result<(), AllocError>
    ensures { OnOk result (out.new ≡ out.old ++ op_text (Op.Sequence args.now)) }
{
    out.u32(OP_SEQUENCE)?;
    put_sequence_args(out, args)
}

/// Appends DESTROY_CLIENTID (RFC 8881 section 18.50). Fails only for want of memory.
#[tactic(auto, unfolding(crate::specs::Texts::op_text))]
pub fn put_destroy_clientid(out: &mut XdrWriter, client: u64) -> Result<(), AllocError>
    ensures { OnOk result (out.new ≡ out.old ++ op_text (Op.DestroyClientId client)) }
{
    out.u32(OP_DESTROY_CLIENTID)?;
    out.u64(client)
}

/// Appends RECLAIM_COMPLETE (RFC 8881 section 18.51). Fails only for want of memory.
#[tactic(auto, unfolding(crate::specs::Texts::op_text))]
pub fn put_reclaim_complete(out: &mut XdrWriter, one_fs: bool) -> Result<(), AllocError>
    ensures { OnOk result (out.new ≡ out.old ++ op_text (Op.ReclaimComplete one_fs)) }
{
    out.u32(OP_RECLAIM_COMPLETE)?;
    out.boolean(one_fs)
}
