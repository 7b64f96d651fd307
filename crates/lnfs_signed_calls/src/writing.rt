//! The three calls, and what they have in common.
ghost use Rattle.std.specs.Prelude.{◌≡◌, ◌<◌, ◌≤◌, ◌+◌, ◌^◌, IfOk, length};
ghost use Rattle.lnfs_types.specs.declared.limits.TheConstants.{RECORD_LIMIT};
ghost use Rattle.lnfs_gss3.specs.Replies.{wrapped};
ghost use Rattle.lnfs_calls.specs.CallTexts.{header_text};
ghost use Rattle.lnfs_signed_calls.specs.SignedCalls.{gss_auth, signed_call, create_call, data_call, destroy_call};

use crate::call::SignedCall;
use lnfs_calls::{end_call, write_header};
use lnfs_gss3::numbers::{
    INTEGRITY, PROC_NULL, RPCSEC_GSS_CREATE, RPCSEC_GSS_DATA, RPCSEC_GSS_DESTROY,
};
use lnfs_gss3::{Mechanism, append_signed, begin_databody, create_args, credential_body};
use lnfs_policy::Parent;
use lnfs_rpc::{Auth, PROC_COMPOUND};
use lnfs_types::Octets;
use lnfs_xdr::{RPCSEC_GSS, XdrWriter};
use std::alloc::{AllocError, Global};

/// The header of a call that asks this of the mechanism, by `gss_proc`.
fn header_of(
    alloc: Global,
    xid: u32,
    procedure: u32,
    asked: u32,
    handle: &[u8],
) -> Result<Vec<u8>, AllocError>
    requires { length handle.now ≤ RECORD_LIMIT }
    ensures { IfOk result (λ header. header.items ≡ header_text xid procedure
        (gss_auth asked xid handle.now)) }
{
    let body = credential_body(alloc, asked, xid, INTEGRITY, handle)?;
    let credential = Auth {
        flavor: RPCSEC_GSS,
        body: &body,
    };
    write_header(alloc, xid, procedure, &credential)
}

/// Arguments as they are sent: behind the sequence number, and signed.
#[tactic(auto, unfolding(lnfs_gss3::specs::Grammar::databody))]
fn wrap<M: Mechanism>(
    alloc: Global,
    mechanism: &M,
    parent: &Parent,
    sequence: u32,
    arguments: &[u8],
) -> Result<Vec<u8>, AllocError>
    requires { length arguments.now + 4 < 2 ^ 32 }
    ensures { IfOk result (λ bytes. bytes.items ≡ wrapped M.signing parent.now sequence
        arguments.now) }
{
    let mut body = begin_databody(alloc, sequence, arguments.len())?;
    body.raw(arguments)?;
    let databody = body.into_bytes();
    let mut out = XdrWriter::new(alloc);
    append_signed(&mut out, mechanism, parent, &databody)?;
    Ok(out.into_bytes())
}

/// The call with this header: behind it the parent's signature of it, and the arguments.
fn signed_call<M: Mechanism>(
    alloc: Global,
    mechanism: &M,
    parent: &Parent,
    header: &[u8],
    arguments: &[u8],
) -> Result<SignedCall, AllocError>
    ensures { IfOk result (λ call. call ≡ signed_call M.signing parent.now header.now
        arguments.now) }
{
    let mic = mechanism.sign(parent, header);
    let verifier = Auth {
        flavor: RPCSEC_GSS,
        body: &mic,
    };
    let message = end_call(alloc, header, &verifier, arguments)?;
    Ok(SignedCall {
        message: Octets::new(message),
        header: header.len(),
    })
}

/// A CREATE: a context is asked for under a parent, for a label in a format (RFC 7861 section 2.7.1). Fails only for want of memory.
#[tactic(auto, unfolding(lnfs_xdr::specs::Canon::word))]
pub fn write_create<M: Mechanism>(
    alloc: Global,
    mechanism: &M,
    parent: &Parent,
    xid: u32,
    lfs: u32,
    pi: u32,
    label: &[u8],
) -> Result<SignedCall, AllocError>
    requires { length label.now ≤ RECORD_LIMIT }
    ensures { IfOk result (λ call. call ≡ create_call M.signing parent.now xid
        (record { lfs = lfs; pi = pi; label = label.now })) }
{
    let handle = parent.number.to_be_bytes();
    let header = header_of(alloc, xid, PROC_NULL, RPCSEC_GSS_CREATE, &handle)?;
    let args = create_args(alloc, lfs, pi, label)?;
    let arguments = wrap(alloc, mechanism, parent, xid, &args)?;
    signed_call(alloc, mechanism, parent, &header, &arguments)
}

/// A DATA: a call of COMPOUND with these arguments, in the context that a handle names (RFC 2203 section 5.3). Fails only for want of
/// memory.
pub fn write_data<M: Mechanism>(
    alloc: Global,
    mechanism: &M,
    parent: &Parent,
    xid: u32,
    handle: &[u8],
    arguments: &[u8],
) -> Result<SignedCall, AllocError>
    requires handle { length handle.now ≤ RECORD_LIMIT }
    requires arguments { length arguments.now + 4 < 2 ^ 32 }
    ensures { IfOk result (λ call. call ≡ data_call M.signing parent.now xid handle.now
        arguments.now) }
{
    let header = header_of(alloc, xid, PROC_COMPOUND, RPCSEC_GSS_DATA, handle)?;
    let wrapped = wrap(alloc, mechanism, parent, xid, arguments)?;
    signed_call(alloc, mechanism, parent, &header, &wrapped)
}

/// A DESTROY: the context that a handle names ends (RFC 2203 section 5.4). Fails only for want of memory.
pub fn write_destroy<M: Mechanism>(
    alloc: Global,
    mechanism: &M,
    parent: &Parent,
    xid: u32,
    handle: &[u8],
) -> Result<SignedCall, AllocError>
    requires { length handle.now ≤ RECORD_LIMIT }
    ensures { IfOk result (λ call. call ≡ destroy_call M.signing parent.now xid handle.now) }
{
    let header = header_of(alloc, xid, PROC_NULL, RPCSEC_GSS_DESTROY, handle)?;
    signed_call(alloc, mechanism, parent, &header, &[])
}
