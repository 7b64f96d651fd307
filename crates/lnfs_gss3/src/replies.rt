//! How a call by RPCSEC_GSS version 3 is answered (RFC 7861 section 2.3, RFC 2203 section 5.3.3).
ghost use Rattle.std.specs.Prelude.{◌≡◌, ◌++◌, ◌<◌, ◌^◌, length, IfOk, OnOk, OnErr};
ghost use Rattle.lnfs_xdr.specs.Canon.{word};
ghost use Rattle.lnfs_xdr.specs.Written.{Extends};
ghost use Rattle.lnfs_gss3.specs.Grammar.{create_res_text, handle_text, signed_text};
ghost use Rattle.lnfs_gss3.specs.Replies.{replied, signed_by};

use crate::handle::ContextHandle;
use crate::mechanism::Mechanism;
use crate::numbers::{LABEL, SIGNATURE};
use lnfs_policy::Parent;
use lnfs_rpc::REPLY;
use lnfs_xdr::XdrWriter;
use std::alloc::{AllocError, Global};

/// The bytes of a transaction's number, and of it with the `msg_type`.
const XID: usize = 4;

const BEFORE_VERSION: usize = 8;

/// The bytes of the handle of a context.
const HANDLE: u32 = 16;

/// Begins a databody: the sequence number of the call. What is signed with it is appended behind it. The buffer's room is
/// reserved at once: `content` is how many bytes are to come.
pub fn begin_databody(alloc: Global, seq: u32, content: usize) -> Result<XdrWriter, AllocError>
    ensures { IfOk result (λ out. out ≡ word seq) }
{
    let mut out = XdrWriter::with_capacity(alloc, content.saturating_add(4))?;
    out.u32(seq)?;
    Ok(out)
}

#[tactic(auto, unfolding(crate::specs::Grammar::handle_text))]
fn put_handle(out: &mut XdrWriter, handle: &ContextHandle) -> Result<(), AllocError>
    ensures ok { OnOk result (out.new ≡ out.old ++ word HANDLE ++ handle_text handle.now) }
    ensures err { OnErr result (Extends out.old out.new) }
{
    out.u32(HANDLE)?;
    out.u32(handle.parent)?;
    out.u32(handle.level.0)?;
    out.u64(handle.number)
}

fn put_granted(
    out: &mut XdrWriter,
    handle: &ContextHandle,
    lfs: u32,
    pi: u32,
    label: &[u8],
) -> Result<(), AllocError>
    requires { length label.now < 2 ^ 32 }
    ensures ok { OnOk result (out.new ≡ out.old ++ create_res_text
        (record { handle = handle_text handle.now; assertion = record { lfs = lfs; pi = pi; label = label.now } })) }
    ensures err { OnErr result (Extends out.old out.new) }
{
    put_handle(out, handle)?;
    out.u32(0)?;
    out.u32(0)?;
    out.u32(1)?;
    out.u32(LABEL)?;
    out.u32(lfs)?;
    out.u32(pi)?;
    out.opaque(label)
}

/// Appends the results of CREATE: the handle of the new context, and the assertion as it was sent. Where memory is wanting,
/// the writer is as before.
pub fn put_create_results(
    out: &mut XdrWriter,
    handle: &ContextHandle,
    lfs: u32,
    pi: u32,
    label: &[u8],
) -> Result<(), AllocError>
    requires { length label.now < 2 ^ 32 }
    ensures ok { OnOk result (out.new ≡ out.old ++ create_res_text
        (record { handle = handle_text handle.now; assertion = record { lfs = lfs; pi = pi; label = label.now } })) }
    ensures err { OnErr result (out.new ≡ out.old) }
{
    let mark = out.mark();
    if put_granted(out, handle, lfs, pi, label).is_err() {
        out.truncate(mark);
        return Err(AllocError);
    }
    Ok(())
}

/// Appends a databody and the parent's signature of it. Where memory is wanting, the writer is as before.
#[tactic(auto, unfolding(crate::specs::Grammar::signed_text))]
pub fn append_signed<M: Mechanism>(
    out: &mut XdrWriter,
    mechanism: &M,
    parent: &Parent,
    databody: &[u8],
) -> Result<(), AllocError>
    requires { length databody.now < 2 ^ 32 }
    ensures ok { OnOk result (out.new ≡ out.old ++ signed_text
        (signed_by M.signing parent.now databody.now)) }
    ensures err { OnErr result (out.new ≡ out.old) }
{
    let mic = mechanism.sign(parent, databody);
    let mark = out.mark();
    out.opaque(databody)?;
    if out.opaque(&mic).is_err() {
        out.truncate(mark);
        return Err(AllocError);
    }
    Ok(())
}

/// What the verifier of a reply signs: the call's bytes from the transaction through the credential, as those of a reply.
fn replied_of(alloc: Global, header: &[u8]) -> Result<Vec<u8>, AllocError>
    ensures { IfOk result (λ v. v.items ≡ replied header.now) }
{
    let mut out = XdrWriter::with_capacity(alloc, header.len())?;
    out.raw(&header[..header.len().min(XID)])?;
    out.u32(REPLY)?;
    out.raw(&header[header.len().min(BEFORE_VERSION)..])?;
    Ok(out.into_bytes())
}

/// The signature in a reply's verifier, which has the flavor RPCSEC_GSS: the parent's, of the call's bytes from the
/// transaction through the credential, as those of a reply.
pub fn reply_mic<M: Mechanism>(
    alloc: Global,
    mechanism: &M,
    parent: &Parent,
    header: &[u8],
) -> Result<[u8; SIGNATURE], AllocError>
    ensures { IfOk result (λ mic. mic ≡ M.signing.mic_of parent.now (replied header.now)) }
{
    Ok(mechanism.sign(parent, &replied_of(alloc, header)?))
}

/// Whether bytes are a good signature in the verifier of a reply to the call with this header.
pub fn is_reply_mic<M: Mechanism>(
    alloc: Global,
    mechanism: &M,
    parent: &Parent,
    header: &[u8],
    mic: &[u8],
) -> Result<bool, AllocError>
    ensures { IfOk result (λ good. good ≡ M.signing.good parent.now (replied header.now) mic.now) }
{
    Ok(mechanism.check(parent, &replied_of(alloc, header)?, mic))
}
