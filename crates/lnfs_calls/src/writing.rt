//! Calls, written in two steps, since a verifier may depend on the header before it.
ghost use Rattle.std.specs.Prelude.{◌≡◌, ◌<◌, ◌++◌, ◌^◌, IfOk, OnOk, length};
ghost use Rattle.lnfs_rpc.specs.Calls.{seen_auth};
ghost use Rattle.lnfs_calls.specs.CallTexts.{auth_text, header_text, call_text};

use lnfs_rpc::{Auth, CALL, NFS_PROGRAM, NFS_VERSION, RPC_VERSION};
use lnfs_xdr::XdrWriter;
use std::alloc::{AllocError, Global};

/// The room that is made for the flavor, the length and the pad bytes of a verifier.
const AUTH_ROOM: usize = 11;

#[tactic(auto, unfolding(crate::specs::CallTexts::auth_text))]
fn put_auth(out: &mut XdrWriter, auth: &Auth<'_>) -> Result<(), AllocError>
    requires { length auth.now.body.now < 2 ^ 32 }
    ensures { OnOk result (out.new ≡ out.old ++ auth_text (seen_auth auth.now)) }
{
    out.u32(auth.flavor)?;
    out.opaque(auth.body)
}

/// The header of a call of NFS version 4: the record from the transaction through the credential (RFC 5531 section 9). Fails
/// only for want of memory.
#[tactic(auto, unfolding(crate::specs::CallTexts::header_text))]
pub fn write_header(
    alloc: Global,
    xid: u32,
    procedure: u32,
    credential: &Auth<'_>,
) -> Result<Vec<u8>, AllocError>
    requires { length credential.now.body.now < 2 ^ 32 }
    ensures { IfOk result (λ header. header.items ≡ header_text xid procedure
        (seen_auth credential.now)) }
{
    let mut out = XdrWriter::new(alloc);
    out.u32(xid)?;
    out.u32(CALL)?;
    out.u32(RPC_VERSION)?;
    out.u32(NFS_PROGRAM)?;
    out.u32(NFS_VERSION)?;
    out.u32(procedure)?;
    put_auth(&mut out, credential)?;
    Ok(out.into_bytes())
}

/// The record of a call with this header: behind it the verifier and the arguments. Fails only for want of memory.
pub fn end_call(
    alloc: Global,
    header: &[u8],
    verifier: &Auth<'_>,
    arguments: &[u8],
) -> Result<Vec<u8>, AllocError>
    requires { length verifier.now.body.now < 2 ^ 32 }
    ensures { IfOk result (λ message. message.items ≡ header.now
        ++ auth_text (seen_auth verifier.now) ++ arguments.now) }
{
    let room = AUTH_ROOM
        .saturating_add(header.len())
        .saturating_add(verifier.body.len())
        .saturating_add(arguments.len());
    let mut out = XdrWriter::with_capacity(alloc, room)?;
    out.raw(header)?;
    put_auth(&mut out, verifier)?;
    out.raw(arguments)?;
    Ok(out.into_bytes())
}

/// The record of a call of NFS version 4 (RFC 5531 section 9). Procedures are 0, which is NULL, and 1, which is COMPOUND; a server
/// takes a credential and a verifier of at most 400 bytes. Fails only for want of memory.
#[tactic(auto, unfolding(crate::specs::CallTexts::call_text))]
pub fn write_call(
    alloc: Global,
    xid: u32,
    procedure: u32,
    credential: &Auth<'_>,
    verifier: &Auth<'_>,
    arguments: &[u8],
) -> Result<Vec<u8>, AllocError>
    requires credential { length credential.now.body.now < 2 ^ 32 }
    requires verifier { length verifier.now.body.now < 2 ^ 32 }
    ensures { IfOk result (λ message. message.items ≡ call_text xid procedure
        (seen_auth credential.now) (seen_auth verifier.now) arguments.now) }
{
    let header = write_header(alloc, xid, procedure, credential)?;
    end_call(alloc, &header, verifier, arguments)
}
