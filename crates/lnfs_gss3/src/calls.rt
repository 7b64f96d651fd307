//! What a call by RPCSEC_GSS version 3 carries, as a client writes it (RFC 2203 section 5, RFC 7861 section 2.7.1).
ghost use Rattle.std.specs.Prelude.{◌≡◌, ◌<◌, ◌^◌, IfOk, length};
ghost use Rattle.lnfs_gss3.specs.Grammar.{create_args_text, credential_text};

use crate::numbers::{LABEL, RPCSEC_GSS_VERS_3};
use lnfs_xdr::XdrWriter;
use std::alloc::{AllocError, Global};

/// The body of a credential: `gss_proc`, the sequence number, the service, and the handle of a parent or of a context.
#[tactic(auto, unfolding(crate::specs::Grammar::credential_text))]
pub fn credential_body(
    alloc: Global,
    procedure: u32,
    seq: u32,
    service: u32,
    handle: &[u8],
) -> Result<Vec<u8>, AllocError>
    requires { length handle.now < 2 ^ 32 }
    ensures { IfOk result (λ body. body.items ≡ credential_text
        (record { procedure = procedure; sequence = seq; service = service; handle = handle.now })) }
{
    let mut out = XdrWriter::new(alloc);
    out.u32(RPCSEC_GSS_VERS_3)?;
    out.u32(procedure)?;
    out.u32(seq)?;
    out.u32(service)?;
    out.opaque(handle)?;
    Ok(out.into_bytes())
}

/// The arguments of CREATE: no second principal, no binding to a channel, and one assertion, of a label in a format.
#[tactic(auto, unfolding(crate::specs::Grammar::create_args_text, crate::specs::Grammar::assertion_text))]
pub fn create_args(alloc: Global, lfs: u32, pi: u32, label: &[u8]) -> Result<Vec<u8>, AllocError>
    requires { length label.now < 2 ^ 32 }
    ensures { IfOk result (λ args. args.items ≡ create_args_text
        (record { lfs = lfs; pi = pi; label = label.now })) }
{
    let mut out = XdrWriter::new(alloc);
    out.u32(0)?;
    out.u32(0)?;
    out.u32(1)?;
    out.u32(LABEL)?;
    out.u32(lfs)?;
    out.u32(pi)?;
    out.opaque(label)?;
    Ok(out.into_bytes())
}
