//! The credential of a user (RFC 5531 appendix A).
ghost use Rattle.std.specs.Prelude.{◌≡◌, ◌<◌, ◌^◌, IfOk, length};
ghost use Rattle.lnfs_calls.specs.CallTexts.{user_auth};

use lnfs_requests::put_sys;
use lnfs_xdr::XdrWriter;
use std::alloc::{AllocError, Global};

/// The body of the AUTH_SYS credential of a user in group 0, and in no other, from a machine of a name: its stamp is 0 (RFC 5531
/// appendix A). A server takes names of at most `MACHINE_LIMIT` bytes. Fails only for want of memory.
pub fn sys_body(alloc: Global, machine: &[u8], uid: u32) -> Result<Vec<u8>, AllocError>
    requires { length machine.now < 2 ^ 32 }
    ensures { IfOk result (λ body. body.items ≡ (user_auth machine.now uid).body) }
{
    let mut out = XdrWriter::new(alloc);
    put_sys(&mut out, 0, machine, uid, 0, &[])?;
    Ok(out.into_bytes())
}
