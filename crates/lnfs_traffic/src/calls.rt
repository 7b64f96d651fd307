//! The calls of guests.
ghost use Rattle.std.specs.Prelude.{◌≡◌, IfOk};
ghost use Rattle.lnfs_rpc.specs.Numbers.{last_procedure};
ghost use Rattle.lnfs_calls.specs.CallTexts.{call_text};
ghost use Rattle.lnfs_traffic.specs.Generated.{credential, no_verifier};

use lnfs_calls::{sys_body, write_call};
use lnfs_rpc::{Auth, PROC_COMPOUND};
use lnfs_xdr::{AUTH_NONE, AUTH_SYS};
use std::alloc::{AllocError, Global};

const MACHINE: &[u8] = b"gen";

/// A call of a COMPOUND with these arguments, by AUTH_SYS of a user in group 0, from a machine that is called `gen`
/// (RFC 5531 section 9 and appendix A).
pub fn write_request(
    alloc: Global,
    xid: u32,
    uid: u32,
    arguments: &[u8],
) -> Result<Vec<u8>, AllocError>
    ensures { IfOk result (λ v. v.items ≡ call_text xid last_procedure (credential uid) no_verifier
        arguments.now) }
{
    let body = sys_body(alloc, MACHINE, uid)?;
    let credential = Auth {
        flavor: AUTH_SYS,
        body: &body,
    };
    let verifier = Auth {
        flavor: AUTH_NONE,
        body: &[],
    };
    write_call(alloc, xid, PROC_COMPOUND, &credential, &verifier, arguments)
}
