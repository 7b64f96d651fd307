//! The servers of the program.
ghost use Rattle.std.specs.Prelude.{◌≡◌, [], false, IfOk};

use lnfs_format::Codecs;
use lnfs_further::{Further, new_further};
use lnfs_gss3::Mechanism;
use lnfs_policy::Policy;
use lnfs_vault::VaultOf;
use std::alloc::{AllocError, Global};

/// The server of a site, with the further operations.
pub type Server<M> = VaultOf<M, Further>;

/// A server of a site, that was given no event. The codecs write its labels.
///
/// # Errors
///
/// `AllocError` where there is no memory.
pub fn new_server<M: Mechanism + Drop>(
    alloc: Global,
    policy: Policy,
    codecs: &Codecs,
    mechanism: M,
) -> Result<Server<M>, AllocError>
    ensures { IfOk result (λ server. server ≡ record
        { policy = policy; journal = []; stopped = false }) }
{
    VaultOf::with_extra(alloc, policy, codecs, mechanism, new_further(alloc))
}
