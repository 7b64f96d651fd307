//! What operations on locks answer.
ghost use Rattle.std.specs.Prelude.{◌≡◌, [], Some, None, Ok, IfOk};
ghost use Rattle.lnfs_nodes.specs.Trees.{refusal_of};
ghost use Rattle.lnfs_engine.specs.Further.{said_of};
ghost use Rattle.lnfs_byte_locks.specs.Answers.{said_by, tested_by, CanBeTold};

use crate::denials::denial_text;
use lnfs_engine::ExtraRan;
use lnfs_locking::Denied;
use lnfs_locks::numbers::NFS4ERR_DENIED;
use lnfs_operations::{Gate, Refusal};
use lnfs_types::Octets;
use std::alloc::{AllocError, Global};

/// A success that tells nothing, or a refusal.
pub fn told_nothing(alloc: Global, refusal: Option<Refusal>) -> ExtraRan
    ensures refusal { result.refusal ≡ refusal }
    ensures bytes { result.bytes ≡ [] }
{
    ExtraRan {
        refusal,
        bytes: Octets::new(Vec::new(alloc)),
    }
}

/// What is answered of a refusal.
pub fn refused(alloc: Global, why: Refusal) -> ExtraRan
    ensures { said_of result ≡ record { refusal = Some (refusal_of why); bytes = [] } }
{
    told_nothing(alloc, Some(why))
}

/// What is answered where another's lock stands in the way, or none does (RFC 8881 sections 18.10.2 and 18.11.2).
pub fn tested(alloc: Global, in_way: Option<Denied<'_>>) -> Result<ExtraRan, AllocError>
    requires { CanBeTold in_way }
    ensures { IfOk result (λ ran. said_of ran ≡ said_by (tested_by (Ok in_way.entry))) }
{
    let Some(denied) = in_way else {
        return Ok(told_nothing(alloc, None));
    };
    Ok(ExtraRan {
        refusal: Some(Refusal {
            gate: Gate::Open,
            status: NFS4ERR_DENIED,
        }),
        bytes: denial_text(alloc, &denied)?,
    })
}
