//! A server that goes on from the checkpoint that bytes are.
ghost use Rattle.std.specs.Prelude.{◌≡◌, false, Some, IfOk};
ghost use Rattle.lnfs_xdr.specs.Message.{Tells};
ghost use Rattle.lnfs_rows.specs.World.{world_of};
ghost use Rattle.lnfs_lock_rows.specs.Told.{locks_told};
ghost use Rattle.lnfs_layout.specs.Whole.{Told};
ghost use Rattle.lnfs_layout.specs.Parsing.{told_of};
ghost use Rattle.lnfs_checkpoint.specs.Checkpoint.{checkpoint, IsFit};
ghost use Rattle.lnfs_checkpoint.specs.Judged.{IsLaid, IsJudged};
ghost use Rattle.lnfs_checkpoint.specs.Takes.{Takes, IsTaken};

use crate::errors::CheckpointError;
use crate::fit::are_fit;
use crate::lists::parts_of;
use crate::resumed::Resumed;
use crate::telling::{digest_of, levels_of};
use lnfs_format::Codecs;
use lnfs_gss3::Mechanism;
use lnfs_layout::{Laid, LayoutError, read_layout};
use lnfs_policy::Policy;
use lnfs_vault::Core;
use std::alloc::Global;

/// The rows that bytes are under a policy, whatever state they stand for.
fn laid_of<'a>(alloc: Global, policy: &Policy, bytes: &'a [u8]) -> Result<Laid<'a>, CheckpointError>
    ensures { IsLaid policy.now bytes.now result }
{
    let digest = digest_of(alloc, policy)?;
    match read_layout(alloc, levels_of(policy), &digest, bytes) {
        Ok(laid) => Ok(laid),
        Err(LayoutError::Policy) => Err(CheckpointError::Policy),
        Err(LayoutError::Damaged { at }) => Err(CheckpointError::Damaged { at: at as u64 }),
        Err(LayoutError::Memory) => Err(CheckpointError::Memory),
    }
}

/// The rows that bytes are, of a state that a server of the policy may have.
fn judged<'a>(
    alloc: Global,
    policy: &Policy,
    codecs: &Codecs,
    bytes: &'a [u8],
) -> Result<Laid<'a>, CheckpointError>
    ensures { IsJudged policy.now bytes.now result }
{
    let laid = laid_of(alloc, policy, bytes)?;
    let fit = are_fit(alloc, policy, codecs, &laid.lists, &laid.locks)?;
    if !fit {
        return Err(CheckpointError::Unfit);
    }
    Ok(laid)
}

/// A server that goes on from rows of a state that a server of the policy may have.
fn resumed_from<M: Mechanism + Drop>(
    alloc: Global,
    policy: Policy,
    codecs: &Codecs,
    mechanism: M,
    laid: &Laid<'_>,
) -> Result<Resumed<M>, CheckpointError>
    requires { IsFit policy (world_of laid.now.lists) (locks_told laid.now.locks) }
    ensures taken { IsTaken (told_of laid.now) result }
    ensures policy { IfOk result (λ r. r.policy ≡ policy) }
    ensures running { IfOk result (λ r. r.stopped ≡ false) }
{
    let (store, further) = parts_of(alloc, &policy, &laid.lists, &laid.locks)?;
    let core = Core::from_parts(alloc, policy, codecs, mechanism, store, further)?;
    Ok(Resumed {
        core,
        events: laid.events,
    })
}

/// What reading bytes answers.
fn server_of<M: Mechanism + Drop>(
    alloc: Global,
    policy: Policy,
    codecs: &Codecs,
    mechanism: M,
    bytes: &[u8],
) -> Result<Resumed<M>, CheckpointError>
    ensures takes { Takes policy bytes.now result }
    ensures policy { IfOk result (λ r. r.policy ≡ policy) }
    ensures running { IfOk result (λ r. r.stopped ≡ false) }
{
    let laid = judged(alloc, &policy, codecs, bytes)?;
    resumed_from(alloc, policy, codecs, mechanism, &laid)
}

/// A server that goes on from the checkpoint that bytes are. The codecs write its labels.
///
/// # Errors
///
/// `Policy` where the first 40 bytes are those of a checkpoint of another policy, whatever follows them; else `Damaged`, with the
/// offset of the first item that isn't there, or of the first byte behind the last one; else `Unfit` where no server of the policy
/// has such a state. `Memory` where there is no memory.
pub fn read_checkpoint<M: Mechanism + Drop>(
    alloc: Global,
    policy: Policy,
    codecs: &Codecs,
    mechanism: M,
    bytes: &[u8],
) -> Result<Resumed<M>, CheckpointError>
    ensures takes { Takes policy bytes.now result }
    // What a checkpoint is of that a server of the policy may have is taken, unless memory runs out.
    ensures only { (t : Told) → Tells (checkpoint policy) (Some t) bytes.now → IsFit policy t.world t.locks
        → IsTaken t result }
    ensures policy { IfOk result (λ r. r.policy ≡ policy) }
    ensures running { IfOk result (λ r. r.stopped ≡ false) }
{
    server_of(alloc, policy, codecs, mechanism, bytes)
}
