//! Labels, as a client sends and reads them.
ghost use Rattle.std.specs.Prelude.{◌≡◌, ◌<◌, length, IfOk, IfSome};
ghost use Rattle.lnfs_asking.specs.Labels.{IsShort, level_of, spelled, unspelled};

use lnfs_attrs::LabelValue;
use lnfs_calipso::Level;
use lnfs_format::{Codecs, ReadError};
use lnfs_policy::Policy;
use lnfs_types::{LABEL_LIMIT, Octets};
use std::alloc::{AllocError, Global};

/// No label: the number and the policy identifier of no format, and no bytes. Takes no memory.
pub fn unspelled(alloc: Global) -> LabelValue
    ensures label { result ≡ unspelled }
    ensures short { IsShort result }
{
    LabelValue {
        lfs: 0,
        pi: 0,
        bytes: Octets::new(Vec::new(alloc)),
    }
}

/// The label of a level in the first format of the policy, in which it is asserted and set. Fails only for want of memory.
#[tactic(auto, unfolding(crate::specs::Labels::spelled))]
pub fn spell(
    alloc: Global,
    policy: &Policy,
    codecs: &Codecs,
    level: Level,
) -> Result<LabelValue, AllocError>
    requires { level.0 < length policy.now.labels }
    ensures label { IfOk result (λ v. v ≡ spelled policy.now level.0) }
    ensures short { IfOk result IsShort }
{
    let Some(format) = policy.formats().first() else {
        return Ok(unspelled(alloc));
    };
    match codecs.write(&format.kind, policy.lattice().label(level))? {
        Some(bytes) if bytes.len() <= LABEL_LIMIT as usize => Ok(LabelValue {
            lfs: format.lfs,
            pi: format.pi,
            bytes: Octets::new(bytes),
        }),
        _ => Ok(unspelled(alloc)),
    }
}

/// The level of a label, in any format of the policy, or None where it is in no such format, spells no label there, or one that
/// is no level's. Fails only for want of memory.
#[tactic(auto, unfolding(crate::specs::Labels::level_of))]
pub fn level_of(
    policy: &Policy,
    codecs: &Codecs,
    label: &LabelValue,
) -> Result<Option<Level>, AllocError>
    ensures level { IfOk result (λ level. level ≡ level_of policy.now label.now) }
    ensures known { IfOk result (λ level. IfSome level (λ l. l.0 < length policy.now.labels)) }
    ensures short { IfOk result (λ level. IfSome level (λ l. IsShort label.now)) }
{
    let bytes = label.bytes.as_slice();
    if bytes.len() > LABEL_LIMIT as usize {
        return Ok(None);
    }
    match policy
        .formats()
        .read(codecs, policy.lattice(), label.lfs, label.pi, bytes)
    {
        Ok(level) => Ok(Some(level)),
        Err(ReadError::WrongLfs) => Ok(None),
        Err(ReadError::BadLabel) => Ok(None),
        Err(ReadError::Memory) => Err(AllocError),
    }
}

/// A copy of a label. Fails only for want of memory.
pub fn copy_label(alloc: Global, label: &LabelValue) -> Result<LabelValue, AllocError>
    ensures { IfOk result (λ copy. copy ≡ label.now) }
{
    Ok(LabelValue {
        lfs: label.lfs,
        pi: label.pi,
        bytes: Octets::from_slice(alloc, label.bytes.as_slice())?,
    })
}
