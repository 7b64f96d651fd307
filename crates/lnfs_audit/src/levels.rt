//! The levels of events.
ghost use Rattle.std.specs.Prelude.{◌≡◌, ◌<◌, ◌↔◌, Some, length, map, true, IfOk, IfSome};
ghost use Rattle.lnfs_policy.specs.Policy.{dominance};
ghost use Rattle.lnfs_policy.specs.declared.mode.Mode.TheVariants.{Enforcing};
ghost use Rattle.lnfs_gss3.specs.Who.{level_of};
ghost use Rattle.lnfs_step.specs.Purged.{is_dominated};
ghost use Rattle.lnfs_audit.specs.Levels.{AreLevels, IsKnown, level_in, numbered};

use lnfs_calipso::Level;
use lnfs_format::Codecs;
use lnfs_gss3::{Caller, Mechanism, who};
use lnfs_policy::Policy;
use lnfs_rpc::read_call;
use lnfs_types::Event;
use std::alloc::{AllocError, Global};

/// The level of a caller.
fn level_of_caller(caller: &Caller) -> Option<Level>
    ensures { numbered result ≡ level_of caller.now }
{
    match caller {
        Caller::Null | Caller::Nobody { .. } | Caller::Garbage { .. } => None,
        Caller::Guest { level }
        | Caller::Create { level, .. }
        | Caller::Data { level, .. }
        | Caller::Destroy { level, .. } => Some(*level),
    }
}

/// The level of an event, which is one of the policy where it has one.
fn level_of_event<M: Mechanism>(
    alloc: Global,
    policy: &Policy,
    codecs: &Codecs,
    mechanism: &M,
    event: &Event,
) -> Result<Option<Level>, AllocError>
    requires { policy.now.mode ≡ Enforcing }
    ensures own { IfOk result (λ level. numbered level ≡ level_in M.signing policy.now event.now) }
    ensures known { IfOk result (IsKnown policy.now) }
{
    policy.law_policy();
    let Ok(call) = read_call(event.message.as_slice()) else {
        return Ok(None);
    };
    let caller = who(alloc, policy, codecs, mechanism, event.class, &call)?;
    Ok(level_of_caller(&caller))
}

/// The levels of events.
pub fn levels_of<M: Mechanism>(
    alloc: Global,
    policy: &Policy,
    codecs: &Codecs,
    mechanism: &M,
    events: &[Event],
) -> Result<Vec<Option<Level>>, AllocError>
    requires { policy.now.mode ≡ Enforcing }
    ensures { IfOk result (λ levels. AreLevels M.signing policy.now events.now levels.items) }
{
    let mut levels = Vec::with_capacity(alloc, events.len())?;
    for event in events {
        levels.push(level_of_event(alloc, policy, codecs, mechanism, event)?)?;
    }
    Ok(levels)
}

/// Whether a level dominates that of an event.
pub fn is_for(policy: &Policy, level: Level, own: Option<Level>) -> bool
    requires level { level.0 < length policy.now.labels }
    requires own { IsKnown policy.now own }
    ensures { result ≡ is_dominated (dominance policy.now) level.0 (numbered own) }
{
    match own {
        Some(own) => policy.lattice().dom(level, own),
        None => false,
    }
}

/// Whether a level is that of an event.
pub fn is_own(level: Level, own: Option<Level>) -> bool
    ensures { (result ≡ true) ↔ (numbered own ≡ Some level.0) }
{
    match own {
        Some(own) => own.0 == level.0,
        None => false,
    }
}
