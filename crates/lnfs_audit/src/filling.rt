//! The replies to events, told level by level: each level's by a vault that is given only what the level dominates.
ghost use Rattle.std.specs.Prelude.{◌≡◌, ◌+◌, ◌<◌, ℕ, [], All, IfOk, OnOk, false, length};
ghost use Rattle.lnfs_types.specs.Moments.{Fits};
ghost use Rattle.lnfs_policy.specs.declared.mode.Mode.TheVariants.{Enforcing};
ghost use Rattle.lnfs_step.specs.Journal.{reply_with};
ghost use Rattle.lnfs_audit.specs.Levels.{AreLevels};
ghost use Rattle.lnfs_audit.specs.Filled.{AreServed};
ghost use Rattle.lnfs_audit.specs.Replies.{answers_to};

use crate::fresh::Fresh;
use crate::levels::{is_for, is_own, levels_of};
use crate::serving::serve;
use lnfs_calipso::Level;
use lnfs_engine::ReadExtra;
use lnfs_format::Codecs;
use lnfs_gss3::Mechanism;
use lnfs_policy::Policy;
use lnfs_rpc::ReplyRecord;
use lnfs_types::Event;
use lnfs_vault::{Parts, VaultOf};
use std::alloc::{AllocError, Global};

/// What passes from one vault to the next.
#[derive(Drop)]
struct Passed<M: Mechanism + Drop> {
    policy: Policy,
    mechanism: M,
}

/// A new vault, that was given no event.
fn vault_of<M: Mechanism + Drop, X: ReadExtra, F: Fresh<X>>(
    alloc: Global,
    codecs: &Codecs,
    fresh: &F,
    passed: Passed<M>,
) -> Result<VaultOf<M, X>, AllocError>
    ensures { IfOk result (λ vault. vault ≡ record
        { policy = passed.policy; journal = []; stopped = false }) }
{
    let extra = fresh.fresh(alloc)?;
    VaultOf::with_extra(alloc, passed.policy, codecs, passed.mechanism, extra)
}

/// What a vault was made of. Its journal goes.
fn passed_on<M: Mechanism + Drop, X: ReadExtra>(vault: VaultOf<M, X>) -> Passed<M>
    ensures { result.policy ≡ vault.policy }
{
    let Parts { front, .. } = vault.into_parts();
    let (policy, mechanism) = front.into_parts();
    Passed { policy, mechanism }
}

/// The reply to an event in a new vault.
fn serve_alone<M: Mechanism + Drop, X: ReadExtra, F: Fresh<X>>(
    alloc: Global,
    codecs: &Codecs,
    fresh: &F,
    passed: Passed<M>,
    event: &Event,
) -> Result<(Passed<M>, Option<ReplyRecord>), AllocError>
    requires { Fits event.now }
    ensures policy { IfOk result (λ both. both.0.policy ≡ passed.policy) }
    ensures reply { IfOk result (λ both. both.1
        ≡ reply_with X.extra M.signing passed.policy [] event.now) }
{
    let mut vault = vault_of(alloc, codecs, fresh, passed)?;
    let reply = serve(alloc, codecs, &mut vault, event)?;
    Ok((passed_on(vault), reply))
}

/// Serves each event without a level alone, and keeps its reply at the event's place.
fn serve_strangers<M: Mechanism + Drop, X: ReadExtra, F: Fresh<X>>(
    alloc: Global,
    codecs: &Codecs,
    fresh: &F,
    mut passed: Passed<M>,
    events: &[Event],
    levels: &[Option<Level>],
    replies: &mut [Option<ReplyRecord>],
) -> Result<Passed<M>, AllocError>
    requires fits { All Fits events.now }
    requires levels { AreLevels M.signing passed.policy events.now levels.now }
    requires room { length replies.old ≡ length events.now }
    ensures policy { IfOk result (λ left. left.policy ≡ passed.policy) }
    ensures served { OnOk result (AreServed X.extra M.signing passed.policy events.now 0
        replies.new) }
{
    for (index, event) in events.iter().enumerate() {
        if levels[index].is_some() {
            continue;
        }
        let (left, reply) = serve_alone(alloc, codecs, fresh, passed, event)?;
        passed = left;
        replies[index] = reply;
    }
    Ok(passed)
}

/// Serves the events whose level a level dominates in a vault that was given none, and keeps the replies to the level's own at
/// their places.
fn serve_dominated<M: Mechanism + Drop, X: ReadExtra>(
    alloc: Global,
    codecs: &Codecs,
    vault: &mut VaultOf<M, X>,
    level: Level,
    events: &[Event],
    levels: &[Option<Level>],
    replies: &mut [Option<ReplyRecord>],
) -> Result<(), AllocError>
    requires new { vault.old.journal ≡ [] }
    requires fits { All Fits events.now }
    requires levels { AreLevels M.signing vault.old.policy events.now levels.now }
    requires level { level.0 < length vault.old.policy.labels }
    requires served { AreServed X.extra M.signing vault.old.policy events.now level.0 replies.old }
    ensures policy { OnOk result (vault.new.policy ≡ vault.old.policy) }
    ensures served { OnOk result (AreServed X.extra M.signing vault.old.policy events.now
        (level.0 + 1) replies.new) }
{
    for (index, event) in events.iter().enumerate() {
        let own = levels[index];
        if !is_for(vault.policy(), level, own) {
            continue;
        }
        let reply = serve(alloc, codecs, vault, event)?;
        if !is_own(level, own) {
            continue;
        }
        replies[index] = reply;
    }
    Ok(())
}

/// Serves in a new vault the events whose level a level dominates, and keeps the replies to the level's own at their places.
fn serve_level<M: Mechanism + Drop, X: ReadExtra, F: Fresh<X>>(
    alloc: Global,
    codecs: &Codecs,
    fresh: &F,
    passed: Passed<M>,
    level: Level,
    events: &[Event],
    levels: &[Option<Level>],
    replies: &mut [Option<ReplyRecord>],
) -> Result<Passed<M>, AllocError>
    requires fits { All Fits events.now }
    requires levels { AreLevels M.signing passed.policy events.now levels.now }
    requires level { level.0 < length passed.policy.labels }
    requires served { AreServed X.extra M.signing passed.policy events.now level.0 replies.old }
    ensures policy { IfOk result (λ left. left.policy ≡ passed.policy) }
    ensures served { OnOk result (AreServed X.extra M.signing passed.policy events.now
        (level.0 + 1) replies.new) }
{
    let mut vault = vault_of(alloc, codecs, fresh, passed)?;
    serve_dominated(alloc, codecs, &mut vault, level, events, levels, replies)?;
    Ok(passed_on(vault))
}

/// So many places for replies.
fn places(alloc: Global, count: usize) -> Result<Vec<Option<ReplyRecord>>, AllocError>
    ensures { IfOk result (λ places. length places.items ≡ count) }
{
    let mut places = Vec::with_capacity(alloc, count)?;
    while places.len() < count {
        places.push(None)?;
    }
    Ok(places)
}

/// Keeps the replies to events at their places, where no vault is given an event of a level that its own doesn't dominate.
fn serve_all<M: Mechanism + Drop, X: ReadExtra, F: Fresh<X>>(
    alloc: Global,
    codecs: &Codecs,
    fresh: &F,
    first: Passed<M>,
    events: &[Event],
    levels: &[Option<Level>],
    replies: &mut [Option<ReplyRecord>],
) -> Result<(), AllocError>
    requires fits { All Fits events.now }
    requires levels { AreLevels M.signing first.policy events.now levels.now }
    requires room { length replies.old ≡ length events.now }
    ensures { OnOk result (replies.new ≡ answers_to X.extra M.signing first.policy events.now) }
{
    let count = first.policy.lattice().len();
    let mut passed = serve_strangers(alloc, codecs, fresh, first, events, levels, replies)?;
    for number in 0..count {
        let level = Level(number);
        passed = serve_level(alloc, codecs, fresh, passed, level, events, levels, replies)?;
    }
    Ok(())
}

/// The replies to events, where no vault is given an event of a level that its own doesn't dominate.
pub fn replies_by_levels<M: Mechanism + Drop, X: ReadExtra, F: Fresh<X>>(
    alloc: Global,
    policy: Policy,
    codecs: &Codecs,
    mechanism: M,
    fresh: &F,
    events: &[Event],
) -> Result<Vec<Option<ReplyRecord>>, AllocError>
    requires fits { All Fits events.now }
    requires enforces { policy.mode ≡ Enforcing }
    ensures { IfOk result (λ replies. replies.items
        ≡ answers_to X.extra M.signing policy events.now) }
{
    let levels = levels_of(alloc, &policy, codecs, &mechanism, events)?;
    let mut replies = places(alloc, events.len())?;
    let first = Passed { policy, mechanism };
    serve_all(alloc, codecs, fresh, first, events, &levels, &mut replies)?;
    Ok(replies)
}
