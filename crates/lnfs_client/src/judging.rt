//! The judgement of a label.
ghost use Rattle.std.specs.Prelude.{◌≡◌, ◌<◌, length, IfOk, IfSome};
ghost use Rattle.std.specs.Option.{option_copied};
ghost use Rattle.lnfs_client.specs.Machine.{Judges, judged, judged_at, level_told};

use crate::answer::Refusal;
use crate::enforcing::enforce;
use crate::known::{Known, Running};
use crate::stage::Stage;
use crate::stages::is_reading;
use crate::told::label_in;
use lnfs_answers::Told;
use lnfs_asking::level_of;
use lnfs_attrs::LabelValue;
use lnfs_calipso::Level;
use lnfs_format::Codecs;
use lnfs_policy::Policy;
use std::alloc::AllocError;

fn level_told(
    policy: &Policy,
    codecs: &Codecs,
    label: Option<&LabelValue>,
) -> Result<Option<Level>, AllocError>
    ensures level { IfOk result (λ level. level
        ≡ level_told policy.now (option_copied label.entry)) }
    ensures known { IfOk result (λ level. IfSome level (λ l. l.0 < length policy.now.labels)) }
{
    match label {
        Some(label) => level_of(policy, codecs, label),
        None => Ok(None),
    }
}

/// Judges the action by the label that is told of the node on which it is enforced.
fn judge_at(
    policy: &Policy,
    codecs: &Codecs,
    known: &Known,
    running: &Running,
    results: &[Told],
) -> Result<(), Refusal>
    requires { known.now.level.0 < length policy.now.labels }
    ensures { Judges result (judged_at policy.now known.now running.now.action results.now) }
{
    let level = level_told(policy, codecs, label_in(results))?;
    let write = !is_reading(&running.action);
    enforce(policy.lattice(), known.level, level, write)
}

/// Judges what was asked at a node by the label that the same results tell.
///
/// # Errors
///
/// As `enforce`; `Memory` where there is no memory.
pub fn judge(
    policy: &Policy,
    codecs: &Codecs,
    known: &Known,
    running: &Running,
    results: &[Told],
) -> Result<(), Refusal>
    requires { known.now.level.0 < length policy.now.labels }
    ensures { Judges result (judged policy.now known.now running.now.action running.now.stage
        results.now) }
{
    match running.stage {
        Stage::Asking => judge_at(policy, codecs, known, running, results),
        _ => Ok(()),
    }
}
