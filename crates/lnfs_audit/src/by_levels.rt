//! The audit by a vault for each level.
ghost use Rattle.std.specs.Prelude.{◌≡◌, ◌↔◌, All, Err, IfOk};
ghost use Rattle.lnfs_types.specs.Moments.{Fits};
ghost use Rattle.lnfs_policy.specs.declared.mode.Mode.TheVariants.{Limited};
ghost use Rattle.lnfs_operations.specs.Extra.{no_extra};
ghost use Rattle.lnfs_audit.specs.Findings.{IsFinding};
ghost use Rattle.lnfs_audit.specs.Replies.{answers_to};

use crate::comparing::compare;
use crate::filling::replies_by_levels;
use crate::finding::{AuditError, Finding};
use crate::fresh::Fresh;
use lnfs_engine::{NoExtra, ReadExtra};
use lnfs_format::Codecs;
use lnfs_gss3::Mechanism;
use lnfs_policy::{Mode, Policy};
use lnfs_types::Event;
use std::alloc::Global;

/// Judges recorded replies to events, where further operations are served too: for each level a new vault serves the events
/// whose level it dominates, and the replies to the level's own are taken from it. An event without a level is served alone
/// in a new vault. The replies are kept until all are there.
///
/// # Errors
///
/// `Limited` where the clients enforce the labels, and `Memory`.
pub fn audit_purged_with_extra<M: Mechanism + Drop, X: ReadExtra, F: Fresh<X>>(
    alloc: Global,
    policy: Policy,
    codecs: &Codecs,
    mechanism: M,
    fresh: &F,
    events: &[Event],
    records: &[u8],
) -> Result<Finding, AuditError>
    requires { All Fits events.now }
    ensures finding { IfOk result (IsFinding (answers_to X.extra M.signing policy events.now)
        records.now) }
    ensures limited { (result ≡ Err AuditError.Limited) ↔ (policy.mode ≡ Limited) }
{
    if policy.mode() == Mode::Limited {
        return Err(AuditError::Limited);
    }
    let replies = replies_by_levels(alloc, policy, codecs, mechanism, fresh, events)?;
    Ok(compare(alloc, &replies, records)?)
}

/// Judges recorded replies to events: for each level a new vault serves the events whose level it dominates, and the replies
/// to the level's own are taken from it. An event without a level is served alone in a new vault.
///
/// # Errors
///
/// `Limited` where the clients enforce the labels, and `Memory`.
pub fn audit_purged<M: Mechanism + Drop>(
    alloc: Global,
    policy: Policy,
    codecs: &Codecs,
    mechanism: M,
    events: &[Event],
    records: &[u8],
) -> Result<Finding, AuditError>
    requires { All Fits events.now }
    ensures finding { IfOk result (IsFinding (answers_to no_extra M.signing policy events.now)
        records.now) }
    ensures limited { (result ≡ Err AuditError.Limited) ↔ (policy.mode ≡ Limited) }
{
    audit_purged_with_extra(alloc, policy, codecs, mechanism, &NoExtra, events, records)
}
