//! The audit by one vault.
ghost use Rattle.std.specs.Prelude.{◌≡◌, [], All, IfOk};
ghost use Rattle.lnfs_types.specs.Moments.{Fits};
ghost use Rattle.lnfs_operations.specs.Extra.{no_extra};
ghost use Rattle.lnfs_audit.specs.Findings.{IsFinding};
ghost use Rattle.lnfs_audit.specs.Replies.{answers_to};

use crate::comparing::{behind, found_at_end};
use crate::finding::Finding;
use crate::serving::serve;
use lnfs_engine::{NoExtra, ReadExtra};
use lnfs_format::Codecs;
use lnfs_gss3::Mechanism;
use lnfs_policy::Policy;
use lnfs_types::Event;
use lnfs_vault::VaultOf;
use std::alloc::{AllocError, Global};

/// Serves events in a vault that was given none, and compares each reply as it comes.
fn compare_served<M: Mechanism + Drop, X: ReadExtra>(
    alloc: Global,
    codecs: &Codecs,
    vault: &mut VaultOf<M, X>,
    events: &[Event],
    records: &[u8],
) -> Result<Finding, AllocError>
    requires fits { All Fits events.now }
    requires new { vault.old.journal ≡ [] }
    ensures { IfOk result (IsFinding (answers_to X.extra M.signing vault.old.policy events.now)
        records.now) }
{
    let mut at = 0;
    for (index, event) in events.iter().enumerate() {
        let reply = serve(alloc, codecs, vault, event)?;
        let Some(next) = behind(alloc, records, at, &reply)? else {
            return Ok(Finding::Differs {
                event: index as u64 + 1,
            });
        };
        at = next;
    }
    Ok(found_at_end(events.len(), records, at))
}

/// Judges recorded replies to events, where further operations are served too: all events are served in one vault, and each
/// reply is compared with the next record. No reply is kept.
///
/// # Errors
///
/// `AllocError` where there is no memory.
pub fn audit_with_extra<M: Mechanism + Drop, X: ReadExtra>(
    alloc: Global,
    policy: Policy,
    codecs: &Codecs,
    mechanism: M,
    extra: X,
    events: &[Event],
    records: &[u8],
) -> Result<Finding, AllocError>
    requires fits { All Fits events.now }
    requires new { X.rows extra ≡ [] }
    ensures { IfOk result (IsFinding (answers_to X.extra M.signing policy events.now)
        records.now) }
{
    let mut vault = VaultOf::with_extra(alloc, policy, codecs, mechanism, extra)?;
    compare_served(alloc, codecs, &mut vault, events, records)
}

/// Judges recorded replies to events: all events are served in one vault, and each reply is compared with the next record.
///
/// # Errors
///
/// `AllocError` where there is no memory.
pub fn audit<M: Mechanism + Drop>(
    alloc: Global,
    policy: Policy,
    codecs: &Codecs,
    mechanism: M,
    events: &[Event],
    records: &[u8],
) -> Result<Finding, AllocError>
    requires { All Fits events.now }
    ensures { IfOk result (IsFinding (answers_to no_extra M.signing policy events.now)
        records.now) }
{
    audit_with_extra(alloc, policy, codecs, mechanism, NoExtra, events, records)
}
