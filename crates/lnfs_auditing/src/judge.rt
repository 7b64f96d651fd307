//! Recorded replies, judged under the policy of a name.
ghost use Rattle.std.specs.Prelude.{◌≡◌, [], ◌∷◌, All, IfOk, string_bytes, true};
ghost use Rattle.lnfs_types.specs.Moments.{Fits};
ghost use Rattle.lnfs_stage.specs.Due.{told};
ghost use Rattle.lnfs_stage.specs.Does.{Does, HandedOn};
ghost use Rattle.lnfs_stage.specs.Contents.{Follows};
ghost use Rattle.lnfs_auditing.specs.Audits.{audit_due, audited, compared, finding_line, finding_of, found_due, is_permitted, IsFound, IsRead};

use crate::anew::Anew;
use lnfs_audit::{AuditError, Finding, audit_purged_with_extra, audit_with_extra, some_finding};
use lnfs_commands::{Audit, rules_of};
use lnfs_format::Codecs;
use lnfs_further::new_further;
use lnfs_gss3::KeyedDigest;
use lnfs_policy::{Mode, Policy};
use lnfs_stage::{Ending, Outside, Stop, close, tell};
use lnfs_traffic::{TrafficError, read_traffic, recordings};
use lnfs_types::Event;
use std::alloc::{AllocError, Global};

/// A finding, in words.
fn line_of(alloc: Global, finding: Finding) -> Result<String, AllocError>
    ensures { IfOk result (λ line. string_bytes line ≡ finding_line finding) }
{
    match finding {
        Finding::Faithful { events } => format!(in alloc; "faithful {events}\n"),
        Finding::Differs { event } => format!(in alloc; "differs {event}\n"),
        Finding::Surplus { at } => format!(in alloc; "surplus {at}\n"),
    }
}

/// The events of a recording.
///
/// # Errors
///
/// `Ends` where the bytes are none.
fn events_of(alloc: Global, traffic: &[u8]) -> Result<Vec<Event>, Stop>
    ensures { IsRead result traffic.now }
{
    recordings(traffic);
    match read_traffic(alloc, traffic) {
        Ok(events) => Ok(events),
        Err(TrafficError::Damaged { at }) => Err(Stop::Ends(Ending::TrafficDamaged { at })),
        Err(TrafficError::Memory) => Err(Stop::Memory),
    }
}

/// Whether replies may be told so under a mode.
fn is_permitted(purged: bool, mode: Mode) -> bool
    ensures { result ≡ is_permitted purged mode }
{
    !purged || mode == Mode::Enforcing
}

/// What is found of recorded replies to events.
fn find(
    alloc: Global,
    codecs: &Codecs,
    policy: Policy,
    purged: bool,
    events: &[Event],
    records: &[u8],
) -> Result<Finding, Stop>
    requires fits { All Fits events.now }
    requires permitted { is_permitted purged policy.mode ≡ true }
    ensures { IsFound result (finding_of policy events.now records.now) }
{
    some_finding(records);
    if !purged {
        let further = new_further(alloc);
        return Ok(audit_with_extra(alloc, policy, codecs, KeyedDigest, further, events, records)?);
    }
    match audit_purged_with_extra(alloc, policy, codecs, KeyedDigest, &Anew, events, records) {
        Ok(finding) => Ok(finding),
        Err(AuditError::Memory) => Err(Stop::Memory),
        // the mode was judged before
        Err(AuditError::Limited) => unreachable!(),
    }
}

/// Shows what is found of recorded replies to events.
fn show<O: Outside>(
    alloc: Global,
    codecs: &Codecs,
    policy: Policy,
    purged: bool,
    events: &[Event],
    records: &[u8],
    outside: &mut O,
) -> Result<(), Stop>
    requires fits { All Fits events.now }
    requires permitted { is_permitted purged policy.mode ≡ true }
    ensures { Does result (O.seen outside.old) (O.seen outside.new)
        (found_due policy events.now records.now) }
{
    let finding = find(alloc, codecs, policy, purged, events, records)?;
    let line = line_of(alloc, finding)?;
    outside.put_text(line.as_bytes())
}

/// Judges the recorded replies of a name to events.
fn compare<O: Outside>(
    alloc: Global,
    codecs: &Codecs,
    policy: Policy,
    purged: bool,
    events: &[Event],
    replies: &str,
    outside: &mut O,
) -> Result<(), Stop>
    requires fits { All Fits events.now }
    requires permitted { is_permitted purged policy.mode ≡ true }
    ensures { Follows result (O.seen outside.old) (O.seen outside.new) (replies.now ∷ [])
        (compared policy events.now replies.now) }
{
    let records = outside.read_file(alloc, replies)?;
    show(alloc, codecs, policy, purged, events, &records, outside)
}

/// Judges the recorded replies of a name to the recording of a name, under a policy that was read.
fn under<O: Outside>(
    alloc: Global,
    codecs: &Codecs,
    policy: Policy,
    asked: &Audit<'_>,
    outside: &mut O,
) -> Result<(), Stop>
    requires { is_permitted asked.now.purged policy.mode ≡ true }
    ensures { Follows result (O.seen outside.old) (O.seen outside.new)
        (asked.now.traffic.now ∷ asked.now.replies.now ∷ [])
        (audited policy asked.now.traffic.now asked.now.replies.now) }
{
    let traffic = outside.read_file(alloc, asked.traffic)?;
    let events = events_of(alloc, &traffic)?;
    compare(
        alloc,
        codecs,
        policy,
        asked.purged,
        &events,
        asked.replies,
        outside,
    )
}

/// Judges recorded replies, all but the ending's line. The policy is read and its mode judged before the recording is read, and
/// the recording is judged before the replies are read.
fn judge<O: Outside>(
    alloc: Global,
    codecs: &Codecs,
    asked: &Audit<'_>,
    outside: &mut O,
) -> Result<(), Stop>
    ensures { Follows result (O.seen outside.old) (O.seen outside.new)
        (asked.now.policy.now ∷ asked.now.traffic.now ∷ asked.now.replies.now ∷ [])
        (audit_due asked.now.policy.now asked.now.traffic.now asked.now.replies.now
        asked.now.purged) }
{
    let policy = rules_of(alloc, codecs, asked.policy, outside)?;
    if !is_permitted(asked.purged, policy.mode()) {
        return Err(Stop::Ends(Ending::Usage));
    }
    under(alloc, codecs, policy, asked, outside)
}

/// Judges recorded replies, tells the ending, and hands all on.
pub fn run_audit<O: Outside>(
    alloc: Global,
    asked: &Audit<'_>,
    codecs: &Codecs,
    outside: &mut O,
) -> Result<(), Stop>
    ensures audits { Follows result (O.seen outside.old) (O.seen outside.new)
        (asked.now.policy.now ∷ asked.now.traffic.now ∷ asked.now.replies.now ∷ [])
        (λ files. told (audit_due asked.now.policy.now asked.now.traffic.now
        asked.now.replies.now asked.now.purged files)) }
    ensures handed { HandedOn result (O.seen outside.old) (O.seen outside.new) }
{
    let judged = judge(alloc, codecs, asked, outside);
    let told = tell(alloc, judged, outside);
    close(told, outside)
}
