//! Requests, as they are made.
ghost use Rattle.std.specs.Prelude.{◌≡◌, ◌≤◌, ◌<◌, ◌+◌, ◌^◌, length, IfOk, IfSome};
ghost use Rattle.std.specs.Option.{option_copied};
ghost use Rattle.lnfs_types.specs.declared.limits.TheConstants.{RECORD_LIMIT};
ghost use Rattle.lnfs_client.specs.Fits.{KnownFits, Suits};
ghost use Rattle.lnfs_client.specs.Machine.{asked, asked_with, number_after, request_in, signer_of, speaker_of, spent};

use crate::known::Known;
use crate::requests::plan;
use crate::stage::Stage;
use lnfs_asking::{Sent, Speaker, send};
use lnfs_format::Codecs;
use lnfs_gss3::Mechanism;
use lnfs_policy::{Parent, Policy};
use lnfs_script::Identity;
use std::alloc::{AllocError, Global};

/// The number behind a number of a slot, or of a client's sessions (RFC 8881 section 2.10.6.1).
fn number_after(number: u32) -> u32
    ensures { result ≡ number_after number }
{
    number.wrapping_add(1)
}

/// A number is spent with the request that has it.
fn spend(known: &mut Known, stage: Stage)
    ensures { known.new ≡ spent stage known.old }
{
    match stage {
        Stage::Creating => known.creating = number_after(known.creating),
        Stage::Reclaiming | Stage::Asking | Stage::Changing | Stage::Closing => {
            known.sequence = number_after(known.sequence);
        }
        _ => {}
    }
}

/// The parent under which a client comes.
pub fn signer_of(policy: &Policy, identity: Identity) -> Option<&Parent>
    ensures { option_copied result ≡ signer_of policy.now identity }
{
    match identity {
        Identity::Guest { .. } => None,
        Identity::Full { parent } => policy.parent(parent),
    }
}

fn speaker_of(policy: &Policy, known: &Known) -> Speaker
    ensures { result ≡ speaker_of policy.now known.now }
{
    if let Some(parent) = signer_of(policy, known.identity) {
        return Speaker::Member {
            parent: *parent,
            context: known.context,
        };
    }
    match known.identity {
        Identity::Guest { uid } => Speaker::Guest { uid },
        Identity::Full { .. } => Speaker::Guest { uid: 0 },
    }
}

/// The next request, or None where no action is under way or a request is unanswered. Fails only for want of memory.
pub fn request<M: Mechanism>(
    alloc: Global,
    policy: &Policy,
    codecs: &Codecs,
    mechanism: &M,
    known: &Known,
) -> Result<Option<Sent>, AllocError>
    requires room { known.now.sent + 1 < 2 ^ 32 }
    requires fits { KnownFits known.now }
    requires site { Suits policy.now known.now }
    ensures request { IfOk result (λ sent. sent ≡ request_in M.signing policy.now known.now) }
    ensures short { IfOk result (λ sent. IfSome sent (λ s. length s.message ≤ RECORD_LIMIT)) }
{
    let Some(running) = &known.running else {
        return Ok(None);
    };
    if running.awaited.is_some() {
        return Ok(None);
    }
    let speaker = speaker_of(policy, known);
    let plan = plan(alloc, policy, codecs, known, running)?;
    let sent = send(alloc, mechanism, &speaker, known.sent + 1, plan)?;
    Ok(Some(sent))
}

/// Keeps a request that was made until its reply comes. Takes no memory.
pub fn post(known: &mut Known, sent: Option<Sent>)
    requires { known.old.sent + 1 < 2 ^ 32 }
    ensures { known.new ≡ asked_with known.old sent }
{
    let Some(sent) = sent else {
        return;
    };
    let Some(mut running) = known.running.take() else {
        return;
    };
    spend(known, running.stage);
    known.sent += 1;
    running.awaited = Some(sent);
    known.running = Some(running);
}
