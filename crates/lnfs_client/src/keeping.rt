//! What is kept of an answer.
ghost use Rattle.std.specs.Prelude.{◌≡◌, OnOk, IfOk};
ghost use Rattle.std.specs.Option.{option_copied};
ghost use Rattle.lnfs_client.specs.Machine.{created, exchanged, kept_at, kept_in, listed, opened_by};

use crate::known::{Known, Running};
use crate::stage::Stage;
use crate::told::{label_in, last_cookie};
use lnfs_answers::Told;
use lnfs_asking::copy_label;
use lnfs_attrs::LabelValue;
use lnfs_format::Codecs;
use lnfs_policy::Policy;
use lnfs_results::OpResult;
use lnfs_script::Action;
use std::alloc::{AllocError, Global};

/// The first number of a slot (RFC 8881 section 2.10.6.1).
const FIRST: u32 = 1;

/// Keeps the client that EXCHANGE_ID tells, and the number of its first session. Takes no memory.
#[tactic(auto, unfolding(crate::specs::Machine::exchanged))]
pub fn keep_client(known: &mut Known, last: Option<&Told>)
    ensures { known.new ≡ exchanged known.old (option_copied last.entry) }
{
    if let Some(
        Told::Other(
            OpResult::ExchangeId {
                client,
                sequence,
                ..
            },
        ),
    ) = last
    {
        known.client = *client;
        known.creating = *sequence;
    }
}

/// Keeps the session that CREATE_SESSION tells. Takes no memory.
#[tactic(auto, unfolding(crate::specs::Machine::created))]
pub fn keep_session(known: &mut Known, last: Option<&Told>)
    ensures { known.new ≡ created known.old (option_copied last.entry) }
{
    if let Some(Told::Other(OpResult::CreateSession { session, .. })) = last {
        known.session = *session;
        known.sequence = FIRST;
    }
}

/// Keeps the state id that OPEN tells. Takes no memory.
#[tactic(auto, unfolding(crate::specs::Machine::opened_by))]
pub fn keep_open(running: &mut Running, last: Option<&Told>)
    ensures { running.new ≡ opened_by running.old (option_copied last.entry) }
{
    if let Some(Told::Other(OpResult::Open { id, .. })) = last {
        running.opened = *id;
    }
}

/// Keeps the entries that READDIR tells.
fn keep_entries(
    alloc: Global,
    policy: &Policy,
    codecs: &Codecs,
    running: &mut Running,
    last: Option<&Told>,
) -> Result<(), AllocError>
    ensures { OnOk result (running.new ≡ listed policy.now running.old (option_copied last.entry)) }
{
    if let Some(Told::Names { entries, .. }) = last {
        running
            .shown
            .append(alloc, policy, codecs, entries.as_slice())?;
        running.cookie = last_cookie(running.cookie, entries.as_slice());
    }
    Ok(())
}

fn copy_of(alloc: Global, label: Option<&LabelValue>) -> Result<Option<LabelValue>, AllocError>
    ensures { IfOk result (λ copy. copy ≡ option_copied label.entry) }
{
    match label {
        Some(label) => Ok(Some(copy_label(alloc, label)?)),
        None => Ok(None),
    }
}

/// Keeps what is asked at a node: of a List the entries, and of a change the label.
fn keep_at(
    alloc: Global,
    policy: &Policy,
    codecs: &Codecs,
    running: &mut Running,
    results: &[Told],
) -> Result<(), AllocError>
    ensures { OnOk result (running.new
        ≡ kept_at policy.now running.old results.now running.old.action) }
{
    match running.action {
        Action::List { .. } => keep_entries(alloc, policy, codecs, running, results.last()),
        Action::Read { .. } => Ok(()),
        _ => {
            running.label = copy_of(alloc, label_in(results))?;
            Ok(())
        }
    }
}

/// Keeps what an answer tells for the later requests of the action.
///
/// # Errors
///
/// `AllocError` where there is no memory. Then some of it may be kept.
#[tactic(auto, unfolding(crate::specs::Machine::kept_in))]
pub fn keep(
    alloc: Global,
    policy: &Policy,
    codecs: &Codecs,
    running: &mut Running,
    results: &[Told],
) -> Result<(), AllocError>
    ensures { OnOk result (running.new
        ≡ kept_in policy.now running.old results.now running.old.stage) }
{
    match running.stage {
        Stage::Asking => keep_at(alloc, policy, codecs, running, results),
        _ => Ok(()),
    }
}
