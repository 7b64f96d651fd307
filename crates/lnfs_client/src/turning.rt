//! What a reply leads to.
ghost use Rattle.std.specs.Prelude.{◌≡◌, ◌<◌, length};
ghost use Rattle.std.specs.Option.{option_copied};
ghost use Rattle.lnfs_client.specs.declared.stage.Stage.TheVariants.{Creating, Reclaiming};
ghost use Rattle.lnfs_client.specs.Machine.{Turns, at_target, changed, created, exchanged, goes_to, left, mounted, moved, next, said as turn_said, succeeded, turn_by, without_client};

use crate::answer::{Answer, Progress, Refusal};
use crate::judging::judge;
use crate::keeping::{keep, keep_client, keep_open, keep_session};
use crate::known::{Known, Running};
use crate::stage::Stage;
use crate::told::{count_of, data_of, is_end};
use lnfs_answers::{Heard, Said, Told};
use lnfs_arguments::statuses::NFS4_OK;
use lnfs_format::Codecs;
use lnfs_policy::Policy;
use lnfs_script::{Action, Identity};
use std::alloc::Global;

/// The action goes on with the request of a stage.
fn go_to(known: &mut Known, mut running: Running, stage: Stage) -> Progress
    ensures { record { client = known.new; told = Ok result } ≡ goes_to known.old running stage }
{
    running.stage = stage;
    running.awaited = None;
    known.running = Some(running);
    Progress::More
}

/// What was asked at a node leads to a change, or is the answer.
fn leave_target(
    alloc: Global,
    known: &mut Known,
    running: Running,
    last: Option<&Told>,
) -> Result<Progress, Refusal>
    requires { known.old.running ≡ None }
    ensures { Turns result known.old known.new
        (at_target known.old running (option_copied last.entry) running.action) }
{
    match running.action {
        Action::List { .. } => {
            if is_end(last) {
                return Ok(Progress::Done(Answer::Entries(running.shown.into_items())));
            }
            Ok(go_to(known, running, Stage::Asking))
        }
        Action::Read { .. } => Ok(Progress::Done(Answer::Data(data_of(alloc, last)?))),
        _ => Ok(go_to(known, running, Stage::Changing)),
    }
}

/// A change is answered; a file that was made is closed.
fn end_change(known: &mut Known, mut running: Running, last: Option<&Told>) -> Progress
    requires { known.old.running ≡ None }
    ensures { record { client = known.new; told = Ok result }
        ≡ changed known.old running (option_copied last.entry) running.action }
{
    match running.action {
        Action::Write { .. } => Progress::Done(Answer::Wrote(count_of(last))),
        Action::Mkdir { .. } => Progress::Done(Answer::Made),
        Action::Remove { .. } => Progress::Done(Answer::Removed),
        Action::Raise { .. } => Progress::Done(Answer::Raised),
        _ => {
            keep_open(&mut running, last);
            go_to(known, running, Stage::Closing)
        }
    }
}

/// The client is known to the server no more.
fn leave(known: &mut Known) -> Progress
    requires { known.old.running ≡ None }
    ensures { record { client = known.new; told = Ok result } ≡ left known.old }
{
    known.mounted = false;
    Progress::Done(Answer::Left)
}

/// The record of the client has ended; a context has to be ended too.
fn end_client(known: &mut Known, running: Running) -> Progress
    requires { known.old.running ≡ None }
    ensures { record { client = known.new; told = Ok result }
        ≡ without_client known.old running known.old.identity }
{
    match known.identity {
        Identity::Guest { .. } => leave(known),
        Identity::Full { .. } => go_to(known, running, Stage::EndingContext),
    }
}

/// The server knows the client, which asks for a session.
fn end_exchange(known: &mut Known, running: Running, last: Option<&Told>) -> Progress
    ensures { record { client = known.new; told = Ok result }
        ≡ goes_to (exchanged known.old (option_copied last.entry)) running Creating }
{
    keep_client(known, last);
    go_to(known, running, Stage::Creating)
}

/// The session is there.
fn end_creation(known: &mut Known, running: Running, last: Option<&Told>) -> Progress
    ensures { record { client = known.new; told = Ok result }
        ≡ goes_to (created known.old (option_copied last.entry)) running Reclaiming }
{
    keep_session(known, last);
    go_to(known, running, Stage::Reclaiming)
}

/// The client is mounted.
fn end_mount(known: &mut Known) -> Progress
    requires { known.old.running ≡ None }
    ensures { record { client = known.new; told = Ok result } ≡ mounted known.old }
{
    known.mounted = true;
    Progress::Done(Answer::Mounted)
}

/// An action goes on to its next stage, or is done.
fn move_on(
    alloc: Global,
    known: &mut Known,
    running: Running,
    last: Option<&Told>,
) -> Result<Progress, Refusal>
    requires { known.old.running ≡ None }
    ensures { Turns result known.old known.new
        (moved known.old running (option_copied last.entry) running.stage) }
{
    match running.stage {
        Stage::Asserting => Ok(go_to(known, running, Stage::Exchanging)),
        Stage::Exchanging => Ok(end_exchange(known, running, last)),
        Stage::Creating => Ok(end_creation(known, running, last)),
        Stage::Reclaiming => Ok(end_mount(known)),
        Stage::Asking => leave_target(alloc, known, running, last),
        Stage::Changing => Ok(end_change(known, running, last)),
        Stage::Closing => Ok(Progress::Done(Answer::Made)),
        Stage::EndingSession => Ok(go_to(known, running, Stage::EndingClient)),
        Stage::EndingClient => Ok(end_client(known, running)),
        Stage::EndingContext => Ok(leave(known)),
    }
}

/// A COMPOUND has succeeded.
fn succeed(
    alloc: Global,
    policy: &Policy,
    codecs: &Codecs,
    known: &mut Known,
    mut running: Running,
    results: &[Told],
) -> Result<Progress, Refusal>
    requires idle { known.old.running ≡ None }
    requires level { known.old.level.0 < length policy.now.labels }
    ensures { Turns result known.old known.new
        (succeeded policy.now known.old running results.now) }
{
    judge(policy, codecs, known, &running, results)?;
    keep(alloc, policy, codecs, &mut running, results)?;
    move_on(alloc, known, running, results.last())
}

/// A COMPOUND is answered.
fn take_said(
    alloc: Global,
    policy: &Policy,
    codecs: &Codecs,
    known: &mut Known,
    running: Running,
    said: &Said,
) -> Result<Progress, Refusal>
    requires idle { known.old.running ≡ None }
    requires level { known.old.level.0 < length policy.now.labels }
    ensures { Turns result known.old known.new (turn_said policy.now known.old running said.now) }
{
    if said.status != NFS4_OK {
        return Err(Refusal::ServerSaid {
            status: said.status,
        });
    }
    succeed(
        alloc,
        policy,
        codecs,
        known,
        running,
        said.results.as_slice(),
    )
}

/// What a record leads to that is heard as this: `known` is the client beside its action.
#[tactic(auto, unfolding(crate::specs::Machine::next))]
fn take(
    alloc: Global,
    policy: &Policy,
    codecs: &Codecs,
    known: &mut Known,
    running: Running,
    heard: Heard,
) -> Result<Progress, Refusal>
    requires idle { known.old.running ≡ None }
    requires level { known.old.level.0 < length policy.now.labels }
    ensures { Turns result known.old known.new (next policy.now known.old running heard) }
{
    match heard {
        Heard::Other => {
            known.running = Some(running);
            Ok(Progress::More)
        }
        Heard::Denied { auth } => Err(Refusal::Denied { auth }),
        Heard::Bad { at } => Err(Refusal::BadReply { at: at as u64 }),
        Heard::Said(said) => take_said(alloc, policy, codecs, known, running, &said),
        Heard::Granted { handle } => {
            known.context = handle;
            Ok(go_to(known, running, Stage::Exchanging))
        }
        Heard::Ended => Ok(leave(known)),
    }
}

/// Takes a record that is heard as this. To no action it is nothing.
///
/// # Errors
///
/// As `Client::take_reply`.
pub fn take_heard(
    alloc: Global,
    policy: &Policy,
    codecs: &Codecs,
    known: &mut Known,
    heard: Heard,
) -> Result<Progress, Refusal>
    requires { known.old.level.0 < length policy.now.labels }
    ensures { Turns result known.old known.new
        (turn_by policy.now known.old heard known.old.running) }
{
    match known.running.take() {
        Some(running) => take(alloc, policy, codecs, known, running, heard),
        None => Ok(Progress::More),
    }
}
