//! A recording behind a checkpoint.
ghost use Rattle.std.specs.Prelude.{◌≡◌, ◌≤◌, ◌∷◌, [], IfOk};
ghost use Rattle.lnfs_layout.specs.declared.numbers.TheConstants.{MOST_EVENTS};
ghost use Rattle.lnfs_checkpoint.specs.Takes.{told_of};
ghost use Rattle.lnfs_stage.specs.Due.{given, told};
ghost use Rattle.lnfs_stage.specs.Does.{HandedOn};
ghost use Rattle.lnfs_stage.specs.Contents.{first, Follows};
ghost use Rattle.lnfs_checkpointing.specs.Checkpoints.{stop_of, resumed, resumption_due, resumption_under, IsGiven, IsJudged, Resumes};
ghost use Rattle.lnfs_checkpointing.specs.Servings.{IsServer};

use crate::serving::{Shown, serve_all};
use lnfs_checkpoint::{CheckpointError, Resumed, read_checkpoint};
use lnfs_commands::{Resumption, rules_of};
use lnfs_format::Codecs;
use lnfs_gss3::KeyedDigest;
use lnfs_policy::Policy;
use lnfs_stage::{CheckpointCause, Ending, Outside, Stop, close, tell};
use std::alloc::Global;

/// How a run stops whose checkpoint isn't taken.
fn stop_of(error: CheckpointError) -> Stop
    ensures { result ≡ stop_of error }
{
    let cause = match error {
        CheckpointError::Damaged { at } => CheckpointCause::Damaged { at },
        CheckpointError::Policy => CheckpointCause::Policy,
        CheckpointError::Unfit => CheckpointCause::Unfit,
        CheckpointError::Memory => return Stop::Memory,
    };
    Stop::Ends(Ending::CheckpointRefused { cause })
}

/// A server that goes on from the checkpoint that bytes are.
///
/// # Errors
///
/// `Ends` where they are none that is taken.
fn server_of(
    alloc: Global,
    codecs: &Codecs,
    policy: Policy,
    bytes: &[u8],
) -> Result<Resumed<KeyedDigest>, Stop>
    ensures server { IsServer policy bytes.now result }
    ensures few { IfOk result (λ server. server.events ≤ MOST_EVENTS) }
{
    match read_checkpoint(alloc, policy, codecs, KeyedDigest, bytes) {
        Ok(server) => Ok(server),
        Err(error) => Err(stop_of(error)),
    }
}

/// Serves the recording of a name in a server that goes on.
fn go_on<O: Outside>(
    alloc: Global,
    codecs: &Codecs,
    server: &mut Resumed<KeyedDigest>,
    traffic: &str,
    outside: &mut O,
) -> Result<(), Stop>
    requires { server.old.events ≤ MOST_EVENTS }
    ensures { Follows result (O.seen outside.old) (O.seen outside.new) (traffic.now ∷ [])
        (λ files. given (first files) traffic.now
        (resumed server.old.policy (told_of server.old))) }
{
    let traffic = outside.read_file(alloc, traffic)?;
    serve_all(
        alloc,
        codecs,
        server,
        &traffic,
        Shown::ReplyAndLine,
        outside,
    )
}

/// Judges the checkpoint of a name, and then serves the recording of a name behind it, under a policy that was read.
fn under<O: Outside>(
    alloc: Global,
    codecs: &Codecs,
    policy: Policy,
    asked: &Resumption<'_>,
    outside: &mut O,
) -> Result<(), Stop>
    ensures { Resumes result (O.seen outside.old) (O.seen outside.new)
        (asked.now.checkpoint.now ∷ asked.now.traffic.now ∷ []) (IsGiven policy)
        (resumption_under policy asked.now.checkpoint.now asked.now.traffic.now) }
{
    let bytes = outside.read_file(alloc, asked.checkpoint)?;
    let mut server = server_of(alloc, codecs, policy, &bytes)?;
    go_on(alloc, codecs, &mut server, asked.traffic, outside)
}

/// The same under the policy of a name, all but the ending's line. Each file is judged before the next one is opened.
fn judge<O: Outside>(
    alloc: Global,
    codecs: &Codecs,
    asked: &Resumption<'_>,
    outside: &mut O,
) -> Result<(), Stop>
    ensures { Resumes result (O.seen outside.old) (O.seen outside.new)
        (asked.now.policy.now ∷ asked.now.checkpoint.now ∷ asked.now.traffic.now ∷ []) IsJudged
        (resumption_due asked.now.policy.now asked.now.checkpoint.now asked.now.traffic.now) }
{
    let policy = rules_of(alloc, codecs, asked.policy, outside)?;
    under(alloc, codecs, policy, asked, outside)
}

/// Goes on from a checkpoint with a recording, and writes what `replay` writes for its events behind those before the
/// checkpoint. Then it tells the ending, and hands all on.
pub fn run_resumption<O: Outside>(
    alloc: Global,
    asked: &Resumption<'_>,
    codecs: &Codecs,
    outside: &mut O,
) -> Result<(), Stop>
    ensures resumes { Resumes result (O.seen outside.old) (O.seen outside.new)
        (asked.now.policy.now ∷ asked.now.checkpoint.now ∷ asked.now.traffic.now ∷ []) IsJudged
        (λ verdict files. told (resumption_due asked.now.policy.now asked.now.checkpoint.now
        asked.now.traffic.now verdict files)) }
    ensures handed { HandedOn result (O.seen outside.old) (O.seen outside.new) }
{
    let judged = judge(alloc, codecs, asked, outside);
    let told = tell(alloc, judged, outside);
    close(told, outside)
}
