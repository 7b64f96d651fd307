//! The table of the commands.
ghost use Rattle.std.specs.Prelude.{Some, []};
ghost use Rattle.std.specs.Option.{option_map};
ghost use Rattle.lnfs_gss3.specs.Mechanism.{keyed_digest};
ghost use Rattle.lnfs_stage.specs.Contents.{Follows};
ghost use Rattle.lnfs_stage.specs.Does.{Does};
ghost use Rattle.lnfs_commands.specs.Commands.{due, due_under, files_of, files_under, generation_due};
ghost use Rattle.lnfs_further.specs.Further.{further};
ghost use Rattle.lnfs_commands.specs.Runs.{IsUntouched};
ghost use Rattle.lnfs_commands.specs.Words.{named, replay, task_of, under};

use crate::command::{Command, Task};
use crate::replay::replay;
use crate::rules::rules_of;
use crate::server::new_server;
use crate::summary::sum_up;
use crate::texts::{check, migrate, translate};
use crate::words::{help, version};
use lnfs_format::Codecs;
use lnfs_gss3::KeyedDigest;
use lnfs_policy::Policy;
use lnfs_stage::{Ending, Outside, Stop};
use lnfs_traffic::generate;
use std::alloc::Global;

/// Replays the recording of a name in a new server.
fn replay_file<O: Outside>(
    alloc: Global,
    codecs: &Codecs,
    policy: Policy,
    traffic: &str,
    outside: &mut O,
) -> Result<(), Stop>
    ensures { Follows result (O.seen outside.old) (O.seen outside.new)
        (files_under (replay traffic.now)) (due_under policy (replay traffic.now)) }
{
    outside.open(alloc, traffic)?;
    let mut vault = new_server(alloc, policy, codecs, KeyedDigest)?;
    replay(alloc, codecs, &mut vault, outside)
}

/// Serves generated events in a new server, and shows what they come to.
fn serve_generated<O: Outside>(
    alloc: Global,
    codecs: &Codecs,
    policy: Policy,
    seed: u64,
    count: u32,
    outside: &mut O,
) -> Result<(), Stop>
    ensures { Does result (O.seen outside.old) (O.seen outside.new)
        (generation_due further keyed_digest policy [] seed count) }
{
    let events = generate(alloc, &policy, seed, count)?;
    let mut vault = new_server(alloc, policy, codecs, KeyedDigest)?;
    sum_up(alloc, codecs, &mut vault, events, outside)
}

/// Does a task under a policy that was read.
fn perform<O: Outside>(
    alloc: Global,
    codecs: &Codecs,
    policy: Policy,
    task: &Task<'_>,
    outside: &mut O,
) -> Result<(), Stop>
    ensures { Follows result (O.seen outside.old) (O.seen outside.new)
        (files_under (task_of task.now)) (due_under policy (task_of task.now)) }
{
    match task {
        Task::Check => check(alloc, &policy, outside),
        Task::Migrate => migrate(alloc, &policy, outside),
        Task::Replay { traffic } => replay_file(alloc, codecs, policy, traffic, outside),
        Task::Translate {
            source,
            target,
            bytes,
        } => translate(alloc, codecs, &policy, *source, *target, bytes, outside),
        Task::Generate { seed, count } => {
            serve_generated(alloc, codecs, policy, *seed, *count, outside)
        }
    }
}

/// Does a task under the policy of a name, which is read before any other file.
fn under<O: Outside>(
    alloc: Global,
    codecs: &Codecs,
    name: &str,
    task: &Task<'_>,
    outside: &mut O,
) -> Result<(), Stop>
    ensures { Follows result (O.seen outside.old) (O.seen outside.new)
        (files_of (Some (under name.now (task_of task.now))))
        (due (Some (under name.now (task_of task.now)))) }
{
    let policy = rules_of(alloc, codecs, name, outside)?;
    perform(alloc, codecs, policy, task, outside)
}

/// Does what a command asks for.
fn obey<O: Outside>(
    alloc: Global,
    codecs: &Codecs,
    command: &Command<'_>,
    outside: &mut O,
) -> Result<(), Stop>
    ensures follows { Follows result (O.seen outside.old) (O.seen outside.new)
        (files_of (Some (named command.now))) (due (Some (named command.now))) }
    ensures unread { IsUntouched (Some (named command.now)) (O.shelf outside.old)
        (O.shelf outside.new) }
{
    match command {
        Command::Help => outside.put_text(help().as_bytes()),
        Command::Version => outside.put_text(version().as_bytes()),
        Command::Under { policy, task } => under(alloc, codecs, policy, task, outside),
    }
}

/// Does what the words ask for, all but the ending's line; they were no form where there is no command.
pub fn judge<O: Outside>(
    alloc: Global,
    codecs: &Codecs,
    command: &Option<Command<'_>>,
    outside: &mut O,
) -> Result<(), Stop>
    ensures follows { Follows result (O.seen outside.old) (O.seen outside.new)
        (files_of (option_map named command.now)) (due (option_map named command.now)) }
    ensures unread { IsUntouched (option_map named command.now) (O.shelf outside.old)
        (O.shelf outside.new) }
{
    match command {
        None => Err(Stop::Ends(Ending::Usage)),
        Some(command) => obey(alloc, codecs, command, outside),
    }
}
