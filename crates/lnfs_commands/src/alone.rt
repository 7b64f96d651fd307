//! A run that waits for nobody.
ghost use Rattle.std.specs.Option.{option_map};
ghost use Rattle.lnfs_commands.specs.Runs.{IsUnread, IsUntouched, Runs, RunsAlone};
ghost use Rattle.lnfs_commands.specs.Words.{form_of, named, texts};

use crate::command::{Asked, Command, Work};
use crate::perform::judge;
use crate::words::command_of;
use lnfs_format::Codecs;
use lnfs_stage::{Outside, Stop, close, tell};
use std::alloc::Global;

/// Does a command, tells its ending, and hands all on.
fn alone<O: Outside>(
    alloc: Global,
    codecs: &Codecs,
    command: &Option<Command<'_>>,
    outside: &mut O,
) -> Result<(), Stop>
    ensures runs { Runs result (option_map named command.now) (O.seen outside.old)
        (O.seen outside.new) }
    ensures unread { IsUntouched (option_map named command.now) (O.shelf outside.old)
        (O.shelf outside.new) }
{
    let judged = judge(alloc, codecs, command, outside);
    let told = tell(alloc, judged, outside);
    close(told, outside)
}

/// Does what the words behind the program's name say, unless they ask for what crates above this one do: then it does nothing,
/// and says what. It waits for nobody, and returns.
pub fn run_alone<'a, O: Outside>(
    alloc: Global,
    words: &'a [String],
    codecs: &Codecs,
    outside: &mut O,
) -> Result<Option<Work<'a>>, Stop>
    ensures runs { RunsAlone result (form_of (texts words.now)) (O.seen outside.old)
        (O.seen outside.new) }
    ensures unread { IsUnread (form_of (texts words.now)) (O.shelf outside.old)
        (O.shelf outside.new) }
{
    let command = match command_of(alloc, words) {
        Err(_) => {
            let _handed = outside.hand_on();
            return Err(Stop::Memory);
        }
        Ok(Some(Asked::Other(work))) => return Ok(Some(work)),
        Ok(Some(Asked::Alone(command))) => Some(command),
        Ok(None) => None,
    };
    match alone(alloc, codecs, &command, outside) {
        Ok(()) => Ok(None),
        Err(stop) => Err(stop),
    }
}
