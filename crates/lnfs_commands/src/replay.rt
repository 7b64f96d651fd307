//! Serving a recording's events, one after another, as their file is read.
ghost use Rattle.std.specs.Prelude.{◌≡◌, ◌++◌, ◌∷◌, ◌<◌, ◌^◌, [], IfOk, OnOk, length, unwrap_or};
ghost use Rattle.lnfs_types.specs.Moments.{Fits};
ghost use Rattle.lnfs_step.specs.Journal.{answer_with};
ghost use Rattle.lnfs_stage.specs.Due.{written};
ghost use Rattle.lnfs_stage.specs.Does.{Does, DoesLeft};
ghost use Rattle.lnfs_commands.specs.Commands.{replayed};
ghost use Rattle.lnfs_commands.specs.Events.{answer_writes, audit_with};
ghost use Rattle.lnfs_commands.specs.Lines.{text_in};
ghost use Rattle.lnfs_commands.specs.Replays.{Feeds, ending_of};

use crate::frame::frame;
use lnfs_engine::ReadExtra;
use lnfs_format::Codecs;
use lnfs_gss3::Mechanism;
use lnfs_stage::{Ending, Outside, Stop};
use lnfs_traffic::{TrafficError, TrafficReader};
use lnfs_types::Event;
use lnfs_vault::{AuditLine, VaultOf, write_line};
use std::alloc::{AllocError, Global};

/// The length of a piece of a recording that is fed at once, in bytes.
pub const PIECE: usize = 65_536;

/// The text of an audit line, or nothing.
pub fn text_of(alloc: Global, line: &Option<AuditLine>) -> Result<Vec<u8>, AllocError>
    ensures { IfOk result (λ text. text.items ≡ unwrap_or (text_in line.now) []) }
{
    match line {
        Some(line) => write_line(alloc, line),
        None => Ok(Vec::new(alloc)),
    }
}

/// Serves one event: hands over its reply's frame, and then its line.
fn serve_event<M: Mechanism + Drop, X: ReadExtra, O: Outside>(
    alloc: Global,
    codecs: &Codecs,
    vault: &mut VaultOf<M, X>,
    event: Event,
    outside: &mut O,
) -> Result<(), Stop>
    requires fits { Fits event }
    ensures does { Does result (O.seen outside.old) (O.seen outside.new)
        (written (answer_writes
        (answer_with X.extra M.signing vault.old.policy vault.old.journal event)
        (audit_with X.extra M.signing vault.old.policy vault.old.journal event))) }
    ensures left { (O.seen outside.new).left ≡ (O.seen outside.old).left }
    ensures state { OnOk result (vault.new ≡ record vault.old
        { journal = vault.old.journal ++ event ∷ [] }) }
    ensures few { OnOk result (length vault.new.journal < 2 ^ 64) }
{
    let served = vault.serve(codecs, event)?;
    let bytes = frame(alloc, served.reply);
    let line = text_of(alloc, &served.line)?;
    outside.put_text(&bytes)?;
    outside.put_line(&line)
}

/// How a replay ends with this answer of its reader.
pub fn ending_of(answer: Result<(), TrafficError>) -> Result<(), Stop>
    ensures { result ≡ ending_of answer }
{
    match answer {
        Ok(()) => Ok(()),
        Err(TrafficError::Damaged { at }) => Err(Stop::Ends(Ending::TrafficDamaged { at })),
        Err(TrafficError::Memory) => Err(Stop::Memory),
    }
}

/// Reads the next piece of the current file through the buffer and feeds it, and says whether there
/// was one.
fn feed_piece<O: Outside>(
    outside: &mut O,
    buf: &mut [u8],
    reader: &mut TrafficReader,
) -> Result<bool, Stop>
    requires { 0 < length buf.old }
    ensures { Feeds result (O.seen outside.old) (O.seen outside.new) reader.old reader.new }
{
    let count = outside.read(buf)?;
    if count == 0 {
        return Ok(false);
    }
    reader.feed(&buf[..count])?;
    Ok(true)
}

/// Replays the recording that is left of the current file in a vault, behind the events that it was given before. Each event
/// is served as soon as what was read of the file has all of it, and nothing more is read where a damage shows.
///
/// # Errors
///
/// `Ends` with `TrafficDamaged` where it is damaged, with the place in bytes from where the file was
/// read; the events before it were served. `ReadFault` where a call of the files failed, `WriteFault`
/// where one of the streams did, and `Memory`. The streams took a front of what is due then.
pub fn replay<M: Mechanism + Drop, X: ReadExtra, O: Outside>(
    alloc: Global,
    codecs: &Codecs,
    vault: &mut VaultOf<M, X>,
    outside: &mut O,
) -> Result<(), Stop>
    ensures { DoesLeft result (O.seen outside.old) (O.seen outside.new)
        (replayed X.extra M.signing vault.old.policy vault.old.journal) }
{
    let mut reader = TrafficReader::new(alloc);
    let mut buf = [0u8; PIECE];
    'turns: loop {
        let event = match reader.next() {
            Ok(Some(event)) => event,
            Ok(None) => {
                if !feed_piece(outside, &mut buf, &mut reader)? {
                    return ending_of(reader.finish());
                }
                continue;
            }
            Err(error) => return ending_of(Err(error)),
        };
        serve_event(alloc, codecs, vault, event, outside)?;
    }
}
