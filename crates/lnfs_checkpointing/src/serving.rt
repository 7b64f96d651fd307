//! Serving the events of a recording in memory, in a server that goes on.
ghost use Rattle.std.specs.Prelude.{◌≡◌, ◌≤◌, ◌<◌, ◌^◌, ◌∷◌, [], IfOk, IfSome, OnOk, length};
ghost use Rattle.lnfs_types.specs.declared.limits.TheConstants.{RECORD_LIMIT};
ghost use Rattle.lnfs_types.specs.Moments.{Fits};
ghost use Rattle.lnfs_layout.specs.declared.numbers.TheConstants.{MOST_EVENTS};
ghost use Rattle.lnfs_traffic.specs.Parts.{recorded};
ghost use Rattle.lnfs_stage.specs.Due.{written};
ghost use Rattle.lnfs_stage.specs.Does.{Does};
ghost use Rattle.lnfs_checkpoint.specs.Resumed.{state_of};
ghost use Rattle.lnfs_checkpointing.specs.Checkpoints.{served};
ghost use Rattle.lnfs_checkpointing.specs.Servings.{each_of, got_of, shown_of, IsBehind, IsFedOn};

use lnfs_checkpoint::Resumed;
use lnfs_commands::frame::frame;
use lnfs_commands::replay::{PIECE, ending_of, text_of};
use lnfs_format::Codecs;
use lnfs_gss3::KeyedDigest;
use lnfs_rpc::ReplyRecord;
use lnfs_stage::{Outside, Stop};
use lnfs_traffic::TrafficReader;
use lnfs_types::Event;
use std::alloc::{AllocError, Global};

/// What is written of an event that is served.
#[derive(Clone, Copy, Debug, PartialEq, Eq)]
pub(crate) enum Shown {
    LineAlone,
    ReplyAndLine,
}

/// Writes what is shown of an event: its reply's frame, and its line.
fn show<O: Outside>(
    alloc: Global,
    reply: Option<ReplyRecord>,
    line: &[u8],
    shown: Shown,
    outside: &mut O,
) -> Result<(), Stop>
    requires { IfSome reply (λ bytes. length bytes ≤ RECORD_LIMIT) }
    ensures { Does result (O.seen outside.old) (O.seen outside.new)
        (written (shown_of shown reply line.now)) }
{
    match shown {
        Shown::LineAlone => outside.put_line(line),
        Shown::ReplyAndLine => {
            let bytes = frame(alloc, reply);
            outside.put_text(&bytes)?;
            outside.put_line(line)
        }
    }
}

/// Serves one event, and writes what is shown of it.
fn serve_event<O: Outside>(
    alloc: Global,
    codecs: &Codecs,
    server: &mut Resumed<KeyedDigest>,
    event: Event,
    shown: Shown,
    outside: &mut O,
) -> Result<(), Stop>
    requires fits { Fits event }
    requires few { server.old.events < 2 ^ 63 }
    ensures does { Does result (O.seen outside.old) (O.seen outside.new)
        (written (each_of shown (got_of server.old event))) }
    ensures behind { OnOk result (IsBehind server.old server.new (event ∷ [])) }
{
    let served = server.serve(codecs, &event)?;
    let line = text_of(alloc, &served.line)?;
    show(alloc, served.reply, &line, shown, outside)
}

/// The length of a recording: a number of 64 bits, as that of each slice.
fn length_of(traffic: &[u8]) -> usize
    ensures is { result ≡ length traffic.now }
    ensures fits { length traffic.now < 2 ^ 64 }
{
    traffic.len()
}

/// Feeds the next piece behind so many bytes, and says how many were fed then.
fn feed_piece(traffic: &[u8], fed: usize, reader: &mut TrafficReader) -> Result<usize, AllocError>
    requires { fed ≤ length traffic.now }
    ensures { IfOk result (λ now. IsFedOn traffic.now fed now reader.old reader.new) }
{
    let rest = &traffic[fed..];
    let piece = &rest[..rest.len().min(PIECE)];
    reader.feed(piece)?;
    Ok(fed + piece.len())
}

/// Serves the events of a recording in a server that goes on, each as soon as what was fed has all of it.
///
/// # Errors
///
/// `Ends` with `TrafficDamaged` where it is damaged, with the place in bytes; the events before it were served.
/// `WriteFault` where one of the streams failed, and `Memory`. The streams took a front of what is due then.
pub(crate) fn serve_all<O: Outside>(
    alloc: Global,
    codecs: &Codecs,
    server: &mut Resumed<KeyedDigest>,
    traffic: &[u8],
    shown: Shown,
    outside: &mut O,
) -> Result<(), Stop>
    requires { server.old.events ≤ MOST_EVENTS }
    ensures does { Does result (O.seen outside.old) (O.seen outside.new)
        (served (each_of shown) server.old.policy server.old.events (state_of server.old.world server.old.locks)
        traffic.now) }
    ensures behind { OnOk result (IsBehind server.old server.new (recorded traffic.now)) }
    ensures few { OnOk result (length (recorded traffic.now) < 2 ^ 60) }
{
    let total = length_of(traffic);
    let mut reader = TrafficReader::new(alloc);
    let mut fed = 0;
    'turns: loop {
        let event = match reader.next() {
            Ok(Some(event)) => event,
            Ok(None) => {
                if fed == total {
                    return ending_of(reader.finish());
                }
                fed = feed_piece(traffic, fed, &mut reader)?;
                continue;
            }
            Err(error) => return ending_of(Err(error)),
        };
        serve_event(alloc, codecs, server, event, shown, outside)?;
    }
}
