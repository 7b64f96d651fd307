//! Servers of the trials, what is recorded for them, and what they give.
ghost use Rattle.std.specs.Prelude.{◌≤◌, IfOk, IfSome, length};
ghost use Rattle.lnfs_types.specs.declared.limits.TheConstants.{RECORD_LIMIT};

use crate::site::policy_of;
use lnfs_checkpoint::{CheckpointError, Resumed, read_checkpoint};
use lnfs_format::Codecs;
use lnfs_gss3::TestMechanism;
use lnfs_layout::MOST_EVENTS;
use lnfs_test_support::flaw::{Flaw, demand, read_of};
use lnfs_test_support::rows::recording_of;
use lnfs_traffic::read_traffic;
use lnfs_types::Event;
use lnfs_vault::{Served, write_line};
use std::alloc::{AllocError, Global};

/// A server whose signatures can be told by hand.
pub type Server = Resumed<TestMechanism>;

/// A server before all events, under the policy that a text spells.
pub fn new_server(alloc: Global, codecs: &Codecs, policy: &str) -> Result<Server, Flaw> {
    let site = policy_of(alloc, codecs, policy)?;
    Ok(Resumed::new(alloc, site, codecs, TestMechanism)?)
}

/// What becomes of bytes as a checkpoint under the policy that a text spells.
pub fn taken(
    alloc: Global,
    codecs: &Codecs,
    policy: &str,
    bytes: &[u8],
) -> Result<Result<Server, CheckpointError>, Flaw> {
    let site = policy_of(alloc, codecs, policy)?;
    Ok(read_checkpoint(alloc, site, codecs, TestMechanism, bytes))
}

/// A server that goes on from a checkpoint.
///
/// # Errors
///
/// A flaw where the checkpoint isn't taken.
pub fn resume(alloc: Global, codecs: &Codecs, policy: &str, bytes: &[u8]) -> Result<Server, Flaw> {
    match taken(alloc, codecs, policy, bytes)? {
        Ok(server) => Ok(server),
        Err(_) => Err(Flaw::new(alloc, "a checkpoint", policy)),
    }
}

/// The checkpoint of a server.
pub fn checkpoint_of(alloc: Global, server: &Server) -> Result<Vec<u8>, Flaw> {
    if server.events() > MOST_EVENTS {
        return Err(Flaw::new(alloc, "events", "a checkpoint"));
    }
    Ok(server.write(alloc)?)
}

/// The events that a cell tells.
pub fn events_of(alloc: Global, cell: &str) -> Result<Vec<Event>, Flaw> {
    let traffic = read_of(alloc, recording_of(alloc, cell)?, cell)?;
    read_of(alloc, read_traffic(alloc, &traffic).ok(), cell)
}

/// What servers gave: the frames of replies, and lines.
#[derive(Drop)]
pub struct Given {
    pub frames: Vec<u8>,
    pub lines: Vec<u8>,
}

impl Given {
    /// Nothing yet.
    pub fn new(alloc: Global) -> Given {
        Given {
            frames: Vec::new(alloc),
            lines: Vec::new(alloc),
        }
    }

    /// Adds what serving an event brought.
    fn put(&mut self, alloc: Global, served: Served) -> Result<(), AllocError>
        requires { IfSome served.reply (λ reply. length reply ≤ RECORD_LIMIT) }
    {
        let Served { reply, line, .. } = served;
        if let Some(reply) = reply {
            self.frames.extend_from_slice(&reply.into_frame())?;
        }
        if let Some(line) = line {
            self.lines.extend_from_slice(&write_line(alloc, &line)?)?;
        }
        Ok(())
    }
}

/// Serves an event as the next one.
fn serve_one(
    alloc: Global,
    codecs: &Codecs,
    server: &mut Server,
    event: &Event,
) -> Result<Served, Flaw>
    ensures { IfOk result (λ served. IfSome served.reply (λ reply. length reply ≤ RECORD_LIMIT)) }
{
    let before = server.events();
    if !event.fits() || before >= MOST_EVENTS {
        return Err(Flaw::new(alloc, "an event", "served"));
    }
    let served = server.serve(codecs, event)?;
    demand(alloc, served.at == before + 1, "a number", "served")?;
    Ok(served)
}

/// Serves events one after another.
pub fn serve_all(
    alloc: Global,
    codecs: &Codecs,
    server: &mut Server,
    events: &[Event],
    given: &mut Given,
) -> Result<(), Flaw> {
    for event in events {
        let served = serve_one(alloc, codecs, server, event)?;
        given.put(alloc, served)?;
    }
    Ok(())
}

/// The checkpoint of a new server that served events.
pub fn checkpoint_after(
    alloc: Global,
    codecs: &Codecs,
    policy: &str,
    events: &[Event],
) -> Result<Vec<u8>, Flaw> {
    let mut server = new_server(alloc, codecs, policy)?;
    serve_all(alloc, codecs, &mut server, events, &mut Given::new(alloc))?;
    checkpoint_of(alloc, &server)
}
