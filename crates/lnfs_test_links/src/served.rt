//! Links that are served in a new vault.
ghost use Rattle.std.specs.Prelude.{◌≡◌, ◌≤◌, ◌<◌, [], All, IfOk, length};
ghost use Rattle.lnfs_types.specs.Moments.{Fits};

use crate::codecs::codecs_of;
use lnfs_engine::NoExtra;
use lnfs_format::Codecs;
use lnfs_gss3::Mechanism;
use lnfs_outside::{Clock, Link};
use lnfs_policy::read_policy;
use lnfs_test_support::runs::still;
use lnfs_test_support::site::POLICY;
use lnfs_traffic::write_traffic;
use lnfs_types::Event;
use lnfs_vault::{AuditLine, Vault};
use lnfs_workers::{Ended, LinkEnd, TurnGate, serve_all};
use std::alloc::{AllocError, Global};
use std::process::Abort;
use std::sync::Wait;
use std::thread::Threads;

/// What a service came to: the links of the journal's events, in their order, the journal's recording, the ends of the links,
/// and the places of the audit lines.
#[derive(Drop)]
pub struct Served<L> {
    pub order: Vec<u32>,
    pub recording: Vec<u8>,
    pub ends: Vec<LinkEnd<L>>,
    pub lines: Vec<u64>,
}

/// A vault that served nothing.
fn new_vault<M: Mechanism + Drop>(
    rt: &impl Abort,
    alloc: Global,
    codecs: &Codecs,
    mechanism: M,
) -> Result<Vault<M>, AllocError>
    ensures { IfOk result (λ vault. vault.journal ≡ []) }
{
    let read = read_policy(alloc, POLICY.as_bytes(), codecs);
    let policy = read.ok().expect(rt, "a policy");
    Vault::new(alloc, policy, codecs, mechanism)
}

/// The links of the events of a journal.
fn links_in(alloc: Global, journal: &[Event]) -> Result<Vec<u32>, AllocError> {
    let mut links = Vec::new(alloc);
    for event in journal {
        links.push(event.link)?;
    }
    Ok(links)
}

/// The places of lines.
fn places_in(alloc: Global, lines: &[AuditLine]) -> Result<Vec<u64>, AllocError> {
    let mut places = Vec::new(alloc);
    for line in lines {
        places.push(line.event)?;
    }
    Ok(places)
}

/// What is told of a journal and its lines: the links of its events, its recording, and the places of the lines.
fn told(
    alloc: Global,
    journal: &[Event],
    lines: &[AuditLine],
) -> Result<(Vec<u32>, Vec<u8>, Vec<u64>), AllocError>
    requires { All Fits journal.now }
{
    let order = links_in(alloc, journal)?;
    let recording = write_traffic(alloc, journal)?;
    Ok((order, recording, places_in(alloc, lines)?))
}

/// What is told of a service that has ended.
fn served_of<M: Mechanism + Drop, L: Drop>(
    alloc: Global,
    ended: Ended<M, NoExtra, L>,
) -> Result<Served<L>, AllocError>
    requires { All Fits ended.vault.journal }
{
    let Ended { vault, ends, lines } = ended;
    let (order, recording, lines) = told(alloc, vault.journal(), &lines)?;
    Ok(Served {
        order,
        recording,
        ends,
        lines,
    })
}

/// Serves links in a new vault, at the times of a clock.
pub fn serve_at<
    M: Mechanism + Send + Sync + Drop,
    L: Link + Send + Drop,
    C: Clock + Sync,
    G: TurnGate + Sync,
    R: Threads + Wait + Sync + Abort,
>(
    rt: &R,
    alloc: Global,
    codecs: &Codecs,
    mechanism: M,
    clock: &C,
    gate: &G,
    links: Vec<(u32, L)>,
    workers: u32,
) -> Result<Served<L>, AllocError>
    requires links { length links.items ≤ 64 }
    requires some { 0 < workers }
    requires few { workers ≤ 16 }
{
    let vault = new_vault(rt, alloc, codecs, mechanism)?;
    let ended = serve_all(rt, alloc, codecs, vault, clock, gate, links, workers)?;
    served_of(alloc, ended)
}

/// Serves links in a new vault, under a mechanism of signatures.
pub fn serve<
    M: Mechanism + Send + Sync + Drop,
    L: Link + Send + Drop,
    G: TurnGate + Sync,
    R: Threads + Wait + Sync + Abort,
>(
    rt: &R,
    alloc: Global,
    mechanism: M,
    gate: &G,
    links: Vec<(u32, L)>,
    workers: u32,
) -> Result<Served<L>, AllocError>
    requires some { 0 < workers }
    requires few { workers ≤ 16 }
{
    if links.len() > 64 {
        return Err(AllocError);
    }
    let codecs = codecs_of(alloc)?;
    let clock = still(alloc)?;
    serve_at(rt, alloc, &codecs, mechanism, &clock, gate, links, workers)
}
