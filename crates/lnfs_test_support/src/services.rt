//! Services of links in memory.
ghost use Rattle.std.specs.Prelude.{IfOk};
ghost use Rattle.lnfs_outside.specs.Deals.{IsUnused};

use crate::flaw::{Flaw, read_of};
use crate::rows::frames_of;
use crate::runs::{Failing, Ran, Runtime, run_net};
use crate::site::{POLICY, file};
use lnfs_outside::{MemDeal, MemLink, MemNet};
use std::alloc::{AllocError, Global};

/// The peer of a link: its class, its requests in words with slashes between, and which reads and writes of the link are to
/// fail, counted from 1.
#[derive(Drop)]
pub struct Peer<'a> {
    pub class: u32,
    pub requests: &'a str,
    pub reads: &'a [u64],
    pub writes: &'a [u64],
}

/// A peer whose link doesn't fail.
pub fn peer_of<'a>(class: u32, requests: &'a str) -> Peer<'a> {
    Peer {
        class,
        requests,
        reads: &[],
        writes: &[],
    }
}

/// What a peer sends.
///
/// # Errors
///
/// A flaw where the words can't be read.
pub fn sent(alloc: Global, requests: &str) -> Result<Vec<u8>, Flaw> {
    let frames = frames_of(alloc, requests)?;
    read_of(alloc, frames, requests)
}

/// The link of a peer.
fn deal(alloc: Global, peer: &Peer<'_>) -> Result<MemDeal, Flaw>
    ensures { IfOk result IsUnused }
{
    let input = sent(alloc, peer.requests)?;
    let link = MemLink::new(alloc, &input, peer.reads, peer.writes)?;
    Ok(MemDeal {
        class: peer.class,
        link,
    })
}

/// A net with the links of peers. The calls of it with these numbers, counted from 1, are to fail.
///
/// # Errors
///
/// A flaw where the words of a peer can't be read.
pub fn net_of(alloc: Global, peers: &[Peer<'_>], failing: &[u64]) -> Result<MemNet, Flaw> {
    let mut deals = Vec::new(alloc);
    for peer in peers {
        deals.push(deal(alloc, peer)?)?;
    }
    Ok(MemNet::new(alloc, deals, failing)?)
}

/// What a service over a net gives, where `p` is the policy of all trials.
pub fn run_service(
    rt: &impl Runtime,
    alloc: Global,
    line: &str,
    net: &mut MemNet,
    failing: Failing<'_>,
) -> Result<Ran, AllocError> {
    let files = vec![in alloc; file(alloc, "p", POLICY.as_bytes())?]?;
    run_net(rt, alloc, line, files, net, failing)
}
