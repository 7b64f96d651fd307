//! Workers over one vault.
ghost use Rattle.std.specs.Prelude.{◌≡◌, ◌<◌, ◌≤◌, ℕ, [], Ok, IfOk, OnOk, All, length};
ghost use denote.Param.Send.{IsSync};
ghost use Rattle.lnfs_history.specs.Entries.{of, known, part};
ghost use Rattle.lnfs_types.specs.Moments.{Fits};
ghost use Rattle.lnfs_workers.specs.Served.{telling};
ghost use Rattle.lnfs_workers.specs.Links.{IsServed, IsDone, Waits};
ghost use Rattle.lnfs_workers.specs.Dealt.{AllAt, Hand};
ghost use Rattle.lnfs_workers.specs.Pairs.{Each, EachAt};
ghost use Rattle.lnfs_workers.specs.Transcripts.{entries_of};
ghost use Rattle.lnfs_workers.specs.Lines.{lines_in, lines_of};

use crate::deal::{deal, take_first};
use crate::desk::Desk;
use crate::gate::TurnGate;
use crate::line::{Done, LinkEnd, Waiting};
use crate::link::serve_links;
use crate::settling::{Settled, open_desk, settle};
use crate::shared::Shared;
use lnfs_engine::ReadExtra;
use lnfs_format::Codecs;
use lnfs_gss3::Mechanism;
use lnfs_history::{History, Opened, Recorder, Room};
use lnfs_outside::{Clock, Link};
use lnfs_vault::{AuditLine, Front, Parts, VaultOf};
use std::alloc::{AllocError, Global};
use std::collections::VecDeque;
use std::marker::Brand;
use std::snapshot::Snapshot;
use std::sync::{Mutex, Wait};
use std::thread::{Threads, map_vec};

/// The vault that served links, the ends of the links in their order, and the audit lines in the
/// order of the journal.
#[derive(Drop)]
pub struct Ended<M: Mechanism + Drop, X: ReadExtra, L> {
    pub vault: VaultOf<M, X>,
    pub ends: Vec<LinkEnd<L>>,
    pub lines: Vec<AuditLine>,
}

/// Gives each link its place, from the first.
fn with_places<B: Room, L: Drop>(
    alloc: Global,
    history: &History<B>,
    keeper: &mut Recorder<B>,
    links: Vec<(u32, L)>,
) -> Result<Vec<Waiting<B, L>>, AllocError>
    requires first { keeper.old.made ≡ 0 }
    requires few { length links.items ≤ 64 }
    ensures waiting { IfOk result (λ all. EachAt (λ n link one. (one.class ≡ link.0)
        × (one.link ≡ link.1) × (one.place ≡ part n [])) 0 links.items all.items) }
    ensures keeper { OnOk result (keeper.new ≡ known keeper.old.log (length links.items)) }
{
    let mut left = links;
    let mut all = Vec::new(alloc);
    while let Some(given) = take_first(&mut left) {
        let (class, link) = given;
        let place = history.place(keeper, all.len() as u32);
        all.push(Waiting { class, link, place })?;
    }
    Ok(all)
}

/// The links of one worker.
#[derive(Drop)]
struct Job<B: Room, L> {
    worker: u32,
    links: VecDeque<Waiting<B, L>>,
}

/// Numbers the workers, from 0.
fn numbered<B: Room, L: Drop>(
    alloc: Global,
    hands: VecDeque<VecDeque<Waiting<B, L>>>,
) -> Result<Vec<Job<B, L>>, AllocError>
    requires { length hands.items ≤ 16 }
    ensures { IfOk result (λ jobs. Each (λ links job. job.links ≡ links) hands.items jobs.items) }
{
    let mut left = hands;
    let mut jobs = Vec::new(alloc);
    while let Some(links) = left.pop_front() {
        let worker = jobs.len() as u32;
        jobs.push(Job { worker, links })?;
    }
    Ok(jobs)
}

/// The values of results that are all good.
fn gathered<T: Drop>(
    alloc: Global,
    results: Vec<Result<T, AllocError>>,
) -> Result<VecDeque<T>, AllocError>
    ensures { IfOk result (λ all. Each (λ one value. one ≡ Ok value) results.items all.items) }
{
    let mut all = VecDeque::new(alloc);
    for one in results {
        let value = one?;
        all.push_back(value)?;
    }
    Ok(all)
}

/// Says that threads may share what is lent, and does nothing.
fn may_share<T: Sync>(_lent: &T)
    ensures { IsSync T.row }
{}

/// Serves the links of each worker, the workers side by side, each in a thread of its own where one
/// can be made.
fn fan_out<
    B: Room + Send + Sync,
    M: Mechanism + Send + Sync + Drop,
    X: ReadExtra + Send,
    C: Clock + Sync,
    G: TurnGate + Sync,
    L: Link + Send + Drop,
    R: Threads + Wait + Sync,
>(
    rt: &R,
    codecs: &Codecs,
    shared: &Shared<'_, B, M, X, C, G>,
    jobs: Vec<Job<B, L>>,
) -> Result<Vec<Result<VecDeque<Done<B, L>>, AllocError>>, AllocError>
where
    X::Reader: Sync,
    requires { All (λ job. All (λ one. one.place.entries ≡ []) job.links.items) jobs.items }
    ensures { IfOk result (λ all. Each (λ job one.
        IfOk one (λ done.
        Each (IsDone (telling L.left L.taken L.read_faults L.write_faults)
        (C.may shared.now.clock.now)) job.links.items done.items)) jobs.items all.items) }
{
    may_share(codecs);
    may_share(shared.front);
    may_share(shared.history);
    may_share(shared.desk);
    let serve = move |job: Job<B, L>| -> Result<VecDeque<Done<B, L>>, AllocError>
        requires { All (λ one. one.place.entries ≡ []) job.links.items }
        ensures { IfOk result (λ done.
            Each (IsDone (telling L.left L.taken L.read_faults L.write_faults)
            (C.may shared.entry.now.clock.now)) job.links.items done.items) }
    {
        let Job { worker, links } = job;
        serve_links(rt, codecs, shared, worker, links)
    };
    map_vec(rt, jobs, &serve)
}

/// Serves the links of all workers.
fn serve_hands<
    B: Room + Send + Sync,
    M: Mechanism + Send + Sync + Drop,
    X: ReadExtra + Send,
    C: Clock + Sync,
    G: TurnGate + Sync,
    L: Link + Send + Drop,
    R: Threads + Wait + Sync,
>(
    rt: &R,
    codecs: &Codecs,
    shared: &Shared<'_, B, M, X, C, G>,
    hands: VecDeque<VecDeque<Waiting<B, L>>>,
) -> Result<VecDeque<VecDeque<Done<B, L>>>, AllocError>
where
    X::Reader: Sync,
    requires few { length hands.items ≤ 16 }
    requires entries { All (λ links. All (λ one. one.place.entries ≡ []) links.items) hands.items }
    ensures { IfOk result (λ all. Each (λ links done.
        Each (IsDone (telling L.left L.taken L.read_faults L.write_faults)
        (C.may shared.now.clock.now)) links.items done.items) hands.items all.items) }
{
    let jobs = numbered(shared.alloc, hands)?;
    let served = fan_out(rt, codecs, shared, jobs)?;
    gathered(shared.alloc, served)
}

/// Gives each link its place, and deals the links to so many workers.
fn seated<B: Room, L: Drop>(
    alloc: Global,
    history: &History<B>,
    keeper: &mut Recorder<B>,
    links: Vec<(u32, L)>,
    workers: u32,
) -> Result<VecDeque<VecDeque<Waiting<B, L>>>, AllocError>
    requires first { keeper.old.made ≡ 0 }
    requires links { length links.items ≤ 64 }
    requires some { 0 < workers }
    ensures hands { IfOk result (λ hands. AllAt (λ m hand.
        Hand (Waits links.items) (length links.items) workers m hand.items) 0 hands.items) }
    ensures count { IfOk result (λ hands. length hands.items ≡ workers) }
    ensures keeper { OnOk result (keeper.new ≡ known keeper.old.log (length links.items)) }
{
    let waiting = with_places(alloc, history, keeper, links)?;
    deal(alloc, waiting, workers as usize)
}

/// Serves links that were dealt to workers, over the books of a desk that has served none.
fn serve_seated<
    B: Room + Send + Sync,
    M: Mechanism + Send + Sync + Drop,
    X: ReadExtra + Send,
    C: Clock + Sync,
    G: TurnGate + Sync,
    L: Link + Send + Drop,
    R: Threads + Wait + Sync,
>(
    rt: &R,
    alloc: Global,
    codecs: &Codecs,
    front: Front<M, X>,
    history: &History<B>,
    desk: Desk<B, M, X>,
    clock: &C,
    gate: &G,
    links: &Snapshot<Vec<(u32, L)>>,
    hands: VecDeque<VecDeque<Waiting<B, L>>>,
) -> Result<Ended<M, X, L>, AllocError>
where
    X::Reader: Sync,
    requires site { front.policy ≡ B.policy }
    requires some { 0 < length hands.items }
    requires few { length hands.items ≤ 16 }
    requires hands { AllAt (λ m hand. Hand (Waits links.now.value.items)
        (length links.now.value.items) (length hands.items) m hand.items) 0 hands.items }
    ensures policy { IfOk result (λ ended. ended.vault.policy ≡ B.policy) }
    ensures ends { IfOk result (λ ended. EachAt (λ n link end.
        IsServed (telling L.left L.taken L.read_faults L.write_faults) (C.may clock.now) link.0
        link.1 end (of n (entries_of X.extra M.signing B.policy ended.vault.journal))) 0
        links.now.value.items ended.ends.items) }
    ensures others { IfOk result (λ ended. (link : ℕ) → B.links ≤ link →
        of link (entries_of X.extra M.signing B.policy ended.vault.journal) ≡ []) }
    ensures lines { IfOk result (λ ended. lines_in ended.lines.items
        ≡ lines_of X.extra M.signing B.policy ended.vault.journal) }
    ensures fits { IfOk result (λ ended. All Fits ended.vault.journal) }
{
    let desk = Mutex::new(desk);
    let shared = Shared {
        alloc,
        front: &front,
        history,
        desk: &desk,
        clock,
        gate,
    };
    let done = serve_hands(rt, codecs, &shared, hands)?;
    let Settled { books, ends, lines } = settle(
        alloc,
        history,
        clock,
        desk.into_inner(),
        links,
        done,
    )?;
    let vault = VaultOf::from_parts(Parts { front, books });
    Ok(Ended { vault, ends, lines })
}

/// Serves links under a name of the history.
fn serve_named<
    B: Room + Send + Sync,
    M: Mechanism + Send + Sync + Drop,
    X: ReadExtra + Send,
    C: Clock + Sync,
    G: TurnGate + Sync,
    L: Link + Send + Drop,
    R: Threads + Wait + Sync,
>(
    rt: &R,
    alloc: Global,
    codecs: &Codecs,
    opened: Opened,
    vault: VaultOf<M, X>,
    clock: &C,
    gate: &G,
    links: Vec<(u32, L)>,
    workers: u32,
) -> Result<Ended<M, X, L>, AllocError>
where
    X::Reader: Sync,
    requires table { opened.table.shared.table_id ≡ B.table }
    requires count { B.links ≡ length links.items }
    requires site { B.policy ≡ vault.policy }
    requires journal { vault.journal ≡ [] }
    requires links { length links.items ≤ 64 }
    requires some { 0 < workers }
    requires few { workers ≤ 16 }
    ensures policy { IfOk result (λ ended. ended.vault.policy ≡ vault.policy) }
    ensures ends { IfOk result (λ ended. EachAt (λ n link end.
        IsServed (telling L.left L.taken L.read_faults L.write_faults) (C.may clock.now) link.0
        link.1 end (of n (entries_of X.extra M.signing vault.policy ended.vault.journal))) 0
        links.items ended.ends.items) }
    ensures others { IfOk result (λ ended. (link : ℕ) → length links.items ≤ link →
        of link (entries_of X.extra M.signing vault.policy ended.vault.journal) ≡ []) }
    ensures lines { IfOk result (λ ended. lines_in ended.lines.items
        ≡ lines_of X.extra M.signing vault.policy ended.vault.journal) }
    ensures fits { IfOk result (λ ended. All Fits ended.vault.journal) }
{
    let given = Snapshot::of(&links);
    let (history, mut keeper) = opened.named::<B>();
    let hands = seated(alloc, &history, &mut keeper, links, workers)?;
    let Parts { front, books } = vault.into_parts();
    let desk = open_desk(alloc, books, keeper);
    serve_seated(
        rt, alloc, codecs, front, &history, desk, clock, gate, &given, hands,
    )
}

/// Serves links by worker threads, over one vault. Link i, which came by the listener of its class,
/// is served whole by worker i mod `workers`, and each worker takes its links in rising order. For
/// each record a worker passes the gate, takes the moment, and decodes the record; it makes the step
/// under the lock, and seals the reply when the lock is free again. The codecs read the labels that
/// are asserted. The clauses tell what comes of each link; which worker serves it, and when it passes
/// the gate, they leave to this code.
///
/// # Errors
///
/// `AllocError` where there is no memory. A link whose service found none ends with `Memory`: where the
/// record was decoded, nothing has happened; where its step was made, the server is stopped; where
/// the reply was sealed, the event is in the journal, and its reply is lost.
pub fn serve_all<
    M: Mechanism + Send + Sync + Drop,
    X: ReadExtra + Send,
    C: Clock + Sync,
    G: TurnGate + Sync,
    L: Link + Send + Drop,
    R: Threads + Wait + Sync,
>(
    rt: &R,
    alloc: Global,
    codecs: &Codecs,
    vault: VaultOf<M, X>,
    clock: &C,
    gate: &G,
    links: Vec<(u32, L)>,
    workers: u32,
) -> Result<Ended<M, X, L>, AllocError>
where
    X::Reader: Sync,
    requires journal { vault.journal ≡ [] }
    requires links { length links.items ≤ 64 }
    requires some { 0 < workers }
    requires few { workers ≤ 16 }
    // One vault served them all.
    ensures policy { IfOk result (λ ended. ended.vault.policy ≡ vault.policy) }
    // What each link gave and got is its part of the one journal: its records, which bear its class and
    // moments of the clock, and the frames of the replies that are due to them after all events before.
    ensures ends { IfOk result (λ ended. EachAt (λ n link end.
        IsServed (telling L.left L.taken L.read_faults L.write_faults) (C.may clock.now) link.0
        link.1 end (of n (entries_of X.extra M.signing vault.policy ended.vault.journal))) 0
        links.items ended.ends.items) }
    // Each event of the journal is of one of the links.
    ensures others { IfOk result (λ ended. (link : ℕ) → length links.items ≤ link →
        of link (entries_of X.extra M.signing vault.policy ended.vault.journal) ≡ []) }
    // The lines are those of the whole journal.
    ensures lines { IfOk result (λ ended. lines_in ended.lines.items
        ≡ lines_of X.extra M.signing vault.policy ended.vault.journal) }
    // Each event is within the bounds of one.
    ensures fits { IfOk result (λ ended. All Fits ended.vault.journal) }
{
    let opened = Opened::new(alloc)?;
    serve_named::<Brand, M, X, C, G, L, R>(
        rt, alloc, codecs, opened, vault, clock, gate, links, workers,
    )
}
