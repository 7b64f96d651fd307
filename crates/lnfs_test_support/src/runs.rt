//! Runs over objects in memory.
use crate::flaw::{Flaw, demand};
use crate::rows::Due;
use crate::site::{POLICY, file};
use lnfs_outside::{MemClock, MemFile, MemFiles, MemNet, MemSink};
use lnfs_program::start::start;
use lnfs_types::Moment;
use std::alloc::{AllocError, Global};
use std::sync::Wait;
use std::thread::Threads;

/// What runs are on: threads, which may wait.
pub trait Runtime: Threads + Wait + Sync {}

impl<R: Threads + Wait + Sync> Runtime for R {}

/// Which calls are to fail, counted from 1: opening and reading files, and writing to the two streams.
#[derive(Clone, Copy, Drop)]
pub struct Failing<'a> {
    pub opens: &'a [u64],
    pub reads: &'a [u64],
    pub outs: &'a [u64],
    pub audits: &'a [u64],
}

/// No call fails.
pub const NONE: Failing<'static> = Failing {
    opens: &[],
    reads: &[],
    outs: &[],
    audits: &[],
};

/// The words of a line with white space between; `''` is a word without bytes.
pub fn words_of(alloc: Global, line: &str) -> Result<Vec<String>, AllocError> {
    let mut words = Vec::new(alloc);
    for word in line.split_whitespace() {
        let word = if word == "''" { "" } else { word };
        words.push(String::from_str(alloc, word)?)?;
    }
    Ok(words)
}

/// The status of a run, and what standard output and the audit stream took.
pub type Ran = (u8, MemSink, MemSink);

/// A clock that stands still.
pub fn still(alloc: Global) -> Result<MemClock, AllocError> {
    MemClock::new(
        alloc,
        &[Moment {
            secs: 100,
            nanos: 0,
        }],
    )
}

/// What words give over files and a net.
fn run_words(
    rt: &impl Runtime,
    alloc: Global,
    words: &[String],
    mut files: MemFiles,
    net: &mut MemNet,
    failing: Failing<'_>,
) -> Result<Ran, AllocError> {
    let mut out = MemSink::new(alloc, failing.outs)?;
    let mut audit = MemSink::new(alloc, failing.audits)?;
    let clock = still(alloc)?;
    let status = start(
        rt, alloc, words, &mut files, &mut out, &mut audit, net, &clock,
    )?;
    Ok((status.number(), out, audit))
}

/// What the words of a line give over files and a net, some of whose calls may fail.
pub fn run_net(
    rt: &impl Runtime,
    alloc: Global,
    line: &str,
    files: Vec<MemFile>,
    net: &mut MemNet,
    failing: Failing<'_>,
) -> Result<Ran, AllocError> {
    let words = words_of(alloc, line)?;
    let files = MemFiles::new(alloc, files, failing.opens, failing.reads)?;
    run_words(rt, alloc, &words, files, net, failing)
}

/// What the words of a line give over files, with a net that has no link.
pub fn run_files(
    rt: &impl Runtime,
    alloc: Global,
    line: &str,
    files: Vec<MemFile>,
    failing: Failing<'_>,
) -> Result<Ran, AllocError> {
    let mut net = MemNet::new(alloc, Vec::new(alloc), &[])?;
    run_net(rt, alloc, line, files, &mut net, failing)
}

/// What `replay p t` gives, where `p` is a policy and `t` a recording.
pub fn run_under(
    rt: &impl Runtime,
    alloc: Global,
    policy: &str,
    traffic: &[u8],
) -> Result<Ran, AllocError> {
    let policy = file(alloc, "p", policy.as_bytes())?;
    let files = vec![in alloc; policy, file(alloc, "t", traffic)?]?;
    run_files(rt, alloc, "replay p t", files, NONE)
}

/// The same under the policy of all trials.
pub fn run_over(rt: &impl Runtime, alloc: Global, traffic: &[u8]) -> Result<Ran, AllocError> {
    run_under(rt, alloc, POLICY, traffic)
}

/// Compares what a run gave with what is due: the status, and the bytes of the two streams.
///
/// # Errors
///
/// A flaw that names the first of these that is otherwise.
pub fn gives(alloc: Global, row: &str, ran: &Ran, due: &Due) -> Result<(), Flaw> {
    demand(alloc, ran.0 == due.status, "status", row)?;
    demand(alloc, ran.1.bytes() == due.out.as_slice(), "out", row)?;
    demand(alloc, ran.2.bytes() == due.lines.as_bytes(), "audit", row)
}
