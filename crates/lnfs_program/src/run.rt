//! The top call.
ghost use Rattle.std.specs.Prelude.{◌≡◌, ◌≤◌, ◌<◌, ◌^◌, [], IfSome, Some};
ghost use Rattle.lnfs_stage.specs.Ending.{status_of, told_by};
ghost use Rattle.lnfs_stage.specs.Seen.{HandsOn, Stays};
ghost use Rattle.lnfs_stage.specs.Does.{HandedOn};
ghost use Rattle.lnfs_commands.specs.Runs.{IsUnread};
ghost use Rattle.lnfs_commands.specs.Words.{form_of, work, texts};
ghost use Rattle.lnfs_service.specs.Handed.{dealings};
ghost use Rattle.lnfs_program.specs.Idle.{IsIdle};
ghost use Rattle.lnfs_program.specs.Runs.{HasReason, NoneFell, Runs, RunsAsked, counts, streams};

use lnfs_auditing::run_audit;
use lnfs_checkpointing::{run_resumption, run_saving};
use lnfs_commands::{Work, run_alone};
use lnfs_dialling::run_visit;
use lnfs_format::Codecs;
use lnfs_outside::{Clock, Files, Net, Sink};
use lnfs_service::run_served;
use lnfs_stage::{Borrowed, Outside, Status, Stop};
use std::alloc::Global;
use std::sync::Wait;
use std::thread::Threads;

/// Serves links, talks a script through over one, judges recorded replies, or writes a checkpoint or goes on from one.
fn run_work<O: Outside, N: Net, C: Clock + Sync, R: Threads + Wait + Sync>(
    rt: &R,
    alloc: Global,
    asked: &Work<'_>,
    codecs: &Codecs,
    outside: &mut O,
    net: &mut N,
    clock: &C,
) -> Result<(), Stop>
where
    N::L: Send,
    ensures runs { RunsAsked (C.may clock.now) result (Some (work asked.now))
        (O.seen outside.old) (O.seen outside.new) (N.faults net.old) (N.faults net.new)
        (dealings (N.dealt net.old) (N.dealt net.new) (N.backs net.old) (N.backs net.new)) }
    ensures handed { HandedOn result (O.seen outside.old) (O.seen outside.new) }
    ensures idle { IsIdle (Some (work asked.now)) (status_of result) net.old net.new }
{
    match asked {
        Work::Serve(service) => run_served(rt, alloc, service, codecs, outside, net, clock),
        Work::Talk(visit) => run_visit(rt, alloc, visit, codecs, outside, net),
        Work::Judge(audit) => run_audit(alloc, audit, codecs, outside),
        Work::Save(saving) => run_saving(alloc, saving, codecs, outside),
        Work::Resume(resumption) => run_resumption(alloc, resumption, codecs, outside),
    }
}

/// Does what the words say.
fn run_asked<O: Outside, N: Net, C: Clock + Sync, R: Threads + Wait + Sync>(
    rt: &R,
    alloc: Global,
    words: &[String],
    codecs: &Codecs,
    outside: &mut O,
    net: &mut N,
    clock: &C,
) -> Result<(), Stop>
where
    N::L: Send,
    ensures runs { RunsAsked (C.may clock.now) result (form_of (texts words.now))
        (O.seen outside.old) (O.seen outside.new) (N.faults net.old) (N.faults net.new)
        (dealings (N.dealt net.old) (N.dealt net.new) (N.backs net.old) (N.backs net.new)) }
    ensures handed { HandedOn result (O.seen outside.old) (O.seen outside.new) }
    ensures idle { IsIdle (form_of (texts words.now)) (status_of result) net.old net.new }
    ensures unread { IsUnread (form_of (texts words.now)) (O.shelf outside.old)
        (O.shelf outside.new) }
{
    match run_alone(alloc, words, codecs, outside) {
        Err(stop) => Err(stop),
        Ok(None) => Ok(()),
        Ok(Some(work)) => run_work(rt, alloc, &work, codecs, outside, net, clock),
    }
}

/// The same, and its status.
fn run_in<O: Outside, N: Net, C: Clock + Sync, R: Threads + Wait + Sync>(
    rt: &R,
    alloc: Global,
    words: &[String],
    codecs: &Codecs,
    outside: &mut O,
    net: &mut N,
    clock: &C,
) -> Status
where
    N::L: Send,
    ensures runs { Runs (O.seen outside.old).content (C.may clock.now) (form_of (texts words.now))
        result (streams (O.seen outside.old).out.taken (O.seen outside.old).audit.taken)
        (streams (O.seen outside.new).out.taken (O.seen outside.new).audit.taken)
        (dealings (N.dealt net.old) (N.dealt net.new) (N.backs net.old) (N.backs net.new)) }
    ensures reason { HasReason result (O.seen outside.old).faults (O.seen outside.new).faults
        (N.faults net.old) (N.faults net.new)
        (counts (O.seen outside.old).out.faults (O.seen outside.old).audit.faults)
        (counts (O.seen outside.new).out.faults (O.seen outside.new).audit.faults) }
    ensures handed { IfSome (told_by result) (λ _. ((O.seen outside.new).out.waiting ≡ [])
        × ((O.seen outside.new).audit.waiting ≡ [])) }
    ensures rests { (HandsOn (O.seen outside.new).out.waiting (O.seen outside.old).out.faults
        (O.seen outside.new).out.faults)
        × (HandsOn (O.seen outside.new).audit.waiting (O.seen outside.old).audit.faults
        (O.seen outside.new).audit.faults) }
    ensures idle { IsIdle (form_of (texts words.now)) result net.old net.new }
    ensures unread { IsUnread (form_of (texts words.now)) (O.shelf outside.old)
        (O.shelf outside.new) }
    ensures stays { Stays (O.seen outside.old) (O.seen outside.new) }
    ensures net { N.faults net.old < 2 ^ 64 → N.faults net.old ≤ N.faults net.new }
{
    Status::of(run_asked(rt, alloc, words, codecs, outside, net, clock))
}

/// Does what the words behind the program's name say: reads the files that they name, hands each
/// frame and each text to `out` and each line to `audit`, and answers how it ended. The links of a
/// service come from the net, and their moments from the clock; the link of a client is dialled. The
/// codecs read and write labels. Where a call of the outside failed, or there was no memory, it gives
/// up there; a fault of a link ends the service of that link alone. A fault of a client's link is one
/// of the net.
pub fn run<F: Files, K: Sink, A: Sink, N: Net, C: Clock + Sync, R: Threads + Wait + Sync>(
    rt: &R,
    alloc: Global,
    words: &[String],
    files: &mut F,
    out: &mut K,
    audit: &mut A,
    net: &mut N,
    clock: &C,
    codecs: Codecs,
) -> Status
where
    N::L: Send,
    // the status and the writes are those that are due; where the run gave up, a front of the writes
    // was taken; the links that were dealt are those of a service or of a client, and each was handed
    // back; a checkpoint that was written is taken again, and one that is read gets the verdict that
    // its bytes and the policy determine
    ensures runs { Runs (F.content files.old) (C.may clock.now) (form_of (texts words.now)) result
        (streams (K.taken out.old) (A.taken audit.old))
        (streams (K.taken out.new) (A.taken audit.new))
        (dealings (N.dealt net.old) (N.dealt net.new) (N.backs net.old) (N.backs net.new)) }
    // it gives up only where a count rose, or for want of memory
    ensures reason { HasReason result (F.faults files.old) (F.faults files.new) (N.faults net.old)
        (N.faults net.new) (counts (K.write_faults out.old) (A.write_faults audit.old))
        (counts (K.write_faults out.new) (A.write_faults audit.new)) }
    // otherwise the streams hold nothing back; and else neither does, unless a call of it failed
    ensures handed { IfSome (told_by result) (λ _. (K.waiting out.new ≡ [])
        × (A.waiting audit.new ≡ [])) }
    ensures rests { (HandsOn (K.waiting out.new) (K.write_faults out.old) (K.write_faults out.new))
        × (HandsOn (A.waiting audit.new) (A.write_faults audit.old) (A.write_faults audit.new)) }
    // for words that ask for no links, and where the status comes before any, the net was asked for
    // nothing; without a task no file was opened
    ensures idle { IsIdle (form_of (texts words.now)) result net.old net.new }
    ensures unread { IsUnread (form_of (texts words.now)) files.old files.new }
    // no count falls, and no file changes
    ensures files { F.faults files.old ≤ F.faults files.new }
    ensures streams { NoneFell (counts (K.write_faults out.old) (A.write_faults audit.old))
        (counts (K.write_faults out.new) (A.write_faults audit.new)) }
    ensures net { N.faults net.old < 2 ^ 64 → N.faults net.old ≤ N.faults net.new }
    ensures content { F.content files.new ≡ F.content files.old }
{
    let mut outside = Borrowed { files, out, audit };
    run_in(rt, alloc, words, &codecs, &mut outside, net, clock)
}
