//! A run with the codecs of the program.
ghost use Rattle.std.specs.Prelude.{◌≡◌, ◌≤◌, ◌<◌, ◌^◌, [], IfOk, IfSome, OnErr};
ghost use Rattle.std.specs.Option.{option_map};
ghost use Rattle.lnfs_format.specs.Kinds.{reads, writes};
ghost use Rattle.lnfs_stage.specs.Ending.{told_by};
ghost use Rattle.lnfs_stage.specs.Seen.{HandsOn};
ghost use Rattle.lnfs_commands.specs.Runs.{IsUnread};
ghost use Rattle.lnfs_commands.specs.Words.{form_of, texts};
ghost use Rattle.lnfs_service.specs.Handed.{dealings};
ghost use Rattle.lnfs_program.specs.Idle.{IsIdle};
ghost use Rattle.lnfs_program.specs.Runs.{HasReason, NoneFell, Runs, counts, streams};

use crate::run::run;
use lnfs_calipso::Label;
use lnfs_format::{Codec, Codecs, Kind, read_kind, write_kind};
use lnfs_outside::{Clock, Files, Net, Sink};
use lnfs_stage::Status;
use std::alloc::{AllocError, Global};
use std::sync::Wait;
use std::thread::Threads;

/// Makes the codecs of the three kinds, and does with them what the words say, as `run`.
///
/// # Errors
///
/// `AllocError` where there is no memory for the codecs. Nothing was read, written or counted then.
pub fn start<F: Files, K: Sink, A: Sink, N: Net, C: Clock + Sync, R: Threads + Wait + Sync>(
    rt: &R,
    alloc: Global,
    words: &[String],
    files: &mut F,
    out: &mut K,
    audit: &mut A,
    net: &mut N,
    clock: &C,
) -> Result<Status, AllocError>
where
    N::L: Send,
    ensures runs { IfOk result (λ status. Runs (F.content files.old) (C.may clock.now)
        (form_of (texts words.now)) status (streams (K.taken out.old) (A.taken audit.old))
        (streams (K.taken out.new) (A.taken audit.new))
        (dealings (N.dealt net.old) (N.dealt net.new) (N.backs net.old) (N.backs net.new))) }
    ensures reason { IfOk result (λ status. HasReason status (F.faults files.old)
        (F.faults files.new) (N.faults net.old) (N.faults net.new)
        (counts (K.write_faults out.old) (A.write_faults audit.old))
        (counts (K.write_faults out.new) (A.write_faults audit.new))) }
    ensures handed { IfOk result (λ status. IfSome (told_by status) (λ _. (K.waiting out.new ≡ [])
        × (A.waiting audit.new ≡ []))) }
    ensures rests { IfOk result (λ _.
        (HandsOn (K.waiting out.new) (K.write_faults out.old) (K.write_faults out.new))
        × (HandsOn (A.waiting audit.new) (A.write_faults audit.old) (A.write_faults audit.new))) }
    ensures idle { IfOk result (λ status. IsIdle (form_of (texts words.now)) status net.old
        net.new) }
    ensures unread { IfOk result (λ _. IsUnread (form_of (texts words.now)) files.old files.new) }
    ensures files { F.faults files.old ≤ F.faults files.new }
    ensures streams { NoneFell (counts (K.write_faults out.old) (A.write_faults audit.old))
        (counts (K.write_faults out.new) (A.write_faults audit.new)) }
    ensures net { N.faults net.old < 2 ^ 64 → N.faults net.old ≤ N.faults net.new }
    ensures content { F.content files.new ≡ F.content files.old }
    ensures nothing { OnErr result ((files.new ≡ files.old) × (out.new ≡ out.old)
        × (audit.new ≡ audit.old) × (net.new ≡ net.old)) }
{
    let read = move |kind: &Kind, bytes: &[u8]|
        ensures { IfOk result (λ label. label ≡ reads kind.now bytes.now) }
    { read_kind(alloc, kind, bytes) };
    let write = move |kind: &Kind, label: &Label|
        ensures { IfOk result (λ text. option_map (λ v. v.items) text ≡ writes kind.now label.now) }
    { write_kind(alloc, kind, label) };
    let calipso = Codec::new(0, Box::new(alloc, read)?, Box::new(alloc, write)?);
    let text = Codec::new(1, Box::new(alloc, read)?, Box::new(alloc, write)?);
    let name = Codec::new(2, Box::new(alloc, read)?, Box::new(alloc, write)?);
    let long = Codec::new(3, Box::new(alloc, read)?, Box::new(alloc, write)?);
    let codecs = Codecs::new(calipso, text, name, long);
    Ok(run(rt, alloc, words, files, out, audit, net, clock, codecs))
}
