//! Serving links, and telling what that came to.
ghost use Rattle.std.specs.Fmt.{decimal};
ghost use Rattle.std.specs.Prelude.{◌≡◌, ◌∷◌, ◌++◌, [], All, IfErr, IfOk, OnOk, IsTrue, Some, codes, length, map, string_bytes};
ghost use Rattle.lnfs_types.specs.Moments.{Fits};
ghost use Rattle.lnfs_traffic.specs.Texts.{recording_text};
ghost use Rattle.lnfs_workers.specs.Lines.{lines_in, lines_of};
ghost use Rattle.lnfs_workers.specs.Served.{telling};
ghost use Rattle.lnfs_stage.specs.Writes.{to_out, to_audit};
ghost use Rattle.lnfs_stage.specs.Ending.{status_of};
ghost use Rattle.lnfs_stage.specs.Due.{written};
ghost use Rattle.lnfs_stage.specs.Does.{Does};
ghost use Rattle.lnfs_commands.specs.Lines.{text_at_place};
ghost use Rattle.lnfs_service.specs.Handed.{Adds, dealings};
ghost use Rattle.lnfs_service.specs.Links.{Owes, told_end};
ghost use Rattle.lnfs_service.specs.Serves.{IsIdleBefore, IsUntold, Remains, Serves, served};
ghost use Rattle.lnfs_service.specs.Session.{FoundMemory, ending_name, link_lines};

use crate::links::{hang_up, links_of};
use lnfs_commands::Team;
use lnfs_engine::ReadExtra;
use lnfs_format::Codecs;
use lnfs_gss3::Mechanism;
use lnfs_outside::{Clock, Net};
use lnfs_stage::{Outside, Stop};
use lnfs_step::purge;
use lnfs_types::Event;
use lnfs_vault::{AuditLine, VaultOf, write_line};
use lnfs_workers::{Ended, Ending, LinkEnd, OpenGate, serve_all};
use std::alloc::{AllocError, Global};
use std::sync::Wait;
use std::thread::Threads;

/// The name of an ending, as it is printed.
fn name_of(ending: Ending) -> &'static str
    ensures { result.now ≡ ending_name ending }
{
    match ending {
        Ending::Closed => "Closed",
        Ending::Cut => "Cut",
        Ending::ReadFault => "ReadFault",
        Ending::WriteFault => "WriteFault",
        Ending::TooLong => "TooLong",
        Ending::Budget => "Budget",
        Ending::Memory => "Memory",
    }
}

/// The line of a link.
fn link_line(alloc: Global, number: usize, ending: &str, records: u32) -> Result<String, AllocError>
    ensures { IfOk result (λ line. string_bytes line ≡ codes "link " ++ decimal number
        ++ 32 ∷ ending.now ++ 32 ∷ decimal records ++ 10 ∷ []) }
{
    let mut line = format!(in alloc; "link {number} ")?;
    line.push_str(ending)?;
    let records = format!(in alloc; " {records}\n")?;
    line.push_str(records.as_str())?;
    Ok(line)
}

/// The lines of the links.
fn link_texts<L>(alloc: Global, ends: &[LinkEnd<L>]) -> Result<Vec<String>, AllocError>
    ensures { IfOk result (λ texts. map string_bytes texts.items ≡ link_lines 0 ends.now) }
{
    let mut texts = Vec::new(alloc);
    for (number, end) in ends.iter().enumerate() {
        let line = link_line(alloc, number, name_of(end.ending), end.records)?;
        texts.push(line)?;
    }
    Ok(texts)
}

/// Whether the service of each link found memory.
fn all_found<L>(ends: &[LinkEnd<L>]) -> bool
    ensures { IsTrue result → All FoundMemory ends.now }
{
    ends.iter().all(|end| end.ending != Ending::Memory)
}

/// Writes audit lines, each by itself.
fn put_lines<O: Outside>(alloc: Global, lines: &[AuditLine], outside: &mut O) -> Result<(), Stop>
    ensures does { Does result (O.seen outside.old) (O.seen outside.new)
        (written (map to_audit (map text_at_place lines.now))) }
    ensures untold { IfErr result IsUntold }
{
    for line in lines {
        let text = write_line(alloc, line)?;
        outside.put_line(&text)?;
    }
    Ok(())
}

/// Writes lines that have their texts, each by itself.
fn put_texts<O: Outside>(texts: &[String], outside: &mut O) -> Result<(), Stop>
    ensures does { Does result (O.seen outside.old) (O.seen outside.new)
        (written (map to_audit (map string_bytes texts.now))) }
    ensures untold { IfErr result IsUntold }
{
    for text in texts {
        outside.put_line(text.as_bytes())?;
    }
    Ok(())
}

/// Writes the recording of a journal, and behind it the journal's lines. The recording takes no
/// memory, so that want of it loses no event.
fn tell_journal<O: Outside>(
    alloc: Global,
    journal: &[Event],
    lines: &[AuditLine],
    outside: &mut O,
) -> Result<(), Stop>
    requires { All Fits journal.now }
    ensures does { Does result (O.seen outside.old) (O.seen outside.new)
        (written (to_out (recording_text journal.now) ∷ map to_audit (map text_at_place lines.now))) }
    ensures untold { IfErr result IsUntold }
{
    outside.put_recording(journal)?;
    put_lines(alloc, lines, outside)
}

/// Tells what a service came to, and hands back its links before their lines are written.
fn tell_session<M: Mechanism + Drop, X: ReadExtra, O: Outside, N: Net>(
    alloc: Global,
    vault: &VaultOf<M, X>,
    lines: &[AuditLine],
    ends: Vec<LinkEnd<N::L>>,
    outside: &mut O,
    net: &mut N,
) -> Result<(), Stop>
    requires fits { All Fits vault.now.journal }
    requires lines { lines_in lines.now ≡ lines_of X.extra M.signing vault.now.policy
        vault.now.journal }
    requires owes { Owes (length ends.items) (N.dealt net.old) (N.backs net.old) }
    ensures does { Does result (O.seen outside.old) (O.seen outside.new)
        (served X.extra M.signing vault.now.policy [] (Some (record { journal = vault.now.journal; ends = map (told_end (telling N.L.left N.L.taken N.L.read_faults N.L.write_faults)) ends.items }))) }
    ensures untold { IfErr result IsUntold }
    ensures memory { OnOk result (All FoundMemory ends.items) }
    ensures dealt { N.dealt net.new ≡ N.dealt net.old }
    ensures backs { Adds (N.backs net.old) (N.backs net.new)
        (map (λ end. telling N.L.left N.L.taken N.L.read_faults N.L.write_faults end.link)
        ends.items) }
    ensures later { Remains (N.faults net.old) (N.faults net.new) }
{
    let journal = tell_journal(alloc, vault.journal(), lines, outside);
    let texts = link_texts(alloc, &ends);
    let found = all_found(&ends);
    hang_up(net, ends);
    journal?;
    put_texts(&texts?, outside)?;
    if found { Ok(()) } else { Err(Stop::Memory) }
}

/// The same of a service that has ended.
fn tell<M: Mechanism + Drop, X: ReadExtra, O: Outside, N: Net>(
    alloc: Global,
    ended: Ended<M, X, N::L>,
    outside: &mut O,
    net: &mut N,
) -> Result<(), Stop>
    requires fits { All Fits ended.vault.journal }
    requires lines { lines_in ended.lines.items ≡ lines_of X.extra M.signing ended.vault.policy
        ended.vault.journal }
    requires owes { Owes (length ended.ends.items) (N.dealt net.old) (N.backs net.old) }
    ensures does { Does result (O.seen outside.old) (O.seen outside.new)
        (served X.extra M.signing ended.vault.policy [] (Some (record { journal = ended.vault.journal; ends = map (told_end (telling N.L.left N.L.taken N.L.read_faults N.L.write_faults)) ended.ends.items }))) }
    ensures untold { IfErr result IsUntold }
    ensures memory { OnOk result (All FoundMemory ended.ends.items) }
    ensures dealt { N.dealt net.new ≡ N.dealt net.old }
    ensures backs { Adds (N.backs net.old) (N.backs net.new)
        (map (λ end. telling N.L.left N.L.taken N.L.read_faults N.L.write_faults end.link)
        ended.ends.items) }
    ensures later { Remains (N.faults net.old) (N.faults net.new) }
{
    let Ended { vault, ends, lines } = ended;
    tell_session(alloc, &vault, &lines, ends, outside, net)
}

/// A vault that was given no event, as the workers begin with.
#[derive(Drop)]
pub struct NewVault<M: Mechanism + Drop, X: ReadExtra> {
    pub vault: VaultOf<M, X>,
    pub ghost first: { vault.journal ≡ [] },
}

/// Serves a link of each class of the team by its workers, over one vault. Then it tells the journal and its lines, and how
/// each link ended.
pub fn serve<
    M: Mechanism + Send + Sync + Drop,
    X: ReadExtra + Send,
    O: Outside,
    N: Net,
    C: Clock + Sync,
    R: Threads + Wait + Sync,
>(
    rt: &R,
    alloc: Global,
    codecs: &Codecs,
    new: NewVault<M, X>,
    team: &Team,
    outside: &mut O,
    net: &mut N,
    clock: &C,
) -> Result<(), Stop>
where
    X::Reader: Sync,
    N::L: Send,
    ensures serves { Serves X.extra (C.may clock.now) M.signing new.vault.policy new.vault.journal
        team.now.links.items result (O.seen outside.old) (O.seen outside.new) (N.faults net.old) (N.faults net.new)
        (dealings (N.dealt net.old) (N.dealt net.new) (N.backs net.old) (N.backs net.new)) }
    ensures idle { IsIdleBefore (status_of result) net.old net.new }
{
    // each reply is the one that its requester would get with what it doesn't dominate purged
    let NewVault { vault } = new;
    vault.policy().law_preorder();
    purge::<X, M>();
    let links = links_of(alloc, net, &team.links)?;
    let workers = team.workers;
    let ended = serve_all(rt, alloc, codecs, vault, clock, &OpenGate, links, workers)?;
    tell(alloc, ended, outside, net)
}
