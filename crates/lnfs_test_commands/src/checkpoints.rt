//! The commands over checkpoints: statuses, and what the streams get.
use crate::cells::{check, content_of};
use lnfs_outside::MemFile;
use lnfs_test_support::flaw::{Flaw, demand};
use lnfs_test_support::rows::recording_of;
use lnfs_test_support::runs::{NONE, Runtime, run_files};
use lnfs_test_support::site::{BAD_POLICY, POLICY, file};
use std::alloc::{AllocError, Global};
use std::process::Abort;

/// Recordings, by name: a client of level 0, three of level 3, these and then that one, and a call that is denied.
const RECORDINGS: [(&str, &str); 4] = [
    ("low", "CALL SYS EXCHANGE 'c1' REST"),
    (
        "high",
        "@1 CALL SYS_300 0 2 1 42 0 0 1 'x' 0x000000 0 0 0 / @1 CALL SYS_300 0 2 1 42 0 0 1 'y' 0x000000 0 0 0 / \
         @1 CALL SYS_300 0 2 1 42 0 0 1 'z' 0x000000 0 0 0",
    ),
    (
        "both",
        "@1 CALL SYS_300 0 2 1 42 0 0 1 'x' 0x000000 0 0 0 / @1 CALL SYS_300 0 2 1 42 0 0 1 'y' 0x000000 0 0 0 / \
         @1 CALL SYS_300 0 2 1 42 0 0 1 'z' 0x000000 0 0 0 / CALL SYS EXCHANGE 'c1' REST",
    ),
    ("denied", "@1 CALL SYS_5 EXCHANGE 'c5' REST"),
];

/// Checkpoints, by name, and the words whose run writes them.
const CHECKPOINTS: [(&str, &str); 5] = [
    ("at0", "checkpoint p none"),
    ("at3", "checkpoint p high"),
    ("behind", "checkpoint p denied"),
    ("others", "checkpoint other high"),
    ("carried", "checkpoint limited high"),
];

/// The length of a checkpoint before all events: the head, the last numbers of four levels, the counts of seven lists, four
/// directories, and three names.
const LENGTH_AT0: usize = 769;

/// Where the last number of clients that level 3 gave ends.
const LAST_CLIENT: usize = 199;

/// Checkpoints that are written.
const SAVED: &str = "
checkpoint p none | 0 | = at0
checkpoint p high | 0 | = at3
checkpoint p denied | 0 | = behind | 1 0 0 C 5
checkpoint other high | 0 | = others
checkpoint limited high | 0 | = carried
";

/// Recordings that are served behind checkpoints.
const RESUMED: &str = "
resume p at0 low | 0 | : EXCHANGED 0 1 SERVER
resume p at3 low | 0 | : EXCHANGED 0 1 SERVER
resume p at0 high | 0 | : EXCHANGED 3 1 SERVER / EXCHANGED 3 2 SERVER / EXCHANGED 3 3 SERVER
resume limited carried low | 0 | : EXCHANGED 0 4 SERVER
replay p both | 0 | : EXCHANGED 3 1 SERVER / EXCHANGED 3 2 SERVER / EXCHANGED 3 3 SERVER / EXCHANGED 0 1 SERVER
resume p at0 both | 0 | : EXCHANGED 3 1 SERVER / EXCHANGED 3 2 SERVER / EXCHANGED 3 3 SERVER / EXCHANGED 0 1 SERVER
resume p at3 none | 0 |
resume p at0 denied | 0 | : DENIED 5 | 1 0 0 C 5
resume p at3 denied | 0 | : DENIED 5 | 4 0 0 C 5
resume p behind denied | 0 | : DENIED 5 | 2 0 0 C 5
";

/// Words that are no form.
const USAGE: &str = "
checkpoint | 2 | | fault 2 usage
checkpoint p | 2 | | fault 2 usage
checkpoint no | 2 | | fault 2 usage
checkpoint p low low | 2 | | fault 2 usage
Checkpoint p low | 2 | | fault 2 usage
checkpoints p low | 2 | | fault 2 usage
resume | 2 | | fault 2 usage
resume p | 2 | | fault 2 usage
resume p at0 | 2 | | fault 2 usage
resume p at0 low low | 2 | | fault 2 usage
";

/// Policies that are refused, before other files are looked for.
const POLICIES: &str = "
checkpoint q low | 3 | | fault 3 policy line 10 cause Guest
checkpoint q no | 3 | | fault 3 policy line 10 cause Guest
checkpoint low low | 3 | | fault 3 policy line 1 cause Version
resume q at0 low | 3 | | fault 3 policy line 10 cause Guest
resume q no no | 3 | | fault 3 policy line 10 cause Guest
";

/// Recordings that are damaged: behind an event, and at the beginning.
const DAMAGED: &str = "
checkpoint p low+ | 4 | | fault 4 traffic damaged at 140
checkpoint p denied+ | 4 | | 1 0 0 C 5 | fault 4 traffic damaged at 140
checkpoint p second | 4 | | fault 4 traffic damaged at 0
checkpoint p empty | 4 | | fault 4 traffic damaged at 0
resume p at3 low+ | 4 | : EXCHANGED 0 1 SERVER | fault 4 traffic damaged at 140
resume p at3 denied+ | 4 | : DENIED 5 | 4 0 0 C 5 | fault 4 traffic damaged at 140
resume p at3 second | 4 | | fault 4 traffic damaged at 0
";

/// Files that aren't there, in the order of the words.
const MISSING: &str = "
checkpoint no low | 9 | | fault 9 no file no
checkpoint p no | 9 | | fault 9 no file no
resume no at0 low | 9 | | fault 9 no file no
resume p no low | 9 | | fault 9 no file no
resume p no none2 | 9 | | fault 9 no file no
resume p at0 no | 9 | | fault 9 no file no
";

/// Checkpoints that are refused, before the recording is looked for.
const REFUSED: &str = "
resume p cut low | 14 | | fault 14 checkpoint damaged at 8
resume p empty low | 14 | | fault 14 checkpoint damaged at 0
resume p renamed low | 14 | | fault 14 checkpoint damaged at 0
resume p low at3 | 14 | | fault 14 checkpoint damaged at 0
resume p longer low | 14 | | fault 14 checkpoint damaged at 880
resume p others low | 14 | | fault 14 checkpoint policy
resume other at3 low | 14 | | fault 14 checkpoint policy
resume limited at3 low | 14 | | fault 14 checkpoint policy
resume p lost low | 14 | | fault 14 checkpoint unfit
resume p cut no | 14 | | fault 14 checkpoint damaged at 8
resume p cut second | 14 | | fault 14 checkpoint damaged at 8
resume p others no | 14 | | fault 14 checkpoint policy
resume p lost no | 14 | | fault 14 checkpoint unfit
";

/// Calls that fail. Each file is read to its end before the next one is opened, and before the first event is served.
const FAULTS: &str = "
checkpoint p low ! open 1 | 5 |
checkpoint p low ! open 2 | 5 |
checkpoint p denied ! read 1 | 5 |
checkpoint p denied ! read 3 | 5 |
resume p at3 low ! open 1 | 5 |
resume p at3 low ! open 2 | 5 |
resume p at3 low ! open 3 | 5 |
resume p at3 denied ! read 5 | 5 |
resume p cut low ! open 3 | 14 | | fault 14 checkpoint damaged at 8
checkpoint p low ! out 1 | 6 |
checkpoint p denied ! audit 1 | 6 |
resume p at0 high ! out 2 | 6 | : EXCHANGED 3 1 SERVER
resume p at3 denied ! audit 1 | 6 | : DENIED 5
resume p cut low ! audit 1 | 6 |
checkpoint p low+ ! audit 1 | 6 |
";

/// The policies: one that is refused, and others that differ from `p` in a line.
fn add_policies(alloc: Global, files: &mut Vec<MemFile>) -> Result<(), AllocError> {
    files.push(file(alloc, "p", POLICY.as_bytes())?)?;
    files.push(file(alloc, "q", BAD_POLICY)?)?;
    let other = POLICY.replace(alloc, "dir /top 3\n", "")?;
    files.push(file(alloc, "other", other.as_bytes())?)?;
    let limited = POLICY.replace(alloc, "mode enforcing", "mode limited")?;
    files.push(file(alloc, "limited", limited.as_bytes())?)?;
    Ok(())
}

/// A file of another one's bytes with one behind them.
fn add_longer(
    alloc: Global,
    name: &str,
    bytes: &[u8],
    files: &mut Vec<MemFile>,
) -> Result<(), AllocError> {
    let mut longer = Vec::from_slice(alloc, bytes)?;
    longer.push(0)?;
    files.push(file(alloc, name, &longer)?)?;
    Ok(())
}

/// The recordings, whole and damaged.
fn add_recordings(
    rt: &impl Abort,
    alloc: Global,
    files: &mut Vec<MemFile>,
) -> Result<(), AllocError> {
    files.push(file(alloc, "none", b"LNFSTRC1")?)?;
    files.push(file(alloc, "second", b"LNFSTRC2")?)?;
    files.push(file(alloc, "empty", b"")?)?;
    for (name, events) in RECORDINGS {
        let traffic = recording_of(alloc, events)?.expect(rt, events);
        files.push(file(alloc, name, &traffic)?)?;
        let longer = format!(in alloc; "{name}+")?;
        add_longer(alloc, &longer, &traffic, files)?;
    }
    Ok(())
}

/// The policies and the recordings.
fn given(rt: &impl Abort, alloc: Global) -> Result<Vec<MemFile>, AllocError> {
    let mut files = Vec::new(alloc);
    add_policies(alloc, &mut files)?;
    add_recordings(rt, alloc, &mut files)?;
    Ok(files)
}

/// What the words of a run write to standard output, over the policies and the recordings.
fn written(rt: &(impl Runtime + Abort), alloc: Global, words: &str) -> Result<Vec<u8>, AllocError> {
    let (_status, out, _audit) = run_files(rt, alloc, words, given(rt, alloc)?, NONE)?;
    Vec::from_slice(alloc, out.bytes())
}

/// A file of other bytes, of which one is changed.
fn add_changed(
    alloc: Global,
    name: &str,
    bytes: &[u8],
    at: usize,
    to: u8,
    files: &mut Vec<MemFile>,
) -> Result<(), AllocError> {
    let mut changed = Vec::from_slice(alloc, bytes)?;
    if let Some(byte) = changed.get_mut(at) {
        *byte = to;
    }
    files.push(file(alloc, name, &changed)?)?;
    Ok(())
}

/// Parts of a checkpoint, and checkpoints that differ from it.
fn add_others(alloc: Global, bytes: &[u8], files: &mut Vec<MemFile>) -> Result<(), AllocError> {
    files.push(file(alloc, "cut", bytes.get(..39).unwrap_or(b""))?)?;
    add_longer(alloc, "longer", bytes, files)?;
    add_changed(alloc, "renamed", bytes, 0, b'M', files)?;
    add_changed(alloc, "lost", bytes, LAST_CLIENT, 2, files)
}

/// All files: policies, recordings, and checkpoints.
fn all_files(rt: &(impl Runtime + Abort), alloc: Global) -> Result<Vec<MemFile>, AllocError> {
    let mut files = given(rt, alloc)?;
    for (name, words) in CHECKPOINTS {
        let bytes = written(rt, alloc, words)?;
        files.push(file(alloc, name, &bytes)?)?;
    }
    let bytes = written(rt, alloc, "checkpoint p high")?;
    add_others(alloc, &bytes, &mut files)?;
    Ok(files)
}

#[test]
fn checkpoints(rt: HostRuntime) -> Result<(), Flaw> {
    let files = all_files(&rt, rt.alloc())?;
    check(&rt, rt.alloc(), &files, SAVED, 5)?;
    check(&rt, rt.alloc(), &files, RESUMED, 10)
}

#[test]
fn refusals(rt: HostRuntime) -> Result<(), Flaw> {
    let files = all_files(&rt, rt.alloc())?;
    check(&rt, rt.alloc(), &files, USAGE, 10)?;
    check(&rt, rt.alloc(), &files, POLICIES, 5)?;
    check(&rt, rt.alloc(), &files, DAMAGED, 7)?;
    check(&rt, rt.alloc(), &files, MISSING, 6)?;
    check(&rt, rt.alloc(), &files, REFUSED, 13)
}

#[test]
fn calls_that_fail(rt: HostRuntime) -> Result<(), Flaw> {
    let files = all_files(&rt, rt.alloc())?;
    check(&rt, rt.alloc(), &files, FAULTS, 15)
}

/// A checkpoint begins with its name, and before all events it has the rows of the first directories alone.
#[test]
fn before_all_events(rt: HostRuntime) -> Result<(), Flaw> {
    let files = all_files(&rt, rt.alloc())?;
    let bytes = content_of(&files, "at0");
    demand(
        rt.alloc(),
        bytes.starts_with(b"LNFSCKP1"),
        "the name",
        "at0",
    )?;
    demand(rt.alloc(), bytes.len() == LENGTH_AT0, "the length", "at0")
}
