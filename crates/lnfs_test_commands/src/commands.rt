//! Command lines over files in memory: what the run writes, and its status.
use crate::cells::check;
use lnfs_outside::MemFile;
use lnfs_test_support::flaw::Flaw;
use lnfs_test_support::rows::recording_of;
use lnfs_test_support::runs::{NONE, Ran, Runtime, run_files};
use lnfs_test_support::site::{BAD_POLICY, POLICY, file};
use std::alloc::{AllocError, Global};
use std::process::Abort;

/// The words themselves, and the files that they name.
const WORDS: &str = "
replay p t | 0 | : EXCHANGED 0 1 SERVER
replay p no | 9 | | fault 9 no file no
replay no t | 9 | | fault 9 no file no
replay q t | 3 | | fault 3 policy line 10 cause Guest
replay t t | 3 | | fault 3 policy line 1 cause Version
replay p | 2 | | fault 2 usage
serve p t 1 | 2 | | fault 2 usage
 | 2 | | fault 2 usage
--version | 0 | lnfs 0.1.0
translate p 01 1 00 102 1 | 2 | | fault 2 usage
translate p 101 +1 00 102 1 | 2 | | fault 2 usage
translate p 101 1 00 4294967296 1 | 2 | | fault 2 usage
translate p 101 1 00 102 -1 | 2 | | fault 2 usage
translate p 101 1 00 102 '' | 2 | | fault 2 usage
translate p 101 1 000 102 1 | 2 | | fault 2 usage
translate p 101 1 0g 102 1 | 2 | | fault 2 usage
translate p 101 1 102 1 | 2 | | fault 2 usage
translate p 101 1 00 102 1 1 | 2 | | fault 2 usage
translate | 2 | | fault 2 usage
translate no 101 1 0 102 1 | 2 | | fault 2 usage
translate p 4294967295 1 00 102 1 | 10 | | fault 10 untranslated WrongLfs
";

/// Policies that are checked.
const CHECKS: &str = "
check p | 0 | = p
check commented | 0 | = p
check level | 3 | | fault 3 policy line 4 cause Level
check guest | 3 | | fault 3 policy line 12 cause Guest
check no | 9 | | fault 9 no file no
check | 2 | | fault 2 usage
check p p | 2 | | fault 2 usage
replay limited no | 9 | | fault 9 no file no
check limited | 0 | = limited
check newer | 0 | = newer
migrate p | 0 | = newer
migrate newer | 0 | = newer
migrate commented | 0 | = newer
migrate level | 3 | | fault 3 policy line 4 cause Level
migrate no | 9 | | fault 9 no file no
migrate | 2 | | fault 2 usage
migrate p p | 2 | | fault 2 usage
check long | 0 | = long
";

/// Labels that are translated, and labels without a translation.
const LABELS: &str = "
translate p 101 1 000000010103e4000000 102 1 | 0 | 73333a63302e63322c6335
translate p 101 1 000000010103E4000000 102 1 | 0 | 73333a63302e63322c6335
translate limited 102 1 73333a63302e63322c6335 101 1 | 0 | 000000010103e4000000
translate p 101 1 000000010000 103 0 | 0 | 6f70656e
translate p 101 1 000000010103e4000000 103 0 | 10 | | fault 10 untranslated NoRow
translate p 104 0 00 101 1 | 10 | | fault 10 untranslated WrongLfs
translate p 101 1 000000010000 103 1 | 10 | | fault 10 untranslated WrongLfs
translate p 102 1 7332 101 1 | 10 | | fault 10 untranslated BadLabel
translate p 101 1 '' 102 1 | 10 | | fault 10 untranslated BadLabel
translate no 101 1 00 102 1 | 9 | | fault 9 no file no
translate level 101 1 00 102 1 | 3 | | fault 3 policy line 4 cause Level
translate long 101 1 000000010103e4000000 105 0 | 0 | 312f332f63302e63322c6335
translate long 105 0 312f332f63302e63322c6335 102 1 | 0 | 73333a63302e63322c6335
translate long 105 0 322f332f63302e63322c6335 101 1 | 10 | | fault 10 untranslated BadLabel
";

/// Generated events. The files `one` and `thousand` have what is due for the seed 7, and `twenty` for the seed 0: the digests were
/// made of the replies to recordings of these events, which another generator wrote.
const GENERATED: &str = "
generate p 7 1 | 0 | = one
generate p 0 20 | 0 | = twenty
generate p 7 1000 | 0 | = thousand
generate p 7 0 | 2 | | fault 2 usage
generate p 7 01 | 2 | | fault 2 usage
generate p 7 100001 | 2 | | fault 2 usage
generate p 18446744073709551616 1 | 2 | | fault 2 usage
generate p -1 1 | 2 | | fault 2 usage
generate p 7 | 2 | | fault 2 usage
generate p 7 1 1 | 2 | | fault 2 usage
generate limited 7 1 | 0 | = carried
generate no 7 1 | 9 | | fault 9 no file no
generate level 7 1 | 3 | | fault 3 policy line 4 cause Level
generate p 7 1 ! out 1 | 6 |
";

/// Services that don't begin. The net has no link to give.
const SERVICES: &str = "
serve p 0,8 1 | 2 | | fault 2 usage
serve p 0, 1 | 2 | | fault 2 usage
serve p ,0 1 | 2 | | fault 2 usage
serve p , 1 | 2 | | fault 2 usage
serve p '' 1 | 2 | | fault 2 usage
serve p 0,,1 1 | 2 | | fault 2 usage
serve p 00 1 | 2 | | fault 2 usage
serve p +0 1 | 2 | | fault 2 usage
serve p 0 0 | 2 | | fault 2 usage
serve p 0 17 | 2 | | fault 2 usage
serve p 0 01 | 2 | | fault 2 usage
serve p 0 '' | 2 | | fault 2 usage
serve p 0 | 2 | | fault 2 usage
serve p 0 1 1 | 2 | | fault 2 usage
serve no 8 1 | 2 | | fault 2 usage
serve no 0 1 | 9 | | fault 9 no file no
serve level 0 1 | 3 | | fault 3 policy line 4 cause Level
serve limited 0 1 | 8 |
serve p 7,0,7 16 | 8 |
";

/// What generated events come to.
const SUMMARIES: [(&str, &str); 4] = [
    (
        "one",
        "events 1\nreplies 1\nfailed 0\ndigest d374000e787e39873adaff85ca479f647a10666541df353ad28a098a68bf1204\n",
    ),
    (
        "carried",
        "events 1\nreplies 1\nfailed 0\ndigest b919d5f0c10412d1619210a618fce3a76f066282c627c5c2b5588b5365ac0eac\n",
    ),
    (
        "twenty",
        "events 20\nreplies 20\nfailed 10\ndigest 1a6d491da9ea7acc7bdcb00f4f05bdfa0a63ac3d2583259350f06c9cd877bd4d\n",
    ),
    (
        "thousand",
        "events 1000\nreplies 1000\nfailed 571\ndigest e752c6924ad767887b33618b5850cfadca170afabd9d5ff69de04a71266dd50e\n",
    ),
];

/// The file `two` has an event that is answered and one that is denied, and `none` has no event. The
/// policy is opened before the recording: of two calls that can't go well, the first is told.
const FAULTS: &str = "
replay p two ! read 1 | 5 |
replay p two ! read 2 | 5 |
replay p two ! out 2 | 6 | : EXCHANGED 0 1 SERVER
replay p two ! audit 1 | 6 | : EXCHANGED 0 1 SERVER / DENIED 5
replay no none ! open 1 | 5 |
replay no none ! open 2 | 9 | | fault 9 no file no
replay q none ! open 2 | 3 | | fault 3 policy line 10 cause Guest
replay p no ! open 1 | 5 |
replay p no ! open 2 | 5 |
replay p none ! open 3 | 0 |
";

/// Policies that differ from `p` in a line: a name, a part of its text, and what stands there.
const OTHERS: [(&str, &str, &str); 5] = [
    ("commented", "level 0", "# a comment\n\n#\nlevel 0"),
    ("level", "level 1 1 1 c0", "level 1 2 1 c0"),
    ("guest", "guest 0 * 0", "guest 0 * 9"),
    ("limited", "mode enforcing", "mode limited"),
    ("newer", "lnfs-policy 1", "lnfs-policy 2"),
];

/// Recordings, by name.
const RECORDINGS: [(&str, &str); 2] = [
    ("t", "CALL SYS EXCHANGE 'c1' REST"),
    (
        "two",
        "CALL SYS EXCHANGE 'c1' REST / @1 CALL SYS_5 EXCHANGE 'c1' REST",
    ),
];

/// The policies, and a recording without events.
fn policies(alloc: Global) -> Result<Vec<MemFile>, AllocError> {
    let mut files = Vec::new(alloc);
    files.push(file(alloc, "p", POLICY.as_bytes())?)?;
    files.push(file(alloc, "q", BAD_POLICY)?)?;
    files.push(file(alloc, "none", b"LNFSTRC1")?)?;
    for (name, text) in SUMMARIES {
        files.push(file(alloc, name, text.as_bytes())?)?;
    }
    for (name, from, to) in OTHERS {
        let text = POLICY.replace(alloc, from, to)?;
        files.push(file(alloc, name, text.as_bytes())?)?;
    }
    let newer = POLICY.replace(alloc, "lnfs-policy 1", "lnfs-policy 2")?;
    let long = newer.replace(
        alloc,
        "format 103 0 name\n",
        "format 103 0 name\nformat 105 0 long\n",
    )?;
    files.push(file(alloc, "long", long.as_bytes())?)?;
    Ok(files)
}

/// The files that the words name.
fn files_of(rt: &impl Abort, alloc: Global) -> Result<Vec<MemFile>, AllocError> {
    let mut files = policies(alloc)?;
    for (name, events) in RECORDINGS {
        let traffic = recording_of(alloc, events)?.expect(rt, events);
        files.push(file(alloc, name, &traffic)?)?;
    }
    Ok(files)
}

#[test]
fn command_lines(rt: HostRuntime) -> Result<(), Flaw> {
    let files = files_of(&rt, rt.alloc())?;
    check(&rt, rt.alloc(), &files, WORDS, 21)?;
    check(&rt, rt.alloc(), &files, CHECKS, 18)?;
    check(&rt, rt.alloc(), &files, LABELS, 14)?;
    check(&rt, rt.alloc(), &files, GENERATED, 14)?;
    check(&rt, rt.alloc(), &files, SERVICES, 19)
}

#[test]
fn calls_that_fail(rt: HostRuntime) -> Result<(), Flaw> {
    let files = files_of(&rt, rt.alloc())?;
    check(&rt, rt.alloc(), &files, FAULTS, 10)
}

/// A translation of so many bytes that are zero.
fn run_zeros(rt: &impl Runtime, alloc: Global, size: usize) -> Result<Ran, AllocError> {
    let digits = "00".repeat(alloc, size)?;
    let line = format!(in alloc; "translate p 101 1 {digits} 102 1")?;
    run_files(rt, alloc, &line, policies(alloc)?, NONE)
}

/// The longest bytes are 1,024.
#[test]
fn length_of_bytes(rt: HostRuntime) -> Result<(), Flaw> {
    for (size, number) in [(1024, 10), (1025, 2)] {
        let (status, out, _audit) = run_zeros(&rt, rt.alloc(), size)?;
        assert_eq!(rt; status, number, "status of {size} bytes");
        assert!(rt; out.bytes().is_empty(), "out of {size} bytes");
    }
    Ok(())
}
