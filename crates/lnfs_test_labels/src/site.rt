//! Two policies of four levels, and what operations look at of them.
use crate::codecs::codecs_of;
use lnfs_calipso::Level;
use lnfs_format::Codecs;
use lnfs_monitor::{Question, Rule, Verdict};
use lnfs_policy::{Policy, read_policy};
use lnfs_site::{LabelRead, Labels, Site, first_dirs, root_label};
use std::alloc::Global;
use std::process::Abort;
use std::test::Fail;

/// Levels, formats, a quota and directories, behind the mode.
const LINES: &str = "level 0 1 0 -
level 1 1 1 c0
level 2 1 1 c1
level 3 1 3 c0.c2,c5
format 101 1 calipso
format 102 1 text
quota 1 8 4096
dir /one 1
dir /top 3
";

/// The labels of level 0 and of level 3 as CALIPSO bodies (RFC 5570 section 5).
const BOTTOM: &[u8] = &[0, 0, 0, 1, 0, 0];

const TOP: &[u8] = &[0, 0, 0, 1, 1, 3, 0xe4, 0, 0, 0];

fn expect_rules(rt: &impl Abort, site: &Site<'_>) {
    assert!(rt; site.dominates(Level(3), Level(1)));
    assert!(rt; !site.dominates(Level(1), Level(2)));
    let read = Question::Read { label: Level(2) };
    assert!(rt; site.judge(Level(2), &read) == Verdict::Allow);
    assert!(rt; site.judge(Level(1), &read) == Verdict::Deny(Rule::M1));
}

fn expect_limits(rt: &impl Abort, site: &Site<'_>) {
    assert!(rt; site.levels() == 4);
    assert!(rt; site.nodes_limit(Level(1)) == 8);
    assert!(rt; site.bytes_limit(Level(1)) == 4096);
    assert!(rt; site.nodes_limit(Level(2)) == 4096);
    assert!(rt; site.policy().dirs().len() == 2);
}

fn expect_labels(rt: &impl Abort, site: &Site<'_>) {
    let top = site.label(Level(3));
    assert!(rt; top.lfs == 101 && top.pi == 1);
    assert!(rt; top.bytes.as_slice() == TOP);
    // A number that is no level counts as level 0.
    assert!(rt; site.label(Level(0)).bytes.as_slice() == BOTTOM);
    assert!(rt; site.label(Level(4)).bytes.as_slice() == BOTTOM);
}

/// A body of nine words, which is that of no label of version 1.
const LONG: &[u8] = &[
    0, 0, 0, 1, 9, 1, 0, 0, 0, 0, 0, 0, 0, 0, 0, 0, 0, 0, 0, 0, 0, 0, 0, 0, 0, 0, 0, 0, 0, 0, 0, 0,
    0, 0, 0, 0, 0, 0, 0x80, 0, 0, 0,
];

/// What is read of labels in both formats, and of what is no label in them.
const READ: &[(u32, u32, &[u8], LabelRead)] = &[
    (101, 1, BOTTOM, LabelRead::LevelOf(Level(0))),
    (101, 1, TOP, LabelRead::LevelOf(Level(3))),
    (102, 1, b"s0", LabelRead::LevelOf(Level(0))),
    (102, 1, b"s1:c1", LabelRead::LevelOf(Level(2))),
    (102, 1, b"s3:c0.c2,c5", LabelRead::LevelOf(Level(3))),
    // A label of no level, another spelling, and a spelling in the other format.
    (102, 1, b"s2", LabelRead::BadLabel),
    (102, 1, b"s3:c0,c1,c2,c5", LabelRead::BadLabel),
    (101, 1, b"s0", LabelRead::BadLabel),
    (101, 1, LONG, LabelRead::BadLabel),
    (102, 1, b"", LabelRead::BadLabel),
    (103, 1, b"s0", LabelRead::WrongFormat),
    (102, 2, b"s0", LabelRead::WrongFormat),
];

fn expect_read(rt: &impl Abort, site: &Site<'_>) {
    for (lfs, pi, bytes, read) in READ {
        assert_eq!(rt; site.read_label(*lfs, *pi, bytes), *read);
    }
}

/// Where labels are carried alone, every label is taken that isn't too long.
fn expect_carried(rt: &impl Abort, site: &Site<'_>) {
    for (lfs, pi, bytes, _) in READ {
        assert_eq!(rt;
            site.read_label(*lfs, *pi, bytes),
            LabelRead::LevelOf(Level(0))
        );
    }
    let long = [0; 1_025];
    assert_eq!(rt; site.read_label(101, 1, &long), LabelRead::BadLabel);
    assert_eq!(rt;
        site.read_label(9, 9, &long[..1_024]),
        LabelRead::LevelOf(Level(0))
    );
}

/// The paths, and the level and the bytes that the second directory bears.
fn expect_dirs(
    rt: &impl Abort,
    alloc: Global,
    site: &Site<'_>,
    level: u32,
    bytes: Option<&[u8]>,
) -> Result<(), Fail> {
    let dirs = first_dirs(alloc, site)?;
    let [one, top] = dirs.as_slice() else {
        return Err(Fail::from("not two directories"));
    };
    expect_paths(rt, one.path.as_slice(), top.path.as_slice());
    let borne = top.stored.as_ref().map(|label| label.bytes.as_slice());
    assert!(rt; top.level == Level(level) && borne == bytes);
    Ok(())
}

fn expect_paths(rt: &impl Abort, one: &[u8], top: &[u8]) {
    assert!(rt; one == b"/one".as_slice());
    assert!(rt; top == b"/top".as_slice());
}

/// What is otherwise under the two modes.
fn expect_site(rt: &impl Abort, alloc: Global, site: &Site<'_>, limited: bool) -> Result<(), Fail> {
    assert_eq!(rt; site.is_limited(), limited);
    expect_rules(rt, site);
    expect_limits(rt, site);
    expect_labels(rt, site);
    assert!(rt; root_label(alloc, site)?.is_some() == limited);
    if limited {
        expect_carried(rt, site);
        return expect_dirs(rt, alloc, site, 0, Some(TOP));
    }
    expect_read(rt, site);
    expect_dirs(rt, alloc, site, 3, None)
}

/// The site of a policy.
fn expect_policy(
    rt: &impl Abort,
    alloc: Global,
    policy: &Policy,
    codecs: &Codecs,
    limited: bool,
) -> Result<(), Fail> {
    let labels = Labels::new(alloc, policy, codecs)?;
    expect_site(rt, alloc, &Site::new(policy, &labels), limited)
}

/// The site of the lines in a mode.
fn expect_mode(
    rt: &impl Abort,
    alloc: Global,
    codecs: &Codecs,
    mode: &str,
    limited: bool,
) -> Result<(), Fail> {
    let text = format!(in alloc; "lnfs-policy 1\nmode {mode}\n{LINES}")?;
    let policy = read_policy(alloc, text.as_bytes(), codecs)?;
    expect_policy(rt, alloc, &policy, codecs, limited)
}

#[test]
fn what_operations_look_at(rt: HostRuntime) -> Result<(), Fail> {
    let codecs = codecs_of(rt.alloc())?;
    expect_mode(&rt, rt.alloc(), &codecs, "enforcing", false)?;
    expect_mode(&rt, rt.alloc(), &codecs, "limited", true)
}
