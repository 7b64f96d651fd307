//! Policies that are read, and what they say.

use crate::policy::{read, refusal};
use lnfs_calipso::Level;
use lnfs_format::Formats;
use lnfs_policy::{Cause, Limit, Mode, Policy, PolicyError, migrate, write_policy};
use std::alloc::{AllocError, Global};
use std::process::Abort;
use std::test::Fail;

/// A policy with each kind of line.
const SITE: &str = "lnfs-policy 1
mode enforcing
level 0 1 0 -
level 1 1 1 c0
level 2 1 1 c1
level 3 1 3 c0.c2,c5
format 101 1 calipso
format 102 1 text
format 103 0 name
name 103 0 0 6f70656e
parent 7 0101010101010101010101010101010101010101010101010101010101010101 3
guest 0 * 0
guest 1 100 1
guest 1 200 2
guest 1 300 3
guest 7 5 1
guest 7 * 0
guest 7 6 1
quota 1 8 4096
dir /one 1
dir /two 2
dir /top 3
";

/// Whether the first of two levels dominates the second.
const DOMINATING: &[(u32, u32, bool)] = &[
    (0, 0, true),
    (3, 0, true),
    (0, 3, false),
    (1, 2, false),
    (2, 1, false),
    (3, 2, true),
];

fn expect_levels(rt: &impl Abort, policy: &Policy) {
    assert_eq!(rt; policy.mode(), Mode::Enforcing);
    assert_eq!(rt; policy.lattice().len(), 4);
    for (a, b, dominates) in DOMINATING {
        assert_eq!(rt; policy.lattice().dom(Level(*a), Level(*b)), *dominates);
    }
}

/// Whether the first format is the one that counts as such.
fn is_first(formats: &Formats) -> bool {
    match formats.first() {
        Some(first) => first.lfs == 101 && first.pi == 1,
        None => false,
    }
}

fn expect_formats(rt: &impl Abort, formats: &Formats) {
    assert!(rt; is_first(formats));
    assert!(rt; formats.entry(103, 0).is_some());
    assert!(rt; formats.entry(104, 0).is_none());
}

fn expect_parents(rt: &impl Abort, policy: &Policy) -> Result<(), Fail> {
    let parent = policy.parent(7).ok_or("no parent")?;
    assert!(rt; parent.clearance == Level(3));
    assert!(rt; parent.secret == [1; 32]);
    assert!(rt; policy.parent(8).is_none());
    Ok(())
}

fn expect_limits(rt: &impl Abort, policy: &Policy) {
    let limit = Limit {
        nodes: 8,
        bytes: 4096,
    };
    assert_eq!(rt; policy.limit(Level(1)), limit);
    let default = Limit {
        nodes: 4096,
        bytes: 67_108_864,
    };
    assert_eq!(rt; policy.limit(Level(0)), default);
}

fn expect_dirs(rt: &impl Abort, policy: &Policy) {
    assert_eq!(rt; policy.dirs().len(), 3);
    let top = &policy.dirs()[2];
    assert!(rt; top.path.as_slice() == b"/top".as_slice() && top.level.0 == 3);
}

/// Classes and users, and the level of such a guest.
const GUESTS: &[(u32, Option<u32>, Option<Level>)] = &[
    (0, None, Some(Level(0))),
    (0, Some(7), Some(Level(0))),
    (1, Some(100), Some(Level(1))),
    (1, Some(200), Some(Level(2))),
    (1, Some(300), Some(Level(3))),
    (1, Some(400), None),
    (1, None, None),
    (2, Some(100), None),
    // the first line that fits
    (7, Some(5), Some(Level(1))),
    (7, Some(6), Some(Level(0))),
    (7, None, Some(Level(0))),
];

fn expect_guests(rt: &impl Abort, policy: &Policy) {
    assert_eq!(rt; policy.guests().len(), 7);
    for (class, uid, level) in GUESTS {
        assert_eq!(rt; policy.guest_level(*class, *uid), *level);
    }
}

fn expect_said(rt: &impl Abort, policy: &Policy) -> Result<(), Fail> {
    expect_levels(rt, policy);
    expect_formats(rt, policy.formats());
    expect_limits(rt, policy);
    expect_dirs(rt, policy);
    expect_guests(rt, policy);
    expect_parents(rt, policy)
}

#[test]
fn what_a_site_says(rt: HostRuntime) -> Result<(), Fail> {
    let policy = read(rt.alloc(), SITE).ok().ok_or("refused")?;
    expect_said(&rt, &policy)
}

/// Whether a text is a policy, and the canonical text of it is the other.
fn is_canonical(alloc: Global, text: &str, canonical: &str) -> Result<bool, AllocError> {
    match read(alloc, text) {
        Ok(policy) => Ok(write_policy(alloc, &policy)?.as_slice() == canonical.as_bytes()),
        Err(_error) => Ok(false),
    }
}

#[test]
fn canonical_texts(rt: HostRuntime) -> Result<(), AllocError> {
    let alloc = rt.alloc();
    assert!(rt; is_canonical(alloc, SITE, SITE)?);
    let commented = format!(in alloc; "\n# a site\n#\t\x01 of four levels\n{SITE}\n#the end\n")?;
    assert!(rt; is_canonical(alloc, &commented, SITE)?);
    let commented = "lnfs-policy 1\n#\nmode limited\nlevel 0 9 7 c0.c255\n\nformat 2 9 text\n";
    let canonical = "lnfs-policy 1\nmode limited\nlevel 0 9 7 c0.c255\nformat 2 9 text\n";
    assert!(rt; is_canonical(alloc, commented, canonical)?);
    Ok(())
}

/// Whether a text is a policy of a version, and migrates to the other.
fn migrates(alloc: Global, text: &str, version: u32, newer: &str) -> Result<bool, AllocError> {
    match read(alloc, text) {
        Ok(policy) => Ok(
            policy.version() == version && migrate(alloc, &policy)?.as_slice() == newer.as_bytes(),
        ),
        Err(_error) => Ok(false),
    }
}

#[test]
fn a_policy_in_version_2(rt: HostRuntime) -> Result<(), Fail> {
    let alloc = rt.alloc();
    let lines = SITE.strip_prefix("lnfs-policy 1\n").ok_or("no version")?;
    let newer = format!(in alloc; "lnfs-policy 2\n{lines}")?;
    assert!(rt; migrates(alloc, SITE, 1, &newer)?);
    assert!(rt; migrates(alloc, &newer, 2, &newer)?);
    let commented = format!(in alloc; "# old\n{SITE}\n")?;
    assert!(rt; migrates(alloc, &commented, 1, &newer)?);
    let policy = read(alloc, &newer).ok().ok_or("refused")?;
    expect_said(&rt, &policy)
}

/// Two organisations, each with a domain of its own, under one bottom.
const TWO_DOMAINS: &str = "lnfs-policy 2
mode enforcing
level 0 1 0 -
level 1 2 1 c0
level 2 1 1 c0
level 3 1 1 c0,c1919
format 101 1 calipso
format 105 0 long
";

/// Whether the first of two levels of two domains dominates the second.
const APART: &[(u32, u32, bool)] = &[
    (1, 0, true),
    (0, 1, false),
    (1, 2, false),
    (2, 1, false),
    (3, 2, true),
    (3, 1, false),
];

fn expect_apart(rt: &impl Abort, policy: &Policy) {
    assert_eq!(rt; policy.lattice().len(), 4);
    for (a, b, dominates) in APART {
        assert_eq!(rt; policy.lattice().dom(Level(*a), Level(*b)), *dominates);
    }
}

#[test]
fn two_domains(rt: HostRuntime) -> Result<(), Fail> {
    let policy = read(rt.alloc(), TWO_DOMAINS).ok().ok_or("refused")?;
    expect_apart(&rt, &policy);
    let older = TWO_DOMAINS.replace(rt.alloc(), "lnfs-policy 2", "lnfs-policy 1")?;
    let told = PolicyError::Refused {
        line: 4,
        cause: Cause::Level,
    };
    assert!(rt; refusal(rt.alloc(), &older) == Some(told));
    Ok(())
}

/// Whether one line more is refused at that line.
fn expect_refused(
    rt: &impl Abort,
    alloc: Global,
    text: &str,
    more: &str,
    told: (u64, Cause),
) -> Result<(), AllocError> {
    let (line, cause) = told;
    let longer = format!(in alloc; "{text}{more}")?;
    let refused = refusal(alloc, &longer);
    assert!(rt;
        refused == Some(PolicyError::Refused { line, cause }),
        "{more}"
    );
    Ok(())
}

/// And whether the lines before it are taken.
fn expect_full(
    rt: &impl Abort,
    alloc: Global,
    text: &str,
    more: &str,
    told: (u64, Cause),
) -> Result<(), AllocError> {
    assert!(rt; refusal(alloc, text).is_none());
    expect_refused(rt, alloc, text, more, told)
}

/// The version, the mode and 32 levels.
fn all_levels(alloc: Global) -> Result<String, AllocError> {
    let mut text = String::from_str(alloc, "lnfs-policy 1\nmode enforcing\n")?;
    for level in 0..32 {
        text.push_str(&format!(in alloc; "level {level} 4294967295 {level} -\n")?)?;
    }
    Ok(text)
}

/// And eight formats.
fn put_formats(alloc: Global, text: &mut String) -> Result<(), AllocError> {
    for pi in 0..8 {
        text.push_str(&format!(in alloc; "format 101 {pi} calipso\n")?)?;
    }
    Ok(())
}

/// And 256 directories.
fn put_dirs(alloc: Global, text: &mut String) -> Result<(), AllocError> {
    for dir in 0..256 {
        text.push_str(&format!(in alloc; "dir /d{dir} 31\n")?)?;
    }
    Ok(())
}

#[test]
fn full_tables(rt: HostRuntime) -> Result<(), AllocError> {
    let alloc = rt.alloc();
    let mut text = all_levels(alloc)?;
    let more = "level 32 4294967295 255 -\n";
    expect_refused(&rt, alloc, &text, more, (35, Cause::Level))?;
    put_formats(alloc, &mut text)?;
    let more = "format 101 8 calipso\n";
    expect_full(&rt, alloc, &text, more, (43, Cause::Format))?;
    put_dirs(alloc, &mut text)?;
    expect_full(&rt, alloc, &text, "dir /d256 31\n", (299, Cause::Dir))
}

/// Paths of so many names, each below the one before.
fn nested(alloc: Global, depth: u32) -> Result<String, AllocError> {
    let mut lines = String::new(alloc);
    let mut path = String::new(alloc);
    for _ in 0..depth {
        path.push_str("/d")?;
        lines.push_str(&format!(in alloc; "dir {path} 0\n")?)?;
    }
    Ok(lines)
}

/// A policy without directories.
const FRONT: &str = "lnfs-policy 1\nmode enforcing\nlevel 0 1 0 -\nformat 1 1 calipso\n";

fn expect_sixteen_names(rt: &impl Abort, alloc: Global) -> Result<(), AllocError> {
    let lines = nested(alloc, 16)?;
    let text = format!(in alloc; "{FRONT}{lines}")?;
    let more = "dir /d/d/d/d/d/d/d/d/d/d/d/d/d/d/d/d/d 0\n";
    expect_full(rt, alloc, &text, more, (21, Cause::Dir))
}

fn expect_names_of_255_bytes(rt: &impl Abort, alloc: Global) -> Result<(), AllocError> {
    let name = "n".repeat(alloc, 255)?;
    let text = format!(in alloc; "{FRONT}dir /{name} 0\n")?;
    let more = format!(in alloc; "dir /{name}n 0\n")?;
    expect_full(rt, alloc, &text, &more, (6, Cause::Dir))
}

#[test]
fn long_paths(rt: HostRuntime) -> Result<(), AllocError> {
    let alloc = rt.alloc();
    expect_sixteen_names(&rt, alloc)?;
    expect_names_of_255_bytes(&rt, alloc)
}
