//! Texts that spell no policy, with the line and the cause of each.
use crate::codecs::codecs_of;
use lnfs_policy::{Cause, Policy, PolicyError, read_policy};
use std::alloc::{AllocError, Global};
use std::process::Abort;

/// Lines behind others, with the line and the cause that are told.
type Rows = &'static [(&'static str, u64, Cause)];

/// Four lines: the version, the mode and two levels.
const LEVELS: &str = "lnfs-policy 1\nmode enforcing\nlevel 0 1 0 -\nlevel 1 1 1 c0\n";

/// The same of version 2, with a level of another domain.
const LEVELS_2: &str = "lnfs-policy 2\nmode enforcing\nlevel 0 1 0 -\nlevel 1 2 1 c0\n";

/// And three formats.
const FORMATS: &str = "format 101 1 calipso\nformat 102 1 text\nformat 103 0 name\n";

/// And a quota of level 1.
const QUOTA: &str = "quota 1 8 4096\n";

/// And a directory behind it.
const DIR: &str = "quota 1 8 4096\ndir /a 1\n";

/// Or a parent.
const PARENT: &str =
    "parent 7 0101010101010101010101010101010101010101010101010101010101010101 1\n";

/// At the beginning.
const FIRST_ROWS: Rows = &[
    ("", 1, Cause::Missing),
    ("\n", 2, Cause::Missing),
    ("# nothing\n\n", 3, Cause::Missing),
    ("# nothing", 1, Cause::Words),
    ("# é\nlnfs-policy 1\n", 1, Cause::Words),
    ("lnfs-policy 3\n", 1, Cause::Version),
    ("\n# three\nlnfs-policy 3\n", 3, Cause::Version),
    ("\n# two\nlnfs-policy 2\n", 4, Cause::Missing),
    ("lnfs-policy  1\n", 1, Cause::Version),
    (" \nlnfs-policy 1\n", 1, Cause::Version),
    ("lnfs-policy 2", 1, Cause::Words),
    ("mode enforcing\n", 1, Cause::Version),
    ("lnfs-policy 1", 1, Cause::Words),
    ("lnfs-policy 1\n", 2, Cause::Missing),
    ("lnfs-policy 1\nlnfs-policy 1\n", 2, Cause::Version),
    ("lnfs-policy 1\n#\nlnfs-policy 1", 3, Cause::Version),
    ("lnfs-policy 1\nlnfs-policy 2\n", 2, Cause::Version),
    ("lnfs-policy 2\nlnfs-policy 1\n", 2, Cause::Version),
    ("lnfs-policy 1\nlnfs-policy 3\n", 2, Cause::Words),
    (
        "lnfs-policy 1\nlevel 0 1 0 -\nformat 1 1 calipso\n",
        4,
        Cause::Missing,
    ),
    (
        "lnfs-policy 1\nmode enforcing\nformat 1 1 calipso\n",
        4,
        Cause::Missing,
    ),
];

/// Behind the version.
const MODE_ROWS: Rows = &[
    ("mode strict\n", 2, Cause::Words),
    ("mode\n", 2, Cause::Words),
    ("mode enforcing limited\n", 2, Cause::Words),
    ("mode  enforcing\n", 2, Cause::Words),
    ("mode enforcing \n", 2, Cause::Words),
    (" mode enforcing\n", 2, Cause::Words),
    ("mode enforcing\r\n", 2, Cause::Words),
    ("mode enforcing", 2, Cause::Words),
    ("modes enforcing\n", 2, Cause::Words),
    ("mode enforcing\nmode enforcing\n", 3, Cause::Order),
    ("mode limited\nmode enforcing\n", 3, Cause::Order),
    ("level 0 1 0 -\nmode enforcing\n", 3, Cause::Order),
    ("mode enforcing\n\n# a comment\nlevel 0\n", 5, Cause::Words),
    ("mode enforcing\nguest 0 * 0\n", 3, Cause::Guest),
];

/// Behind two levels.
const LEVEL_ROWS: Rows = &[
    ("", 5, Cause::Missing),
    ("level 2 1 1\n", 5, Cause::Words),
    ("level 2 1 1 c0 c1\n", 5, Cause::Words),
    ("level 2 1 1 é\n", 5, Cause::Words),
    ("level\t2 1 1 c1\n", 5, Cause::Words),
    ("level 2 +1 1 c1\n", 5, Cause::Number),
    ("level 2 1 0x1 c1\n", 5, Cause::Number),
    ("level 02 1 1 c1\n", 5, Cause::Number),
    ("level 2 1 01 c1\n", 5, Cause::Number),
    ("level 2 4294967296 1 c1\n", 5, Cause::Number),
    ("level 2 1 99999999999999999999 c1\n", 5, Cause::Number),
    ("level 3 1 1 c1\n", 5, Cause::Level),
    ("level 1 1 1 c1\n", 5, Cause::Level),
    ("level 2 1 256 c1\n", 5, Cause::Level),
    ("level 2 1 1 c0\n", 5, Cause::Level),
    ("level 2 1 0 -\n", 5, Cause::Level),
    ("level 2 2 1 c1\n", 5, Cause::Level),
    ("level 2 1 1 c256\n", 5, Cause::Level),
    ("level 2 1 1 c1,c0\n", 5, Cause::Level),
    ("level 2 1 1 c01\n", 5, Cause::Level),
    ("level 2 1 1 c1.c2\n", 5, Cause::Level),
    ("level 2 1 1 --\n", 5, Cause::Level),
    ("level 2 1 1 c1", 5, Cause::Words),
];

/// Formats behind two levels.
const FORMAT_ROWS: Rows = &[
    ("format 101 1\n", 5, Cause::Words),
    ("format 101 1 calipso 2\n", 5, Cause::Words),
    ("format x 1 calipso\n", 5, Cause::Number),
    ("format 101 -1 calipso\n", 5, Cause::Number),
    ("format 101 1 Calipso\n", 5, Cause::Format),
    ("format 101 1 names\n", 5, Cause::Format),
    ("format 105 0 long\n", 5, Cause::Format),
    (
        "format 101 1 calipso\nformat 101 1 text\n",
        6,
        Cause::Format,
    ),
    ("format 101 1 calipso\nlevel 2 1 1 c1\n", 6, Cause::Order),
    ("format 101 1 calipso\nlevel 9 1 256 c1\n", 6, Cause::Order),
    ("format 101 1 calipso\nlevel z 1 1 c1\n", 6, Cause::Number),
    ("format 101 1 calipso\nmode limited\n", 6, Cause::Order),
    // a text under another DOI and a table without level 1 don't spell every level
    ("format 102 2 text\n", 6, Cause::Missing),
    ("format 103 0 name\nname 103 0 0 6f\n", 7, Cause::Missing),
    (
        "format 103 0 name\nformat 101 1 calipso\n",
        7,
        Cause::Missing,
    ),
];

/// Behind two levels of version 2. The first three lines are those that version 1 refuses.
const LEVEL_2_ROWS: Rows = &[
    ("level 2 1 1 c256,c1919\n", 6, Cause::Missing),
    ("level 2 3 1 c1\n", 6, Cause::Missing),
    ("level 2 2 0 -\n", 6, Cause::Missing),
    ("level 2 1 1 c1920\n", 5, Cause::Level),
    ("level 2 1 256 -\n", 5, Cause::Level),
    ("level 2 1 0 -\n", 5, Cause::Level),
    ("level 2 2 1 c0\n", 5, Cause::Level),
    ("level 3 1 1 c1\n", 5, Cause::Level),
    ("format 105 0 Long\n", 5, Cause::Format),
    ("format 105 0 long\nformat 105 0 text\n", 6, Cause::Format),
    ("format 105 0 long\nlevel 2 1 1 c1\n", 6, Cause::Order),
    ("format 105 0 long\nname 105 0 0 6f\n", 6, Cause::Name),
    // the texts of one domain don't spell the other's level
    ("format 102 1 text\n", 6, Cause::Missing),
];

/// Behind three formats.
const NAME_ROWS: Rows = &[
    ("name 103 0 0\n", 8, Cause::Words),
    ("name 103 0 0 6f 70\n", 8, Cause::Words),
    ("name 103 0 00 6f\n", 8, Cause::Number),
    ("name 101 1 0 6f\n", 8, Cause::Name),
    ("name 102 1 0 6f\n", 8, Cause::Name),
    ("name 103 1 0 6f\n", 8, Cause::Name),
    ("name 103 0 2 6f\n", 8, Cause::Name),
    ("name 103 0 0 6\n", 8, Cause::Name),
    ("name 103 0 0 6F\n", 8, Cause::Name),
    ("name 103 0 0 6g\n", 8, Cause::Name),
    ("name 103 0 0 6f\nname 103 0 0 70\n", 9, Cause::Name),
    ("name 103 0 0 6f\nname 103 0 1 6f\n", 9, Cause::Name),
    ("name 103 0 0 6f\nformat 104 0 name\n", 9, Cause::Order),
];

/// Behind a parent.
const PARENT_ROWS: Rows = &[
    ("parent 8\n", 9, Cause::Words),
    ("parent 08 01 1\n", 9, Cause::Number),
    ("parent 8 01 1\n", 9, Cause::Parent),
    (
        "parent 7 0101010101010101010101010101010101010101010101010101010101010101 0\n",
        9,
        Cause::Parent,
    ),
    (
        "parent 8 0101010101010101010101010101010101010101010101010101010101010101 2\n",
        9,
        Cause::Parent,
    ),
    (
        "parent 8 010101010101010101010101010101010101010101010101010101010101010101 1\n",
        9,
        Cause::Parent,
    ),
    (
        "guest 0 * 0\nparent 8 0101010101010101010101010101010101010101010101010101010101010101 1\n",
        10,
        Cause::Order,
    ),
    ("name 103 0 0 6f\n", 9, Cause::Order),
    ("guest 8 * 0\n", 9, Cause::Guest),
    ("guest 0 * 2\n", 9, Cause::Guest),
    ("guest 0 ** 0\n", 9, Cause::Number),
    ("guest 4294967296 * 0\n", 9, Cause::Number),
    ("guest 0 *\n", 9, Cause::Words),
    ("guest 0 * 0", 9, Cause::Words),
    ("guest 0 * 2\nnothing\n", 9, Cause::Guest),
];

/// Behind a quota of level 1 and a directory `/a` of level 1.
const DIR_ROWS: Rows = &[
    ("quota 0 8 4096\n", 10, Cause::Order),
    ("guest 0 * 0\n", 10, Cause::Order),
    ("dir /b\n", 10, Cause::Words),
    ("dir /b 01\n", 10, Cause::Number),
    ("dir /a 1\n", 10, Cause::Dir),
    ("dir /b 2\n", 10, Cause::Dir),
    ("dir / 0\n", 10, Cause::Dir),
    ("dir b 0\n", 10, Cause::Dir),
    ("dir /b/ 0\n", 10, Cause::Dir),
    ("dir //b 0\n", 10, Cause::Dir),
    ("dir /. 0\n", 10, Cause::Dir),
    ("dir /.. 0\n", 10, Cause::Dir),
    ("dir /b/c 0\n", 10, Cause::Dir),
    ("dir /a/c 0\n", 10, Cause::Dir),
    ("dir /a/c 1\ndir /a/c/d 0\n", 11, Cause::Dir),
    ("dir /b\u{7f} 0\n", 10, Cause::Dir),
];

/// Behind a quota of level 1.
const QUOTA_ROWS: Rows = &[
    ("quota 1 8 4096\n", 9, Cause::Quota),
    ("quota 2 8 4096\n", 9, Cause::Quota),
    ("quota 0 8\n", 9, Cause::Words),
    ("quota 0 4611686018427387905 0\n", 9, Cause::Number),
    ("quota 0 0 18446744073709551616\n", 9, Cause::Number),
    ("quota 0 8 4096\nquota 2 01 0\n", 10, Cause::Number),
];

/// Reads a policy. Want of memory for the codecs is want of memory for the policy.
pub fn read(alloc: Global, text: &str) -> Result<Policy, PolicyError> {
    match codecs_of(alloc) {
        Ok(codecs) => read_policy(alloc, text.as_bytes(), &codecs),
        Err(AllocError) => Err(PolicyError::Memory),
    }
}

/// Why a text is no policy, where it is none.
pub fn refusal(alloc: Global, text: &str) -> Option<PolicyError> {
    read(alloc, text).err()
}

/// Whether the text is refused at that line for that cause.
fn expect(rt: &impl Abort, alloc: Global, text: &str, line: u64, cause: Cause) {
    let refused = refusal(alloc, text);
    assert!(rt;
        refused == Some(PolicyError::Refused { line, cause }),
        "at {text}"
    );
}

/// The same for each row of a table, behind other lines.
fn expect_rows(rt: &impl Abort, alloc: Global, front: &str, rows: Rows) -> Result<(), AllocError> {
    for (others, line, cause) in rows {
        let text = format!(in alloc; "{front}{others}")?;
        expect(rt, alloc, &text, *line, *cause);
    }
    Ok(())
}

/// Lines in three parts, and the table of what may not stand behind them.
const TABLES: &[([&str; 3], Rows)] = &[
    (["", "", ""], FIRST_ROWS),
    (["lnfs-policy 1\n", "", ""], MODE_ROWS),
    ([LEVELS, "", ""], LEVEL_ROWS),
    ([LEVELS, "", ""], FORMAT_ROWS),
    ([LEVELS_2, "", ""], LEVEL_2_ROWS),
    ([LEVELS, FORMATS, ""], NAME_ROWS),
    ([LEVELS, FORMATS, PARENT], PARENT_ROWS),
    ([LEVELS, FORMATS, QUOTA], QUOTA_ROWS),
    ([LEVELS, FORMATS, DIR], DIR_ROWS),
];

#[test]
fn lines_that_break_a_rule(rt: HostRuntime) -> Result<(), AllocError> {
    let alloc = rt.alloc();
    for (front, rows) in TABLES {
        let [version, formats, others] = *front;
        let front = format!(in alloc; "{version}{formats}{others}")?;
        expect_rows(&rt, alloc, &front, rows)?;
    }
    Ok(())
}

/// A name of so many bytes, behind three formats.
fn named(alloc: Global, length: usize) -> Result<String, AllocError> {
    let name = "6f".repeat(alloc, length)?;
    format!(in alloc; "{LEVELS}{FORMATS}name 103 0 0 {name}\n")
}

#[test]
fn names_of_1024_bytes_and_no_longer(rt: HostRuntime) -> Result<(), AllocError> {
    let alloc = rt.alloc();
    expect(&rt, alloc, &named(alloc, 1_025)?, 8, Cause::Name);
    assert!(rt; refusal(alloc, &named(alloc, 1_024)?).is_none());
    Ok(())
}
