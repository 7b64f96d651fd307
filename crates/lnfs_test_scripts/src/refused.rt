//! Texts that are no script, with the line that is refused.
use crate::site::{policy, refusal};
use lnfs_policy::Policy;
use lnfs_script::ScriptError;
use std::alloc::{AllocError, Global};
use std::process::Abort;
use std::test::Fail;

/// Texts, with the line that is told.
const TEXTS: &[(&str, u64)] = &[
    ("", 1),
    ("\n", 1),
    (" ", 1),
    ("link 0 guest 0", 1),
    ("link 8 guest 0\n", 1),
    ("link 00 guest 0\n", 1),
    ("link -1 guest 0\n", 1),
    ("link guest 0\n", 1),
    ("link 0 guest\n", 1),
    ("link 0 guest \n", 1),
    ("link 0 guest *\n", 1),
    ("link 0 guest 4294967296\n", 1),
    ("link 0 guest 01\n", 1),
    ("link 0 guest 0 \n", 1),
    ("link 0 guest 0 0\n", 1),
    ("link 0  guest 0\n", 1),
    (" link 0 guest 0\n", 1),
    ("link\t0 guest 0\n", 1),
    ("link 0 guest 0\r\n", 1),
    ("links 0 guest 0\n", 1),
    ("Link 0 guest 0\n", 1),
    ("link 0 host 0\n", 1),
    ("link 0 full 8\n", 1),
    ("link 0 full 4294967303\n", 1),
    ("link 0 full 07\n", 1),
    ("list /\n", 1),
    ("\nlink 0 guest 0\n", 1),
    ("# a comment\nlink 0 guest 0\n", 1),
    ("link 0 guest 0\nlist /", 2),
    ("link 0 guest 0\nlist", 2),
    ("link 0 guest 0\n\n", 2),
    ("link 0 guest 0\n ", 2),
    ("link 0 guest 0\nlist /\n\n", 3),
    ("link 0 guest 0\nlist /\nlist /", 3),
    ("link 0 guest 0\nlist x\nlist /", 2),
    ("link 0 guest 0\nlist /\nread /f 0 32769\n", 3),
    ("link 0 guest 0\nlist /\nread /f 0 32769\nlist x\n", 3),
];

/// Lines that are of no listed form.
const LINES: &[&str] = &[
    "lists /a",
    "List /a",
    "list",
    "list ",
    "list  /a",
    " list /a",
    "list /a ",
    "list\t/a",
    "list /a\r",
    "list /a 0",
    "list a",
    "list a/b",
    "list /a/",
    "list //",
    "list //a",
    "list /.",
    "list /..",
    "list /a/./b",
    "list /a/../b",
    "list /a b",
    "list /\u{7f}",
    "list /é",
    "list /1/2/3/4/5/6/7/8/9/10/11/12/13/14/15/16/17",
    "read /a 0",
    "read /a 0 ",
    "read /a 0 0 0",
    "read /a 0 32769",
    "read /a 16777217 0",
    "read /a 18446744073709551616 0",
    "read /a 00 0",
    "read /a 0 01",
    "read /a +1 0",
    "read /a 0 -1",
    "read a 0 0",
    "write /a 0",
    "write /a 0 6",
    "write /a 0 6g",
    "write /a 0 0x6f",
    "write /a 0 6f ",
    "write /a 0  ",
    "write /a 16777217 ",
    "write a 0 ",
    "make /",
    "make",
    "make /a 0",
    "mkdir / 0",
    "mkdir /a",
    "mkdir /a ",
    "mkdir /a 2",
    "mkdir /a 01",
    "mkdir /a 4294967296",
    "mkdir /a 1 1",
    "remove /",
    "remove",
    "raise / 1",
    "raise /a",
    "raise /a 2",
    "raise /a 01",
    "mount",
    "leave",
    "link 0 guest 0",
    "# a comment",
];

/// Whether the text is refused at that line.
fn expect(rt: &impl Abort, alloc: Global, policy: &Policy, text: &str, line: u64) {
    let refused = refusal(alloc, policy, text);
    assert!(rt; refused == Some(ScriptError::Refused { line }), "at {text}");
}

#[test]
fn texts_that_are_no_script(rt: HostRuntime) -> Result<(), Fail> {
    let alloc = rt.alloc();
    let policy = policy(alloc)?;
    for (text, line) in TEXTS {
        expect(&rt, alloc, &policy, text, *line);
    }
    Ok(())
}

#[test]
fn lines_of_no_listed_form(rt: HostRuntime) -> Result<(), Fail> {
    let alloc = rt.alloc();
    let policy = policy(alloc)?;
    for line in LINES {
        let text = format!(in alloc; "link 0 guest 0\n{line}\n")?;
        expect(&rt, alloc, &policy, &text, 2);
    }
    Ok(())
}

/// A line that reads a name of so many bytes, behind a first line.
fn named(alloc: Global, length: usize) -> Result<String, AllocError> {
    let name = "n".repeat(alloc, length)?;
    format!(in alloc; "link 0 guest 0\nread /{name} 0 0\n")
}

/// A line that writes so many bytes.
fn filled(alloc: Global, length: usize) -> Result<String, AllocError> {
    let hex = "6f".repeat(alloc, length)?;
    format!(in alloc; "link 0 guest 0\nwrite /a 0 {hex}\n")
}

#[test]
fn bounds_of_names_and_bytes(rt: HostRuntime) -> Result<(), Fail> {
    let alloc = rt.alloc();
    let policy = policy(alloc)?;
    assert!(rt; refusal(alloc, &policy, &named(alloc, 255)?).is_none());
    expect(&rt, alloc, &policy, &named(alloc, 256)?, 2);
    assert!(rt; refusal(alloc, &policy, &filled(alloc, 1_024)?).is_none());
    expect(&rt, alloc, &policy, &filled(alloc, 1_025)?, 2);
    Ok(())
}
