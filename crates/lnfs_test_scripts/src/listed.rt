//! Every listed form of a line, with the action that it asks for.
use crate::site::policy;
use lnfs_calipso::Level;
use lnfs_policy::Policy;
use lnfs_script::{Action, Identity, Script, read_script};
use std::alloc::Global;
use std::process::Abort;
use std::test::Fail;

/// An action with its path, its numbers and its bytes.
enum Wanted {
    List(&'static [u8]),
    Read(&'static [u8], u64, u32),
    Write(&'static [u8], u64, &'static [u8]),
    Make(&'static [u8]),
    Mkdir(&'static [u8], u32),
    Remove(&'static [u8]),
    Raise(&'static [u8], u32),
}

impl Wanted {
    fn is(&self, action: &Action) -> bool {
        match (self, action) {
            (Wanted::List(wanted), Action::List { path }) => path.as_slice() == *wanted,
            (
                Wanted::Read(wanted, from, most),
                Action::Read {
                    path,
                    offset,
                    count,
                },
            ) => path.as_slice() == *wanted && offset == from && count == most,
            (
                Wanted::Write(wanted, from, bytes),
                Action::Write {
                    path,
                    offset,
                    content,
                },
            ) => path.as_slice() == *wanted && offset == from && content.as_slice() == *bytes,
            (Wanted::Make(wanted), Action::Make { path }) => path.as_slice() == *wanted,
            (Wanted::Mkdir(wanted, to), Action::Mkdir { path, level }) => {
                path.as_slice() == *wanted && *level == Level(*to)
            }
            (Wanted::Remove(wanted), Action::Remove { path }) => path.as_slice() == *wanted,
            (Wanted::Raise(wanted, to), Action::Raise { path, level }) => {
                path.as_slice() == *wanted && *level == Level(*to)
            }
            _ => false,
        }
    }
}

/// Lines, with what each asks for.
const LINES: &[(&str, Wanted)] = &[
    ("list /", Wanted::List(b"/")),
    ("list /a", Wanted::List(b"/a")),
    ("read / 0 0", Wanted::Read(b"/", 0, 0)),
    (
        "read /a/b 16777216 32768",
        Wanted::Read(b"/a/b", 16_777_216, 32_768),
    ),
    ("write /a 0 6869", Wanted::Write(b"/a", 0, b"hi")),
    (
        "write / 16777216 6F6f",
        Wanted::Write(b"/", 16_777_216, b"oo"),
    ),
    ("write /a 7 ", Wanted::Write(b"/a", 7, b"")),
    ("make /a", Wanted::Make(b"/a")),
    ("make /a/.../~", Wanted::Make(b"/a/.../~")),
    ("mkdir /a 1", Wanted::Mkdir(b"/a", 1)),
    ("mkdir /a/b 0", Wanted::Mkdir(b"/a/b", 0)),
    ("remove /a", Wanted::Remove(b"/a")),
    ("raise /a 1", Wanted::Raise(b"/a", 1)),
    (
        "list /1/2/3/4/5/6/7/8/9/10/11/12/13/14/15/16",
        Wanted::List(b"/1/2/3/4/5/6/7/8/9/10/11/12/13/14/15/16"),
    ),
];

/// First lines, each with its class and who asks.
const LINKS: &[(&str, u32, Identity)] = &[
    ("link 0 guest 0", 0, Identity::Guest { uid: 0 }),
    (
        "link 7 guest 4294967295",
        7,
        Identity::Guest { uid: 4_294_967_295 },
    ),
    ("link 1 full 7", 1, Identity::Full { parent: 7 }),
];

fn read(alloc: Global, policy: &Policy, text: &str) -> Result<Script, Fail> {
    let script = read_script(alloc, policy, text.as_bytes()).map_err(|_| "no script")?;
    Ok(script)
}

#[test]
fn each_line_alone(rt: HostRuntime) -> Result<(), Fail> {
    let alloc = rt.alloc();
    let policy = policy(alloc)?;
    for (line, wanted) in LINES {
        let script = read(
            alloc,
            &policy,
            &format!(in alloc; "link 0 guest 0\n{line}\n")?,
        )?;
        let alone = match script.actions.as_slice() {
            [action] => wanted.is(action),
            _ => false,
        };
        assert!(rt; alone, "at {line}");
    }
    Ok(())
}

#[test]
fn each_first_line_alone(rt: HostRuntime) -> Result<(), Fail> {
    let alloc = rt.alloc();
    let policy = policy(alloc)?;
    for (line, class, identity) in LINKS {
        let script = read(alloc, &policy, &format!(in alloc; "{line}\n")?)?;
        assert!(rt;
            script.class == *class && script.identity == *identity,
            "at {line}"
        );
        assert!(rt; script.actions.len() == 0, "at {line}");
    }
    Ok(())
}

#[test]
fn lines_in_their_order(rt: HostRuntime) -> Result<(), Fail> {
    let alloc = rt.alloc();
    let policy = policy(alloc)?;
    let text = "link 1 guest 100\nmake /one/a\nwrite /one/a 0 6869\nlist /one\n";
    let script = read(alloc, &policy, text)?;
    let in_order = match script.actions.as_slice() {
        [first, second, third] => {
            Wanted::Make(b"/one/a").is(first)
                && Wanted::Write(b"/one/a", 0, b"hi").is(second)
                && Wanted::List(b"/one").is(third)
        }
        _ => false,
    };
    assert!(rt; in_order);
    Ok(())
}
