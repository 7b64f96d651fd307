use crate::plain::bytes_of;
use lnfs_answers::{Awaits, Request, Wants, hear};
use lnfs_calipso::Level;
use lnfs_gss3::TestMechanism;
use lnfs_policy::Parent;
use std::alloc::{AllocError, Global};
use std::process::Abort;

const SEQUENCE: [Awaits; 1] = [Awaits::Fields { number: 53 }];

const LABEL: [Awaits; 1] = [Awaits::Label];

/// Replies to the plain request 5: words, and what they are.
const PLAIN: &str = "
5 1 0 0 0 0 70 0 1 53 70 => Said(Said { status: 70, results: Items { inner: [Other(Failed { number: 53, status: 70 })] } })
6 9 9 => Other
5 1 1 1 13 => Denied { auth: 13 }
 => Bad { at: 0 }
5 => Bad { at: 4 }
5 0 => Bad { at: 4 }
5 1 2 => Bad { at: 8 }
5 1 1 0 2 2 => Bad { at: 12 }
5 1 1 1 => Bad { at: 16 }
5 1 1 1 13 0 => Bad { at: 20 }
5 1 0 1 0 0 => Bad { at: 12 }
5 1 0 0 4 0 => Bad { at: 12 }
5 1 0 0 => Bad { at: 16 }
5 1 0 9 404 => Bad { at: 16 }
5 1 0 0 0 => Bad { at: 20 }
5 1 0 0 0 4 => Bad { at: 20 }
5 1 0 0 0 0 0 1 => Bad { at: 28 }
5 1 0 0 0 0 70 0 1 53 70 0 => Bad { at: 44 }
";

/// The same of a signed request whose header has 40 bytes.
const SIGNED: &str = "
5 1 0 6 32 7 40 0 0 0 0 0 0 0 24 5 70 0 1 53 70 32 7 24 0 0 0 0 0 0 => Said(Said { status: 70, results: Items { inner: [Other(Failed { number: 53, status: 70 })] } })
5 1 1 1 14 => Denied { auth: 14 }
5 1 0 0 0 0 70 0 1 53 70 => Bad { at: 12 }
5 1 0 6 32 7 41 0 0 0 0 0 0 0 => Bad { at: 12 }
5 1 0 6 32 7 40 0 0 0 0 0 0 0 24 5 70 => Bad { at: 56 }
5 1 0 6 32 7 40 0 0 0 0 0 0 0 24 6 70 0 1 53 70 32 7 24 0 0 0 0 0 0 => Bad { at: 60 }
5 1 0 6 32 7 40 0 0 0 0 0 0 0 24 5 70 0 1 24 70 32 7 25 0 0 0 0 0 0 => Bad { at: 76 }
5 1 0 6 32 7 40 0 0 0 0 0 0 0 28 5 70 0 1 53 70 0 32 7 28 0 0 0 0 0 0 => Bad { at: 84 }
5 1 0 6 32 7 40 0 0 0 0 0 0 0 24 5 70 0 1 53 70 32 7 25 0 0 0 0 0 0 => Bad { at: 84 }
5 1 0 6 32 7 40 0 0 0 0 0 0 0 24 5 70 0 1 53 70 32 7 24 0 0 0 0 0 0 0 => Bad { at: 120 }
";

/// Replies to a signed request for a label. A label that is cut with its databody, or doesn't fill
/// its list, is refused at its length word.
const LABELLED: &str = "
5 1 0 6 32 7 40 0 0 0 0 0 0 0 60 5 0 0 1 9 0 3 0 0 65536 16 101 1 4 0x61626364 32 7 60 0 0 0 0 0 0 => Said(Said { status: 0, results: Items { inner: [Label(LabelValue { lfs: 101, pi: 1, bytes: Octets { inner: [97, 98, 99, 100] } })] } })
5 1 0 6 32 7 40 0 0 0 0 0 0 0 56 5 0 0 1 9 0 3 0 0 65536 16 101 1 4 32 7 56 0 0 0 0 0 0 => Bad { at: 112 }
5 1 0 6 32 7 40 0 0 0 0 0 0 0 60 5 0 0 1 9 0 3 0 0 65536 20 101 1 4 0x61626364 32 7 60 0 0 0 0 0 0 => Bad { at: 112 }
";

/// Replies to a request that makes a context, and to one that ends it.
const MADE: &str = "
5 1 0 6 32 7 40 0 0 0 0 0 0 0 56 5 16 7 3 0 2 0 0 1 0 101 1 2 0x61620000 32 7 56 0 0 0 0 0 0 => Granted { handle: [0, 0, 0, 7, 0, 0, 0, 3, 0, 0, 0, 0, 0, 0, 0, 2] }
5 1 0 6 32 7 40 0 0 0 0 0 0 0 52 5 12 7 3 0 0 0 1 0 101 1 2 0x61620000 32 7 52 0 0 0 0 0 0 => Bad { at: 64 }
5 1 0 6 32 7 40 0 0 0 0 0 0 0 20 5 16 7 3 0 32 7 20 0 0 0 0 0 0 => Bad { at: 64 }
5 1 0 6 32 7 40 0 0 0 0 0 0 0 56 5 16 7 3 0 2 0 0 1 0 102 1 2 0x61620000 32 7 56 0 0 0 0 0 0 => Bad { at: 100 }
5 1 0 6 32 7 40 0 0 0 0 0 0 0 56 5 16 7 3 0 2 0 0 1 0 101 1 2 0x61630000 32 7 56 0 0 0 0 0 0 => Bad { at: 108 }
";

const ENDED: &str = "
5 1 0 6 32 7 40 0 0 0 0 0 0 0 => Ended
5 1 0 6 32 7 40 0 0 0 0 0 0 0 0 => Bad { at: 56 }
";

fn parent() -> Parent {
    Parent {
        number: 7,
        secret: [1; 32],
        clearance: Level(3),
    }
}

fn each_row(
    rt: &impl Abort,
    alloc: Global,
    signer: Option<&Parent>,
    wants: Wants<'_>,
    rows: &str,
) -> Result<(), AllocError> {
    let request = Request {
        xid: 5,
        signer,
        header: &[9; 40],
        wants,
    };
    for row in rows.lines() {
        if let Some((words, wanted)) = row.split_once("=>") {
            let record = bytes_of(rt, alloc, words)?;
            let heard = hear(alloc, &TestMechanism, &request, &record)?;
            let shown = format!(in alloc; "{heard:?}")?;
            assert_eq!(rt; shown.as_str(), wanted.trim(), "{words}");
        }
    }
    Ok(())
}

#[test]
fn plain_records_are_heard(rt: HostRuntime) -> Result<(), AllocError> {
    let wants = Wants::Results { awaited: &SEQUENCE };
    each_row(&rt, rt.alloc(), None, wants, PLAIN)
}

#[test]
fn signed_records_are_heard(rt: HostRuntime) -> Result<(), AllocError> {
    let parent = parent();
    let made = Wants::Context {
        lfs: 101,
        pi: 1,
        label: b"ab",
    };
    let said = Wants::Results { awaited: &SEQUENCE };
    let labelled = Wants::Results { awaited: &LABEL };
    each_row(&rt, rt.alloc(), Some(&parent), said, SIGNED)?;
    each_row(&rt, rt.alloc(), Some(&parent), labelled, LABELLED)?;
    each_row(&rt, rt.alloc(), Some(&parent), made, MADE)?;
    each_row(&rt, rt.alloc(), Some(&parent), Wants::End, ENDED)
}
