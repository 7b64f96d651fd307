//! Opens, made of rows, told as rows and made of them again, with ample memory.

ghost use Rattle.std.specs.Prelude.{◌≡◌, IfOk};
ghost use Rattle.lnfs_rows.specs.Lasts.{given_of, each_of};
ghost use Rattle.lnfs_open.specs.Makes.{MakesOpens};

use crate::compare::same;
use lnfs_calipso::Level;
use lnfs_open::{ClientKey, NodeKey, OpenRef, Opens};
use lnfs_rows::{Id, OpenRow};
use std::alloc::{AllocError, Global};
use std::process::Abort;
use std::test::Fail;

/// A file of level 0.
const FILE: Id = Id {
    level: 0,
    number: 7,
};

/// The same, as opens know it.
const NODE: NodeKey = NodeKey {
    level: Level(0),
    number: 7,
};

/// A client of level 0 has the file open under two owners' names.
const ONE: OpenRow<'static> = OpenRow {
    id: Id {
        level: 0,
        number: 2,
    },
    client: 3,
    owner: b"one",
    node: FILE,
    access: 1,
    deny: 0,
    sequence: 4,
};

const TWO: OpenRow<'static> = OpenRow {
    id: Id {
        level: 0,
        number: 5,
    },
    client: 3,
    owner: b"two",
    node: FILE,
    access: 1,
    deny: 2,
    sequence: 1,
};

/// So has a client of level 1.
const ABOVE: OpenRow<'static> = OpenRow {
    id: Id {
        level: 1,
        number: 4,
    },
    client: 1,
    owner: b"one",
    node: FILE,
    access: 1,
    deny: 0,
    sequence: 1,
};

/// The three, under numbers of which later ones went.
fn planted(alloc: Global) -> Result<Opens, AllocError>
    ensures makes { IfOk result (λ opens. MakesOpens opens.opens opens.lasts) }
    ensures lasts { IfOk result (λ opens. given_of (each_of 2 opens.lasts) ≡ opens.lasts) }
{
    Opens::from_rows(alloc, &[ONE, TWO, ABOVE], &[9, 4])
}

/// The opens of the rows that opens tell.
fn again(alloc: Global, opens: &Opens) -> Result<Opens, AllocError>
    requires makes { MakesOpens opens.now.opens opens.now.lasts }
    requires lasts { given_of (each_of 2 opens.now.lasts) ≡ opens.now.lasts }
{
    let rows = opens.rows()?;
    let numbers = opens.last_numbers(2)?;
    Opens::from_rows(alloc, &rows, &numbers)
}

fn same_row(rt: &impl Abort, came: &OpenRow<'_>, due: &OpenRow<'_>) {
    same(rt, came.id, due.id);
    same(rt, came.client, due.client);
    same(rt, came.owner, due.owner);
    same(rt, came.node, due.node);
    same(rt, came.access, due.access);
    same(rt, came.deny, due.deny);
    same(rt, came.sequence, due.sequence);
}

/// Compares rows with those that were planted.
fn same_rows(rt: &impl Abort, rows: &[OpenRow<'_>]) {
    match rows {
        [one, two, above] => {
            same_row(rt, one, &ONE);
            same_row(rt, two, &TWO);
            same_row(rt, above, &ABOVE);
        }
        _ => panic!(rt; "not three rows"),
    }
}

/// Compares what opens tell with what was planted.
fn same_opens(rt: &impl Abort, opens: &Opens) -> Result<(), AllocError> {
    let rows = opens.rows()?;
    same_rows(rt, &rows);
    let numbers = opens.last_numbers(3)?;
    same(rt, numbers.as_slice(), &[9, 4, 0]);
    Ok(())
}

fn opened(number: u32, seq: u32) -> OpenRef {
    OpenRef {
        level: Level(0),
        number,
        seq,
    }
}

/// They are served on: an open is joined, and a new one gets the next number.
fn go_on(rt: &impl Abort, opens: &mut Opens) {
    let client = ClientKey {
        level: Level(0),
        number: 3,
    };
    same(rt, opens.open(client, b"one", NODE, 2, 0), Ok(opened(2, 5)));
    same(
        rt,
        opens.open(client, b"six", NODE, 1, 0),
        Ok(opened(10, 1)),
    );
    same(rt, opens.close(client, NODE, opened(5, 1)), Ok(()));
}

#[test]
fn told_and_made_again(rt: HostRuntime) -> Result<(), Fail> {
    let first = planted(rt.alloc())?;
    same_opens(&rt, &first)?;
    let mut second = again(rt.alloc(), &first)?;
    same_opens(&rt, &second)?;
    go_on(&rt, &mut second);
    Ok(())
}
