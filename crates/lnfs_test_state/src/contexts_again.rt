//! Contexts, made of rows, told as rows and made of them again, with ample memory.

ghost use Rattle.std.specs.Prelude.{◌≡◌, IfOk};
ghost use Rattle.lnfs_rows.specs.Lasts.{given_of, each_of};
ghost use Rattle.lnfs_gss3.specs.Makes.{MakesContexts};

use crate::compare::same;
use lnfs_calipso::Level;
use lnfs_gss3::Contexts;
use lnfs_rows::{ContextRow, Id};
use std::alloc::{AllocError, Global};
use std::process::Abort;
use std::test::Fail;

/// Two contexts of level 0 under two parents, and one of level 1.
const ONE: ContextRow = ContextRow {
    id: Id {
        level: 0,
        number: 2,
    },
    parent: 7,
};

const TWO: ContextRow = ContextRow {
    id: Id {
        level: 0,
        number: 4,
    },
    parent: 8,
};

const ABOVE: ContextRow = ContextRow {
    id: Id {
        level: 1,
        number: 2,
    },
    parent: 7,
};

/// The three, under numbers of which a later one went.
fn planted(alloc: Global) -> Result<Contexts, AllocError>
    ensures makes { IfOk result (λ contexts. MakesContexts contexts.contexts contexts.lasts) }
    ensures lasts { IfOk result (λ contexts.
        given_of (each_of 2 contexts.lasts) ≡ contexts.lasts) }
{
    Contexts::from_rows(alloc, &[ONE, TWO, ABOVE], &[6, 2])
}

/// The contexts of the rows that contexts tell.
fn again(alloc: Global, contexts: &Contexts) -> Result<Contexts, AllocError>
    requires makes { MakesContexts contexts.now.contexts contexts.now.lasts }
    requires lasts { given_of (each_of 2 contexts.now.lasts) ≡ contexts.now.lasts }
{
    let rows = contexts.rows(alloc)?;
    let numbers = contexts.last_numbers(alloc, 2)?;
    Contexts::from_rows(alloc, &rows, &numbers)
}

/// Compares what contexts tell with what was planted.
fn same_contexts(rt: &impl Abort, alloc: Global, contexts: &Contexts) -> Result<(), AllocError> {
    let rows = contexts.rows(alloc)?;
    same(rt, rows.as_slice(), &[ONE, TWO, ABOVE]);
    let numbers = contexts.last_numbers(alloc, 3)?;
    same(rt, numbers.as_slice(), &[6, 2, 0]);
    Ok(())
}

/// They are found under their own parents alone, and a new one gets the next number.
fn go_on(rt: &impl Abort, contexts: &mut Contexts) {
    same(rt, contexts.find(Level(0), 7, 2), true);
    same(rt, contexts.find(Level(0), 8, 2), false);
    same(rt, contexts.find(Level(1), 7, 2), true);
    same(rt, contexts.create(Level(0), 7), Ok(7));
    same(rt, contexts.destroy(Level(0), 8, 4), Ok(()));
}

#[test]
fn told_and_made_again(rt: HostRuntime) -> Result<(), Fail> {
    let first = planted(rt.alloc())?;
    same_contexts(&rt, rt.alloc(), &first)?;
    let mut second = again(rt.alloc(), &first)?;
    same_contexts(&rt, rt.alloc(), &second)?;
    go_on(&rt, &mut second);
    Ok(())
}
