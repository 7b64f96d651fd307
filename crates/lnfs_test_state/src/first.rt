//! A tree of four lines over four levels.

ghost use Rattle.std.specs.Prelude.{IfOk};
ghost use Rattle.lnfs_tree.specs.Changed.{HasFacts};

use lnfs_calipso::{Label, Lattice, Level};
use lnfs_tree::Tree;
use lnfs_types::Octets;
use lnfs_world::{DirSpec, Stored};
use std::alloc::{AllocError, Global};
use std::test::Fail;

/// Two levels beside each other, between the bottom and one above both.
pub(crate) fn levels(alloc: Global) -> Result<Lattice, Fail> {
    let bottom = Label::new(alloc, 1, 0, &[])?;
    let one = Label::new(alloc, 1, 1, &[0])?;
    let two = Label::new(alloc, 1, 1, &[1])?;
    let top = Label::new(alloc, 1, 3, &[0, 1, 2, 5])?;
    Ok(Lattice::new(alloc, &[bottom, one, two, top])?)
}

/// Paths of directories, with the level of each.
pub(crate) type Lines<'a> = &'a [(&'a str, u32)];

const FIRST: Lines<'_> = &[("/one", 1), ("/two", 2), ("/top", 3), ("/one/up", 3)];

fn line(alloc: Global, path: &str, level: u32) -> Result<DirSpec, AllocError> {
    Ok(DirSpec {
        path: Octets::from_slice(alloc, path.as_bytes())?,
        level: Level(level),
        stored: None,
    })
}

fn lines_of(alloc: Global, told: Lines<'_>) -> Result<Vec<DirSpec>, AllocError> {
    let mut lines = Vec::new(alloc);
    for (path, level) in told {
        lines.push(line(alloc, path, *level)?)?;
    }
    Ok(lines)
}

/// The tree of lines over a lattice.
pub(crate) fn tree_of(
    alloc: Global,
    lattice: &Lattice,
    told: Lines<'_>,
    root: Option<Stored>,
) -> Result<Tree, AllocError>
    ensures { IfOk result (λ tree. HasFacts tree) }
{
    let lines = lines_of(alloc, told)?;
    Tree::new(alloc, lattice, &lines, root)
}

fn lowest(alloc: Global) -> Result<Stored, AllocError> {
    Ok(Stored {
        lfs: 7,
        pi: 0,
        bytes: Octets::from_slice(alloc, b"lowest")?,
    })
}

/// The tree of the four lines.
pub(crate) fn planted(alloc: Global, lattice: &Lattice) -> Result<Tree, AllocError>
    ensures { IfOk result (λ tree. HasFacts tree) }
{
    let stored = lowest(alloc)?;
    tree_of(alloc, lattice, FIRST, Some(stored))
}

/// The same over the four levels.
pub(crate) fn first_tree(alloc: Global) -> Result<Tree, Fail> {
    let lattice = levels(alloc)?;
    Ok(planted(alloc, &lattice)?)
}
