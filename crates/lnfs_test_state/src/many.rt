//! A directory of many names: calls of a tree, one after the other, each of which keeps the facts that the next one needs.

ghost use Rattle.std.specs.Prelude.{◌≡◌, IfOk};
ghost use Rattle.lnfs_calipso.specs.Label.{dom_of};
ghost use Rattle.lnfs_tree.specs.Changed.{FactsFor, HasFacts};

use crate::compare::same;
use lnfs_calipso::{Label, Lattice, Level};
use lnfs_tree::{Fresh, NodeId, NodeKind, Tree};
use lnfs_types::{Moment, Octets};
use std::alloc::Global;
use std::process::Abort;
use std::test::Fail;

const NAMES: u32 = 400_000;

const NOW: Moment = Moment { secs: 9, nanos: 1 };

const ROOT: NodeId = NodeId {
    home: Level(0),
    number: 1,
};

fn one_level(alloc: Global) -> Result<Lattice, Fail> {
    let bottom = Label::new(alloc, 1, 0, &[])?;
    Ok(Lattice::new(alloc, &[bottom])?)
}

/// The root alone.
fn root_of(alloc: Global, lattice: &Lattice) -> Result<Tree, Fail>
    ensures { IfOk result (λ tree. FactsFor (dom_of lattice.now) tree) }
{
    Ok(Tree::new(alloc, lattice, &[], None)?)
}

/// The same over a lattice of one level.
pub(crate) fn root_alone(alloc: Global) -> Result<Tree, Fail>
    ensures { IfOk result (λ tree. HasFacts tree) }
{
    let lattice = one_level(alloc)?;
    root_of(alloc, &lattice)
}

fn empty_file(alloc: Global) -> Fresh
    ensures home { result.home.0 ≡ 0 }
    ensures label { result.label.0 ≡ 0 }
{
    Fresh {
        kind: NodeKind::File,
        home: Level(0),
        label: Level(0),
        stored: None,
        mode: 0o640,
        text: Octets::new(Vec::new(alloc)),
        verifier: None,
    }
}

/// Makes an empty file in the root.
fn make(alloc: Global, lattice: &Lattice, tree: &mut Tree, name: &[u8]) -> Result<NodeId, Fail>
    requires { FactsFor (dom_of lattice.now) tree.old }
    ensures { IfOk result (λ _. FactsFor (dom_of lattice.now) tree.new) }
{
    lattice.law_preorder();
    let Some(root) = tree.node(ROOT) else {
        return Err(Fail::new("no root"));
    };
    if root.label.0 != 0 {
        return Err(Fail::new("another label"));
    }
    let (node, _) = tree.insert(alloc, ROOT, name, empty_file(alloc), NOW)?;
    Ok(node)
}

/// Makes a file under the digits of a number.
fn make_numbered(alloc: Global, lattice: &Lattice, tree: &mut Tree, number: u32) -> Result<(), Fail>
    requires { FactsFor (dom_of lattice.now) tree.old }
    ensures { IfOk result (λ _. FactsFor (dom_of lattice.now) tree.new) }
{
    let name = format!(in alloc; "{number}")?;
    make(alloc, lattice, tree, name.as_bytes())?;
    Ok(())
}

/// Makes a file for each number.
fn fill(alloc: Global, lattice: &Lattice, tree: &mut Tree) -> Result<(), Fail>
    requires { FactsFor (dom_of lattice.now) tree.old }
{
    for number in 0..NAMES {
        make_numbered(alloc, lattice, tree, number)?;
    }
    Ok(())
}

/// The number of the node that goes by the digits of a number.
fn find(alloc: Global, tree: &Tree, number: u32) -> Result<u32, Fail> {
    let name = format!(in alloc; "{number}")?;
    let node = tree.lookup(ROOT, name.as_bytes())?;
    Ok(node.number)
}

/// Looks for the name of a number behind a cookie, and gives its own.
fn next(
    rt: &impl Abort,
    alloc: Global,
    tree: &Tree,
    number: u32,
    cookie: u64,
) -> Result<u64, Fail> {
    let Some(entry) = tree.next_entry(ROOT, cookie)? else {
        return Err(Fail::new("too few names"));
    };
    let name = format!(in alloc; "{number}")?;
    same(rt, entry.name.as_slice(), name.as_bytes());
    Ok(entry.cookie)
}

fn look_up(rt: &impl Abort, alloc: Global, tree: &Tree) -> Result<(), Fail> {
    for number in 0..NAMES {
        same(rt, find(alloc, tree, number)?, number + 2);
    }
    Ok(())
}

fn list(rt: &impl Abort, alloc: Global, tree: &Tree) -> Result<(), Fail> {
    let mut cookie = 2;
    for number in 0..NAMES {
        cookie = next(rt, alloc, tree, number, cookie)?;
    }
    assert!(rt; tree.next_entry(ROOT, cookie)?.is_none());
    Ok(())
}

#[test]
fn many_names(rt: HostRuntime) -> Result<(), Fail> {
    let lattice = one_level(rt.alloc())?;
    let mut tree = root_of(rt.alloc(), &lattice)?;
    fill(rt.alloc(), &lattice, &mut tree)?;
    look_up(&rt, rt.alloc(), &tree)?;
    list(&rt, rt.alloc(), &tree)
}
