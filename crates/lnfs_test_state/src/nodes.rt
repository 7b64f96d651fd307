//! The tree of four lines, each call with ample memory.

ghost use Rattle.lnfs_tree.specs.Changed.{HasFacts};

use crate::compare::same;
use crate::first::{Lines, first_tree, levels, planted, tree_of};
use lnfs_calipso::{Lattice, Level};
use lnfs_tree::{Facts, Fresh, NodeId, NodeKind, Tree, TreeError};
use lnfs_types::{Moment, Octets};
use std::alloc::Global;
use std::process::Abort;
use std::test::Fail;

const BEGINNING: Moment = Moment { secs: 0, nanos: 0 };

const NOW: Moment = Moment { secs: 9, nanos: 1 };

const ROOT: NodeId = NodeId {
    home: Level(0),
    number: 1,
};

const ONE: NodeId = NodeId {
    home: Level(0),
    number: 2,
};

const TWO: NodeId = NodeId {
    home: Level(0),
    number: 3,
};

const TOP: NodeId = NodeId {
    home: Level(0),
    number: 4,
};

const UP: NodeId = NodeId {
    home: Level(1),
    number: 1,
};

/// No node's.
const OTHER: NodeId = NodeId {
    home: Level(3),
    number: 1,
};

fn directory(label: u32, names: u64) -> Option<Facts> {
    Some(Facts {
        kind: NodeKind::Dir,
        label: Level(label),
        mode: 0o755,
        size: names,
        change: 1,
        links: 2,
        access: BEGINNING,
        metadata: BEGINNING,
        modify: BEGINNING,
        verifier: None,
    })
}

fn made(label: u32, at: Moment) -> Option<Facts> {
    Some(Facts {
        kind: NodeKind::File,
        label: Level(label),
        mode: 0o600,
        size: 0,
        change: 2,
        links: 1,
        access: at,
        metadata: at,
        modify: at,
        verifier: None,
    })
}

fn tell_nodes(rt: &impl Abort, tree: &Tree) {
    same(rt, tree.root(), ROOT);
    same(rt, tree.node(ROOT), directory(0, 3));
    same(rt, tree.node(ONE), directory(1, 1));
    same(rt, tree.node(TWO), directory(2, 0));
    same(rt, tree.node(TOP), directory(3, 0));
    same(rt, tree.node(UP), directory(3, 0));
    same(rt, tree.node(OTHER), None);
    same(rt, tree.text(ONE), None);
}

fn tell_stored(rt: &impl Abort, tree: &Tree) -> Result<(), Fail> {
    same(rt, tree.stored(ONE).is_none(), true);
    let Some(stored) = tree.stored(ROOT) else {
        return Err(Fail::new("no label is stored"));
    };
    same(rt, stored.lfs, 7);
    same(rt, stored.bytes.as_slice(), b"lowest".as_slice());
    Ok(())
}

#[test]
fn nodes_of_the_first_tree(rt: HostRuntime) -> Result<(), Fail> {
    let tree = first_tree(rt.alloc())?;
    tell_nodes(&rt, &tree);
    tell_stored(&rt, &tree)
}

/// Whether a name comes behind a cookie, and is that of a directory.
fn comes_next(
    tree: &Tree,
    dir: NodeId,
    after: u64,
    cookie: u64,
    name: &[u8],
    node: NodeId,
) -> bool {
    let Ok(Some(entry)) = tree.next_entry(dir, after) else {
        return false;
    };
    if entry.cookie != cookie || entry.name.as_slice() != name || entry.node != node {
        return false;
    }
    tree.lookup(dir, name) == Ok(node) && tree.parent(node) == Ok(dir)
}

/// Whether no name comes behind a cookie.
fn ends_at(tree: &Tree, dir: NodeId, after: u64) -> bool {
    matches!(tree.next_entry(dir, after), Ok(None))
}

fn tell_names(rt: &impl Abort, tree: &Tree) {
    same(rt, comes_next(tree, ROOT, 0, 3, b"one", ONE), true);
    same(rt, comes_next(tree, ROOT, 2, 3, b"one", ONE), true);
    same(rt, comes_next(tree, ROOT, 3, 4, b"two", TWO), true);
    same(rt, comes_next(tree, ROOT, 4, 5, b"top", TOP), true);
    same(rt, comes_next(tree, ONE, 0, 3, b"up", UP), true);
    same(rt, ends_at(tree, ROOT, 5), true);
    same(rt, ends_at(tree, UP, 0), true);
}

#[test]
fn names_of_the_first_tree(rt: HostRuntime) -> Result<(), Fail> {
    let tree = first_tree(rt.alloc())?;
    tell_names(&rt, &tree);
    Ok(())
}

fn miss(rt: &impl Abort, tree: &mut Tree) {
    let stale = TreeError::Stale;
    same(rt, tree.lookup(ROOT, b"up"), Err(TreeError::NoEnt));
    same(rt, tree.lookup(ROOT, b"on"), Err(TreeError::NoEnt));
    same(rt, tree.lookup(OTHER, b"one"), Err(stale));
    same(rt, tree.parent(ROOT), Err(TreeError::NoEnt));
    same(rt, tree.parent(OTHER), Err(stale));
    same(rt, tree.next_entry(OTHER, 0).is_err(), true);
    same(rt, tree.touch(OTHER, BEGINNING), Err(stale));
}

#[test]
fn what_is_not_there(rt: HostRuntime) -> Result<(), Fail> {
    let mut tree = first_tree(rt.alloc())?;
    miss(&rt, &mut tree);
    Ok(())
}

fn touch(rt: &impl Abort, tree: &mut Tree) -> Result<(), Fail> {
    tree.touch(UP, NOW)?;
    let Some(facts) = tree.node(UP) else {
        return Err(Fail::new("no node"));
    };
    same(rt, facts.access, NOW);
    same(rt, facts.modify, BEGINNING);
    same(rt, tree.node(TOP), directory(3, 0));
    Ok(())
}

#[test]
fn a_node_is_touched(rt: HostRuntime) -> Result<(), Fail> {
    let mut tree = first_tree(rt.alloc())?;
    touch(&rt, &mut tree)
}

const LEFT_OUT: Lines<'_> = &[
    ("/one/up", 3),
    ("/one", 1),
    ("/one", 3),
    ("/one/two", 2),
    ("/one/low", 0),
    ("", 1),
    ("/one/up", 3),
];

fn tell_left(rt: &impl Abort, tree: &Tree) {
    same(rt, tree.node(ROOT), directory(0, 1));
    same(rt, tree.node(ONE), directory(1, 1));
    same(rt, tree.lookup(ONE, b"up"), Ok(UP));
    same(rt, tree.stored(ROOT).is_none(), true);
}

#[test]
fn lines_that_are_left_out(rt: HostRuntime) -> Result<(), Fail> {
    let lattice = levels(rt.alloc())?;
    let tree = tree_of(rt.alloc(), &lattice, LEFT_OUT, None)?;
    tell_left(&rt, &tree);
    Ok(())
}

fn file(alloc: Global, home: u32, label: u32) -> Fresh {
    Fresh {
        kind: NodeKind::File,
        home: Level(home),
        label: Level(label),
        stored: None,
        mode: 0o640,
        text: Octets::new(Vec::new(alloc)),
        verifier: None,
    }
}

fn look_at(rt: &impl Abort, tree: &mut Tree, dir: NodeId, name: &[u8], node: NodeId) {
    same(rt, tree.lookup(dir, name), Ok(node));
    same(rt, tree.lookup(node, name), Err(TreeError::NotDir));
    same(rt, tree.raise(dir, Level(3), NOW), Err(TreeError::NotEmpty));
    same(rt, tree.set_mode(node, 0o600, NOW), Ok(()));
    same(rt, tree.node(node), made(3, NOW));
}

/// Makes a file in a directory, and looks at it. Its number, or why it is not made.
fn make_in(
    rt: &impl Abort,
    alloc: Global,
    tree: &mut Tree,
    dir: NodeId,
    name: &[u8],
    home: u32,
) -> Result<u32, TreeError>
    requires { HasFacts tree.old }
{
    let (node, info) = tree.insert(alloc, dir, name, file(alloc, home, 3), NOW)?;
    same(rt, (info.before, info.after), (1, 2));
    look_at(rt, tree, dir, name, node);
    Ok(node.number)
}

/// The same in a tree of the four lines, beside what is due.
fn makes(
    rt: &impl Abort,
    alloc: Global,
    lattice: &Lattice,
    dir: NodeId,
    name: &[u8],
    home: u32,
    due: Result<u32, TreeError>,
) {
    let Ok(mut tree) = planted(alloc, lattice) else {
        panic!(rt; "no memory");
    };
    same(rt, make_in(rt, alloc, &mut tree, dir, name, home), due);
}

fn make_each(rt: &impl Abort, alloc: Global, lattice: &Lattice) {
    makes(rt, alloc, lattice, ROOT, b"new", 0, Ok(5));
    makes(rt, alloc, lattice, ONE, b"one", 1, Ok(2));
    makes(rt, alloc, lattice, UP, b"up", 3, Ok(1));
    makes(rt, alloc, lattice, ROOT, b"one", 0, Err(TreeError::Exist));
    makes(rt, alloc, lattice, OTHER, b"new", 3, Err(TreeError::Stale));
}

#[test]
fn nodes_that_are_made(rt: HostRuntime) -> Result<(), Fail> {
    let lattice = levels(rt.alloc())?;
    make_each(&rt, rt.alloc(), &lattice);
    Ok(())
}

/// Whether a directory goes by a name in another, and lies under it.
fn lies_under(tree: &Tree, dir: NodeId, name: &[u8]) -> bool {
    match tree.lookup(dir, name) {
        Ok(node) => tree.parent(node) == Ok(dir),
        Err(_) => false,
    }
}

/// A name in a directory.
type Place<'a> = (NodeId, &'a [u8]);

/// Moves a name, and looks at it. The node that went by the new one, or why it is not moved.
fn move_in(
    rt: &impl Abort,
    alloc: Global,
    tree: &mut Tree,
    from: Place<'_>,
    to: Place<'_>,
) -> Result<Option<NodeId>, TreeError>
    requires { HasFacts tree.old }
{
    let (_, _, gone) = tree.rename(alloc, from.0, from.1, to.0, to.1, NOW)?;
    same(rt, lies_under(tree, to.0, to.1), true);
    Ok(gone.map(|dropped| dropped.node))
}

/// The same in a tree of the four lines, beside what is due.
fn moves(
    rt: &impl Abort,
    alloc: Global,
    lattice: &Lattice,
    from: Place<'_>,
    to: Place<'_>,
    due: Result<Option<NodeId>, TreeError>,
) {
    let Ok(mut tree) = planted(alloc, lattice) else {
        panic!(rt; "no memory");
    };
    same(rt, move_in(rt, alloc, &mut tree, from, to), due);
}

fn move_each(rt: &impl Abort, alloc: Global, lattice: &Lattice) {
    let one = (ROOT, b"one".as_slice());
    let two = (ROOT, b"two".as_slice());
    let top = (ROOT, b"top".as_slice());
    moves(rt, alloc, lattice, two, (ONE, b"second"), Ok(None));
    moves(rt, alloc, lattice, top, (ONE, b"up"), Ok(Some(UP)));
    moves(rt, alloc, lattice, two, two, Ok(None));
    moves(rt, alloc, lattice, two, one, Err(TreeError::Exist));
    moves(rt, alloc, lattice, one, (UP, b"one"), Err(TreeError::Inval));
    let three = (ROOT, b"three".as_slice());
    moves(
        rt,
        alloc,
        lattice,
        three,
        (ONE, b"third"),
        Err(TreeError::NoEnt),
    );
    moves(
        rt,
        alloc,
        lattice,
        two,
        (OTHER, b"two"),
        Err(TreeError::Stale),
    );
}

#[test]
fn names_that_move(rt: HostRuntime) -> Result<(), Fail> {
    let lattice = levels(rt.alloc())?;
    move_each(&rt, rt.alloc(), &lattice);
    Ok(())
}

/// Takes a name out of a directory, and looks for it. Why it stays.
fn take_out(rt: &impl Abort, tree: &mut Tree, dir: NodeId, name: &[u8]) -> Result<(), TreeError>
    requires { HasFacts tree.old }
{
    let (info, gone) = tree.remove(dir, name, NOW)?;
    same(rt, (info.before, info.after), (1, 2));
    same(rt, gone.is_some(), true);
    same(rt, tree.lookup(dir, name), Err(TreeError::NoEnt));
    Ok(())
}

/// The same of a tree of the four lines, beside what is due.
fn goes(
    rt: &impl Abort,
    alloc: Global,
    lattice: &Lattice,
    dir: NodeId,
    name: &[u8],
    due: Result<(), TreeError>,
) {
    let Ok(mut tree) = planted(alloc, lattice) else {
        panic!(rt; "no memory");
    };
    same(rt, take_out(rt, &mut tree, dir, name), due);
}

/// A directory gets no other name.
fn link_none(rt: &impl Abort, alloc: Global, lattice: &Lattice) {
    let Ok(mut tree) = planted(alloc, lattice) else {
        panic!(rt; "no memory");
    };
    let linked = tree.link(alloc, UP, ROOT, b"up", NOW);
    same(rt, linked, Err(TreeError::IsDir));
}

#[test]
fn names_that_go(rt: HostRuntime) -> Result<(), Fail> {
    let alloc = rt.alloc();
    let lattice = levels(alloc)?;
    goes(&rt, alloc, &lattice, ONE, b"up", Ok(()));
    goes(&rt, alloc, &lattice, ROOT, b"one", Err(TreeError::NotEmpty));
    goes(&rt, alloc, &lattice, UP, b"up", Err(TreeError::NoEnt));
    link_none(&rt, alloc, &lattice);
    Ok(())
}
