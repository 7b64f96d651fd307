//! The data of a file in the tree, each call with ample memory.

use crate::compare::same;
use crate::many::root_alone;
use lnfs_calipso::Level;
use lnfs_tree::{Fresh, NodeId, NodeKind, Tree, TreeError};
use lnfs_types::{Moment, Octets};
use std::alloc::{AllocError, Global};
use std::process::Abort;
use std::test::Fail;

const NOW: Moment = Moment { secs: 9, nanos: 1 };

const LATER: Moment = Moment { secs: 9, nanos: 2 };

const ROOT: NodeId = NodeId {
    home: Level(0),
    number: 1,
};

const NODE: NodeId = NodeId {
    home: Level(0),
    number: 2,
};

/// No node's.
const OTHER: NodeId = NodeId {
    home: Level(0),
    number: 3,
};

fn fresh(alloc: Global, kind: NodeKind) -> Result<Fresh, AllocError> {
    Ok(Fresh {
        kind,
        home: Level(0),
        label: Level(0),
        stored: None,
        mode: 0o640,
        text: Octets::from_slice(alloc, b"text")?,
        verifier: None,
    })
}

/// A root with one node, a file or a symbolic link.
fn with_node(alloc: Global, kind: NodeKind) -> Result<Tree, Fail> {
    let fresh = fresh(alloc, kind)?;
    let mut tree = root_alone(alloc)?;
    tree.insert(alloc, ROOT, b"node", fresh, NOW)?;
    Ok(tree)
}

/// How many bytes the node has, and its change number.
fn told(tree: &Tree) -> Option<(u64, u64)> {
    match tree.node(NODE) {
        Some(facts) => Some((facts.size, facts.change)),
        None => None,
    }
}

/// Compares what is read of the node with the bytes that are due.
fn reads(
    rt: &impl Abort,
    alloc: Global,
    tree: &Tree,
    offset: u64,
    count: u32,
    due: &[u8],
) -> Result<(), TreeError> {
    let bytes = tree.read(alloc, NODE, offset, count)?;
    same(rt, bytes.as_slice(), due);
    Ok(())
}

fn write_behind(rt: &impl Abort, alloc: Global, tree: &mut Tree) -> Result<(), TreeError> {
    same(rt, told(tree), Some((0, 1)));
    tree.write(alloc, NODE, u64::MAX, b"", LATER)?;
    same(rt, told(tree), Some((0, 1)));
    tree.write(alloc, NODE, 9_000, b"end", LATER)?;
    same(rt, told(tree), Some((9_003, 2)));
    reads(rt, alloc, tree, 8_998, 4, b"\0\0en")?;
    reads(rt, alloc, tree, 9_003, 4, b"")
}

#[test]
fn a_write_behind_the_end(rt: HostRuntime) -> Result<(), Fail> {
    let mut tree = with_node(rt.alloc(), NodeKind::File)?;
    write_behind(&rt, rt.alloc(), &mut tree)?;
    Ok(())
}

/// How many bytes the node's file has.
fn length(tree: &Tree) -> Result<u64, TreeError> {
    Ok(tree.file(NODE)?.len())
}

fn cut_and_grow(rt: &impl Abort, alloc: Global, tree: &mut Tree) -> Result<(), TreeError> {
    tree.write(alloc, NODE, 0, b"begin", NOW)?;
    tree.set_size(NODE, 2, NOW)?;
    tree.set_size(NODE, 4, NOW)?;
    same(rt, told(tree), Some((4, 4)));
    reads(rt, alloc, tree, 1, 9, b"e\0\0")?;
    same(rt, length(tree), Ok(4));
    Ok(())
}

#[test]
fn cut_and_grown(rt: HostRuntime) -> Result<(), Fail> {
    let mut tree = with_node(rt.alloc(), NodeKind::File)?;
    cut_and_grow(&rt, rt.alloc(), &mut tree)?;
    Ok(())
}

fn fill(rt: &impl Abort, alloc: Global, tree: &mut Tree) {
    same(rt, tree.set_size(NODE, 16_777_216, NOW), Ok(()));
    let big = Err(TreeError::FBig);
    same(rt, tree.set_size(NODE, 16_777_217, NOW), big);
    same(rt, tree.write(alloc, NODE, 16_777_215, b"zz", NOW), big);
    same(rt, tree.write(alloc, NODE, u64::MAX, b"z", NOW), big);
    same(rt, told(tree), Some((16_777_216, 2)));
}

#[test]
fn the_most_bytes(rt: HostRuntime) -> Result<(), Fail> {
    let mut tree = with_node(rt.alloc(), NodeKind::File)?;
    fill(&rt, rt.alloc(), &mut tree);
    Ok(())
}

fn refuse(rt: &impl Abort, alloc: Global, tree: &mut Tree) {
    same(rt, told(tree), Some((4, 1)));
    let none = Err(TreeError::Inval);
    same(rt, tree.set_size(NODE, 0, NOW), none);
    same(rt, tree.set_size(ROOT, 0, NOW), Err(TreeError::IsDir));
    same(rt, tree.set_size(OTHER, 0, NOW), Err(TreeError::Stale));
    same(rt, tree.write(alloc, NODE, 0, b"z", NOW), none);
    same(rt, tree.file(ROOT).is_err(), true);
    same(rt, tree.read(alloc, OTHER, 0, 1).is_err(), true);
}

#[test]
fn what_is_no_file(rt: HostRuntime) -> Result<(), Fail> {
    let mut tree = with_node(rt.alloc(), NodeKind::Link)?;
    refuse(&rt, rt.alloc(), &mut tree);
    Ok(())
}
