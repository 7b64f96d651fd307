//! A tree, made of rows, told as rows and made of them again, with ample memory.

ghost use Rattle.std.specs.Prelude.{IfOk};
ghost use Rattle.lnfs_tree.specs.Makes.{MakesTree};

use crate::compare::same;
use lnfs_calipso::Level;
use lnfs_rows::{Data, EntryRow, Id, Kind, NodeRow};
use lnfs_tree::{NodeId, Tree, TreeError};
use lnfs_types::Moment;
use std::alloc::{AllocError, Global};
use std::process::Abort;
use std::test::Fail;

const NOW: Moment = Moment { secs: 9, nanos: 1 };

const ROOT: NodeId = NodeId {
    home: Level(0),
    number: 1,
};

const DIRECTORY: NodeId = NodeId {
    home: Level(0),
    number: 2,
};

const FILE: NodeId = NodeId {
    home: Level(0),
    number: 4,
};

/// The root with a directory, and a file with data in that. A number was given to a node that went.
fn planted(alloc: Global) -> Result<Tree, AllocError>
    ensures { IfOk result MakesTree }
{
    let root = NodeRow {
        id: Id {
            level: 0,
            number: 1,
        },
        kind: Kind::Directory,
        label: 0,
        verifier: None,
        stored: None,
        mode: 0o755,
        content: Data::Bytes(b""),
        change: 7,
        accessed: NOW,
        metadata: NOW,
        modified: NOW,
        cookies: 6,
    };
    let directory = NodeRow {
        id: Id {
            level: 0,
            number: 2,
        },
        kind: Kind::Directory,
        label: 0,
        verifier: None,
        stored: None,
        mode: 0o700,
        content: Data::Bytes(b""),
        change: 2,
        accessed: NOW,
        metadata: NOW,
        modified: NOW,
        cookies: 4,
    };
    let file = NodeRow {
        id: Id {
            level: 0,
            number: 4,
        },
        kind: Kind::File,
        label: 0,
        verifier: None,
        stored: None,
        mode: 0o640,
        content: Data::Bytes(b"data"),
        change: 3,
        accessed: NOW,
        metadata: NOW,
        modified: NOW,
        cookies: 3,
    };
    let in_root = EntryRow {
        directory: Id {
            level: 0,
            number: 1,
        },
        cookie: 5,
        name: b"directory",
        node: Id {
            level: 0,
            number: 2,
        },
    };
    let in_directory = EntryRow {
        directory: Id {
            level: 0,
            number: 2,
        },
        cookie: 3,
        name: b"file",
        node: Id {
            level: 0,
            number: 4,
        },
    };
    Tree::from_rows(
        alloc,
        &[root, directory, file],
        &[in_root, in_directory],
        &[5],
    )
}

/// The tree of the rows that a tree tells, with the last numbers of so many levels.
pub(crate) fn again(alloc: Global, tree: &Tree, levels: u32) -> Result<Tree, AllocError>
    requires { MakesTree tree.now }
{
    let nodes = tree.node_rows(alloc)?;
    let entries = tree.entry_rows(alloc)?;
    let numbers = tree.last_numbers(alloc, levels)?;
    Tree::from_rows(alloc, &nodes, &entries, &numbers)
}

fn same_data(rt: &impl Abort, alloc: Global, tree: &Tree) -> Result<(), TreeError> {
    let bytes = tree.read(alloc, FILE, 0, 9)?;
    same(rt, bytes.as_slice(), b"data");
    Ok(())
}

/// Compares the names that are told.
fn same_names(rt: &impl Abort, alloc: Global, tree: &Tree) -> Result<(), AllocError> {
    let entries = tree.entry_rows(alloc)?;
    same(rt, entries.len(), 2);
    for entry in &entries {
        let first = entry.directory.number == 1;
        same(rt, entry.cookie, if first { 5 } else { 3 });
        same(rt, entry.name, if first { b"directory" } else { b"file" });
        same(rt, entry.node.number, if first { 2 } else { 4 });
    }
    Ok(())
}

/// Compares a tree with the rows that were planted.
fn same_tree(rt: &impl Abort, alloc: Global, tree: &Tree) -> Result<(), Fail> {
    same(rt, tree.lookup(ROOT, b"directory"), Ok(DIRECTORY));
    same(rt, tree.lookup(DIRECTORY, b"file"), Ok(FILE));
    same(rt, tree.parent(DIRECTORY), Ok(ROOT));
    same_names(rt, alloc, tree)?;
    same_data(rt, alloc, tree)?;
    let numbers = tree.last_numbers(alloc, 2)?;
    same(rt, numbers.as_slice(), &[5, 0]);
    Ok(())
}

#[test]
fn told_and_made_again(rt: HostRuntime) -> Result<(), Fail> {
    let first = planted(rt.alloc())?;
    same_tree(&rt, rt.alloc(), &first)?;
    let second = again(rt.alloc(), &first, 1)?;
    same_tree(&rt, rt.alloc(), &second)?;
    same(&rt, second.node(ROOT), first.node(ROOT));
    same(&rt, second.node(DIRECTORY), first.node(DIRECTORY));
    same(&rt, second.node(FILE), first.node(FILE));
    Ok(())
}
