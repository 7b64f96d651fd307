//! The first tree of a policy, told as rows and made of them again, with ample memory.

ghost use Rattle.std.specs.Prelude.{◌≡◌, ◌≤◌, true, IfOk};
ghost use Rattle.lnfs_world.specs.World.{Id as RowId};
ghost use Rattle.lnfs_world.specs.Names.{names_of};
ghost use Rattle.lnfs_world.specs.declared.numbers.TheConstants.{MOST_NAMES};
ghost use Rattle.lnfs_tree.specs.Changed.{HasFacts};

use crate::compare::same;
use crate::first::{Lines, levels, tree_of};
use crate::restored::again;
use lnfs_calipso::Level;
use lnfs_rows::{EntryRow, Id, Kind, NodeRow};
use lnfs_tree::{NodeId, Tree};
use lnfs_world::numbers::MOST_NAMES;
use std::alloc::{AllocError, Global};
use std::process::Abort;
use std::test::Fail;

const LINES: Lines<'_> = &[("/one", 1), ("/two", 2), ("/top", 3)];

/// Whether a tree has so few names that no node has too many.
fn has_few(alloc: Global, tree: &Tree) -> Result<bool, AllocError>
    ensures { IfOk result (λ few. few ≡ true → (i : RowId) →
        names_of tree.now.entries i ≤ MOST_NAMES) }
{
    let entries = tree.entry_rows(alloc)?;
    Ok(entries.len() <= MOST_NAMES as usize)
}

/// The tree of the rows that a first tree tells.
fn made_again(alloc: Global, tree: &Tree) -> Result<Option<Tree>, AllocError>
    requires { HasFacts tree.now }
{
    if !has_few(alloc, tree)? {
        return Ok(None);
    }
    tree.law_rows();
    Ok(Some(again(alloc, tree, 4)?))
}

fn same_node(rt: &impl Abort, came: &NodeRow<'_>, number: u64, label: u32, cookies: u64) {
    let id = Id { level: 0, number };
    same(rt, came.id, id);
    same(rt, came.kind, Kind::Directory);
    same(rt, came.label, label);
    same(rt, came.content.len(), 0);
    same(rt, came.cookies, cookies);
}

fn same_nodes(rt: &impl Abort, rows: &[NodeRow<'_>]) {
    match rows {
        [root, one, two, top] => {
            same_node(rt, root, 1, 0, 6);
            same_node(rt, one, 2, 1, 3);
            same_node(rt, two, 3, 2, 3);
            same_node(rt, top, 4, 3, 3);
        }
        _ => panic!(rt; "not four nodes"),
    }
}

fn same_entry(rt: &impl Abort, came: &EntryRow<'_>, cookie: u64, name: &[u8], number: u64) {
    let root = Id {
        level: 0,
        number: 1,
    };
    let node = Id { level: 0, number };
    same(rt, came.directory, root);
    same(rt, came.cookie, cookie);
    same(rt, came.name, name);
    same(rt, came.node, node);
}

fn same_entries(rt: &impl Abort, rows: &[EntryRow<'_>]) {
    match rows {
        [one, two, top] => {
            same_entry(rt, one, 3, b"one", 2);
            same_entry(rt, two, 4, b"two", 3);
            same_entry(rt, top, 5, b"top", 4);
        }
        _ => panic!(rt; "not three names"),
    }
}

/// Compares the rows of a tree with those of the first.
fn same_rows(rt: &impl Abort, alloc: Global, tree: &Tree) -> Result<(), AllocError> {
    let nodes = tree.node_rows(alloc)?;
    same_nodes(rt, &nodes);
    let entries = tree.entry_rows(alloc)?;
    same_entries(rt, &entries);
    let numbers = tree.last_numbers(alloc, 4)?;
    same(rt, numbers.as_slice(), &[4, 0, 0, 0]);
    Ok(())
}

/// Compares what two trees tell of their nodes.
fn same_facts(rt: &impl Abort, first: &Tree, second: &Tree) {
    for number in 1..5 {
        let node = NodeId {
            home: Level(0),
            number,
        };
        same(rt, second.node(node), first.node(node));
    }
}

fn compare(rt: &impl Abort, alloc: Global, first: &Tree, second: &Tree) -> Result<(), AllocError> {
    same_rows(rt, alloc, first)?;
    same_rows(rt, alloc, second)?;
    same_facts(rt, first, second);
    Ok(())
}

#[test]
fn told_and_made_again(rt: HostRuntime) -> Result<(), Fail> {
    let alloc = rt.alloc();
    let lattice = levels(alloc)?;
    let first = tree_of(alloc, &lattice, LINES, None)?;
    match made_again(alloc, &first)? {
        Some(second) => compare(&rt, alloc, &first, &second)?,
        None => panic!(&rt; "too many names"),
    }
    Ok(())
}
