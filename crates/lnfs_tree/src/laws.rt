//! What a tree can be made of: rows of which the facts of a world hold, and a tree's own rows.

ghost use Rattle.std.specs.Prelude.{◌≤◌, ◌<◌, ◌^◌, ℕ, Bool, map};
ghost use Rattle.std.specs.List.{AllByRecursion};
ghost use Rattle.std.specs.Map.{keys_of, values_of};
ghost use Rattle.lnfs_world.specs.Rows.{Rising};
ghost use Rattle.lnfs_world.specs.World.{Id, node_order};
ghost use Rattle.lnfs_world.specs.Names.{names_of};
ghost use Rattle.lnfs_tree.specs.Rows.{Rows};
ghost use Rattle.lnfs_tree.specs.Held.{held};
ghost use Rattle.lnfs_tree.specs.Flat.{row_of, last_row};
ghost use Rattle.lnfs_tree.specs.Changed.{FactsFor};
ghost use Rattle.lnfs_tree.specs.Makes.{IsNumbered, IsStorable, MakesTree};

use crate::node::NodeId;
use crate::store::{Node, NodeStore};
use crate::tree::Tree;
use lnfs_calipso::Level;
use lnfs_world::numbers::{LAST_NUMBER, MOST_NAMES};
use slab::Slab;
use std::collections::BTreeMap;

/// The facts of a world and the bounds of its rows are all that is asked of rows.
pub fn makes_tree()
    ensures { (dom : ℕ → ℕ → Bool) (t : Rows) → FactsFor dom t → AllByRecursion IsStorable t.nodes →
        ((i : Id) → names_of t.entries i ≤ MOST_NAMES) → AllByRecursion IsNumbered t.lasts →
        MakesTree t }
{}

impl Node {
    fn law_storable(&self)
        ensures { IsStorable (row_of self.now) }
    {
        // The calls say the ranges.
        let _number = self.id.number;
        let _size = self.bytes.len();
    }
}

fn law_slots(slots: &Slab<Node>, by_id: &BTreeMap<NodeId, usize>)
    ensures { AllByRecursion (λ n. IsStorable (row_of n)) (held slots.now by_id.now.entries) }
{
    for key in by_id.values() {
        // Each key of the index has its node.
        let Some(node) = slots.get(*key) else {
            continue;
        };
        node.law_storable();
    }
}

fn law_level(level: Level)
    ensures { level.0 < 2 ^ 32 }
{
    let _number = level.0;
}

fn law_number(number: u32)
    ensures { number ≤ LAST_NUMBER }
{
    let _number = number;
}

fn law_levels(lasts: &BTreeMap<Level, u32>)
    ensures { AllByRecursion (λ l. l.0 < 2 ^ 32) (keys_of lasts.now.entries) }
{
    for level in lasts.keys() {
        law_level(*level);
    }
}

fn law_numbers(lasts: &BTreeMap<Level, u32>)
    ensures { AllByRecursion (λ n. n ≤ LAST_NUMBER) (values_of lasts.now.entries) }
{
    for number in lasts.values() {
        law_number(*number);
    }
}

impl NodeStore {
    fn law_storable(&self)
        ensures { AllByRecursion (λ n. IsStorable (row_of n)) self.now }
    {
        law_slots(&self.slots, &self.by_id);
    }
}

impl Tree {
    /// The rows of nodes lie in the order of their identifiers.
    pub fn law_order(&self)
        ensures { Rising node_order self.now.nodes }
    {
        self.store.law_order();
    }

    /// A tree can be made of a tree's own rows, where the facts hold of them, and no node has more names than one may. It
    /// looks at each node.
    pub fn law_rows(&self)
        ensures { (dom : ℕ → ℕ → Bool) → FactsFor dom self.now →
            ((i : Id) → names_of self.now.entries i ≤ MOST_NAMES) → MakesTree self.now }
    {
        makes_tree();
        self.store.law_storable();
        law_levels(&self.lasts);
        law_numbers(&self.lasts);
    }
}
