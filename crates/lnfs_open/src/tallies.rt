//! How many opens of each level a node has, and how many of them are for a use or deny it. So a question whether an open
//! stands in the way is mostly answered by one look at each level, and without a look at the opens.
ghost use Rattle.std.specs.Prelude.{◌≡◌, ◌<◌, ◌&&◌, ◌==◌, ℕ, OnOk, IsSome, cond};
ghost use Rattle.std.specs.BTreeMap.{get};
ghost use Rattle.lnfs_world.specs.World.{Id, same_id};
ghost use Rattle.lnfs_world.specs.declared.numbers.TheConstants.{LAST_NUMBER};
ghost use Rattle.lnfs_open.specs.Listed.{id_of};
ghost use Rattle.lnfs_open.specs.Tallies.{layer_cmp, no_tally, tally_at, more, less, may_have, may_clash, HasRoom, CanChange};

use crate::bits::{BOTH, READING, WRITING, has_any, one_if_any};
use crate::keys::Key;
use std::alloc::{AllocError, Global};
use std::collections::BTreeMap;

/// The opens of a node that are of one level.
#[derive(Clone, Copy, Debug, PartialEq, Eq, PartialOrd, Ord)]
pub struct Layer {
    pub node: Key,
    pub level: u32,
}

/// How many opens there are, and how many of them have each bit.
#[derive(Clone, Copy, Debug, PartialEq, Eq)]
pub struct Tally {
    pub opens: u32,
    pub reading: u32,
    pub writing: u32,
    pub reading_denied: u32,
    pub writing_denied: u32,
}

/// What an open is for, and what it denies to others.
#[derive(Clone, Copy, Debug, PartialEq, Eq)]
pub struct Uses {
    pub access: u32,
    pub deny: u32,
}

/// The tallies of all nodes and levels. The last open of a node and a level takes their row with it.
#[derive(Drop)]
pub struct Tallies {
    pub layers: BTreeMap<Layer, Tally>,
}

/// The layer before all of a node.
pub fn lowest(node: Key) -> Layer
    ensures { result ≡ record { node = node; level = 0 } }
{
    Layer { node, level: 0 }
}

/// Whether one of the opens that are counted may have one of some bits, where so many have the first, and so many the
/// second. Of higher bits nothing is known.
fn may_have(bits: u32, first: u32, second: u32) -> bool
    ensures { result ≡ may_have bits first second }
{
    bits > BOTH || (has_any(bits, READING) && first != 0) || (has_any(bits, WRITING) && second != 0)
}

impl Tally {
    /// Of no open.
    fn none() -> Tally
        ensures { result ≡ no_tally }
    {
        Tally {
            opens: 0,
            reading: 0,
            writing: 0,
            reading_denied: 0,
            writing_denied: 0,
        }
    }

    /// With one more open.
    fn with(self, uses: Uses) -> Tally
        requires { HasRoom self }
        ensures { result ≡ more uses.access uses.deny self }
    {
        Tally {
            opens: self.opens + 1,
            reading: self.reading + one_if_any(uses.access, READING),
            writing: self.writing + one_if_any(uses.access, WRITING),
            reading_denied: self.reading_denied + one_if_any(uses.deny, READING),
            writing_denied: self.writing_denied + one_if_any(uses.deny, WRITING),
        }
    }

    /// Without one of the opens.
    fn without(self, uses: Uses) -> Tally
        ensures few { result.opens < LAST_NUMBER }
        ensures less { result ≡ less uses.access uses.deny self }
    {
        Tally {
            opens: self.opens.saturating_sub(1),
            reading: self
                .reading
                .saturating_sub(one_if_any(uses.access, READING)),
            writing: self
                .writing
                .saturating_sub(one_if_any(uses.access, WRITING)),
            reading_denied: self
                .reading_denied
                .saturating_sub(one_if_any(uses.deny, READING)),
            writing_denied: self
                .writing_denied
                .saturating_sub(one_if_any(uses.deny, WRITING)),
        }
    }

    /// Whether one of the opens may deny one of the bits of `access`.
    pub fn may_deny(&self, access: u32) -> bool
        ensures { result ≡ may_have access self.now.reading_denied self.now.writing_denied }
    {
        may_have(access, self.reading_denied, self.writing_denied)
    }

    /// Whether one of the opens may be for one of the bits of `deny`.
    pub fn may_use(&self, deny: u32) -> bool
        ensures { result ≡ may_have deny self.now.reading self.now.writing }
    {
        may_have(deny, self.reading, self.writing)
    }
}

impl Tallies {
    /// No open is counted. Takes no memory.
    pub fn new(alloc: Global) -> Tallies
        ensures { (node : Id) (level : ℕ) → tally_at result node level ≡ no_tally }
    {
        Tallies {
            layers: BTreeMap::new(alloc),
        }
    }

    /// Whether one of the opens of a layer may deny one of the bits of `access`, or be for one of the bits of `deny`.
    pub fn may_clash(&self, layer: Layer, access: u32, deny: u32) -> bool
        ensures { result ≡ may_clash access deny
            (tally_at self.now (id_of layer.node) layer.level) }
    {
        let tally = match self.layers.get(&layer) {
            Some(found) => *found,
            None => Tally::none(),
        };
        tally.may_deny(access) || tally.may_use(deny)
    }

    /// Makes the row of a layer, where there is none. It changes nothing that is told.
    pub fn make_place(&mut self, layer: Layer) -> Result<(), AllocError>
        ensures same { (n : Id) (l : ℕ) → tally_at self.new n l ≡ tally_at self.old n l }
        ensures place { OnOk result (IsSome (get layer_cmp self.new.layers layer)) }
    {
        if self.layers.contains_key(&layer) {
            return Ok(());
        }
        self.layers.insert(layer, Tally::none())?;
        Ok(())
    }

    /// Takes back the row of a layer that has no open. It changes nothing that is told.
    pub fn free_place(&mut self, layer: Layer)
        ensures { (n : Id) (l : ℕ) → tally_at self.new n l ≡ tally_at self.old n l }
    {
        let Some(tally) = self.layers.get(&layer) else {
            return;
        };
        if *tally == Tally::none() {
            self.layers.remove(&layer);
        }
    }

    /// Counts one more open of a layer, which has a row.
    pub fn count(&mut self, layer: Layer, uses: Uses)
        requires place { IsSome (get layer_cmp self.old.layers layer) }
        requires room { HasRoom (tally_at self.old (id_of layer.node) layer.level) }
        ensures { (n : Id) (l : ℕ) → tally_at self.new n l
            ≡ cond (same_id (id_of layer.node) n && layer.level == l)
            (more uses.access uses.deny (tally_at self.old n l)) (tally_at self.old n l) }
    {
        let Some(tally) = self.layers.get_mut(&layer) else {
            return;
        };
        *tally = tally.with(uses);
    }

    /// Counts an open of a layer again, whose uses have changed.
    pub fn count_again(&mut self, layer: Layer, before: Uses, after: Uses)
        requires { CanChange before.access before.deny
            (tally_at self.old (id_of layer.node) layer.level) }
        ensures { (n : Id) (l : ℕ) → tally_at self.new n l
            ≡ cond (same_id (id_of layer.node) n && layer.level == l)
            (more after.access after.deny (less before.access before.deny (tally_at self.old n l)))
            (tally_at self.old n l) }
    {
        let Some(tally) = self.layers.get_mut(&layer) else {
            return;
        };
        *tally = tally.without(before).with(after);
    }

    /// Counts one open less of a layer.
    fn take_off(&mut self, layer: Layer, uses: Uses)
        ensures { (n : Id) (l : ℕ) → tally_at self.new n l
            ≡ cond (same_id (id_of layer.node) n && layer.level == l)
            (less uses.access uses.deny (tally_at self.old n l)) (tally_at self.old n l) }
    {
        let Some(tally) = self.layers.get_mut(&layer) else {
            return;
        };
        *tally = tally.without(uses);
    }

    /// Counts one open less of a layer, whose row goes with the last.
    pub fn count_off(&mut self, layer: Layer, uses: Uses)
        ensures { (n : Id) (l : ℕ) → tally_at self.new n l
            ≡ cond (same_id (id_of layer.node) n && layer.level == l)
            (less uses.access uses.deny (tally_at self.old n l)) (tally_at self.old n l) }
    {
        self.take_off(layer, uses);
        self.free_place(layer);
    }
}
