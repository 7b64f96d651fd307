//! Share reservations (RFC 8881 section 9.7).
//!
//! A question takes a look at the tally of each level that has an open of the file. Opens are walked only where they are of a
//! level that the subject dominates, and one of that level has a bit that is in the way.
ghost use Rattle.std.specs.Prelude.{◌≡◌, ◌&&◌, ℕ, Bool, option_map};
ghost use Rattle.std.specs.List.{list_any};
ghost use Rattle.lnfs_world.specs.World.{Id, same_id};
ghost use Rattle.lnfs_world.specs.Opens.{is_own};
ghost use Rattle.lnfs_calipso.specs.Label.{dom_of};
ghost use Rattle.lnfs_open.specs.Listed.{id_of, node_id, row_of, owner_of, AreOwn};
ghost use Rattle.lnfs_open.specs.Indexed.{open_at, passes};
ghost use Rattle.lnfs_open.specs.Tallies.{in_layer, AreTallied};
ghost use Rattle.lnfs_open.specs.Stopping.{opens_in, Tells, stopped_by, may_stop, AreFound};

use crate::bits::has_any;
use crate::groups::{Groups, Member};
use crate::keys::{ClientKey, Key, OpenRow};
use crate::leases::is_over;
use crate::rows::row_at;
use crate::tallies::{Layer, Tallies, Tally, lowest};
use lnfs_calipso::{Lattice, Level};
use lnfs_monitor::dominates;
use std::collections::BTreeMap;

/// What a subject asks of a file, under the client and the owner whose open doesn't count.
#[derive(Clone, Copy)]
pub struct Share<'a> {
    pub lattice: &'a Lattice,
    pub subject: Level,
    pub own: Option<(ClientKey, &'a [u8])>,
    pub access: u32,
    pub deny: u32,
}

/// The place before all opens of a node that are of a level.
fn first_of(layer: Layer) -> Member
    ensures { result
        ≡ record { group = layer.node; id = record { level = layer.level; number = 0 } } }
{
    Member {
        group: layer.node,
        id: Key {
            level: layer.level,
            number: 0,
        },
    }
}

impl<'a> Share<'a> {
    /// Whether an open is that of the client and the owner.
    fn is_own(&self, row: &OpenRow) -> bool
        ensures { (number : ℕ) →
            result ≡ is_own (option_map owner_of self.now.own) (node_id row.now.node)
            (row_of (record { level = row.now.client.level.0; number = number }) row.now) }
    {
        match self.own {
            Some((client, owner)) => row.client == client && row.owner.as_slice() == owner,
            None => false,
        }
    }

    /// Whether an open of the file stands in the way.
    fn is_stopped_by<F: Fn(ClientKey) -> bool>(&self, row: &OpenRow, over: &F) -> bool
        requires { F.IsAlwaysCallable over.now }
        ensures { (told : Id → Bool) → Tells (F.post over.now) told → (number : ℕ) →
            result
            ≡ stopped_by self.now told (row_of
            (record { level = row.now.client.level.0; number = number }) row.now) }
    {
        dominates(self.lattice, self.subject, row.client.level)
            && !self.is_own(row)
            && (has_any(row.deny, self.access) || has_any(row.access, self.deny))
            && !is_over(row.client, over)
    }

    /// Whether an open of an identifier is there and stands in the way.
    fn is_stopped_at<F: Fn(ClientKey) -> bool>(
        &self,
        rows: &BTreeMap<Key, OpenRow>,
        id: Key,
        over: &F,
    ) -> bool
        requires own { AreOwn rows.now.entries }
        requires told { F.IsAlwaysCallable over.now }
        ensures { (told : Id → Bool) → Tells (F.post over.now) told →
            result ≡ passes (stopped_by self.now told) (open_at (opens_in rows.now) (id_of id)) }
    {
        match row_at(rows, id) {
            Some(row) => self.is_stopped_by(row, over),
            None => false,
        }
    }

    /// Whether one of the opens of a level may stand in the way, which is so where the subject dominates it and one of them
    /// has a bit that is in the way.
    fn may_be_stopped(&self, level: u32, tally: &Tally) -> bool
        ensures { result ≡ may_stop self.now level tally.now }
    {
        dominates(self.lattice, self.subject, Level(level))
            && (tally.may_deny(self.access) || tally.may_use(self.deny))
    }

    /// Whether one of the opens of a file that are of a level stands in the way.
    fn is_stopped_in<F: Fn(ClientKey) -> bool>(
        &self,
        nodes: &Groups,
        rows: &BTreeMap<Key, OpenRow>,
        layer: Layer,
        over: &F,
    ) -> bool
        requires found { AreFound rows.now nodes.now }
        requires told { F.IsAlwaysCallable over.now }
        ensures { (told : Id → Bool) → Tells (F.post over.now) told →
            result ≡ list_any (λ o. in_layer (id_of layer.node) layer.level o
            && stopped_by self.now told o) (opens_in rows.now) }
    {
        for (place, _) in nodes.places.range(first_of(layer)..) {
            if place.group != layer.node || place.id.level != layer.level {
                return false;
            }
            if self.is_stopped_at(rows, place.id, over) {
                return true;
            }
        }
        false
    }

    /// The same, where it is told how many of these opens have which bit: they are walked only if one may stand in the way.
    fn is_stopped_among<F: Fn(ClientKey) -> bool>(
        &self,
        nodes: &Groups,
        rows: &BTreeMap<Key, OpenRow>,
        layer: Layer,
        tally: &Tally,
        over: &F,
    ) -> bool
        requires found { AreFound rows.now nodes.now }
        requires told { F.IsAlwaysCallable over.now }
        ensures { (told : Id → Bool) → Tells (F.post over.now) told →
            result ≡ (may_stop self.now layer.level tally.now
            && list_any (λ o. in_layer (id_of layer.node) layer.level o
            && stopped_by self.now told o) (opens_in rows.now)) }
    {
        self.may_be_stopped(layer.level, tally) && self.is_stopped_in(nodes, rows, layer, over)
    }

    /// Whether one of the opens of a file stands in the way.
    pub fn is_stopped<F: Fn(ClientKey) -> bool>(
        &self,
        tallies: &Tallies,
        nodes: &Groups,
        rows: &BTreeMap<Key, OpenRow>,
        node: Key,
        over: &F,
    ) -> bool
        requires found { AreFound rows.now nodes.now }
        requires tallied { AreTallied (opens_in rows.now) tallies.now }
        requires told { F.IsAlwaysCallable over.now }
        ensures { (told : Id → Bool) → Tells (F.post over.now) told →
            result ≡ list_any (λ o. same_id (id_of node) o.node && stopped_by self.now told o)
            (opens_in rows.now) }
    {
        for (layer, tally) in tallies.layers.range(lowest(node)..) {
            if layer.node != node {
                return false;
            }
            if self.is_stopped_among(nodes, rows, *layer, tally, over) {
                return true;
            }
        }
        false
    }
}
