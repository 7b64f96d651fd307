//! The opens of all levels.
ghost use Rattle.std.specs.Prelude.{◌≡◌, ◌||◌, Bool, true, false, not, filter, map, option_map, IfSome, IfNone, IfOk, OnErr};
ghost use Rattle.std.specs.List.{list_any, list_all};
ghost use Rattle.std.specs.Result.{result_map_both};
ghost use Rattle.lnfs_world.specs.World.{Id, same_id};
ghost use Rattle.lnfs_world.specs.Change.{is_open_of};
ghost use Rattle.lnfs_world.specs.Opens.{conflicts};
ghost use Rattle.lnfs_calipso.specs.Label.{dom_of};
ghost use Rattle.lnfs_open.specs.Lists.{no_lists};
ghost use Rattle.lnfs_open.specs.Listed.{id_of, client_id, node_id, open_id, row_of, owner_of};
ghost use Rattle.lnfs_open.specs.Opening.{own_open, open_named, found_of, room_at, has_open_left};
ghost use Rattle.lnfs_open.specs.Stopping.{Tells};

use crate::finder::Finder;
use crate::keys::{ClientKey, Key, NodeKey, OpenError, OpenRef, OpenRow};
use crate::owners::Matter;
use crate::rows::{is_of, row_at};
use crate::shares::Share;
use crate::tallies::Tallies;
use lnfs_calipso::{Lattice, Level};
use lnfs_counts::{Counter, count, last_given};
use lnfs_world::numbers::{LAST_NUMBER, OPENS_OF_A_LEVEL};
use std::alloc::Global;
use std::collections::BTreeMap;
use std::marker::Model;

/// The opens of all levels, and the last number that each level was given.
#[derive(Drop)]
pub struct Opens {
    pub(crate) alloc: Global,
    pub(crate) rows: BTreeMap<Key, OpenRow>,
    pub(crate) counters: BTreeMap<u32, Counter>,
    pub(crate) finder: Finder,
    pub(crate) tallies: Tallies,
}

impl Model for Opens {
    ghost use Rattle.std.specs.Prelude.{map};
    ghost use Rattle.lnfs_counts.specs.Counters.{lasts_of};
    ghost use Rattle.lnfs_open.specs.Lists.{Lists};
    ghost use Rattle.lnfs_open.specs.Listed.{open_of};
    ghost use Rattle.lnfs_open.specs.Kept.{IsKept};

    ghost Value = { Lists };

    ghost view = { λ o. record {
      opens = map open_of o.rows.entries;
      lasts = lasts_of o.counters.entries;
    } };

    ghost invariant = { λ o. IsKept o.rows.entries o.counters o.finder o.tallies };
}

impl Opens {
    /// No open, and no number given yet. Takes no memory.
    pub fn new(alloc: Global) -> Opens
        ensures { result ≡ no_lists }
    {
        Opens {
            alloc,
            rows: BTreeMap::new(alloc),
            counters: BTreeMap::new(alloc),
            finder: Finder::new(alloc),
            tallies: Tallies::new(alloc),
        }
    }

    /// The open of a client, an owner and a node.
    pub(crate) fn own(&self, client: ClientKey, owner: &[u8], node: NodeKey) -> Option<Key>
        ensures { option_map id_of result ≡ option_map (λ o. o.id)
            (own_open self.now (record
            { client = client_id client; owner = owner.now; node = node_id node; access = 0; deny = 0 })) }
    {
        let matter = Matter {
            client: client.key(),
            node: node.key(),
        };
        let number = self.finder.owners.number(matter, owner)?;
        Some(Key {
            level: client.level.0,
            number,
        })
    }

    /// Whether a level may have one more open, and has a number for it.
    pub(crate) fn has_room(&self, level: Level) -> bool
        ensures { result ≡ has_open_left self.now level.0 }
    {
        count(&self.counters, level.0) < OPENS_OF_A_LEVEL
            && last_given(&self.counters, level.0) < LAST_NUMBER
    }

    /// Whether there is room for what a client opens under an owner's name: of a node, or of one that isn't made yet. What
    /// they have open of a node already is joined, and needs none. Takes no memory.
    ///
    /// # Errors
    ///
    /// `Full` where `open` would be refused so: where an open would have to be added, and the client's level has as many as
    /// it may have, or no number is left.
    pub fn room(
        &self,
        client: ClientKey,
        owner: &[u8],
        node: Option<NodeKey>,
    ) -> Result<(), OpenError>
        ensures { result ≡ room_at self.now (client_id client) owner.now (option_map node_id node) }
    {
        let own = match node {
            Some(node) => self.own(client, owner, node),
            None => None,
        };
        if own.is_some() || self.has_room(client.level) {
            Ok(())
        } else {
            Err(OpenError::Full)
        }
    }

    /// The open of a client and a node that a reference names (RFC 8881 section 8.2.2). The sequence 0 stands for any.
    ///
    /// # Errors
    ///
    /// `Bad` where there is no such open, or its sequence is below that of the reference, and `Old` where it is above.
    pub fn find(&self, client: ClientKey, node: NodeKey, id: OpenRef) -> Result<&OpenRow, OpenError>
        ensures row { result_map_both (λ row. row_of (open_id id) row.now) (λ e. e) result
            ≡ found_of self.now.opens (client_id client) (node_id node) (open_id id) id.seq }
        ensures client { IfOk result (λ row. row.now.client ≡ client) }
    {
        let Some(row) = self.named(client, node, id.key()) else {
            return Err(OpenError::Bad);
        };
        if row.seq < id.seq {
            return Err(OpenError::Bad);
        }
        if id.seq != 0 && id.seq != row.seq {
            return Err(OpenError::Old);
        }
        Ok(row)
    }

    /// The open of an identifier, if it is of a client and a node.
    fn named(&self, client: ClientKey, node: NodeKey, id: Key) -> Option<&OpenRow>
        ensures row { option_map (λ row. row_of (id_of id) row.now) result
            ≡ open_named self.now.opens (client_id client) (node_id node) (id_of id) }
        ensures client { IfSome result (λ row. row.now.client ≡ client) }
    {
        let row = row_at(&self.rows, id)?;
        if !is_of(row, client, node) {
            return None;
        }
        Some(row)
    }

    /// Whether another's open of a node stands in the way of what a subject asks (RFC 8881 section 9.7): it denies a bit of
    /// `access`, or is for a bit of `deny`. Neither the open of `own`, a client and an owner, counts, nor one of a level that
    /// the subject doesn't dominate, nor one of a client of which `over` tells that its lease is over (section 8.4.3).
    pub fn conflicts<F: Fn(ClientKey) -> bool>(
        &self,
        lattice: &Lattice,
        subject: Level,
        own: Option<(ClientKey, &[u8])>,
        node: NodeKey,
        access: u32,
        deny: u32,
        over: &F,
    ) -> bool
        requires { F.IsAlwaysCallable over.now }
        ensures { (told : Id → Bool) → Tells (F.post over.now) told →
            result ≡ conflicts (dom_of lattice.now) subject.0 (option_map owner_of own.entry)
            (node_id node) access deny told self.now.opens }
    {
        let share = Share {
            lattice,
            subject,
            own,
            access,
            deny,
        };
        share.is_stopped(
            &self.tallies,
            &self.finder.nodes,
            &self.rows,
            node.key(),
            over,
        )
    }

    /// Whether a client has an open.
    pub fn any_of(&self, client: ClientKey) -> bool
        ensures { result ≡ list_any (is_open_of (client_id client)) self.now.opens }
    {
        self.first_of_client(client.key()).is_some()
    }

    /// The first open of a node, if it has one.
    pub(crate) fn first_of_node(&self, node: Key) -> Option<Key>
        ensures there { IfSome result (λ id. list_any (λ o. same_id (id_of id) o.id) self.now.opens
            ≡ true) }
        // No other open has its identifier.
        ensures only { IfSome result (λ id. list_all (λ o. not (same_id (id_of id) o.id)
            || same_id (id_of node) o.node) self.now.opens ≡ true) }
        ensures none { IfNone result (list_any (λ o. same_id (id_of node) o.node) self.now.opens
            ≡ false) }
    {
        self.finder.nodes.first(node)
    }

    /// The first open of a client, if it has one.
    pub(crate) fn first_of_client(&self, client: Key) -> Option<Key>
        ensures there { IfSome result (λ id. list_any (λ o. same_id (id_of id) o.id) self.now.opens
            ≡ true) }
        // No other open has its identifier.
        ensures only { IfSome result (λ id. list_all (λ o. not (same_id (id_of id) o.id)
            || is_open_of (id_of client) o) self.now.opens ≡ true) }
        ensures none { IfNone result (list_any (is_open_of (id_of client)) self.now.opens ≡ false) }
    {
        self.finder.clients.first(client)
    }
}
