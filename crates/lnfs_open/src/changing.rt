//! Opens are made, joined and ended.
ghost use Rattle.std.specs.Prelude.{◌≡◌, ℕ, None, true, not, filter, find, map, OnOk, OnErr, IsSome};
ghost use Rattle.std.specs.BTreeMap.{get};
ghost use Rattle.lnfs_world.specs.Rows.{inserted};
ghost use Rattle.lnfs_world.specs.World.{Id, open_order, same_id};
ghost use Rattle.lnfs_world.specs.Change.{AddOpen, is_open_of};
ghost use Rattle.lnfs_world.specs.Effects.{next_id};
ghost use Rattle.lnfs_world.specs.Facts.{same_opening};
ghost use Rattle.lnfs_open.specs.Lists.{ran};
ghost use Rattle.lnfs_open.specs.Listed.{id_of, client_id, node_id, open_id, row_of, open_of, AreOwn};
ghost use Rattle.lnfs_open.specs.Tallies.{layer_cmp, tally_at};
ghost use Rattle.lnfs_world.specs.Opens.{joined};
ghost use Rattle.lnfs_open.specs.Opening.{own_open, has_open_left, opened_of, opened_by, rows_set, IsJoined, Does, found_of, ended_of, Ends};

use crate::finder::Filing;
use crate::keys::{ClientKey, Key, NodeKey, OpenError, OpenRef, OpenRow};
use crate::opens::Opens;
use crate::rows::{add_row, drop_row, join_row, row_at};
use crate::tallies::{Layer, Tallies, Uses};
use lnfs_counts::{count_off, count_one, last_given, make_counter};
use lnfs_types::Octets;
use std::alloc::AllocError;
use std::collections::BTreeMap;

/// Adds an open under a new identifier, and makes the row of its layer, where there is none. Where memory is wanting, that row
/// is taken back.
pub(crate) fn place_row(
    rows: &mut BTreeMap<Key, OpenRow>,
    tallies: &mut Tallies,
    layer: Layer,
    id: Key,
    row: OpenRow,
) -> Result<(), AllocError>
    ensures added { OnOk result (map open_of rows.new.entries
        ≡ inserted open_order (row_of (id_of id) row) (map open_of rows.old.entries)) }
    ensures own { OnOk result (row.client.level.0 ≡ id.level → AreOwn rows.old.entries →
        AreOwn rows.new.entries) }
    ensures kept { OnErr result (rows.new.entries ≡ rows.old.entries) }
    ensures place { OnOk result (IsSome (get layer_cmp tallies.new.layers layer)) }
    ensures same { (n : Id) (l : ℕ) → tally_at tallies.new n l ≡ tally_at tallies.old n l }
{
    tallies.make_place(layer)?;
    let added = add_row(rows, id, row);
    if added.is_err() {
        tallies.free_place(layer);
    }
    added
}

impl Opens {
    /// Joins what is asked to what a client and an owner have open of a node, if there is something.
    fn join(
        &mut self,
        client: ClientKey,
        owner: &[u8],
        node: NodeKey,
        access: u32,
        deny: u32,
    ) -> Option<OpenRef>
        ensures answer { IsJoined access deny (own_open self.old
            (record { client = client_id client; owner = owner.now; node = node_id node; access = access; deny = deny })) result }
        ensures lists { self.new ≡ record self.old
            { opens = rows_set (joined access deny) (own_open self.old (record { client = client_id client; owner = owner.now; node = node_id node; access = access; deny = deny })) self.old.opens } }
    {
        let id = self.own(client, owner, node)?;
        let row = row_at(&self.rows, id)?;
        let layer = Layer {
            node: row.node.key(),
            level: id.level,
        };
        let before = row.uses();
        let seq = join_row(&mut self.rows, id, access, deny)?;
        let after = Uses {
            access: before.access | access,
            deny: before.deny | deny,
        };
        self.tallies.count_again(layer, before, after);
        Some(id.at(seq))
    }

    /// Adds an open under the next number of its client's level.
    fn add(
        &mut self,
        client: ClientKey,
        owner: &[u8],
        node: NodeKey,
        access: u32,
        deny: u32,
    ) -> Result<OpenRef, OpenError>
        requires { own_open self.old
            (record { client = client_id client; owner = owner.now; node = node_id node; access = access; deny = deny }) ≡ None }
        ensures { Does (opened_by self.old (record
            { client = client_id client; owner = owner.now; node = node_id node; access = access; deny = deny }) None) self.old self.new result }
    {
        if !self.has_room(client.level) {
            return Err(OpenError::Full);
        }
        let row = OpenRow {
            client,
            owner: Octets::from_slice(self.alloc, owner)?,
            node,
            access,
            deny,
            seq: 1,
        };
        let id = Key {
            level: client.level.0,
            number: last_given(&self.counters, client.level.0) + 1,
        };
        self.enter(id, owner, row)?;
        Ok(id.at(1))
    }

    /// Enters an open under an identifier, the next of its level. Where memory is wanting, what was begun is taken back.
    fn enter(&mut self, id: Key, owner: &[u8], row: OpenRow) -> Result<(), AllocError>
        requires owner { row.owner ≡ owner.now }
        requires level { row.client.level.0 ≡ id.level }
        requires next { id_of id ≡ next_id self.old.lasts id.level }
        requires room { has_open_left self.old id.level ≡ true }
        requires absent { find (same_opening (row_of (id_of id) row)) self.old.opens ≡ None }
        ensures added { OnOk result (self.new ≡ ran (AddOpen (row_of (id_of id) row)) self.old) }
        ensures kept { OnErr result (self.new ≡ self.old) }
    {
        let filing = Filing {
            id,
            client: row.client.key(),
            node: row.node.key(),
            owner,
        };
        let layer = Layer {
            node: filing.node,
            level: id.level,
        };
        let uses = row.uses();
        make_counter(&mut self.counters, id.level)?;
        self.finder.enter(self.alloc, &filing)?;
        let placed = place_row(&mut self.rows, &mut self.tallies, layer, id, row);
        if let Err(wanting) = placed {
            self.finder.leave(&filing);
            return Err(wanting);
        }
        count_one(&mut self.counters, id.level, id.number);
        self.tallies.count(layer, uses);
        Ok(())
    }

    /// Opens a node for a client under an owner's name (RFC 8881 section 18.16). What they have open of it already is joined:
    /// it is then for both and denies both, and its sequence steps. Otherwise an open is added under the next number of the
    /// client's level, with sequence 1.
    ///
    /// # Errors
    ///
    /// `Full` where an open has to be added, and the client's level has 4,096 or was given its last number. `Memory` where one
    /// has to be added and there is no memory. Either leaves all as it was.
    pub fn open(
        &mut self,
        client: ClientKey,
        owner: &[u8],
        node: NodeKey,
        access: u32,
        deny: u32,
    ) -> Result<OpenRef, OpenError>
        ensures { Does (opened_of self.old (record
            { client = client_id client; owner = owner.now; node = node_id node; access = access; deny = deny })) self.old self.new result }
    {
        if let Some(joined) = self.join(client, owner, node, access, deny) {
            return Ok(joined);
        }
        self.add(client, owner, node, access, deny)
    }

    /// An open goes, if it is there.
    pub(crate) fn take_out(&mut self, id: Key)
        ensures { self.new
            ≡ record self.old { opens = filter (λ o. not (same_id (id_of id) o.id)) self.old.opens } }
    {
        let Some(row) = row_at(&self.rows, id) else {
            return;
        };
        let node = row.node.key();
        let uses = row.uses();
        self.finder.leave(&Filing {
            id,
            client: row.client.key(),
            node,
            owner: row.owner.as_slice(),
        });
        count_off(&mut self.counters, id.level);
        let level = id.level;
        self.tallies.count_off(Layer { node, level }, uses);
        drop_row(&mut self.rows, id);
    }

    /// Ends the open of a client and a node that a reference names (RFC 8881 section 18.2). Takes no memory.
    ///
    /// # Errors
    ///
    /// Those of `find`, which leave all as it was.
    pub fn close(&mut self, client: ClientKey, node: NodeKey, id: OpenRef) -> Result<(), OpenError>
        ensures answer { Ends result (found_of self.old.opens (client_id client) (node_id node)
            (open_id id) id.seq) }
        ensures lists { self.new
            ≡ ended_of (found_of self.old.opens (client_id client) (node_id node) (open_id id)
            id.seq) self.old }
    {
        self.find(client, node, id)?;
        self.take_out(id.key());
        Ok(())
    }

    /// The opens of a node go with it. Takes no memory.
    pub fn drop_node(&mut self, node: NodeKey)
        ensures { self.new
            ≡ record self.old { opens = filter (λ o. not (same_id (node_id node) o.node)) self.old.opens } }
    {
        let node = node.key();
        while let Some(id) = self.first_of_node(node) {
            self.take_out(id);
        }
    }

    /// The opens of a client go with it. Takes no memory.
    pub fn drop_client(&mut self, client: ClientKey)
        ensures { self.new
            ≡ record self.old { opens = filter (λ o. not (is_open_of (client_id client) o)) self.old.opens } }
    {
        let client = client.key();
        while let Some(id) = self.first_of_client(client) {
            self.take_out(id);
        }
    }
}
