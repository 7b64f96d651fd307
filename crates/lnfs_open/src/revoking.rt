//! Opens give way to one that is asked, where the leases of their clients are over (RFC 8881 section 8.4.3).
ghost use Rattle.std.specs.Prelude.{◌≡◌, ◌==◌, ◌&&◌, ◌||◌, ℕ, Bool, true, false, not, filter, IfSome, IfNone, Some};
ghost use Rattle.std.specs.List.{list_any, list_all};
ghost use Rattle.lnfs_world.specs.World.{Id, same_id};
ghost use Rattle.lnfs_world.specs.Opens.{is_own, clashes, gives_way};
ghost use Rattle.lnfs_open.specs.Listed.{id_of, client_id, node_id, row_of, owner_of, AreOwn};
ghost use Rattle.lnfs_open.specs.Indexed.{open_at, passes};
ghost use Rattle.lnfs_open.specs.Stopping.{opens_in, Tells, yields_to, AreFound};

use crate::bits::has_any;
use crate::groups::{Groups, Member};
use crate::keys::{ClientKey, Key, NodeKey, OpenRow};
use crate::leases::is_over;
use crate::opens::Opens;
use crate::rows::row_at;
use crate::tallies::Layer;
use lnfs_calipso::Level;
use std::collections::BTreeMap;

/// What is asked of a file: by a subject, under a client and an owner.
#[derive(Clone, Copy)]
pub struct Asked<'a> {
    pub subject: Level,
    pub client: ClientKey,
    pub owner: &'a [u8],
    pub access: u32,
    pub deny: u32,
}

/// The place before all opens of a node that are of a level.
fn first_place(node: Key, level: u32) -> Member
    ensures { result ≡ record { group = node; id = record { level = level; number = 0 } } }
{
    Member {
        group: node,
        id: Key { level, number: 0 },
    }
}

impl<'a> Asked<'a> {
    /// Whether an open is that of the client and the owner.
    fn is_own(&self, row: &OpenRow) -> bool
        ensures { (number : ℕ) →
            result ≡ is_own (Some (client_id self.now.client, self.now.owner.now))
            (node_id row.now.node) (row_of (record
            { level = row.now.client.level.0; number = number }) row.now) }
    {
        row.client == self.client && row.owner.as_slice() == self.owner
    }

    /// Whether an open is of the file and of the subject's level.
    fn is_beside(&self, node: Key, row: &OpenRow) -> bool
        ensures { result ≡ (same_id (id_of node) (node_id row.now.node) && row.now.client.level.0
            == self.now.subject.0) }
    {
        row.node.key() == node && row.client.level == self.subject
    }

    /// Whether an open denies what is asked, or is for what is to be denied.
    fn clashes(&self, row: &OpenRow) -> bool
        ensures { (i : Id) → result ≡ clashes self.now.access self.now.deny (row_of i row.now) }
    {
        has_any(row.deny, self.access) || has_any(row.access, self.deny)
    }

    /// Whether another's open of the file and of the subject's level stands in the way but for its client's lease.
    fn is_in_way(&self, node: Key, row: &OpenRow) -> bool
        ensures { (number : ℕ) →
            result
            ≡ ((same_id (id_of node) (node_id row.now.node) && row.now.client.level.0
            == self.now.subject.0)
            && (not (is_own (Some (client_id self.now.client, self.now.owner.now))
            (node_id row.now.node) (row_of (record
            { level = row.now.client.level.0; number = number }) row.now))
            && clashes self.now.access self.now.deny
            (row_of (record { level = row.now.client.level.0; number = number }) row.now))) }
    {
        if !self.is_beside(node, row) {
            return false;
        }
        if self.is_own(row) {
            return false;
        }
        self.clashes(row)
    }

    /// Whether an open is of the file and gives way.
    fn is_given_way<F: Fn(ClientKey) -> bool>(&self, node: Key, row: &OpenRow, over: &F) -> bool
        requires { F.IsAlwaysCallable over.now }
        ensures { (told : Id → Bool) → Tells (F.post over.now) told → (number : ℕ) →
            result ≡ yields_to self.now (id_of node) told
            (row_of (record { level = row.now.client.level.0; number = number }) row.now) }
    {
        self.is_in_way(node, row) && is_over(row.client, over)
    }

    /// Whether an open of an identifier is there, of the file, and gives way.
    fn is_given_way_at<F: Fn(ClientKey) -> bool>(
        &self,
        rows: &BTreeMap<Key, OpenRow>,
        node: Key,
        id: Key,
        over: &F,
    ) -> bool
        requires own { AreOwn rows.now.entries }
        requires told { F.IsAlwaysCallable over.now }
        ensures exact { (told : Id → Bool) → Tells (F.post over.now) told →
            result ≡ passes (yields_to self.now (id_of node) told)
            (open_at (opens_in rows.now) (id_of id)) }
        ensures there { result ≡ true → passes (λ o. true) (open_at (opens_in rows.now) (id_of id))
            ≡ true }
    {
        match row_at(rows, id) {
            Some(row) => self.is_given_way(node, row, over),
            None => false,
        }
    }

    /// The first open of a file that gives way.
    pub fn first_given_way<F: Fn(ClientKey) -> bool>(
        &self,
        nodes: &Groups,
        rows: &BTreeMap<Key, OpenRow>,
        node: Key,
        over: &F,
    ) -> Option<Key>
        requires found { AreFound rows.now nodes.now }
        requires told { F.IsAlwaysCallable over.now }
        ensures there { IfSome result (λ id. passes (λ o. true)
            (open_at (opens_in rows.now) (id_of id)) ≡ true) }
        ensures some { (told : Id → Bool) → Tells (F.post over.now) told →
            IfSome result (λ id. passes (yields_to self.now (id_of node) told)
            (open_at (opens_in rows.now) (id_of id)) ≡ true) }
        ensures none { (told : Id → Bool) → Tells (F.post over.now) told →
            IfNone result (list_any (yields_to self.now (id_of node) told) (opens_in rows.now)
            ≡ false) }
    {
        let level = self.subject.0;
        for (place, _) in nodes.places.range(first_place(node, level)..) {
            if place.group != node {
                return None;
            }
            if place.id.level != level {
                return None;
            }
            if self.is_given_way_at(rows, node, place.id, over) {
                return Some(place.id);
            }
        }
        None
    }
}

impl Opens {
    /// The first open of a file that gives way.
    fn first_given_way<F: Fn(ClientKey) -> bool>(
        &self,
        asked: &Asked<'_>,
        node: Key,
        over: &F,
    ) -> Option<Key>
        requires { F.IsAlwaysCallable over.now }
        ensures there { IfSome result (λ id. list_any (λ o. same_id (id_of id) o.id) self.now.opens
            ≡ true) }
        // No other open has its identifier.
        ensures only { (told : Id → Bool) → Tells (F.post over.now) told →
            IfSome result (λ id. list_all (λ o. not (same_id (id_of id) o.id)
            || yields_to asked.now (id_of node) told o) self.now.opens ≡ true) }
        ensures none { (told : Id → Bool) → Tells (F.post over.now) told →
            IfNone result (list_any (yields_to asked.now (id_of node) told) self.now.opens
            ≡ false) }
    {
        // Mostly no open of the level clashes, and then none is looked at.
        let level = asked.subject.0;
        if self
            .tallies
            .may_clash(Layer { node, level }, asked.access, asked.deny)
        {
            return asked.first_given_way(&self.finder.nodes, &self.rows, node, over);
        }
        None
    }

    /// Ends the opens of a node that give way to one that a client and an owner were given (RFC 8881 section 8.4.3): those of
    /// the subject's own level, of others, which deny a bit of `access` or are for a bit of `deny`, and of clients of which
    /// `over` tells that their leases are over. Takes no memory.
    pub fn revoke<F: Fn(ClientKey) -> bool>(
        &mut self,
        subject: Level,
        own: (ClientKey, &[u8]),
        node: NodeKey,
        access: u32,
        deny: u32,
        over: &F,
    )
        requires { F.IsAlwaysCallable over.now }
        ensures { (told : Id → Bool) → Tells (F.post over.now) told →
            self.new
            ≡ record self.old { opens = filter (λ o. not (same_id (node_id node) o.node && gives_way subject.0 (owner_of own.entry) (node_id node) access deny told o)) self.old.opens } }
    {
        let asked = Asked {
            subject,
            client: own.0,
            owner: own.1,
            access,
            deny,
        };
        let file = node.key();
        while let Some(id) = self.first_given_way(&asked, file, over) {
            self.take_out(id);
        }
    }
}
