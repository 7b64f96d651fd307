//! Which locks count at a moment, and which go: tests of them by the opens and the clients that are kept.
//!
//! A lock lasts as long as its open (RFC 8881 section 18.2.3). One of a client whose lease is over stands in nobody's way, and
//! goes where a lock of its level is taken that it would stop (section 8.4.3).
ghost use Rattle.std.specs.Prelude.{◌≡◌};
ghost use Rattle.lnfs_open.specs.Listed.{node_id};
ghost use Rattle.lnfs_locking.specs.Asking.{asker_of};
ghost use Rattle.lnfs_locking.specs.Keys.{id_of};
ghost use Rattle.lnfs_locking.specs.Rows.{lock_of};
ghost use Rattle.lnfs_byte_locks.specs.Standing.{is_found, is_leased_by, is_in_way};

use lnfs_engine::is_lease_over;
use lnfs_locking::{Key, LockRow, LockTest, Rival, Wanted};
use lnfs_open::{NodeKey, OpenRef, Opens};
use lnfs_session::Clients;
use lnfs_types::Moment;

/// Whether a lock's open is still there.
fn is_found(opens: &Opens, id: Key, row: &LockRow) -> bool
    requires level { row.now.client.level.0 ≡ id.level }
    ensures { result ≡ is_found opens.now.opens (lock_of (id_of id) row.now) }
{
    let any_state = OpenRef {
        level: row.client.level,
        number: row.opening,
        seq: 0,
    };
    opens.find(row.client, row.node, any_state).is_ok()
}

/// Whether the lease of a lock's client isn't over.
fn is_leased(clients: &Clients, moment: Moment, id: Key, row: &LockRow) -> bool
    requires level { row.now.client.level.0 ≡ id.level }
    ensures { result ≡ is_leased_by clients.now.clients moment (lock_of (id_of id) row.now) }
{
    !is_lease_over(clients, row.client, moment)
}

/// The locks whose opens are there: those that count for the limits of a level.
#[derive(Clone, Copy)]
pub struct Live<'a> {
    pub opens: &'a Opens,
}

impl<'a> LockTest for Live<'a> {
    ghost use Rattle.lnfs_byte_locks.specs.Standing.{is_found};

    ghost passes = { λ s l. is_found s.opens.now.opens l };

    fn passes(&self, id: Key, row: &LockRow) -> bool {
        is_found(self.opens, id, row)
    }
}

/// The locks whose opens have ended.
#[derive(Clone, Copy)]
pub struct Dead<'a> {
    pub opens: &'a Opens,
}

impl<'a> LockTest for Dead<'a> {
    ghost use Rattle.std.specs.Prelude.{not};
    ghost use Rattle.lnfs_byte_locks.specs.Standing.{is_found};

    ghost passes = { λ s l. not (is_found s.opens.now.opens l) };

    fn passes(&self, id: Key, row: &LockRow) -> bool {
        !is_found(self.opens, id, row)
    }
}

/// The locks that stand in the way of others at a moment: those whose opens are there, and whose clients' leases aren't over.
#[derive(Clone, Copy)]
pub struct Counting<'a> {
    pub opens: &'a Opens,
    pub clients: &'a Clients,
    pub moment: Moment,
}

impl<'a> LockTest for Counting<'a> {
    ghost use Rattle.lnfs_byte_locks.specs.Standing.{counts_by};

    ghost passes = { λ s l. counts_by s.opens.now.opens s.clients.now.clients s.moment l };

    fn passes(&self, id: Key, row: &LockRow) -> bool {
        is_found(self.opens, id, row) && is_leased(self.clients, self.moment, id, row)
    }
}

/// The locks that go where a range of a node is taken: those whose opens have ended, and those of others that would stand in the
/// way if their clients' leases weren't over.
#[derive(Clone, Copy)]
pub struct Going<'a> {
    pub counting: Counting<'a>,
    pub rival: Rival<'a>,
    pub node: NodeKey,
    pub wanted: Wanted,
}

impl<'a> Going<'a> {
    /// Whether a lock is of another, and in the way of the range if it counts.
    fn is_in_way(&self, id: Key, row: &LockRow) -> bool
        requires level { row.now.client.level.0 ≡ id.level }
        ensures { result ≡ is_in_way (asker_of self.now.rival) (node_id self.now.node)
            self.now.wanted.first self.now.wanted.last self.now.wanted.write
            (lock_of (id_of id) row.now) }
    {
        row.node == self.node
            && !self.rival.is_own(id, row)
            && row
                .ranges
                .first_conflict(self.wanted.first, self.wanted.last, self.wanted.write)
                .is_some()
    }
}

impl<'a> LockTest for Going<'a> {
    ghost use Rattle.lnfs_open.specs.Listed.{node_id};
    ghost use Rattle.lnfs_locking.specs.Asking.{asker_of};
    ghost use Rattle.lnfs_byte_locks.specs.Standing.{goes_by};

    ghost passes = { λ s l. goes_by s.counting.opens.now.opens s.counting.clients.now.clients
        s.counting.moment (asker_of s.rival) (node_id s.node)
        s.wanted.first s.wanted.last s.wanted.write l };

    fn passes(&self, id: Key, row: &LockRow) -> bool {
        let counting = &self.counting;
        !is_found(counting.opens, id, row)
            || !is_leased(counting.clients, counting.moment, id, row) && self.is_in_way(id, row)
    }
}
