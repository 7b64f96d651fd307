//! Leases of clients (RFC 8881 section 8.3).
ghost use Rattle.std.specs.Prelude.{◌≡◌};
ghost use Rattle.lnfs_types.specs.declared.event.Moment.{Moment};
ghost use Rattle.lnfs_world.specs.World.{World, client_at};
ghost use Rattle.lnfs_world.specs.Change.{apply_all};
ghost use Rattle.lnfs_world.specs.Leases.{is_over};
ghost use Rattle.lnfs_operations.specs.Sequence.{renewing};
ghost use Rattle.lnfs_session.specs.Listed.{id_of};
ghost use Rattle.lnfs_session.specs.Standing.{lists_of, standing, seen_of};

use crate::clients::Clients;
use crate::rows::ClientRef;
use lnfs_types::LEASE;

impl Clients {
    /// The lease of a client begins again at so many seconds, as a SEQUENCE of it that is new does. Takes no
    /// memory.
    pub fn renew(&mut self, client: ClientRef, secs: u64)
        ensures { (moment : Moment) (rest : World) → moment.secs ≡ secs →
            self.new
            ≡ lists_of (apply_all (renewing moment (client_at self.old.clients (id_of client)))
            (standing rest self.old)) }
    {
        self.records.renew(client, secs);
    }

    /// The seconds at which the lease of a client was last renewed, if there is such a client and it was.
    pub fn renewed(&self, client: ClientRef) -> Option<u64>
        ensures { result ≡ seen_of self.now.clients (id_of client) }
    {
        self.records.at(client)?.seen
    }

    /// Whether the lease of a client is over at so many seconds. That of a client that isn't there is not.
    pub fn over(&self, client: ClientRef, secs: u64) -> bool
        ensures { result ≡ is_over secs (seen_of self.now.clients (id_of client)) }
    {
        match self.renewed(client) {
            // Clocks that were set back may give a moment before it.
            Some(seen) => secs.saturating_sub(seen) > u64::from(LEASE),
            None => false,
        }
    }
}
