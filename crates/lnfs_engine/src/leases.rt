//! Leases of the clients of opens (RFC 8881 section 8.3).
ghost use Rattle.std.specs.Prelude.{◌≡◌};
ghost use Rattle.lnfs_world.specs.Leases.{over_at};
ghost use Rattle.lnfs_open.specs.Listed.{client_id};

use lnfs_open::ClientKey;
use lnfs_session::{ClientRef, Clients};
use lnfs_types::Moment;

/// Whether the lease of the client of an open is over at a moment. That of a client that isn't there is not.
pub fn is_lease_over(clients: &Clients, client: ClientKey, moment: Moment) -> bool
    ensures { result ≡ over_at clients.now.clients moment (client_id client) }
{
    let number = client.number;
    let level = client.level.0;
    clients.over(ClientRef { level, number }, moment.secs)
}
