//! Leases of clients, as a closure tells of them (RFC 8881 section 8.3).
ghost use Rattle.std.specs.Prelude.{◌≡◌, Bool};
ghost use Rattle.lnfs_world.specs.World.{Id};
ghost use Rattle.lnfs_open.specs.Listed.{client_id};
ghost use Rattle.lnfs_open.specs.Stopping.{Tells};

use crate::keys::ClientKey;

/// Whether the lease of a client is over.
pub fn is_over<F: Fn(ClientKey) -> bool>(client: ClientKey, over: &F) -> bool
    requires { F.IsAlwaysCallable over.now }
    ensures { (told : Id → Bool) → Tells (F.post over.now) told → result ≡ told (client_id client) }
{
    over(client)
}
