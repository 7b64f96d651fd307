//! The keeping of a COMPOUND's result for when it comes again (RFC 8881 sections 2.10.6 and 18.36.4).
ghost use Rattle.std.specs.Prelude.{◌≡◌, IfOk};
ghost use Rattle.lnfs_world.specs.World.{World};
ghost use Rattle.lnfs_world.specs.Outcome.{Place, done_to};
ghost use Rattle.lnfs_operations.specs.SlotRule.{keep_in};
ghost use Rattle.lnfs_session.specs.Standing.{standing};
ghost use Rattle.lnfs_engine.specs.Places.{keeper_of, Stands};

use crate::place::Keeper;
use lnfs_session::Clients;
use std::alloc::{AllocError, Global};

/// Keeps the result of a COMPOUND with the bytes of its arguments, where it is kept.
pub fn keep(
    alloc: Global,
    clients: &mut Clients,
    keeper: &Keeper,
    bytes: &[u8],
    reply: &[u8],
) -> Result<(), AllocError>
    ensures { IfOk result (λ _. (p : Place) (rest : World) →
        Stands p clients.old.sessions keeper.now →
        standing rest clients.new ≡ done_to (standing rest clients.old)
        (keep_in (keeper_of keeper.now) (record { arguments = bytes.now; reply = reply.now }) p
        (standing rest clients.old))) }
{
    match keeper {
        Keeper::Nowhere => Ok(()),
        Keeper::Client(client) => {
            let bytes = Vec::from_slice(alloc, bytes)?;
            let reply = Vec::from_slice(alloc, reply)?;
            clients.keep_created(*client, bytes, reply);
            Ok(())
        }
        Keeper::Session(session) => {
            clients.resettle(alloc, session.at, session.sequence, bytes, reply)?;
            Ok(())
        }
    }
}
