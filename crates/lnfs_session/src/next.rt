//! Which CREATE_SESSION brings the next sequence of its client (RFC 8881 section 18.36.4).
ghost use Rattle.std.specs.Prelude.{◌≡◌, cond, Some, None};
ghost use Rattle.std.specs.Option.{option_map};
ghost use Rattle.lnfs_types.specs.declared.event.Moment.{Moment};
ghost use Rattle.lnfs_world.specs.World.{World};
ghost use Rattle.lnfs_world.specs.Outcome.{begins_at};
ghost use Rattle.lnfs_operations.specs.CreateSession.{is_next_created};
ghost use Rattle.lnfs_operations.specs.Identifiers.{client_named};
ghost use Rattle.lnfs_session.specs.Listed.{id_of};
ghost use Rattle.lnfs_session.specs.Standing.{standing};

use crate::clients::Clients;
use crate::named::client_named;
use crate::rows::ClientRef;
use lnfs_arguments::CreateSession;

impl Clients {
    /// The client in whose record the answer of a CREATE_SESSION of a level is kept, be it a refusal: the one
    /// that it names, where it brings the next sequence of that record.
    pub fn next_created(&self, level: u32, args: &CreateSession) -> Option<ClientRef>
        ensures { (moment : Moment) (rest : World) →
            option_map id_of result
            ≡ cond (is_next_created args.now (begins_at level moment) (standing rest self.now))
            (Some (client_named args.now.client)) None }
    {
        let client = client_named(args.client);
        if client.level != level {
            return None;
        }
        let row = self.records.at(client)?;
        if args.sequence != row.sequence {
            return None;
        }
        Some(client)
    }
}
