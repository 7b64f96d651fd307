//! DESTROY_SESSION and DESTROY_CLIENTID (RFC 8881 sections 18.37 and 18.50).
ghost use Rattle.std.specs.Prelude.{◌≡◌, map};
ghost use Rattle.std.specs.List.{list_any};
ghost use Rattle.lnfs_types.specs.declared.event.Moment.{Moment};
ghost use Rattle.lnfs_world.specs.World.{World};
ghost use Rattle.lnfs_world.specs.Change.{is_session_of, is_open_of};
ghost use Rattle.lnfs_world.specs.Outcome.{done_to, begins_at};
ghost use Rattle.lnfs_operations.specs.Identifiers.{client_named};
ghost use Rattle.lnfs_operations.specs.DestroySession.{destroy_session};
ghost use Rattle.lnfs_operations.specs.DestroyClientId.{destroy_clientid};
ghost use Rattle.lnfs_session.specs.Answers.{Answers, UnlessMemory, IfRefused, TakesNone, nothing_of};
ghost use Rattle.lnfs_session.specs.Listed.{id_of, session_of};
ghost use Rattle.lnfs_session.specs.Standing.{lists_of, standing};

use crate::clients::{Clients, SessionError, foreign, refused};
use crate::named::{client_named, session_named};
use lnfs_arguments::statuses::{NFS4ERR_BADSESSION, NFS4ERR_CLIENTID_BUSY, NFS4ERR_STALE_CLIENTID};

impl Clients {
    /// Serves a DESTROY_SESSION of a level.
    pub fn destroy_session(&mut self, level: u32, id: [u8; 16]) -> Result<(), SessionError>
        ensures answer { (moment : Moment) (rest : World) →
            Answers nothing_of result (destroy_session id (begins_at level moment)
            (standing rest self.old)).answer }
        ensures lists { UnlessMemory result ((moment : Moment) (rest : World) →
            self.new
            ≡ lists_of (done_to (standing rest self.old)
            (destroy_session id (begins_at level moment) (standing rest self.old)))) }
        // A refusal changes nothing.
        ensures refused { IfRefused result (self.new ≡ self.old) }
        ensures memory { TakesNone result }
    {
        let name = session_named(&id);
        if name.level != level {
            return Err(foreign(NFS4ERR_BADSESSION));
        }
        let None = self.sessions.under(&id) else {
            self.sessions.remove(name);
            return Ok(());
        };
        Err(refused(NFS4ERR_BADSESSION))
    }

    /// Serves a DESTROY_CLIENTID of a level, for a client of which it is told whether it has opens.
    pub fn destroy_clientid(&mut self, level: u32, id: u64, opens: bool) -> Result<(), SessionError>
        ensures answer { (moment : Moment) (rest : World) →
            opens ≡ list_any (is_open_of (client_named id)) rest.opens →
            Answers nothing_of result (destroy_clientid id (begins_at level moment)
            (standing rest self.old)).answer }
        ensures lists { UnlessMemory result ((moment : Moment) (rest : World) →
            opens ≡ list_any (is_open_of (client_named id)) rest.opens →
            self.new
            ≡ lists_of (done_to (standing rest self.old)
            (destroy_clientid id (begins_at level moment) (standing rest self.old)))) }
        // A refusal changes nothing.
        ensures refused { IfRefused result (self.new ≡ self.old) }
        ensures memory { TakesNone result }
    {
        let client = client_named(id);
        if client.level != level {
            return Err(foreign(NFS4ERR_STALE_CLIENTID));
        }
        let Some(_) = self.records.at(client) else {
            return Err(refused(NFS4ERR_STALE_CLIENTID));
        };
        if self.sessions.any_of(client) || opens {
            return Err(refused(NFS4ERR_CLIENTID_BUSY));
        }
        self.records.remove(client);
        Ok(())
    }
}
