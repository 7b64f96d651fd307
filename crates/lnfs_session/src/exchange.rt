//! EXCHANGE_ID (RFC 8881 section 18.35).
ghost use Rattle.std.specs.Prelude.{◌≡◌, OnErr, IfOk};
ghost use Rattle.lnfs_types.specs.declared.event.Moment.{Moment};
ghost use Rattle.lnfs_world.specs.World.{World};
ghost use Rattle.lnfs_world.specs.Outcome.{done_to, begins_at};
ghost use Rattle.lnfs_operations.specs.ExchangeId.{exchange_id, has_flag};
ghost use Rattle.lnfs_session.specs.Answers.{Answers, UnlessMemory, told_of};
ghost use Rattle.lnfs_session.specs.Standing.{lists_of, standing};

use crate::clients::{Clients, SessionError, refused};
use crate::rows::ClientRef;
use lnfs_arguments::statuses::{NFS4ERR_INVAL, NFS4ERR_NOSPC};
use lnfs_operations::numbers::{
    CLIENTS_OF_A_LEVEL, EXCHGID4_FLAG_CONFIRMED_R, EXCHGID4_FLAG_UPD_CONFIRMED_REC_A,
};
use lnfs_world::numbers::LAST_NUMBER;

/// What EXCHANGE_ID tells of a record of the caller's level.
#[derive(Clone, Copy, Debug, PartialEq, Eq)]
pub struct ClientInfo {
    pub client: ClientRef,
    /// The sequence that its next CREATE_SESSION has to bring.
    pub sequence: u32,
    pub confirmed: bool,
}

fn has_flag(flags: u32, flag: u32) -> bool
    ensures { result ≡ has_flag flags flag }
{
    flags & flag != 0
}

impl Clients {
    /// Serves an EXCHANGE_ID of a level.
    pub fn exchange_id(
        &mut self,
        level: u32,
        verifier: [u8; 8],
        owner: &[u8],
        flags: u32,
    ) -> Result<ClientInfo, SessionError>
        ensures answer { (moment : Moment) (rest : World) →
            Answers told_of result (exchange_id (record
            { verifier = verifier; owner = owner.now; flags = flags }) (begins_at level moment)
            (standing rest self.old)).answer }
        ensures lists { UnlessMemory result ((moment : Moment) (rest : World) →
            self.new
            ≡ lists_of (done_to (standing rest self.old)
            (exchange_id (record { verifier = verifier; owner = owner.now; flags = flags })
            (begins_at level moment) (standing rest self.old)))) }
        // Neither a refusal nor want of memory changes anything.
        ensures refused { OnErr result (self.new ≡ self.old) }
        // It tells of a record of the level.
        ensures level { IfOk result (λ told. told.client.level ≡ level) }
    {
        if has_flag(flags, EXCHGID4_FLAG_CONFIRMED_R)
            || has_flag(flags, EXCHGID4_FLAG_UPD_CONFIRMED_REC_A)
        {
            return Err(refused(NFS4ERR_INVAL));
        }
        let (confirmed, others) = self.records.known(level, owner, verifier);
        if let Some((client, row)) = confirmed {
            return Ok(ClientInfo {
                client,
                sequence: row.sequence,
                confirmed: row.confirmed,
            });
        }
        if others >= CLIENTS_OF_A_LEVEL {
            return Err(refused(NFS4ERR_NOSPC));
        }
        if self.records.last(level) >= LAST_NUMBER {
            return Err(refused(NFS4ERR_NOSPC));
        }
        let (client, pending) = self.records.replace_pending(level, owner, verifier)?;
        self.sessions.remove_any(pending);
        Ok(ClientInfo {
            client,
            sequence: 1,
            confirmed: false,
        })
    }
}
