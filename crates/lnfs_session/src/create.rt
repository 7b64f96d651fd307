//! CREATE_SESSION (RFC 8881 section 18.36).
ghost use Rattle.std.specs.Prelude.{◌≡◌, Some, IfOk, OnErr, map, option_map, replicate};
ghost use Rattle.lnfs_types.specs.declared.event.Moment.{Moment};
ghost use Rattle.lnfs_world.specs.World as world;
ghost use Rattle.lnfs_world.specs.World.{World, client_at};
ghost use Rattle.lnfs_world.specs.Outcome.{done_to, begins_at};
ghost use Rattle.lnfs_operations.specs.InOrder.{sequence_before};
ghost use Rattle.lnfs_operations.specs.CreateSession.{create_session, made, is_large_enough, granted_of, fresh_slot};
ghost use Rattle.lnfs_session.specs.Answers.{Answers, UnlessMemory};
ghost use Rattle.lnfs_session.specs.Creates.{kept_reply, created_of, IsPlain, GivesWay, Replaces};
ghost use Rattle.lnfs_session.specs.Listed.{id_of, channel_of, slot_of};
ghost use Rattle.lnfs_session.specs.Standing.{lists_of, standing};

use crate::arrival::{Arrival, came};
use crate::clients::{Clients, SessionError, foreign, refused};
use crate::named::client_named;
use crate::rows::{ClientRef, Session, Slot};
use lnfs_arguments::statuses::{
    NFS4ERR_NOSPC, NFS4ERR_SEQ_FALSE_RETRY, NFS4ERR_SEQ_MISORDERED, NFS4ERR_STALE_CLIENTID,
    NFS4ERR_TOOSMALL,
};
use lnfs_arguments::{Channel, CreateSession};
use lnfs_operations::numbers::{
    LEAST_SIZE, MOST_OPERATIONS, MOST_REQUESTS, MOST_SIZE, SESSIONS_OF_A_LEVEL,
};
use lnfs_world::numbers::{LAST_NUMBER, LAST_SEQUENCE};
use std::alloc::{AllocError, Global};

/// What a CREATE_SESSION brought.
#[derive(Clone, Copy, Debug, PartialEq, Eq)]
pub enum Created {
    /// A session under a new number of the level, what its fore channel grants, and the client whose
    /// record gave way with its sessions, if there was one.
    New {
        session: u32,
        granted: Channel,
        dropped: Option<ClientRef>,
    },
    /// The last one came again: `kept_created` lends the answer that it got.
    Replay,
}

/// The sequence before one.
fn sequence_before(sequence: u32) -> u32
    ensures { result ≡ sequence_before sequence }
{
    if sequence == 0 {
        LAST_SEQUENCE
    } else {
        sequence - 1
    }
}

/// Whether a session can be made for the fore channel that is asked.
fn is_large_enough(fore: &Channel) -> bool
    ensures { result ≡ is_large_enough fore.now }
{
    fore.maxrequest >= LEAST_SIZE
        && fore.maxresponse >= LEAST_SIZE
        && fore.operations != 0
        && fore.requests != 0
}

/// What is granted of a fore channel: what is asked, up to the limits. All of a response may be kept.
fn granted_of(fore: &Channel) -> Channel
    ensures sizes { channel_of result ≡ granted_of fore.now }
    ensures plain { (result.headerpad ≡ 0) × (result.ird ≡ None) }
{
    Channel {
        headerpad: 0,
        maxrequest: fore.maxrequest.min(MOST_SIZE),
        maxresponse: fore.maxresponse.min(MOST_SIZE),
        cached: fore.maxresponse.min(MOST_SIZE),
        operations: fore.operations.min(MOST_OPERATIONS),
        requests: fore.requests.min(MOST_REQUESTS),
        ird: None,
    }
}

/// Slots that no request has used.
fn fresh_slots(alloc: Global, count: u32) -> Result<Vec<Slot>, AllocError>
    ensures { IfOk result (λ slots. map slot_of slots.items ≡ replicate count fresh_slot) }
{
    let mut slots = Vec::with_capacity(alloc, count as usize)?;
    for _slot in 0..count {
        slots.push(Slot {
            sequence: 0,
            kept: None,
        })?;
    }
    Ok(slots)
}

impl Clients {
    /// The answer that is kept of a client's last CREATE_SESSION.
    pub fn kept_created(&self, client: ClientRef) -> Option<&[u8]>
        ensures { option_map (λ r. r.now) result ≡ kept_reply
            (client_at self.now.clients (id_of client)) }
    {
        let kept = self.records.at(client)?.kept.as_ref()?;
        Some(kept.reply.as_slice())
    }

    /// Makes a session of a client that has a record: the owner's other confirmed record gives way with its
    /// sessions, this one is confirmed, and its lease begins again.
    fn make_session(
        &mut self,
        id: ClientRef,
        args: &CreateSession,
        secs: u64,
    ) -> Result<Created, SessionError>
        ensures answer { (moment : Moment) (rest : World) (c : world.Client) →
            client_at self.old.clients (id_of id) ≡ Some c →
            Answers (created_of self.old args.now) result
            (made args.now (begins_at id.level moment) (standing rest self.old) c).answer }
        ensures lists { UnlessMemory result ((moment : Moment) (rest : World) (c : world.Client) →
            moment.secs ≡ secs →
            client_at self.old.clients (id_of id) ≡ Some c →
            self.new
            ≡ lists_of (done_to (standing rest self.old)
            (made args.now (begins_at id.level moment) (standing rest self.old) c))) }
        ensures refused { OnErr result (self.new ≡ self.old) }
        ensures plain { IsPlain result }
        ensures dropped { GivesWay (id_of id) self.old result }
    {
        if !is_large_enough(&args.fore) {
            return Err(refused(NFS4ERR_TOOSMALL));
        }
        if self.sessions.count(id.level) >= SESSIONS_OF_A_LEVEL {
            return Err(refused(NFS4ERR_NOSPC));
        }
        if self.sessions.last(id.level) >= LAST_NUMBER {
            return Err(refused(NFS4ERR_NOSPC));
        }
        let granted = granted_of(&args.fore);
        let session = Session {
            client: id.number,
            channel: granted,
            slots: fresh_slots(self.alloc, granted.requests)?,
        };
        // What takes memory comes before all that changes.
        let number = self.sessions.add(id.level, session)?;
        let dropped = self.records.confirm(id);
        self.records.renew(id, secs);
        self.sessions.remove_any(dropped);
        Ok(Created::New {
            session: number,
            granted,
            dropped,
        })
    }

    /// Serves a CREATE_SESSION of a level, by the arguments of its COMPOUND as they came.
    ///
    /// A client of another level or one that isn't there is NFS4ERR_STALE_CLIENTID. A sequence that comes out
    /// of order is NFS4ERR_SEQ_MISORDERED, and the last one with other arguments NFS4ERR_SEQ_FALSE_RETRY. A
    /// channel that is too small is NFS4ERR_TOOSMALL, a level that has all its sessions or numbers
    /// NFS4ERR_NOSPC.
    pub fn create_session(
        &mut self,
        level: u32,
        args: &CreateSession,
        bytes: &[u8],
        secs: u64,
    ) -> Result<Created, SessionError>
        ensures answer { (moment : Moment) (rest : World) →
            Answers (created_of self.old args.now) result
            (create_session args.now bytes.now (begins_at level moment)
            (standing rest self.old)).answer }
        ensures lists { UnlessMemory result ((moment : Moment) (rest : World) →
            moment.secs ≡ secs →
            self.new
            ≡ lists_of (done_to (standing rest self.old)
            (create_session args.now bytes.now (begins_at level moment)
            (standing rest self.old)))) }
        // Neither a refusal nor want of memory changes anything.
        ensures refused { OnErr result (self.new ≡ self.old) }
        // What is granted has no padding of headers, and nothing for RDMA.
        ensures plain { IsPlain result }
        // The record that gave way is the other confirmed one of the owner.
        ensures dropped { Replaces args.now self.old result }
    {
        let id = client_named(args.client);
        if id.level != level {
            return Err(foreign(NFS4ERR_STALE_CLIENTID));
        }
        let Some(client) = self.records.at(id) else {
            return Err(refused(NFS4ERR_STALE_CLIENTID));
        };
        let last = sequence_before(client.sequence);
        match came(last, client.sequence, &client.kept, args.sequence, bytes) {
            Arrival::Again(_) => Ok(Created::Replay),
            Arrival::FalseRetry => Err(refused(NFS4ERR_SEQ_FALSE_RETRY)),
            Arrival::Misordered => Err(refused(NFS4ERR_SEQ_MISORDERED)),
            Arrival::Next => self.make_session(id, args, secs),
        }
    }
}
