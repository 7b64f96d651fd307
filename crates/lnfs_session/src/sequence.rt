//! SEQUENCE, and the slots of sessions (RFC 8881 sections 2.10.6 and 18.46).
ghost use Rattle.std.specs.Prelude.{◌≡◌};
ghost use Rattle.lnfs_types.specs.declared.event.Moment.{Moment};
ghost use Rattle.lnfs_world.specs.World.{World};
ghost use Rattle.lnfs_world.specs.Outcome.{Place, begins_at};
ghost use Rattle.lnfs_operations.specs.Sequence.{Sent, sequence, under_session, on_slot};
ghost use Rattle.lnfs_session.specs.Answers.{Answers, TakesNone};
ghost use Rattle.lnfs_session.specs.Arrived.{arrival_of, arrived, answered_as, left_for};
ghost use Rattle.lnfs_session.specs.Listed.{session_of, slot_of};
ghost use Rattle.lnfs_session.specs.Standing.{standing};

use crate::arrival::{Arrival, came};
use crate::client_rows::next_sequence;
use crate::clients::{Clients, SessionError, foreign, refused};
use crate::named::session_named;
use crate::rows::{ClientRef, Session, SessionRef, Slot};
use lnfs_arguments::Sequence;
use lnfs_arguments::statuses::{
    NFS4ERR_BADSESSION, NFS4ERR_BADSLOT, NFS4ERR_REQ_TOO_BIG, NFS4ERR_SEQ_FALSE_RETRY,
    NFS4ERR_SEQ_MISORDERED, NFS4ERR_TOO_MANY_OPS,
};

/// A slot of a session.
#[derive(Clone, Copy, Debug, PartialEq, Eq)]
pub struct SlotRef {
    pub session: SessionRef,
    pub slot: u32,
}

/// How a SEQUENCE that isn't refused came.
#[derive(Clone, Copy, Debug)]
pub enum Seq<'a> {
    /// A request that is new on its slot: the client of the session, the most bytes of a response, and
    /// the highest slot.
    New {
        at: SlotRef,
        client: ClientRef,
        room: u32,
        highest: u32,
    },
    /// The one that came last, again: its result.
    Replay(&'a [u8]),
}

/// How a request came on a slot of a session.
fn on_slot<'a>(
    name: SessionRef,
    session: &'a Session,
    slot: &'a Slot,
    args: &Sequence,
    bytes: &[u8],
) -> Result<Seq<'a>, SessionError>
    ensures answer { (p : Place) (w : World) (sent : Sent) → sent.arguments ≡ bytes.now →
        Answers arrival_of result (answered_as (arrived args.now)
        (on_slot args.now sent p w (session_of (name, session.now)) (slot_of slot.now)).answer) }
    ensures changes { (p : Place) (w : World) (sent : Sent) → sent.arguments ≡ bytes.now →
        p.subject ≡ name.level →
        (on_slot args.now sent p w (session_of (name, session.now)) (slot_of slot.now)).changes
        ≡ left_for p.moment w.clients result }
    ensures memory { TakesNone result }
{
    let next = next_sequence(slot.sequence);
    match came(slot.sequence, next, &slot.kept, args.sequence, bytes) {
        Arrival::Again(reply) => Ok(Seq::Replay(reply)),
        Arrival::FalseRetry => Err(refused(NFS4ERR_SEQ_FALSE_RETRY)),
        Arrival::Misordered => Err(refused(NFS4ERR_SEQ_MISORDERED)),
        Arrival::Next => Ok(Seq::New {
            at: SlotRef {
                session: name,
                slot: args.slot,
            },
            client: ClientRef {
                level: name.level,
                number: session.client,
            },
            room: session.channel.maxresponse,
            highest: session.channel.requests.saturating_sub(1),
        }),
    }
}

impl Clients {
    /// How a SEQUENCE of a level came, by the arguments of its COMPOUND, the length of its record and the
    /// count of its operations. Takes no memory: it answers no want of it. The lease of the client of a new one
    /// isn't renewed yet.
    ///
    /// A session of another level or one that isn't there is NFS4ERR_BADSESSION. A record or a COMPOUND that
    /// is larger than the session grants is NFS4ERR_REQ_TOO_BIG or NFS4ERR_TOO_MANY_OPS, a slot that it
    /// hasn't NFS4ERR_BADSLOT. A sequence that comes out of order is NFS4ERR_SEQ_MISORDERED, and the last one
    /// with other arguments NFS4ERR_SEQ_FALSE_RETRY.
    pub fn sequence(
        &self,
        level: u32,
        args: &Sequence,
        bytes: &[u8],
        size: u32,
        count: u32,
    ) -> Result<Seq<'_>, SessionError>
        ensures answer { (moment : Moment) (rest : World) →
            Answers arrival_of result (answered_as (arrived args.now)
            (sequence args.now (record { arguments = bytes.now; size = size; count = count })
            (begins_at level moment) (standing rest self.now)).answer) }
        // What it changes is left to `renew`.
        ensures changes { (moment : Moment) (rest : World) →
            (sequence args.now (record { arguments = bytes.now; size = size; count = count })
            (begins_at level moment) (standing rest self.now)).changes
            ≡ left_for moment self.now.clients result }
        ensures memory { TakesNone result }
    {
        let name = session_named(&args.session);
        if name.level != level {
            return Err(foreign(NFS4ERR_BADSESSION));
        }
        let Some(session) = self.sessions.under(&args.session) else {
            return Err(refused(NFS4ERR_BADSESSION));
        };
        if size > session.channel.maxrequest {
            return Err(refused(NFS4ERR_REQ_TOO_BIG));
        }
        if count > session.channel.operations {
            return Err(refused(NFS4ERR_TOO_MANY_OPS));
        }
        let Some(slot) = session.slots.get(args.slot as usize) else {
            return Err(refused(NFS4ERR_BADSLOT));
        };
        on_slot(name, session, slot, args, bytes)
    }
}
