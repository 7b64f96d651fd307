//! The keeping of answers for when a request comes again (RFC 8881 sections 2.10.6 and 18.36.4).
ghost use Rattle.std.specs.Prelude.{◌≡◌, Some, OnOk, map};
ghost use Rattle.lnfs_world.specs.World.{World, client_at, session_at};
ghost use Rattle.lnfs_world.specs.Outcome.{Place, done_to};
ghost use Rattle.lnfs_operations.specs.Keeping.{next_sequence, with_slot, keep_created, keep_result};
ghost use Rattle.lnfs_operations.specs.ReclaimComplete.{reclaim_complete};
ghost use Rattle.lnfs_counts.specs.Counters.{Counters};
ghost use Rattle.lnfs_session.specs.Answers.{Answers, UnlessMemory, IfRefused, TakesNone, nothing_of};
ghost use Rattle.lnfs_session.specs.Listed.{id_of, session_id_of, client_of, session_of, slot_of, kept_of};
ghost use Rattle.lnfs_session.specs.Standing.{lists_of, standing, answered, reclaimed, clients_set, settled, sessions_set};
ghost use Rattle.lnfs_session.specs.Sessions.{AreCounted};

use crate::clients::{Clients, SessionError, refused};
use crate::rows::{ClientRef, Kept, Session, SessionRef, Slot};
use crate::sequence::SlotRef;
use lnfs_arguments::statuses::{NFS4ERR_COMPLETE_ALREADY, NFS4ERR_OP_NOT_IN_SESSION};
use std::alloc::{AllocError, Global};
use std::collections::BTreeMap;

/// A slot holds another request, if there is one of that number.
fn fill_slot(slots: &mut Vec<Slot>, number: u32, filled: Slot)
    ensures { map slot_of slots.new.items ≡ with_slot number (slot_of filled)
        (map slot_of slots.old.items) }
{
    if let Some(slot) = slots.get_mut(number as usize) {
        *slot = filled;
    }
}

/// A slot of a session holds another request, if there is such a session and a slot.
pub fn keep_result(sessions: &mut BTreeMap<SessionRef, Session>, at: SlotRef, filled: Slot)
    ensures set { map session_of sessions.new.entries ≡ sessions_set (settled at.slot (slot_of filled))
        (session_at (map session_of sessions.old.entries) (session_id_of at.session))
        (map session_of sessions.old.entries) }
    ensures counted { (counters : Counters) → AreCounted sessions.old.entries counters →
        AreCounted sessions.new.entries counters }
{
    let Some(session) = sessions.get_mut(&at.session) else {
        return;
    };
    fill_slot(&mut session.slots, at.slot, filled);
}

/// A buffer holds other bytes, in the memory that it has where that suffices.
fn rewrite(buffer: &mut Vec<u8>, bytes: &[u8]) -> Result<(), AllocError>
    ensures { OnOk result (buffer.new.items ≡ bytes.now) }
{
    buffer.clear();
    buffer.extend_from_slice(bytes)
}

/// A slot holds another request, in the buffers that it has.
fn refill(
    alloc: Global,
    slot: &mut Slot,
    sequence: u32,
    bytes: &[u8],
    reply: &[u8],
) -> Result<(), AllocError>
    ensures { OnOk result (slot_of slot.new ≡ record
        { sequence = sequence; kept = Some (record { arguments = bytes.now; reply = reply.now }) }) }
{
    if let Some(kept) = &mut slot.kept {
        rewrite(&mut kept.arguments, bytes)?;
        rewrite(&mut kept.reply, reply)?;
    } else {
        slot.kept = Some(Kept {
            arguments: Vec::from_slice(alloc, bytes)?,
            reply: Vec::from_slice(alloc, reply)?,
        });
    }
    slot.sequence = sequence;
    Ok(())
}

/// A slot holds another request in the buffers that it has, if there is one of that number.
fn refill_slot(
    alloc: Global,
    slots: &mut Vec<Slot>,
    number: u32,
    sequence: u32,
    bytes: &[u8],
    reply: &[u8],
) -> Result<(), AllocError>
    ensures { OnOk result (map slot_of slots.new.items
        ≡ with_slot number (record
        { sequence = sequence; kept = Some (record { arguments = bytes.now; reply = reply.now }) })
        (map slot_of slots.old.items)) }
{
    let Some(slot) = slots.get_mut(number as usize) else {
        return Ok(());
    };
    refill(alloc, slot, sequence, bytes, reply)?;
    Ok(())
}

/// A slot of a session holds another request in the buffers that it has, if there is such a session and a slot.
pub fn refill_session(
    alloc: Global,
    sessions: &mut BTreeMap<SessionRef, Session>,
    at: SlotRef,
    sequence: u32,
    bytes: &[u8],
    reply: &[u8],
) -> Result<(), AllocError>
    ensures set { OnOk result (map session_of sessions.new.entries
        ≡ sessions_set (settled at.slot
        (record { sequence = sequence; kept = Some (record { arguments = bytes.now; reply = reply.now }) })) (session_at (map session_of sessions.old.entries) (session_id_of at.session)) (map session_of sessions.old.entries)) }
    // So too where memory was wanting.
    ensures counted { (counters : Counters) → AreCounted sessions.old.entries counters →
        AreCounted sessions.new.entries counters }
{
    let Some(session) = sessions.get_mut(&at.session) else {
        return Ok(());
    };
    refill_slot(alloc, &mut session.slots, at.slot, sequence, bytes, reply)?;
    Ok(())
}

impl Clients {
    /// Keeps the answer of a CREATE_SESSION that brought the next sequence of its client, be it a refusal,
    /// and moves the sequence.
    pub fn keep_created(&mut self, client: ClientRef, bytes: Vec<u8>, reply: Vec<u8>)
        ensures { (p : Place) (rest : World) →
            self.new
            ≡ lists_of (done_to (standing rest self.old)
            (keep_created client.number (record
            { arguments = bytes.items; reply = reply.items })
            (record p { subject = client.level }) (standing rest self.old))) }
    {
        let kept = Kept {
            arguments: bytes,
            reply,
        };
        self.records.keep(client, kept);
    }

    /// Serves a RECLAIM_COMPLETE of a client (RFC 8881 section 18.51).
    pub fn reclaim_complete(&mut self, client: ClientRef, one_fs: bool) -> Result<(), SessionError>
        ensures answer { (p : Place) (rest : World) →
            Answers nothing_of result (reclaim_complete one_fs
            (record p { subject = client.level; client = Some client.number })
            (standing rest self.old)).answer }
        ensures lists { UnlessMemory result ((p : Place) (rest : World) →
            self.new
            ≡ lists_of (done_to (standing rest self.old)
            (reclaim_complete one_fs (record p
            { subject = client.level; client = Some client.number })
            (standing rest self.old)))) }
        // A refusal changes nothing.
        ensures refused { IfRefused result (self.new ≡ self.old) }
        ensures memory { TakesNone result }
    {
        let Some(row) = self.records.at(client) else {
            return Err(refused(NFS4ERR_OP_NOT_IN_SESSION));
        };
        if one_fs {
            return Ok(());
        }
        if row.reclaimed {
            return Err(refused(NFS4ERR_COMPLETE_ALREADY));
        }
        self.records.mark_reclaimed(client);
        Ok(())
    }

    /// Keeps the result of a COMPOUND that was new on its slot, under the sequence that it brought.
    pub fn settle(&mut self, at: SlotRef, sequence: u32, bytes: Vec<u8>, reply: Vec<u8>)
        ensures { (p : Place) (rest : World) →
            self.new
            ≡ lists_of (done_to (standing rest self.old)
            (keep_result at.slot sequence (record
            { arguments = bytes.items; reply = reply.items })
            (record p { subject = at.session.level; session = Some at.session.number })
            (standing rest self.old))) }
    {
        let kept = Kept {
            arguments: bytes,
            reply,
        };
        let filled = Slot {
            sequence,
            kept: Some(kept),
        };
        self.sessions.fill(at, filled);
    }

    /// Keeps the result of a COMPOUND that was new on its slot, as `settle` does, in the buffers of what the slot kept.
    ///
    /// # Errors
    ///
    /// `AllocError` where there is no memory. What the slot kept may be lost then.
    pub fn resettle(
        &mut self,
        alloc: Global,
        at: SlotRef,
        sequence: u32,
        bytes: &[u8],
        reply: &[u8],
    ) -> Result<(), AllocError>
        ensures { OnOk result ((p : Place) (rest : World) →
            self.new
            ≡ lists_of (done_to (standing rest self.old)
            (keep_result at.slot sequence (record { arguments = bytes.now; reply = reply.now })
            (record p { subject = at.session.level; session = Some at.session.number })
            (standing rest self.old)))) }
    {
        self.sessions.refill(alloc, at, sequence, bytes, reply)?;
        Ok(())
    }
}
