//! The states of locks (RFC 8881 section 8.2).
ghost use Rattle.std.specs.Prelude.{◌≡◌, IfOk};
ghost use Rattle.lnfs_arguments.specs.SharedTexts.{state_id_text};
ghost use Rattle.lnfs_world.specs.Opens.{sequence_after};
ghost use Rattle.lnfs_operations.specs.Handles.{handle_of};
ghost use Rattle.lnfs_locks.specs.Locks.{Lock};
ghost use Rattle.lnfs_locks.specs.StateIds.{told_id, state_of};
ghost use Rattle.lnfs_locking.specs.Keys.{id_of};

use crate::naming::NUMBERS_OF_OPENS;
use lnfs_arguments::{StateId, put_state_id};
use lnfs_locking::Key;
use lnfs_types::Octets;
use lnfs_world::numbers::LAST_SEQUENCE;
use lnfs_xdr::XdrWriter;
use std::alloc::{AllocError, Global};

/// The bytes of a state id: the sequence in four, the level in four, and the number in eight.
const STATE_ID_SIZE: usize = 16;

/// The sequence of the next state. It doesn't come to 0 again, which stands for any.
pub fn sequence_after(sequence: u32) -> u32
    ensures { result ≡ sequence_after sequence }
{
    if sequence == LAST_SEQUENCE {
        1
    } else {
        sequence + 1
    }
}

/// What names a lock in its state id.
fn told_of(id: Key) -> [u8; 12]
    ensures { result ≡ handle_of (told_id (id_of id)) }
{
    let mut told = [0; 12];
    told[..4].copy_from_slice(&id.level.to_be_bytes());
    told[4..].copy_from_slice(&(NUMBERS_OF_OPENS + u64::from(id.number)).to_be_bytes());
    told
}

/// The state id of a lock in a state.
fn state_of(id: Key, seq: u32) -> StateId
    ensures { (l : Lock) → l.id ≡ id_of id → l.sequence ≡ seq → result ≡ state_of l }
{
    StateId {
        seqid: seq,
        other: told_of(id),
    }
}

/// What is answered of a lock in a new state: its state id.
pub fn state_text(alloc: Global, id: Key, seq: u32) -> Result<Octets, AllocError>
    ensures { (l : Lock) → l.id ≡ id_of id → l.sequence ≡ seq → IfOk result (λ bytes. bytes ≡ state_id_text (state_of l)) }
{
    let mut out = XdrWriter::with_capacity(alloc, STATE_ID_SIZE)?;
    put_state_id(&mut out, &state_of(id, seq))?;
    Ok(Octets::new(out.into_bytes()))
}
