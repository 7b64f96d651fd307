//! The readers of the arguments, and of the structures in them.
ghost use Rattle.lnfs_xdr.specs.Reading.{read};
ghost use Rattle.lnfs_xdr.specs.Cursor.{Parses};
ghost use Rattle.lnfs_arguments.specs.Further.{block_of};
ghost use Rattle.lnfs_locks.specs.Arguments.{state_id, lock_owner, new_locker, known_locker, lock_args, lockt_args, locku_args, blocks};
ghost use Rattle.lnfs_lock_args.specs.Values.{locker_of, lock_args_of, lockt_args_of, locku_args_of};

use crate::asked::Asked;
use crate::values::{LockArgs, LockTArgs, LockUArgs, Locker};
use lnfs_arguments::numbers::OWNER_LIMIT;
use lnfs_arguments::{StateId, state_id_of};
use lnfs_locks::numbers::{OP_LOCK, OP_LOCKT, OP_LOCKU};
use lnfs_xdr::{XdrError, XdrReader};

/// A state id (`stateid4`, RFC 8881 section 3.3.12). An error where an item isn't there.
fn lock_state_of(reader: &mut XdrReader<'_>) -> Result<StateId, XdrError>
    ensures { Parses (λ x. x) result reader.old reader.new (read state_id reader.old.rest) }
{
    state_id_of(reader)
}

/// The owner in a `lock_owner4` (RFC 8881 section 3.3.10.3). An error where an item isn't there.
#[tactic(auto, unfolding(lnfs_locks::specs::Arguments::lock_owner))]
fn owner_of<'a>(reader: &mut XdrReader<'a>) -> Result<&'a [u8], XdrError>
    ensures { Parses (λ v. v.now) result reader.old reader.new
        (read lock_owner reader.old.rest) }
{
    let _client = reader.u64()?;
    reader.opaque(OWNER_LIMIT)
}

/// An `open_to_lock_owner4` (RFC 8881 section 18.10.1). An error where an item isn't there.
#[tactic(auto, unfolding(lnfs_locks::specs::Arguments::new_locker))]
fn new_locker_of<'a>(reader: &mut XdrReader<'a>) -> Result<Locker<'a>, XdrError>
    ensures { Parses locker_of result reader.old reader.new (read new_locker reader.old.rest) }
{
    let _open_seqid = reader.u32()?;
    let opening = lock_state_of(reader)?;
    let _lock_seqid = reader.u32()?;
    let owner = owner_of(reader)?;
    Ok(Locker::New { opening, owner })
}

/// An `exist_lock_owner4` (RFC 8881 section 18.10.1). An error where an item isn't there.
#[tactic(auto, unfolding(lnfs_locks::specs::Arguments::known_locker))]
fn known_locker_of<'a>(reader: &mut XdrReader<'a>) -> Result<Locker<'a>, XdrError>
    ensures { Parses locker_of result reader.old reader.new (read known_locker reader.old.rest) }
{
    let lock = lock_state_of(reader)?;
    let _lock_seqid = reader.u32()?;
    Ok(Locker::Known { lock })
}

/// The arguments of LOCK (RFC 8881 section 18.10.1). An error where an item isn't there.
#[tactic(auto, unfolding(lnfs_locks::specs::Arguments::lock_args))]
pub fn lock_of<'a>(reader: &mut XdrReader<'a>) -> Result<LockArgs<'a>, XdrError>
    ensures { Parses lock_args_of result reader.old reader.new (read lock_args reader.old.rest) }
{
    let kind = reader.u32()?;
    let reclaim = reader.boolean()?;
    let offset = reader.u64()?;
    let length = reader.u64()?;
    let locker = if reader.boolean()? {
        new_locker_of(reader)?
    } else {
        known_locker_of(reader)?
    };
    Ok(LockArgs {
        asked: Asked {
            kind,
            offset,
            length,
        },
        reclaim,
        locker,
    })
}

/// The arguments of LOCKT (RFC 8881 section 18.11.1). An error where an item isn't there.
#[tactic(auto, unfolding(lnfs_locks::specs::Arguments::lockt_args))]
pub fn lockt_of<'a>(reader: &mut XdrReader<'a>) -> Result<LockTArgs<'a>, XdrError>
    ensures { Parses lockt_args_of result reader.old reader.new
        (read lockt_args reader.old.rest) }
{
    let kind = reader.u32()?;
    let offset = reader.u64()?;
    let length = reader.u64()?;
    let owner = owner_of(reader)?;
    Ok(LockTArgs {
        asked: Asked {
            kind,
            offset,
            length,
        },
        owner,
    })
}

/// The arguments of LOCKU (RFC 8881 section 18.12.1). An error where an item isn't there.
#[tactic(auto, unfolding(lnfs_locks::specs::Arguments::locku_args))]
pub fn locku_of(reader: &mut XdrReader<'_>) -> Result<LockUArgs, XdrError>
    ensures { Parses locku_args_of result reader.old reader.new
        (read locku_args reader.old.rest) }
{
    let kind = reader.u32()?;
    let _seqid = reader.u32()?;
    let lock = lock_state_of(reader)?;
    let offset = reader.u64()?;
    let length = reader.u64()?;
    Ok(LockUArgs {
        asked: Asked {
            kind,
            offset,
            length,
        },
        lock,
    })
}

/// Goes past the arguments of the operation of a number. An error where an item isn't there.
pub fn pass(number: u32, reader: &mut XdrReader<'_>) -> Result<(), XdrError>
    ensures { Parses (λ x. tt) result reader.old reader.new
        (read (block_of blocks number) reader.old.rest) }
{
    match number {
        OP_LOCK => {
            lock_of(reader)?;
        }
        OP_LOCKT => {
            lockt_of(reader)?;
        }
        OP_LOCKU => {
            locku_of(reader)?;
        }
        _ => {}
    }
    Ok(())
}
