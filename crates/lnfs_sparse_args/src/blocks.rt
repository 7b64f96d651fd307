//! The readers of the arguments, and of the structures in them.
ghost use Rattle.lnfs_xdr.specs.Reading.{read};
ghost use Rattle.lnfs_xdr.specs.Cursor.{Parses};
ghost use Rattle.lnfs_arguments.specs.Further.{block_of};
ghost use Rattle.lnfs_sparse_ops.specs.Arguments.{state_id, region_args, seek_args, clone_args, blocks};
ghost use Rattle.lnfs_sparse_args.specs.Values.{region_args_of, seek_args_of, clone_args_of};

use crate::values::{CloneArgs, RegionArgs, SeekArgs};
use lnfs_arguments::{StateId, state_id_of};
use lnfs_sparse_ops::numbers::{OP_ALLOCATE, OP_CLONE, OP_DEALLOCATE, OP_SEEK};
use lnfs_xdr::{XdrError, XdrReader};

/// A state id (`stateid4`, RFC 8881 section 3.3.12). An error where an item isn't there.
fn stateid_of(reader: &mut XdrReader<'_>) -> Result<StateId, XdrError>
    ensures { Parses (λ x. x) result reader.old reader.new (read state_id reader.old.rest) }
{
    state_id_of(reader)
}

/// The arguments of ALLOCATE and of DEALLOCATE (RFC 7862 sections 15.1.1 and 15.4.1). An error where an item isn't there.
#[tactic(auto, unfolding(lnfs_sparse_ops::specs::Arguments::region_args))]
pub fn region_of(reader: &mut XdrReader<'_>) -> Result<RegionArgs, XdrError>
    ensures { Parses region_args_of result reader.old reader.new
        (read region_args reader.old.rest) }
{
    let id = stateid_of(reader)?;
    let offset = reader.u64()?;
    let length = reader.u64()?;
    Ok(RegionArgs { id, offset, length })
}

/// The arguments of SEEK (RFC 7862 section 15.11.1). An error where an item isn't there.
#[tactic(auto, unfolding(lnfs_sparse_ops::specs::Arguments::seek_args))]
pub fn seek_of(reader: &mut XdrReader<'_>) -> Result<SeekArgs, XdrError>
    ensures { Parses seek_args_of result reader.old reader.new (read seek_args reader.old.rest) }
{
    let id = stateid_of(reader)?;
    let offset = reader.u64()?;
    let what = reader.u32()?;
    Ok(SeekArgs { id, offset, what })
}

/// The arguments of CLONE (RFC 7862 section 15.13.1). An error where an item isn't there.
#[tactic(auto, unfolding(lnfs_sparse_ops::specs::Arguments::clone_args))]
pub fn clone_of(reader: &mut XdrReader<'_>) -> Result<CloneArgs, XdrError>
    ensures { Parses clone_args_of result reader.old reader.new
        (read clone_args reader.old.rest) }
{
    let source = stateid_of(reader)?;
    let target = stateid_of(reader)?;
    let from = reader.u64()?;
    let to = reader.u64()?;
    let count = reader.u64()?;
    Ok(CloneArgs {
        source,
        target,
        from,
        to,
        count,
    })
}

/// Goes past the arguments of the operation of a number. An error where an item isn't there.
pub fn pass(number: u32, reader: &mut XdrReader<'_>) -> Result<(), XdrError>
    ensures { Parses (λ x. tt) result reader.old reader.new
        (read (block_of blocks number) reader.old.rest) }
{
    match number {
        OP_ALLOCATE | OP_DEALLOCATE => {
            region_of(reader)?;
        }
        OP_SEEK => {
            seek_of(reader)?;
        }
        OP_CLONE => {
            clone_of(reader)?;
        }
        _ => {}
    }
    Ok(())
}
