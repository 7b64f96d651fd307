//! The table of results by number, for reading.
ghost use Rattle.std.specs.Prelude.{◌≡◌};
ghost use Rattle.lnfs_xdr.specs.Reading.{read};
ghost use Rattle.lnfs_xdr.specs.Cursor.{Parses};
ghost use Rattle.lnfs_arguments.specs.Parsing.{ParsesInMemory};
ghost use Rattle.lnfs_results.specs.Grammar.{is_served, fields, served, unserved, op_result};

use crate::read_dir::readdir_of;
use crate::read_files::{close_of, commit_of, open_of, read_of, write_of};
use crate::read_names::{
    access_of, create_of, getattr_of, getfh_of, link_of, readlink_of, remove_of, rename_of,
    setattr_of,
};
use crate::read_sessions::{create_session_of, exchange_id_of, sequence_of};
use crate::types::OpResult;
use lnfs_arguments::Halt;
use lnfs_arguments::numbers::{
    OP_ACCESS, OP_CLOSE, OP_COMMIT, OP_CREATE, OP_CREATE_SESSION, OP_DESTROY_CLIENTID,
    OP_DESTROY_SESSION, OP_EXCHANGE_ID, OP_GETATTR, OP_GETFH, OP_ILLEGAL, OP_LINK, OP_LOOKUP,
    OP_LOOKUPP, OP_NVERIFY, OP_OPEN, OP_PUTFH, OP_PUTROOTFH, OP_READ, OP_READDIR, OP_READLINK,
    OP_RECLAIM_COMPLETE, OP_REMOVE, OP_RENAME, OP_RESTOREFH, OP_SAVEFH, OP_SEQUENCE, OP_SETATTR,
    OP_VERIFY, OP_WRITE,
};
use lnfs_arguments::statuses::NFS4_OK;
use lnfs_xdr::{XdrError, XdrReader};
use std::alloc::Global;

/// Whether an operation of this number can succeed, SETATTR apart.
#[tactic(auto, unfolding(crate::specs::Grammar::is_served))]
fn serves(number: u32) -> bool
    ensures { result ≡ is_served number }
{
    matches!(
        number,
        OP_ACCESS
            | OP_CLOSE
            | OP_COMMIT
            | OP_CREATE
            | OP_GETATTR
            | OP_GETFH
            | OP_LINK
            | OP_LOOKUP
            | OP_LOOKUPP
            | OP_NVERIFY
            | OP_OPEN
            | OP_PUTFH
            | OP_PUTROOTFH
            | OP_READ
            | OP_READDIR
            | OP_READLINK
            | OP_REMOVE
            | OP_RENAME
            | OP_RESTOREFH
            | OP_SAVEFH
            | OP_VERIFY
            | OP_WRITE
            | OP_EXCHANGE_ID
            | OP_CREATE_SESSION
            | OP_DESTROY_SESSION
            | OP_SEQUENCE
            | OP_DESTROY_CLIENTID
            | OP_RECLAIM_COMPLETE
    )
}

/// What follows the status 0 of the operation of a number. `Fault` where an item isn't there, and
/// `Outside` where the operation can't succeed or is SETATTR.
#[tactic(auto, unfolding(crate::specs::Grammar::fields))]
pub fn read_fields(alloc: Global, reader: &mut XdrReader<'_>, number: u32) -> Result<OpResult, Halt>
    ensures { ParsesInMemory (λ x. x) result reader.old reader.new
        (read (fields number) reader.old.rest) }
{
    match number {
        OP_ACCESS => Ok(access_of(reader)?),
        OP_CLOSE => Ok(close_of(reader)?),
        OP_COMMIT => Ok(commit_of(reader)?),
        OP_CREATE => Ok(create_of(reader)?),
        OP_GETATTR => getattr_of(alloc, reader),
        OP_GETFH => getfh_of(alloc, reader),
        OP_LINK => Ok(link_of(reader)?),
        OP_LOOKUP => Ok(OpResult::Lookup),
        OP_LOOKUPP => Ok(OpResult::LookupP),
        OP_NVERIFY => Ok(OpResult::NVerify),
        OP_OPEN => Ok(open_of(reader)?),
        OP_PUTFH => Ok(OpResult::PutFh),
        OP_PUTROOTFH => Ok(OpResult::PutRootFh),
        OP_READ => read_of(alloc, reader),
        OP_READDIR => readdir_of(alloc, reader),
        OP_READLINK => readlink_of(alloc, reader),
        OP_REMOVE => Ok(remove_of(reader)?),
        OP_RENAME => Ok(rename_of(reader)?),
        OP_RESTOREFH => Ok(OpResult::RestoreFh),
        OP_SAVEFH => Ok(OpResult::SaveFh),
        OP_VERIFY => Ok(OpResult::Verify),
        OP_WRITE => Ok(write_of(reader)?),
        OP_EXCHANGE_ID => exchange_id_of(alloc, reader),
        OP_CREATE_SESSION => Ok(create_session_of(reader)?),
        OP_DESTROY_SESSION => Ok(OpResult::DestroySession),
        OP_SEQUENCE => Ok(sequence_of(reader)?),
        OP_DESTROY_CLIENTID => Ok(OpResult::DestroyClientId),
        OP_RECLAIM_COMPLETE => Ok(OpResult::ReclaimComplete),
        // `serves` keeps such a number out.
        _ => Err(Halt::Outside {
            number,
            status: OP_ILLEGAL,
        }),
    }
}

/// What follows the number of an operation that can succeed.
#[tactic(auto, unfolding(crate::specs::Grammar::served))]
fn served_of(alloc: Global, reader: &mut XdrReader<'_>, number: u32) -> Result<OpResult, Halt>
    ensures { ParsesInMemory (λ x. x) result reader.old reader.new
        (read (served number) reader.old.rest) }
{
    let status = reader.u32()?;
    if status != NFS4_OK {
        return Ok(OpResult::Failed { number, status });
    }
    read_fields(alloc, reader, number)
}

/// What follows the number of another, which is a status other than 0.
#[tactic(auto, unfolding(crate::specs::Grammar::unserved))]
fn unserved_of(reader: &mut XdrReader<'_>, number: u32) -> Result<OpResult, XdrError>
    ensures { Parses (λ x. x) result reader.old reader.new
        (read (unserved number) reader.old.rest) }
{
    let status = reader.nonzero()?;
    Ok(OpResult::Failed { number, status })
}

/// One result.
#[tactic(auto, unfolding(crate::specs::Grammar::op_result))]
pub fn result_of(alloc: Global, reader: &mut XdrReader<'_>) -> Result<OpResult, Halt>
    ensures { ParsesInMemory (λ x. x) result reader.old reader.new
        (read op_result reader.old.rest) }
{
    let number = reader.u32()?;
    if number == OP_SETATTR {
        return Ok(setattr_of(reader)?);
    }
    if serves(number) {
        served_of(alloc, reader, number)
    } else {
        Ok(unserved_of(reader, number)?)
    }
}
