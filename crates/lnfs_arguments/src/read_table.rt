//! The table of operations by number, for reading.
ghost use Rattle.lnfs_xdr.specs.Reading.{read};
ghost use Rattle.lnfs_arguments.specs.Parsing.{ParsesInMemory};
ghost use Rattle.lnfs_arguments.specs.Grammar.{arguments};

use crate::halt::Halt;
use crate::numbers::{
    OP_ACCESS, OP_CLOSE, OP_COMMIT, OP_CREATE, OP_CREATE_SESSION, OP_DESTROY_CLIENTID,
    OP_DESTROY_SESSION, OP_EXCHANGE_ID, OP_FIRST, OP_GETATTR, OP_GETFH, OP_LAST, OP_LINK,
    OP_LOOKUP, OP_LOOKUPP, OP_NVERIFY, OP_OPEN, OP_PUTFH, OP_PUTROOTFH, OP_READ, OP_READDIR,
    OP_READLINK, OP_RECLAIM_COMPLETE, OP_REMOVE, OP_RENAME, OP_RESTOREFH, OP_SAVEFH, OP_SEQUENCE,
    OP_SETATTR, OP_VERIFY, OP_WRITE,
};
use crate::read_files::{close_of, commit_of, open_of, read_of, write_of};
use crate::read_names::{
    access_of, create_of, getattr_of, link_of, lookup_of, nverify_of, putfh_of, readdir_of,
    remove_of, rename_of, setattr_of, verify_of,
};
use crate::read_sessions::{
    create_session_of, destroy_clientid_of, destroy_session_of, exchange_id_of,
    reclaim_complete_of, sequence_of,
};
use crate::statuses::{NFS4ERR_NOTSUPP, NFS4ERR_OP_ILLEGAL};
use crate::types::Op;
use lnfs_xdr::XdrReader;
use std::alloc::Global;

/// The arguments of the operation of a number.
#[tactic(auto, unfolding(crate::specs::Grammar::arguments))]
pub fn arguments_of<'a>(
    alloc: Global,
    reader: &mut XdrReader<'a>,
    number: u32,
) -> Result<Op<'a>, Halt>
    ensures { ParsesInMemory (λ x. x) result reader.old reader.new
        (read (arguments number) reader.old.rest) }
{
    match number {
        OP_ACCESS => Ok(access_of(reader)?),
        OP_CLOSE => Ok(close_of(reader)?),
        OP_COMMIT => Ok(commit_of(reader)?),
        OP_CREATE => create_of(alloc, reader),
        OP_GETATTR => Ok(getattr_of(reader)?),
        OP_GETFH => Ok(Op::GetFh),
        OP_LINK => link_of(alloc, reader),
        OP_LOOKUP => lookup_of(alloc, reader),
        OP_LOOKUPP => Ok(Op::LookupP),
        OP_NVERIFY => nverify_of(alloc, reader),
        OP_OPEN => open_of(alloc, reader),
        OP_PUTFH => putfh_of(alloc, reader),
        OP_PUTROOTFH => Ok(Op::PutRootFh),
        OP_READ => Ok(read_of(reader)?),
        OP_READDIR => Ok(readdir_of(reader)?),
        OP_READLINK => Ok(Op::ReadLink),
        OP_REMOVE => remove_of(alloc, reader),
        OP_RENAME => rename_of(alloc, reader),
        OP_RESTOREFH => Ok(Op::RestoreFh),
        OP_SAVEFH => Ok(Op::SaveFh),
        OP_SETATTR => setattr_of(alloc, reader),
        OP_VERIFY => verify_of(alloc, reader),
        OP_WRITE => Ok(write_of(reader)?),
        OP_EXCHANGE_ID => exchange_id_of(alloc, reader),
        OP_CREATE_SESSION => create_session_of(alloc, reader),
        OP_DESTROY_SESSION => Ok(destroy_session_of(reader)?),
        OP_SEQUENCE => Ok(sequence_of(reader)?),
        OP_DESTROY_CLIENTID => Ok(destroy_clientid_of(reader)?),
        OP_RECLAIM_COMPLETE => Ok(reclaim_complete_of(reader)?),
        OP_FIRST..=OP_LAST => Err(Halt::Outside {
            number,
            status: NFS4ERR_NOTSUPP,
        }),
        _ => Err(Halt::Outside {
            number,
            status: NFS4ERR_OP_ILLEGAL,
        }),
    }
}
