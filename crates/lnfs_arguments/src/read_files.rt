//! The readers of the operations on the content of files, and of OPEN.
ghost use Rattle.lnfs_xdr.specs.Reading.{read};
ghost use Rattle.lnfs_xdr.specs.Cursor.{Parses};
ghost use Rattle.lnfs_arguments.specs.Parsing.{ParsesInMemory};
ghost use Rattle.lnfs_arguments.specs.Grammar.{close, commit, reading, writing, created, making, claim, opening};

use crate::attrs::attrs_of;
use crate::halt::Halt;
use crate::numbers::{
    CLAIM_FH, CLAIM_NULL, DATA_LIMIT, EXCLUSIVE, EXCLUSIVE4_1, GUARDED, OP_OPEN, OPEN_CREATE,
    OPEN_NOCREATE, OWNER_LIMIT, UNCHECKED,
};
use crate::opaque::opaque_of;
use crate::read_names::name_of;
use crate::span::Span;
use crate::stateid::state_id_of;
use crate::statuses::{NFS4ERR_INVAL, NFS4ERR_NOTSUPP};
use crate::types::{Claim, Making, Op};
use lnfs_types::Octets;
use lnfs_xdr::{XdrError, XdrReader};
use std::alloc::Global;

/// The arguments of CLOSE (RFC 8881 section 18.2). An error where an item isn't there.
#[tactic(auto, unfolding(crate::specs::Grammar::close))]
pub fn close_of<'a>(reader: &mut XdrReader<'a>) -> Result<Op<'a>, XdrError>
    ensures { Parses (λ x. x) result reader.old reader.new (read close reader.old.rest) }
{
    let seqid = reader.u32()?;
    let id = state_id_of(reader)?;
    Ok(Op::Close { seqid, id })
}

/// The arguments of COMMIT (RFC 8881 section 18.3). An error where an item isn't there.
#[tactic(auto, unfolding(crate::specs::Grammar::commit))]
pub fn commit_of<'a>(reader: &mut XdrReader<'a>) -> Result<Op<'a>, XdrError>
    ensures { Parses (λ x. x) result reader.old reader.new (read commit reader.old.rest) }
{
    let offset = reader.u64()?;
    let count = reader.u32()?;
    Ok(Op::Commit { offset, count })
}

/// The arguments of READ (RFC 8881 section 18.22). An error where an item isn't there.
#[tactic(auto, unfolding(crate::specs::Grammar::reading))]
pub fn read_of<'a>(reader: &mut XdrReader<'a>) -> Result<Op<'a>, XdrError>
    ensures { Parses (λ x. x) result reader.old reader.new (read reading reader.old.rest) }
{
    let id = state_id_of(reader)?;
    let offset = reader.u64()?;
    let count = reader.u32()?;
    Ok(Op::Read { id, offset, count })
}

/// The arguments of WRITE (RFC 8881 section 18.32). An error where an item isn't there. The bytes
/// to be written are lent from those that are read.
#[tactic(auto, unfolding(crate::specs::Grammar::writing))]
pub fn write_of<'a>(reader: &mut XdrReader<'a>) -> Result<Op<'a>, XdrError>
    ensures { Parses (λ x. x) result reader.old reader.new (read writing reader.old.rest) }
{
    let id = state_id_of(reader)?;
    let offset = reader.u64()?;
    let stable = reader.u32()?;
    let content = Span::new(reader.opaque(DATA_LIMIT)?);
    Ok(Op::Write {
        id,
        offset,
        stable,
        content,
    })
}

#[tactic(auto, unfolding(crate::specs::Grammar::created))]
fn created_of(alloc: Global, reader: &mut XdrReader<'_>) -> Result<Making, Halt>
    ensures { ParsesInMemory (λ x. x) result reader.old reader.new (read created reader.old.rest) }
{
    match reader.u32()? {
        UNCHECKED => Ok(Making::Unchecked {
            attrs: attrs_of(alloc, reader)?,
        }),
        GUARDED => Ok(Making::Guarded {
            attrs: attrs_of(alloc, reader)?,
        }),
        EXCLUSIVE => Err(Halt::Outside {
            number: OP_OPEN,
            status: NFS4ERR_NOTSUPP,
        }),
        EXCLUSIVE4_1 => {
            let mut verifier = [0; 8];
            verifier.copy_from_slice(reader.fixed(8)?);
            let attrs = attrs_of(alloc, reader)?;
            Ok(Making::Exclusive { verifier, attrs })
        }
        _ => Err(Halt::Outside {
            number: OP_OPEN,
            status: NFS4ERR_INVAL,
        }),
    }
}

#[tactic(auto, unfolding(crate::specs::Grammar::making))]
fn making_of(alloc: Global, reader: &mut XdrReader<'_>) -> Result<Option<Making>, Halt>
    ensures { ParsesInMemory (λ x. x) result reader.old reader.new (read making reader.old.rest) }
{
    match reader.u32()? {
        OPEN_NOCREATE => Ok(None),
        OPEN_CREATE => Ok(Some(created_of(alloc, reader)?)),
        _ => Err(Halt::Outside {
            number: OP_OPEN,
            status: NFS4ERR_INVAL,
        }),
    }
}

#[tactic(auto, unfolding(crate::specs::Grammar::claim))]
fn claim_of(alloc: Global, reader: &mut XdrReader<'_>) -> Result<Claim, Halt>
    ensures { ParsesInMemory (λ x. x) result reader.old reader.new (read claim reader.old.rest) }
{
    match reader.u32()? {
        CLAIM_NULL => {
            let name = name_of(alloc, reader)?;
            Ok(Claim::Name { name })
        }
        CLAIM_FH => Ok(Claim::Handle),
        _ => Err(Halt::Outside {
            number: OP_OPEN,
            status: NFS4ERR_NOTSUPP,
        }),
    }
}

/// The arguments of OPEN (RFC 8881 section 18.16). `Fault` where an item isn't there, `Outside`
/// where the way of making the file, or the claim, isn't served.
#[tactic(auto, unfolding(crate::specs::Grammar::opening))]
pub fn open_of<'a>(alloc: Global, reader: &mut XdrReader<'a>) -> Result<Op<'a>, Halt>
    ensures { ParsesInMemory (λ x. x) result reader.old reader.new (read opening reader.old.rest) }
{
    let seqid = reader.u32()?;
    let access = reader.u32()?;
    let deny = reader.u32()?;
    let client = reader.u64()?;
    let owner = opaque_of(alloc, reader, OWNER_LIMIT)?;
    let making = making_of(alloc, reader)?;
    let claim = claim_of(alloc, reader)?;
    Ok(Op::Open {
        seqid,
        access,
        deny,
        client,
        owner,
        making,
        claim,
    })
}
