//! The readers of the operations on clients and sessions.
ghost use Rattle.lnfs_xdr.specs.Format.{Word, times};
ghost use Rattle.lnfs_xdr.specs.Reading.{read};
ghost use Rattle.lnfs_xdr.specs.Cursor.{Parses};
ghost use Rattle.lnfs_arguments.specs.Parsing.{ParsesInMemory};
ghost use Rattle.lnfs_arguments.specs.Grammar.{implementation, who_made, exchange_id, callback, create_session, making_session, destroy_session, sequence, sequencing, destroy_clientid, reclaim_complete};

use crate::channel::channel_of;
use crate::halt::Halt;
use crate::numbers::{CALLBACK_LIMIT, OP_CREATE_SESSION, OP_EXCHANGE_ID, OWNER_LIMIT, SP4_NONE};
use crate::opaque::opaque_of;
use crate::statuses::NFS4ERR_INVAL;
use crate::types::{Callback, CreateSession, Implementation, Op, Sequence};
use lnfs_types::{Items, Octets};
use lnfs_xdr::{AUTH_NONE, AUTH_SYS, GROUP_LIMIT, MACHINE_LIMIT, RPCSEC_GSS, XdrError, XdrReader};
use std::alloc::Global;

fn words_of(alloc: Global, reader: &mut XdrReader<'_>, count: u32) -> Result<Vec<u32>, Halt>
    ensures { ParsesInMemory (λ v. v.items) result reader.old reader.new
        (read (times count Word) reader.old.rest) }
{
    let mut words = Vec::new(alloc);
    for _ in 0..count {
        words.push(reader.u32()?)?;
    }
    Ok(words)
}

#[tactic(auto, unfolding(crate::specs::Grammar::implementation))]
fn implementation_of(alloc: Global, reader: &mut XdrReader<'_>) -> Result<Implementation, Halt>
    ensures { ParsesInMemory (λ x. x) result reader.old reader.new
        (read implementation reader.old.rest) }
{
    let domain = opaque_of(alloc, reader, OWNER_LIMIT)?;
    let name = opaque_of(alloc, reader, OWNER_LIMIT)?;
    let secs = reader.u64()?;
    let nanos = reader.u32()?;
    Ok(Implementation {
        domain,
        name,
        secs,
        nanos,
    })
}

#[tactic(auto, unfolding(crate::specs::Grammar::who_made))]
fn who_made_of(alloc: Global, reader: &mut XdrReader<'_>) -> Result<Option<Implementation>, Halt>
    ensures { ParsesInMemory (λ x. x) result reader.old reader.new (read who_made reader.old.rest) }
{
    match reader.array_len(1)? {
        0 => Ok(None),
        _ => Ok(Some(implementation_of(alloc, reader)?)),
    }
}

/// The arguments of EXCHANGE_ID (RFC 8881 section 18.35). `Fault` where an item isn't there,
/// `Outside` where a state protection is asked for.
#[tactic(auto, unfolding(crate::specs::Grammar::exchange_id))]
pub fn exchange_id_of<'a>(alloc: Global, reader: &mut XdrReader<'a>) -> Result<Op<'a>, Halt>
    ensures { ParsesInMemory (λ x. x) result reader.old reader.new
        (read exchange_id reader.old.rest) }
{
    let mut verifier = [0; 8];
    verifier.copy_from_slice(reader.fixed(8)?);
    let owner = opaque_of(alloc, reader, OWNER_LIMIT)?;
    let flags = reader.u32()?;
    if reader.u32()? != SP4_NONE {
        return Err(Halt::Outside {
            number: OP_EXCHANGE_ID,
            status: NFS4ERR_INVAL,
        });
    }
    let implementation = who_made_of(alloc, reader)?;
    Ok(Op::ExchangeId {
        verifier,
        owner,
        flags,
        implementation,
    })
}

#[tactic(auto, unfolding(crate::specs::Grammar::callback, lnfs_xdr::specs::AuthSys::auth_sys))]
fn callback_of(alloc: Global, reader: &mut XdrReader<'_>) -> Result<Callback, Halt>
    ensures { ParsesInMemory (λ x. x) result reader.old reader.new (read callback reader.old.rest) }
{
    match reader.u32()? {
        AUTH_NONE => Ok(Callback::Nothing),
        AUTH_SYS => {
            let stamp = reader.u32()?;
            let machine = opaque_of(alloc, reader, MACHINE_LIMIT)?;
            let uid = reader.u32()?;
            let gid = reader.u32()?;
            let count = reader.array_len(GROUP_LIMIT)?;
            let gids = Items::new(words_of(alloc, reader, count)?);
            Ok(Callback::Sys {
                stamp,
                machine,
                uid,
                gid,
                gids,
            })
        }
        RPCSEC_GSS => {
            let service = reader.u32()?;
            let server = opaque_of(alloc, reader, OWNER_LIMIT)?;
            let client = opaque_of(alloc, reader, OWNER_LIMIT)?;
            Ok(Callback::Gss {
                service,
                server,
                client,
            })
        }
        _ => Err(Halt::Outside {
            number: OP_CREATE_SESSION,
            status: NFS4ERR_INVAL,
        }),
    }
}

fn callbacks_of(
    alloc: Global,
    reader: &mut XdrReader<'_>,
    count: u32,
) -> Result<Vec<Callback>, Halt>
    ensures { ParsesInMemory (λ v. v.items) result reader.old reader.new
        (read (times count callback) reader.old.rest) }
{
    let mut callbacks = Vec::new(alloc);
    for _ in 0..count {
        callbacks.push(callback_of(alloc, reader)?)?;
    }
    Ok(callbacks)
}

#[tactic(auto, unfolding(crate::specs::Grammar::create_session))]
fn create_session_args_of(alloc: Global, reader: &mut XdrReader<'_>) -> Result<CreateSession, Halt>
    ensures { ParsesInMemory (λ x. x) result reader.old reader.new
        (read create_session reader.old.rest) }
{
    let client = reader.u64()?;
    let sequence = reader.u32()?;
    let flags = reader.u32()?;
    let fore = channel_of(reader)?;
    let back = channel_of(reader)?;
    let program = reader.u32()?;
    let count = reader.array_len(CALLBACK_LIMIT)?;
    let callbacks = Items::new(callbacks_of(alloc, reader, count)?);
    Ok(CreateSession {
        client,
        sequence,
        flags,
        fore,
        back,
        program,
        callbacks,
    })
}

/// The arguments of CREATE_SESSION (RFC 8881 section 18.36). `Fault` where an item isn't there,
/// `Outside` where a way to call back isn't one of `Callback`.
#[tactic(auto, unfolding(crate::specs::Grammar::making_session))]
pub fn create_session_of<'a>(alloc: Global, reader: &mut XdrReader<'a>) -> Result<Op<'a>, Halt>
    ensures { ParsesInMemory (λ x. x) result reader.old reader.new
        (read making_session reader.old.rest) }
{
    let args = create_session_args_of(alloc, reader)?;
    Ok(Op::CreateSession(args))
}

/// The arguments of DESTROY_SESSION (RFC 8881 section 18.37). An error where an item isn't there.
#[tactic(auto, unfolding(crate::specs::Grammar::destroy_session))]
pub fn destroy_session_of<'a>(reader: &mut XdrReader<'a>) -> Result<Op<'a>, XdrError>
    ensures { Parses (λ x. x) result reader.old reader.new (read destroy_session reader.old.rest) }
{
    let mut session = [0; 16];
    session.copy_from_slice(reader.fixed(16)?);
    Ok(Op::DestroySession { session })
}

#[tactic(auto, unfolding(crate::specs::Grammar::sequence))]
fn sequence_args_of(reader: &mut XdrReader<'_>) -> Result<Sequence, XdrError>
    ensures { Parses (λ x. x) result reader.old reader.new (read sequence reader.old.rest) }
{
    let mut session = [0; 16];
    session.copy_from_slice(reader.fixed(16)?);
    let sequence = reader.u32()?;
    let slot = reader.u32()?;
    let highest = reader.u32()?;
    let cachethis = reader.boolean()?;
    Ok(Sequence {
        session,
        sequence,
        slot,
        highest,
        cachethis,
    })
}

/// The arguments of SEQUENCE (RFC 8881 section 18.46). An error where an item isn't there.
#[tactic(auto, unfolding(crate::specs::Grammar::sequencing))]
pub fn sequence_of<'a>(reader: &mut XdrReader<'a>) -> Result<Op<'a>, XdrError>
    ensures { Parses (λ x. x) result reader.old reader.new (read sequencing reader.old.rest) }
{
    let args = sequence_args_of(reader)?;
    Ok(Op::Sequence(args))
}

/// The arguments of DESTROY_CLIENTID (RFC 8881 section 18.50). An error where an item isn't there.
#[tactic(auto, unfolding(crate::specs::Grammar::destroy_clientid))]
pub fn destroy_clientid_of<'a>(reader: &mut XdrReader<'a>) -> Result<Op<'a>, XdrError>
    ensures { Parses (λ x. x) result reader.old reader.new (read destroy_clientid reader.old.rest) }
{
    let client = reader.u64()?;
    Ok(Op::DestroyClientId { client })
}

/// The arguments of RECLAIM_COMPLETE (RFC 8881 section 18.51). An error where an item isn't there.
#[tactic(auto, unfolding(crate::specs::Grammar::reclaim_complete))]
pub fn reclaim_complete_of<'a>(reader: &mut XdrReader<'a>) -> Result<Op<'a>, XdrError>
    ensures { Parses (λ x. x) result reader.old reader.new (read reclaim_complete reader.old.rest) }
{
    let one_fs = reader.boolean()?;
    Ok(Op::ReclaimComplete { one_fs })
}
