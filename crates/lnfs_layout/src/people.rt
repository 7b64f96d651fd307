//! Readers of clients, sessions and contexts.
ghost use Rattle.std.specs.Prelude.{map};
ghost use Rattle.lnfs_xdr.specs.Reading.{read};
ghost use Rattle.lnfs_xdr.specs.Cursor.{Parses};
ghost use Rattle.lnfs_rows.specs.Told.{client_of, channel_of, slot_of, session_of, context_of};
ghost use Rattle.lnfs_layout.specs.Grammar.{many, client_row, channel_row, slot_row, session_row, context_row};
ghost use Rattle.lnfs_layout.specs.Parsing.{ParsesInMemory};

use crate::columns::{read_flag, read_id, read_run, read_some_kept, read_some_long, read_verifier};
use crate::errors::Halt;
use lnfs_rows::{Channel, ClientRow, ContextRow, Id, SessionRow, SlotRow};
use lnfs_xdr::{XdrError, XdrReader};
use std::alloc::Global;

#[tactic(auto, unfolding(crate::specs::Grammar::client_row))]
pub fn read_client<'a>(reader: &mut XdrReader<'a>) -> Result<ClientRow<'a>, XdrError>
    ensures { Parses client_of result reader.old reader.new (read client_row reader.old.rest) }
{
    let id = read_id(reader)?;
    let owner = read_run(reader)?;
    let verifier = read_verifier(reader)?;
    let confirmed = read_flag(reader)?;
    let sequence = reader.u32()?;
    let kept = read_some_kept(reader)?;
    let reclaimed = read_flag(reader)?;
    let seen = read_some_long(reader)?;
    Ok(ClientRow {
        id,
        owner,
        verifier,
        confirmed,
        sequence,
        kept,
        reclaimed,
        seen,
    })
}

#[tactic(auto, unfolding(crate::specs::Grammar::channel_row))]
fn read_channel(reader: &mut XdrReader<'_>) -> Result<Channel, XdrError>
    ensures { Parses channel_of result reader.old reader.new (read channel_row reader.old.rest) }
{
    let max_request = reader.u32()?;
    let max_response = reader.u32()?;
    let max_cached = reader.u32()?;
    let max_operations = reader.u32()?;
    let max_requests = reader.u32()?;
    Ok(Channel {
        max_request,
        max_response,
        max_cached,
        max_operations,
        max_requests,
    })
}

#[tactic(auto, unfolding(crate::specs::Grammar::slot_row))]
fn read_slot<'a>(reader: &mut XdrReader<'a>) -> Result<SlotRow<'a>, XdrError>
    ensures { Parses slot_of result reader.old reader.new (read slot_row reader.old.rest) }
{
    let sequence = reader.u32()?;
    let kept = read_some_kept(reader)?;
    Ok(SlotRow { sequence, kept })
}

fn read_slots<'a>(alloc: Global, reader: &mut XdrReader<'a>) -> Result<Vec<SlotRow<'a>>, Halt>
    ensures { ParsesInMemory (λ v. map slot_of v.items) result reader.old reader.new
        (read (many slot_row) reader.old.rest) }
{
    let count = reader.u64()?;
    let mut rows = Vec::new(alloc);
    for _ in 0..count {
        rows.push(read_slot(reader)?)?;
    }
    Ok(rows)
}

#[tactic(auto, unfolding(crate::specs::Grammar::session_row))]
pub fn read_session<'a>(alloc: Global, reader: &mut XdrReader<'a>) -> Result<SessionRow<'a>, Halt>
    ensures { ParsesInMemory session_of result reader.old reader.new
        (read session_row reader.old.rest) }
{
    let id = read_id(reader)?;
    let client = reader.u64()?;
    let channel = read_channel(reader)?;
    let slots = read_slots(alloc, reader)?;
    Ok(SessionRow {
        id,
        client,
        channel,
        slots,
    })
}

#[tactic(auto, unfolding(crate::specs::Grammar::context_row))]
pub fn read_context(reader: &mut XdrReader<'_>) -> Result<ContextRow, XdrError>
    ensures { Parses context_of result reader.old reader.new (read context_row reader.old.rest) }
{
    let level = reader.u32()?;
    let parent = reader.u64()?;
    let number = reader.u64()?;
    Ok(ContextRow {
        id: Id { level, number },
        parent,
    })
}
