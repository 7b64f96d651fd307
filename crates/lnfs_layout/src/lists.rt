//! Readers of the lists.
ghost use Rattle.std.specs.Prelude.{map};
ghost use Rattle.lnfs_xdr.specs.Reading.{read};
ghost use Rattle.lnfs_rows.specs.Told.{client_of, session_of, context_of, node_of, entry_of, open_of};
ghost use Rattle.lnfs_layout.specs.Grammar.{many, client_row, session_row, context_row, node_row, entry_row, open_row};
ghost use Rattle.lnfs_layout.specs.Parsing.{ParsesInMemory};
ghost use Rattle.lnfs_layout.specs.Whole.{people, files};

use crate::errors::Halt;
use crate::files::{read_entry, read_node, read_open};
use crate::people::{read_client, read_context, read_session};
use lnfs_rows::{ClientRow, ContextRow, EntryRow, NodeRow, OpenRow, SessionRow};
use lnfs_xdr::XdrReader;
use std::alloc::Global;

/// Clients, sessions and contexts.
pub type People<'a> = (Vec<ClientRow<'a>>, Vec<SessionRow<'a>>, Vec<ContextRow>);

/// Nodes, names and opens.
pub type Files<'a> = (Vec<NodeRow<'a>>, Vec<EntryRow<'a>>, Vec<OpenRow<'a>>);

fn read_clients<'a>(alloc: Global, reader: &mut XdrReader<'a>) -> Result<Vec<ClientRow<'a>>, Halt>
    ensures { ParsesInMemory (λ v. map client_of v.items) result reader.old reader.new
        (read (many client_row) reader.old.rest) }
{
    let count = reader.u64()?;
    let mut rows = Vec::new(alloc);
    for _ in 0..count {
        rows.push(read_client(reader)?)?;
    }
    Ok(rows)
}

fn read_sessions<'a>(alloc: Global, reader: &mut XdrReader<'a>) -> Result<Vec<SessionRow<'a>>, Halt>
    ensures { ParsesInMemory (λ v. map session_of v.items) result reader.old reader.new
        (read (many session_row) reader.old.rest) }
{
    let count = reader.u64()?;
    let mut rows = Vec::new(alloc);
    for _ in 0..count {
        rows.push(read_session(alloc, reader)?)?;
    }
    Ok(rows)
}

fn read_contexts<'a>(alloc: Global, reader: &mut XdrReader<'a>) -> Result<Vec<ContextRow>, Halt>
    ensures { ParsesInMemory (λ v. map context_of v.items) result reader.old reader.new
        (read (many context_row) reader.old.rest) }
{
    let count = reader.u64()?;
    let mut rows = Vec::new(alloc);
    for _ in 0..count {
        rows.push(read_context(reader)?)?;
    }
    Ok(rows)
}

fn read_nodes<'a>(alloc: Global, reader: &mut XdrReader<'a>) -> Result<Vec<NodeRow<'a>>, Halt>
    ensures { ParsesInMemory (λ v. map node_of v.items) result reader.old reader.new
        (read (many node_row) reader.old.rest) }
{
    let count = reader.u64()?;
    let mut rows = Vec::new(alloc);
    for _ in 0..count {
        rows.push(read_node(reader)?)?;
    }
    Ok(rows)
}

fn read_entries<'a>(alloc: Global, reader: &mut XdrReader<'a>) -> Result<Vec<EntryRow<'a>>, Halt>
    ensures { ParsesInMemory (λ v. map entry_of v.items) result reader.old reader.new
        (read (many entry_row) reader.old.rest) }
{
    let count = reader.u64()?;
    let mut rows = Vec::new(alloc);
    for _ in 0..count {
        rows.push(read_entry(reader)?)?;
    }
    Ok(rows)
}

fn read_opens<'a>(alloc: Global, reader: &mut XdrReader<'a>) -> Result<Vec<OpenRow<'a>>, Halt>
    ensures { ParsesInMemory (λ v. map open_of v.items) result reader.old reader.new
        (read (many open_row) reader.old.rest) }
{
    let count = reader.u64()?;
    let mut rows = Vec::new(alloc);
    for _ in 0..count {
        rows.push(read_open(reader)?)?;
    }
    Ok(rows)
}

#[tactic(auto, unfolding(crate::specs::Whole::people))]
pub fn read_people<'a>(alloc: Global, reader: &mut XdrReader<'a>) -> Result<People<'a>, Halt>
    ensures { ParsesInMemory (λ x. (
      map client_of x.0.items,
      map session_of x.1.items,
      map context_of x.2.items,
    )) result reader.old reader.new (read people reader.old.rest) }
{
    let clients = read_clients(alloc, reader)?;
    let sessions = read_sessions(alloc, reader)?;
    let contexts = read_contexts(alloc, reader)?;
    Ok((clients, sessions, contexts))
}

#[tactic(auto, unfolding(crate::specs::Whole::files))]
pub fn read_files<'a>(alloc: Global, reader: &mut XdrReader<'a>) -> Result<Files<'a>, Halt>
    ensures { ParsesInMemory (λ x. (
      map node_of x.0.items,
      map entry_of x.1.items,
      map open_of x.2.items,
    )) result reader.old reader.new (read files reader.old.rest) }
{
    let nodes = read_nodes(alloc, reader)?;
    let entries = read_entries(alloc, reader)?;
    let opens = read_opens(alloc, reader)?;
    Ok((nodes, entries, opens))
}
