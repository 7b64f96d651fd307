//! Writers of the lists.
ghost use Rattle.std.specs.Prelude.{◌≡◌, ◌++◌, OnOk, map};
ghost use Rattle.lnfs_rows.specs.Told.{client_of, session_of, context_of, node_of, entry_of, open_of};
ghost use Rattle.lnfs_rows.specs.World.{world_of};
ghost use Rattle.lnfs_layout.specs.Texts.{many_text, client_text, session_text, context_text, node_text, entry_text, open_text, lists_text};
ghost use Rattle.lnfs_layout.specs.Fits.{ListFits, ClientFits, SessionFits, ContextFits, NodeFits, EntryFits, OpenFits, RowsFit};

use crate::put_files::{put_entry, put_node, put_open};
use crate::put_people::{put_client, put_context, put_session};
use lnfs_rows::{ClientRow, ContextRow, EntryRow, Lists, NodeRow, OpenRow, SessionRow};
use lnfs_xdr::XdrWriter;
use std::alloc::AllocError;

fn put_clients(out: &mut XdrWriter, rows: &[ClientRow<'_>]) -> Result<(), AllocError>
    ensures text { OnOk result (out.new ≡ out.old
        ++ many_text client_text (map client_of rows.now)) }
    ensures fits { OnOk result (ListFits ClientFits (map client_of rows.now)) }
{
    out.u64(rows.len() as u64)?;
    for row in rows {
        put_client(out, row)?;
    }
    Ok(())
}

fn put_sessions(out: &mut XdrWriter, rows: &[SessionRow<'_>]) -> Result<(), AllocError>
    ensures text { OnOk result (out.new ≡ out.old
        ++ many_text session_text (map session_of rows.now)) }
    ensures fits { OnOk result (ListFits SessionFits (map session_of rows.now)) }
{
    out.u64(rows.len() as u64)?;
    for row in rows {
        put_session(out, row)?;
    }
    Ok(())
}

fn put_contexts(out: &mut XdrWriter, rows: &[ContextRow]) -> Result<(), AllocError>
    ensures text { OnOk result (out.new ≡ out.old
        ++ many_text context_text (map context_of rows.now)) }
    ensures fits { OnOk result (ListFits ContextFits (map context_of rows.now)) }
{
    out.u64(rows.len() as u64)?;
    for row in rows {
        put_context(out, row)?;
    }
    Ok(())
}

fn put_nodes(out: &mut XdrWriter, rows: &[NodeRow<'_>]) -> Result<(), AllocError>
    ensures text { OnOk result (out.new ≡ out.old
        ++ many_text node_text (map node_of rows.now)) }
    ensures fits { OnOk result (ListFits NodeFits (map node_of rows.now)) }
{
    out.u64(rows.len() as u64)?;
    for row in rows {
        put_node(out, row)?;
    }
    Ok(())
}

fn put_entries(out: &mut XdrWriter, rows: &[EntryRow<'_>]) -> Result<(), AllocError>
    ensures text { OnOk result (out.new ≡ out.old
        ++ many_text entry_text (map entry_of rows.now)) }
    ensures fits { OnOk result (ListFits EntryFits (map entry_of rows.now)) }
{
    out.u64(rows.len() as u64)?;
    for row in rows {
        put_entry(out, row)?;
    }
    Ok(())
}

fn put_opens(out: &mut XdrWriter, rows: &[OpenRow<'_>]) -> Result<(), AllocError>
    ensures text { OnOk result (out.new ≡ out.old
        ++ many_text open_text (map open_of rows.now)) }
    ensures fits { OnOk result (ListFits OpenFits (map open_of rows.now)) }
{
    out.u64(rows.len() as u64)?;
    for row in rows {
        put_open(out, row)?;
    }
    Ok(())
}

/// All lists of a world but its last numbers.
#[tactic(auto, unfolding(crate::specs::Texts::lists_text))]
pub fn put_lists(out: &mut XdrWriter, lists: &Lists<'_>) -> Result<(), AllocError>
    ensures text { OnOk result (out.new ≡ out.old ++ lists_text (world_of lists.now)) }
    ensures fits { OnOk result (RowsFit (world_of lists.now)) }
{
    put_clients(out, lists.clients.as_slice())?;
    put_sessions(out, lists.sessions.as_slice())?;
    put_contexts(out, lists.contexts.as_slice())?;
    put_nodes(out, lists.nodes.as_slice())?;
    put_entries(out, lists.entries.as_slice())?;
    put_opens(out, lists.opens.as_slice())
}
