//! Writers of clients, sessions and contexts.
ghost use Rattle.std.specs.Prelude.{◌≡◌, ◌++◌, OnOk, map};
ghost use Rattle.lnfs_rows.specs.Told.{client_of, channel_of, slot_of, session_of, context_of};
ghost use Rattle.lnfs_layout.specs.Texts.{many_text, client_text, channel_text, slot_text, session_text, context_text};
ghost use Rattle.lnfs_layout.specs.Fits.{ListFits, ClientFits, ChannelFits, SlotFits, SessionFits, ContextFits};

use crate::put_columns::{put_flag, put_id, put_run, put_some_kept, put_some_long};
use lnfs_rows::{Channel, ClientRow, ContextRow, SessionRow, SlotRow};
use lnfs_xdr::XdrWriter;
use std::alloc::AllocError;

#[tactic(auto, unfolding(crate::specs::Texts::client_text))]
pub fn put_client(out: &mut XdrWriter, row: &ClientRow<'_>) -> Result<(), AllocError>
    ensures text { OnOk result (out.new ≡ out.old ++ client_text (client_of row.now)) }
    ensures fits { OnOk result (ClientFits (client_of row.now)) }
{
    put_id(out, row.id)?;
    put_run(out, row.owner)?;
    out.raw(&row.verifier)?;
    put_flag(out, row.confirmed)?;
    out.u32(row.sequence)?;
    put_some_kept(out, &row.kept)?;
    put_flag(out, row.reclaimed)?;
    put_some_long(out, row.seen)
}

#[tactic(auto, unfolding(crate::specs::Texts::channel_text))]
fn put_channel(out: &mut XdrWriter, channel: Channel) -> Result<(), AllocError>
    ensures text { OnOk result (out.new ≡ out.old ++ channel_text (channel_of channel)) }
    ensures fits { OnOk result (ChannelFits (channel_of channel)) }
{
    out.u32(channel.max_request)?;
    out.u32(channel.max_response)?;
    out.u32(channel.max_cached)?;
    out.u32(channel.max_operations)?;
    out.u32(channel.max_requests)
}

#[tactic(auto, unfolding(crate::specs::Texts::slot_text))]
fn put_slot(out: &mut XdrWriter, slot: &SlotRow<'_>) -> Result<(), AllocError>
    ensures text { OnOk result (out.new ≡ out.old ++ slot_text (slot_of slot.now)) }
    ensures fits { OnOk result (SlotFits (slot_of slot.now)) }
{
    out.u32(slot.sequence)?;
    put_some_kept(out, &slot.kept)
}

fn put_slots(out: &mut XdrWriter, rows: &[SlotRow<'_>]) -> Result<(), AllocError>
    ensures text { OnOk result (out.new ≡ out.old
        ++ many_text slot_text (map slot_of rows.now)) }
    ensures fits { OnOk result (ListFits SlotFits (map slot_of rows.now)) }
{
    out.u64(rows.len() as u64)?;
    for row in rows {
        put_slot(out, row)?;
    }
    Ok(())
}

#[tactic(auto, unfolding(crate::specs::Texts::session_text))]
pub fn put_session(out: &mut XdrWriter, row: &SessionRow<'_>) -> Result<(), AllocError>
    ensures text { OnOk result (out.new ≡ out.old ++ session_text (session_of row.now)) }
    ensures fits { OnOk result (SessionFits (session_of row.now)) }
{
    put_id(out, row.id)?;
    out.u64(row.client)?;
    put_channel(out, row.channel)?;
    put_slots(out, row.slots.as_slice())
}

#[tactic(auto, unfolding(crate::specs::Texts::context_text))]
pub fn put_context(out: &mut XdrWriter, row: &ContextRow) -> Result<(), AllocError>
    ensures text { OnOk result (out.new ≡ out.old ++ context_text (context_of row.now)) }
    ensures fits { OnOk result (ContextFits (context_of row.now)) }
{
    out.u32(row.id.level)?;
    out.u64(row.parent)?;
    out.u64(row.id.number)
}
