//! Writers of nodes, of their names and of opens.
ghost use Rattle.std.specs.Prelude.{◌≡◌, ◌++◌, OnOk};
ghost use Rattle.std.specs.Option.{option_map};
ghost use Rattle.lnfs_xdr.specs.Canon.{word};
ghost use Rattle.lnfs_rows.specs.Told.{kind_of, stored_of, bytes_of, node_of, entry_of, open_of};
ghost use Rattle.lnfs_layout.specs.Texts.{run_text, present_text, kind_number, stored_text, head_text, moments_text, node_text, entry_text, open_text};
ghost use Rattle.lnfs_layout.specs.Fits.{IsRun, IfThere, StoredFits, HeadFits, MomentsFit, NodeFits, EntryFits, OpenFits};

use crate::numbers::{NF4DIR, NF4LNK, NF4REG, NO, YES};
use crate::put_columns::{put_id, put_moment, put_run, put_some_verifier};
use lnfs_rows::{Data, EntryRow, Kind, NodeRow, OpenRow, StoredRow};
use lnfs_xdr::XdrWriter;
use std::alloc::AllocError;

fn number_of_kind(kind: Kind) -> u32
    ensures { result ≡ kind_number (kind_of kind) }
{
    match kind {
        Kind::File => NF4REG,
        Kind::Directory => NF4DIR,
        Kind::SymbolicLink => NF4LNK,
    }
}

#[tactic(auto, unfolding(crate::specs::Texts::stored_text))]
fn put_stored(out: &mut XdrWriter, row: &StoredRow<'_>) -> Result<(), AllocError>
    ensures text { OnOk result (out.new ≡ out.old ++ stored_text (stored_of row.now)) }
    ensures fits { OnOk result (StoredFits (stored_of row.now)) }
{
    out.u32(row.lfs)?;
    out.u32(row.pi)?;
    put_run(out, row.bytes)
}

fn put_some_stored(out: &mut XdrWriter, v: &Option<StoredRow<'_>>) -> Result<(), AllocError>
    ensures text { OnOk result (out.new ≡ out.old
        ++ present_text stored_text (option_map stored_of v.now)) }
    ensures fits { OnOk result (IfThere StoredFits (option_map stored_of v.now)) }
{
    match v {
        None => out.byte(NO),
        Some(row) => {
            out.byte(YES)?;
            put_stored(out, row)
        }
    }
}

/// Data as it stands, or a file's straight from where it is kept.
#[tactic(auto, unfolding(crate::specs::Texts::run_text), using(crate::proofs::Puts::all_read))]
fn put_data(out: &mut XdrWriter, kept: &Data<'_>) -> Result<(), AllocError>
    ensures text { OnOk result (out.new ≡ out.old ++ run_text (bytes_of kept.now)) }
    ensures fits { OnOk result (IsRun (bytes_of kept.now)) }
{
    match kept {
        Data::Bytes(bytes) => put_run(out, bytes),
        Data::File(content) => {
            let size = content.len();
            out.u64(size)?;
            content.append_to(0, size as u32, out)
        }
    }
}

/// Which node it is.
#[tactic(auto, unfolding(crate::specs::Texts::head_text))]
fn put_head(out: &mut XdrWriter, row: &NodeRow<'_>) -> Result<(), AllocError>
    ensures text { OnOk result (out.new ≡ out.old ++ head_text (node_of row.now)) }
    ensures fits { OnOk result (HeadFits (node_of row.now)) }
{
    put_id(out, row.id)?;
    out.u32(number_of_kind(row.kind))?;
    out.u32(row.label)
}

/// When it was accessed, when its attributes changed, and when its data did.
#[tactic(auto, unfolding(crate::specs::Texts::moments_text))]
fn put_moments(out: &mut XdrWriter, row: &NodeRow<'_>) -> Result<(), AllocError>
    ensures text { OnOk result (out.new ≡ out.old ++ moments_text (node_of row.now)) }
    ensures fits { OnOk result (MomentsFit (node_of row.now)) }
{
    put_moment(out, row.accessed)?;
    put_moment(out, row.metadata)?;
    put_moment(out, row.modified)
}

#[tactic(auto, unfolding(crate::specs::Texts::node_text))]
pub fn put_node(out: &mut XdrWriter, row: &NodeRow<'_>) -> Result<(), AllocError>
    ensures text { OnOk result (out.new ≡ out.old ++ node_text (node_of row.now)) }
    ensures fits { OnOk result (NodeFits (node_of row.now)) }
{
    put_head(out, row)?;
    put_some_stored(out, &row.stored)?;
    out.u32(row.mode)?;
    put_data(out, &row.content)?;
    out.u64(row.change)?;
    put_moments(out, row)?;
    put_some_verifier(out, &row.verifier)?;
    out.u64(row.cookies)
}

#[tactic(auto, unfolding(crate::specs::Texts::entry_text))]
pub fn put_entry(out: &mut XdrWriter, row: &EntryRow<'_>) -> Result<(), AllocError>
    ensures text { OnOk result (out.new ≡ out.old ++ entry_text (entry_of row.now)) }
    ensures fits { OnOk result (EntryFits (entry_of row.now)) }
{
    put_id(out, row.directory)?;
    out.u64(row.cookie)?;
    put_run(out, row.name)?;
    put_id(out, row.node)
}

#[tactic(auto, unfolding(crate::specs::Texts::open_text))]
pub fn put_open(out: &mut XdrWriter, row: &OpenRow<'_>) -> Result<(), AllocError>
    ensures text { OnOk result (out.new ≡ out.old ++ open_text (open_of row.now)) }
    ensures fits { OnOk result (OpenFits (open_of row.now)) }
{
    put_id(out, row.id)?;
    out.u64(row.client)?;
    put_run(out, row.owner)?;
    put_id(out, row.node)?;
    out.u32(row.access)?;
    out.u32(row.deny)?;
    out.u32(row.sequence)
}
