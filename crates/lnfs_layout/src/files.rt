//! Readers of nodes, of their names and of opens.
ghost use Rattle.std.specs.Option.{option_map};
ghost use Rattle.lnfs_xdr.specs.Reading.{read};
ghost use Rattle.lnfs_xdr.specs.Cursor.{Parses};
ghost use Rattle.lnfs_rows.specs.Told.{id_of, kind_of, stored_of, node_of, entry_of, open_of};
ghost use Rattle.lnfs_layout.specs.Grammar.{present, kind, stored_label, node_head, node_moments, node_row, entry_row, open_row};

use crate::columns::{read_id, read_moment, read_run, read_some_verifier};
use crate::numbers::{NF4DIR, NF4LNK, NF4REG, NO, YES};
use lnfs_rows::{Data, EntryRow, Id, Kind, NodeRow, OpenRow, StoredRow};
use lnfs_types::Moment;
use lnfs_xdr::{XdrError, XdrReader};

#[tactic(auto, unfolding(crate::specs::Grammar::kind))]
fn read_kind(reader: &mut XdrReader<'_>) -> Result<Kind, XdrError>
    ensures { Parses kind_of result reader.old reader.new (read kind reader.old.rest) }
{
    match reader.among(&[NF4REG, NF4DIR, NF4LNK])? {
        NF4REG => Ok(Kind::File),
        NF4DIR => Ok(Kind::Directory),
        _ => Ok(Kind::SymbolicLink),
    }
}

#[tactic(auto, unfolding(crate::specs::Grammar::stored_label))]
fn read_stored<'a>(reader: &mut XdrReader<'a>) -> Result<StoredRow<'a>, XdrError>
    ensures { Parses stored_of result reader.old reader.new (read stored_label reader.old.rest) }
{
    let lfs = reader.u32()?;
    let pi = reader.u32()?;
    let bytes = read_run(reader)?;
    Ok(StoredRow { lfs, pi, bytes })
}

fn read_some_stored<'a>(reader: &mut XdrReader<'a>) -> Result<Option<StoredRow<'a>>, XdrError>
    ensures { Parses (option_map stored_of) result reader.old reader.new
        (read (present stored_label) reader.old.rest) }
{
    match reader.byte(YES)? {
        NO => Ok(None),
        _ => Ok(Some(read_stored(reader)?)),
    }
}

/// Which node it is: its identifier, its kind and its label's level.
#[tactic(auto, unfolding(crate::specs::Grammar::node_head))]
fn read_head(reader: &mut XdrReader<'_>) -> Result<(Id, Kind, u32), XdrError>
    ensures { Parses (λ x. (id_of x.0, kind_of x.1, x.2)) result reader.old reader.new
        (read node_head reader.old.rest) }
{
    let id = read_id(reader)?;
    let kind = read_kind(reader)?;
    let label = reader.u32()?;
    Ok((id, kind, label))
}

/// When it was accessed, when its attributes changed, and when its data did.
#[tactic(auto, unfolding(crate::specs::Grammar::node_moments))]
fn read_moments(reader: &mut XdrReader<'_>) -> Result<(Moment, Moment, Moment), XdrError>
    ensures { Parses (λ x. (x.0, x.1, x.2)) result reader.old reader.new
        (read node_moments reader.old.rest) }
{
    let accessed = read_moment(reader)?;
    let metadata = read_moment(reader)?;
    let modified = read_moment(reader)?;
    Ok((accessed, metadata, modified))
}

#[tactic(auto, unfolding(crate::specs::Grammar::node_row))]
pub fn read_node<'a>(reader: &mut XdrReader<'a>) -> Result<NodeRow<'a>, XdrError>
    ensures { Parses node_of result reader.old reader.new (read node_row reader.old.rest) }
{
    let (id, kind, label) = read_head(reader)?;
    let stored = read_some_stored(reader)?;
    let mode = reader.u32()?;
    let content = read_run(reader)?;
    let change = reader.u64()?;
    let (accessed, metadata, modified) = read_moments(reader)?;
    let verifier = read_some_verifier(reader)?;
    let cookies = reader.u64()?;
    Ok(NodeRow {
        id,
        kind,
        label,
        verifier,
        stored,
        mode,
        content: Data::Bytes(content),
        change,
        accessed,
        metadata,
        modified,
        cookies,
    })
}

#[tactic(auto, unfolding(crate::specs::Grammar::entry_row))]
pub fn read_entry<'a>(reader: &mut XdrReader<'a>) -> Result<EntryRow<'a>, XdrError>
    ensures { Parses entry_of result reader.old reader.new (read entry_row reader.old.rest) }
{
    let directory = read_id(reader)?;
    let cookie = reader.u64()?;
    let name = read_run(reader)?;
    let node = read_id(reader)?;
    Ok(EntryRow {
        directory,
        cookie,
        name,
        node,
    })
}

#[tactic(auto, unfolding(crate::specs::Grammar::open_row))]
pub fn read_open<'a>(reader: &mut XdrReader<'a>) -> Result<OpenRow<'a>, XdrError>
    ensures { Parses open_of result reader.old reader.new (read open_row reader.old.rest) }
{
    let id = read_id(reader)?;
    let client = reader.u64()?;
    let owner = read_run(reader)?;
    let node = read_id(reader)?;
    let access = reader.u32()?;
    let deny = reader.u32()?;
    let sequence = reader.u32()?;
    Ok(OpenRow {
        id,
        client,
        owner,
        node,
        access,
        deny,
        sequence,
    })
}
