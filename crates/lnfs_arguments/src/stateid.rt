ghost use Rattle.std.specs.Prelude.{◌≡◌, ◌++◌, OnOk, OnErr};
ghost use Rattle.lnfs_xdr.specs.Reading.{read};
ghost use Rattle.lnfs_xdr.specs.Written.{Extends};
ghost use Rattle.lnfs_xdr.specs.Cursor.{Parses};
ghost use Rattle.lnfs_arguments.specs.Shared.{state_id, cinfo};
ghost use Rattle.lnfs_arguments.specs.SharedTexts.{state_id_text, cinfo_text};

use lnfs_xdr::{XdrError, XdrReader, XdrWriter};
use std::alloc::AllocError;

/// A state id (`stateid4`, RFC 8881 section 3.3.12).
#[derive(Clone, Copy, Debug, PartialEq, Eq)]
pub struct StateId {
    pub seqid: u32,
    pub other: [u8; 12],
}

/// The change numbers of a directory before and after an operation that was atomic
/// (`change_info4`, RFC 8881 section 3.3.8).
#[derive(Clone, Copy, Debug, PartialEq, Eq)]
pub struct Cinfo {
    pub before: u64,
    pub after: u64,
}

/// What `change_info4` says of an operation that was atomic.
const ATOMIC: u32 = 1;

/// A state id (RFC 8881 section 3.3.12). An error where an item isn't there.
#[tactic(auto, unfolding(crate::specs::Shared::state_id))]
pub fn state_id_of(reader: &mut XdrReader<'_>) -> Result<StateId, XdrError>
    ensures { Parses (λ x. x) result reader.old reader.new (read state_id reader.old.rest) }
{
    let seqid = reader.u32()?;
    let mut other = [0; 12];
    other.copy_from_slice(reader.fixed(12)?);
    Ok(StateId { seqid, other })
}

/// Appends a state id (RFC 8881 section 3.3.12). Without memory it appends nothing.
#[tactic(auto, unfolding(crate::specs::SharedTexts::state_id_text))]
pub fn put_state_id(out: &mut XdrWriter, id: &StateId) -> Result<(), AllocError>
    ensures ok { OnOk result (out.new ≡ out.old ++ state_id_text id.now) }
    ensures err { OnErr result (out.new ≡ out.old) }
{
    let mark = out.mark();
    out.u32(id.seqid)?;
    if out.fixed(&id.other).is_err() {
        out.truncate(mark);
        return Err(AllocError);
    }
    Ok(())
}

/// The change numbers of an operation (`change_info4`). An error where they aren't there, or the
/// operation was not atomic.
#[tactic(auto, unfolding(crate::specs::Shared::cinfo))]
pub fn cinfo_of(reader: &mut XdrReader<'_>) -> Result<Cinfo, XdrError>
    ensures { Parses (λ x. x) result reader.old reader.new (read cinfo reader.old.rest) }
{
    reader.constant(ATOMIC)?;
    let before = reader.u64()?;
    let after = reader.u64()?;
    Ok(Cinfo { before, after })
}

#[tactic(auto, unfolding(crate::specs::SharedTexts::cinfo_text))]
fn put_numbers(out: &mut XdrWriter, info: &Cinfo) -> Result<(), AllocError>
    ensures ok { OnOk result (out.new ≡ out.old ++ cinfo_text info.now) }
    ensures err { OnErr result (Extends out.old out.new) }
{
    out.u32(ATOMIC)?;
    out.u64(info.before)?;
    out.u64(info.after)
}

/// Appends the change numbers of an operation that was atomic (`change_info4`). Without memory it
/// appends nothing.
pub fn put_cinfo(out: &mut XdrWriter, info: &Cinfo) -> Result<(), AllocError>
    ensures ok { OnOk result (out.new ≡ out.old ++ cinfo_text info.now) }
    ensures err { OnErr result (out.new ≡ out.old) }
{
    let mark = out.mark();
    let done = put_numbers(out, info);
    if done.is_err() {
        out.truncate(mark);
    }
    done
}
