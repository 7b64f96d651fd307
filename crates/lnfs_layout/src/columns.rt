//! Readers of columns.
ghost use Rattle.std.specs.Option.{option_map};
ghost use Rattle.lnfs_xdr.specs.Format.{Long};
ghost use Rattle.lnfs_xdr.specs.Reading.{read};
ghost use Rattle.lnfs_xdr.specs.Cursor.{Parses};
ghost use Rattle.lnfs_rows.specs.Told.{id_of, kept_of};
ghost use Rattle.lnfs_layout.specs.Grammar.{run, flag, present, verifier_bytes, moment, identifier, kept_parts};

use crate::numbers::{NO, VERIFIER, YES};
use lnfs_rows::{Id, Kept};
use lnfs_types::Moment;
use lnfs_xdr::{XdrError, XdrReader};

/// A length and so many bytes.
#[tactic(auto, unfolding(crate::specs::Grammar::run))]
pub fn read_run<'a>(reader: &mut XdrReader<'a>) -> Result<&'a [u8], XdrError>
    ensures { Parses (λ v. v.now) result reader.old reader.new (read run reader.old.rest) }
{
    let size = reader.u64()?;
    reader.raw(size as usize)
}

/// A byte of 0 or 1.
#[tactic(auto, unfolding(crate::specs::Grammar::flag))]
pub fn read_flag(reader: &mut XdrReader<'_>) -> Result<bool, XdrError>
    ensures { Parses (λ b. b) result reader.old reader.new (read flag reader.old.rest) }
{
    Ok(reader.byte(YES)? == YES)
}

/// The 8 bytes of a verifier.
pub fn read_verifier(reader: &mut XdrReader<'_>) -> Result<[u8; VERIFIER], XdrError>
    ensures { Parses (λ v. v) result reader.old reader.new (read verifier_bytes reader.old.rest) }
{
    let mut verifier = [0; VERIFIER];
    verifier.copy_from_slice(reader.raw(VERIFIER)?);
    Ok(verifier)
}

/// A verifier, if there is one.
pub fn read_some_verifier(reader: &mut XdrReader<'_>) -> Result<Option<[u8; VERIFIER]>, XdrError>
    ensures { Parses (λ v. v) result reader.old reader.new
        (read (present verifier_bytes) reader.old.rest) }
{
    match reader.byte(YES)? {
        NO => Ok(None),
        _ => Ok(Some(read_verifier(reader)?)),
    }
}

/// A hyper integer, if there is one.
pub fn read_some_long(reader: &mut XdrReader<'_>) -> Result<Option<u64>, XdrError>
    ensures { Parses (λ n. n) result reader.old reader.new (read (present Long) reader.old.rest) }
{
    match reader.byte(YES)? {
        NO => Ok(None),
        _ => Ok(Some(reader.u64()?)),
    }
}

#[tactic(auto, unfolding(crate::specs::Grammar::moment))]
pub fn read_moment(reader: &mut XdrReader<'_>) -> Result<Moment, XdrError>
    ensures { Parses (λ m. m) result reader.old reader.new (read moment reader.old.rest) }
{
    let secs = reader.u64()?;
    let nanos = reader.u32()?;
    Ok(Moment { secs, nanos })
}

#[tactic(auto, unfolding(crate::specs::Grammar::identifier))]
pub fn read_id(reader: &mut XdrReader<'_>) -> Result<Id, XdrError>
    ensures { Parses id_of result reader.old reader.new (read identifier reader.old.rest) }
{
    let level = reader.u32()?;
    let number = reader.u64()?;
    Ok(Id { level, number })
}

#[tactic(auto, unfolding(crate::specs::Grammar::kept_parts))]
fn read_kept<'a>(reader: &mut XdrReader<'a>) -> Result<Kept<'a>, XdrError>
    ensures { Parses kept_of result reader.old reader.new (read kept_parts reader.old.rest) }
{
    let arguments = read_run(reader)?;
    let reply = read_run(reader)?;
    Ok(Kept { arguments, reply })
}

/// What is kept of a request, if anything is.
pub fn read_some_kept<'a>(reader: &mut XdrReader<'a>) -> Result<Option<Kept<'a>>, XdrError>
    ensures { Parses (option_map kept_of) result reader.old reader.new
        (read (present kept_parts) reader.old.rest) }
{
    match reader.byte(YES)? {
        NO => Ok(None),
        _ => Ok(Some(read_kept(reader)?)),
    }
}
