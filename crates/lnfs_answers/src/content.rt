//! What an accepted reply says: the answer to operations, the handle of a context, or nothing.
ghost use Rattle.std.specs.Prelude.{◌≡◌, ◌==◌, length};
ghost use Rattle.std.specs.Str.{bytes_eq};
ghost use Rattle.lnfs_xdr.specs.Cursor.{Gives, Parses};
ghost use Rattle.lnfs_xdr.specs.Format.{Opaque};
ghost use Rattle.lnfs_xdr.specs.Message.{Closed, parse};
ghost use Rattle.lnfs_xdr.specs.Reading.{opaque_of_at, read};
ghost use Rattle.lnfs_answers.specs.Replies.{assertion_start, content, to_assertion, to_operations};
ghost use Rattle.lnfs_answers.specs.Promises.{Hears, seen_wants, such_at};

use crate::numbers::HANDLE_SIZE;
use crate::request::{Heard, Wants};
use crate::results::said_of;
use crate::types::{Awaits, Said};
use lnfs_arguments::Halt;
use lnfs_gss3::numbers::LABEL;
use lnfs_types::{Items, LABEL_LIMIT};
use lnfs_xdr::{XdrError, XdrReader};
use std::alloc::Global;

/// What is heard where nothing follows, and a fault where bytes do.
pub fn closed(reader: &XdrReader<'_>, heard: Heard) -> Result<Heard, Halt>
    ensures { Hears result reader.now reader.now (parse (Closed heard) reader.now.rest) }
{
    if !reader.rest().is_empty() {
        return Err(Halt::Fault(XdrError::TooLong));
    }
    Ok(heard)
}

/// The answer to operations, which nothing follows.
fn operations_of(
    alloc: Global,
    awaited: &[Awaits],
    reader: &mut XdrReader<'_>,
) -> Result<Heard, Halt>
    ensures { Hears result reader.old reader.new
        (parse (to_operations awaited.now) reader.old.rest) }
{
    match said_of(alloc, reader, awaited) {
        Ok(said) => closed(reader, Heard::Said(said)),
        Err(Halt::Memory) => Err(Halt::Memory),
        Err(Halt::Fault(cause)) => Err(Halt::Fault(cause)),
        // None comes of operations that can succeed.
        Err(Halt::Outside { status, .. }) => Ok(Heard::Said(Said {
            status,
            results: Items::new(Vec::new(alloc)),
        })),
    }
}

/// A handle, which is one item with its length word.
fn handle_of(reader: &mut XdrReader<'_>) -> Result<[u8; HANDLE_SIZE], XdrError>
    ensures { Gives (λ h. h) result reader.old reader.new
        (opaque_of_at (λ n. n == HANDLE_SIZE) reader.old.rest) }
{
    XdrReader::new(reader.rest()).constant(HANDLE_SIZE as u32)?;
    let found = reader.opaque(HANDLE_SIZE as u32)?;
    let mut handle = [0; HANDLE_SIZE];
    handle.copy_from_slice(found);
    Ok(handle)
}

/// What stands between a handle and a label of this format.
#[tactic(auto, unfolding(crate::specs::Replies::assertion_start))]
fn assertion_start_of(reader: &mut XdrReader<'_>, lfs: u32, pi: u32) -> Result<u32, XdrError>
    ensures { Parses (λ n. n) result reader.old reader.new
        (read (assertion_start lfs pi) reader.old.rest) }
{
    reader.constant(0)?;
    reader.constant(0)?;
    reader.constant(1)?;
    reader.constant(LABEL)?;
    reader.constant(lfs)?;
    reader.constant(pi)
}

/// The label that was sent.
fn same_of<'a>(reader: &mut XdrReader<'a>, label: &[u8]) -> Result<&'a [u8], XdrError>
    ensures { Parses (λ v. v.now) result reader.old reader.new
        (such_at (Opaque LABEL_LIMIT) (λ same. bytes_eq same label.now) reader.old.rest) }
{
    let found = XdrReader::new(reader.rest()).opaque(LABEL_LIMIT)?;
    if found != label {
        return Err(XdrError::BadBool);
    }
    reader.opaque(LABEL_LIMIT)
}

/// The handle of a context, and the assertion as it was sent, which nothing follows.
#[tactic(auto, using(crate::proofs::Such::such_parse))]
fn assertion_of(reader: &mut XdrReader<'_>, lfs: u32, pi: u32, label: &[u8]) -> Result<Heard, Halt>
    ensures { Hears result reader.old reader.new
        (parse (to_assertion lfs pi label.now) reader.old.rest) }
{
    let handle = handle_of(reader)?;
    assertion_start_of(reader, lfs, pi)?;
    same_of(reader, label)?;
    closed(reader, Heard::Granted { handle })
}

/// What was asked, which nothing follows.
pub fn content_of(
    alloc: Global,
    wants: &Wants<'_>,
    reader: &mut XdrReader<'_>,
) -> Result<Heard, Halt>
    ensures { Hears result reader.old reader.new
        (parse (content (seen_wants wants.now)) reader.old.rest) }
{
    match wants {
        Wants::Results { awaited } => operations_of(alloc, awaited, reader),
        Wants::Context { lfs, pi, label } => assertion_of(reader, *lfs, *pi, label),
        Wants::End => closed(reader, Heard::Ended),
    }
}
