//! The readers of the results that are awaited.
ghost use Rattle.std.specs.Prelude.{◌≡◌, ◌≢◌, ◌≤◌, ◌<◌, ◌^◌, length};
ghost use Rattle.lnfs_xdr.specs.Reading.{among_at, read};
ghost use Rattle.lnfs_xdr.specs.Cursor.{Gives, Parses};
ghost use Rattle.lnfs_arguments.specs.Parsing.{ParsesInMemory};
ghost use Rattle.lnfs_answers.specs.Grammar.{done, failed, is_count, other, result_for, results_for, said, set, status_before};

use crate::label::label_of;
use crate::names::names_of;
use crate::types::{Awaits, Said, Told};
use lnfs_arguments::Halt;
use lnfs_arguments::numbers::{OP_GETATTR, OP_READDIR};
use lnfs_arguments::statuses::NFS4_OK;
use lnfs_attrs::read_bitmap;
use lnfs_results::{OpResult, read_fields};
use lnfs_types::Items;
use lnfs_xdr::{XdrError, XdrReader};
use std::alloc::Global;

#[tactic(auto, unfolding(crate::specs::Grammar::other))]
fn other_of(alloc: Global, reader: &mut XdrReader<'_>, number: u32) -> Result<Told, Halt>
    ensures { ParsesInMemory (λ x. x) result reader.old reader.new
        (read (other number) reader.old.rest) }
{
    let fields = read_fields(alloc, reader, number)?;
    Ok(Told::Other(fields))
}

#[tactic(auto, unfolding(crate::specs::Grammar::set))]
fn set_of(reader: &mut XdrReader<'_>, status: u32) -> Result<Told, XdrError>
    ensures { Parses (λ x. x) result reader.old reader.new (read (set status) reader.old.rest) }
{
    let set = read_bitmap(reader)?;
    Ok(Told::Other(OpResult::SetAttr { status, set }))
}

/// What follows the status 0.
fn done_of(alloc: Global, reader: &mut XdrReader<'_>, awaits: Awaits) -> Result<Told, Halt>
    ensures { ParsesInMemory (λ x. x) result reader.old reader.new
        (read (done awaits) reader.old.rest) }
{
    match awaits {
        Awaits::Fields { number } => other_of(alloc, reader, number),
        Awaits::Set => Ok(set_of(reader, NFS4_OK)?),
        Awaits::Label => label_of(alloc, reader),
        Awaits::Names => names_of(alloc, reader),
    }
}

/// What follows another status.
fn failed_of(reader: &mut XdrReader<'_>, awaits: Awaits, status: u32) -> Result<Told, XdrError>
    ensures { Parses (λ x. x) result reader.old reader.new
        (read (failed awaits status) reader.old.rest) }
{
    match awaits {
        Awaits::Set => set_of(reader, status),
        Awaits::Fields { number } => Ok(Told::Other(OpResult::Failed { number, status })),
        Awaits::Label => Ok(Told::Other(OpResult::Failed {
            number: OP_GETATTR,
            status,
        })),
        Awaits::Names => Ok(Told::Other(OpResult::Failed {
            number: OP_READDIR,
            status,
        })),
    }
}

/// One result, which has the number and the status that are awaited there.
#[tactic(auto, unfolding(crate::specs::Grammar::result_for))]
fn result_of(
    alloc: Global,
    reader: &mut XdrReader<'_>,
    awaits: Awaits,
    status: u32,
) -> Result<Told, Halt>
    ensures { ParsesInMemory (λ x. x) result reader.old reader.new
        (read (result_for awaits status) reader.old.rest) }
{
    reader.constant(awaits.number())?;
    reader.constant(status)?;
    if status == NFS4_OK {
        done_of(alloc, reader, awaits)
    } else {
        Ok(failed_of(reader, awaits, status)?)
    }
}

/// The status of a result that these are awaited behind.
fn status_before_of(status: u32, more: &[Awaits]) -> u32
    ensures { result ≡ status_before status more.now }
{
    if more.is_empty() { status } else { NFS4_OK }
}

/// A result of each.
#[tactic(auto, unfolding(crate::specs::Grammar::results_for))]
fn results_of(
    alloc: Global,
    reader: &mut XdrReader<'_>,
    status: u32,
    awaited: &[Awaits],
) -> Result<Items<Told>, Halt>
    ensures { ParsesInMemory (λ x. x) result reader.old reader.new
        (read (results_for status awaited.now) reader.old.rest) }
{
    let mut results = Vec::new(alloc);
    let mut left = awaited;
    while let Some((awaits, more)) = left.split_first() {
        let own = status_before_of(status, more);
        results.push(result_of(alloc, reader, *awaits, own)?)?;
        left = more;
    }
    Ok(Items::new(results))
}

/// How many results there are, of so many operations.
fn count_of(reader: &mut XdrReader<'_>, status: u32, asked: usize) -> Result<u32, XdrError>
    ensures { Gives (λ n. n) result reader.old reader.new
        (among_at (is_count status asked) reader.old.rest) }
{
    let count = XdrReader::new(reader.rest()).u32()?;
    let fits = if status == NFS4_OK {
        count as usize == asked
    } else {
        0 < count && count as usize <= asked
    };
    if !fits {
        return Err(XdrError::BadBool);
    }
    reader.u32()
}

/// The answer to operations of which this is awaited. `Fault` where an item isn't there.
#[tactic(auto, unfolding(crate::specs::Grammar::said))]
pub fn said_of(alloc: Global, reader: &mut XdrReader<'_>, awaited: &[Awaits]) -> Result<Said, Halt>
    ensures { ParsesInMemory (λ x. x) result reader.old reader.new
        (read (said awaited.now) reader.old.rest) }
{
    let status = reader.u32()?;
    reader.array_len(0)?;
    let count = count_of(reader, status, awaited.len())?;
    let done = (count as usize).min(awaited.len());
    let results = results_of(alloc, reader, status, &awaited[..done])?;
    Ok(Said { status, results })
}
