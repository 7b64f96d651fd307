//! A state is read from bytes.
ghost use Rattle.std.specs.Prelude.{◌≡◌, ◌≤◌, IfOk, Ok, Err, Some, None, List, ℕ};
ghost use Rattle.std.specs.Str.{bytes_eq};
ghost use Rattle.lnfs_xdr.specs.Reading.{read};
ghost use Rattle.lnfs_xdr.specs.Cursor.{Parses};
ghost use Rattle.lnfs_xdr.specs.Message.{Tells, Refuses, RefusesAt, parse};
ghost use Rattle.lnfs_layout.specs.Whole.{Told, head, body, layout, IsOfAnother};
ghost use Rattle.lnfs_layout.specs.Parsing.{ParsesInMemory, Completes, HasLasts, EachLevel, Answers, IfDamaged, IfPolicy, told_of};

use crate::errors::{Halt, LayoutError};
use crate::lasts::read_lasts;
use crate::lists::{read_files, read_people};
use crate::locks::read_locks;
use crate::numbers::{DIGEST, MAGIC, MOST_EVENTS};
use lnfs_lock_rows::LockRows;
use lnfs_rows::Lists;
use lnfs_xdr::{XdrError, XdrReader};
use std::alloc::Global;

/// A state as it was read: rows that lend the bytes.
#[derive(Drop)]
pub struct Laid<'a> {
    /// How many events it has taken.
    pub events: u64,
    pub lists: Lists<'a>,
    pub locks: LockRows<'a>,
}

/// The digest of a policy, behind the name of the layout.
#[tactic(auto, unfolding(crate::specs::Whole::head))]
fn read_head<'a>(reader: &mut XdrReader<'a>) -> Result<&'a [u8], XdrError>
    ensures { Parses (λ v. v.now) result reader.old reader.new (read head reader.old.rest) }
{
    reader.long_constant(MAGIC)?;
    reader.raw(DIGEST)
}

/// What stands behind the digest.
#[tactic(auto, unfolding(crate::specs::Whole::body))]
fn read_body<'a>(alloc: Global, reader: &mut XdrReader<'a>, levels: u32) -> Result<Laid<'a>, Halt>
    ensures reads { ParsesInMemory told_of result reader.old reader.new
        (read (body levels) reader.old.rest) }
    ensures each { IfOk result (λ laid. HasLasts levels laid) }
{
    let events = reader.long_at_most(MOST_EVENTS)?;
    let (lasts, lock_lasts) = read_lasts(alloc, reader, levels)?;
    let (clients, sessions, contexts) = read_people(alloc, reader)?;
    let (nodes, entries, opens) = read_files(alloc, reader)?;
    let locks = read_locks(alloc, reader)?;
    Ok(Laid {
        events,
        lists: Lists {
            clients,
            sessions,
            contexts,
            nodes,
            entries,
            opens,
            lasts,
        },
        locks: LockRows {
            locks,
            lasts: lock_lasts,
        },
    })
}

fn is_same(given: &[u8], digest: &[u8; DIGEST]) -> bool
    ensures { result ≡ bytes_eq given.now digest.now }
{
    given == digest.as_slice()
}

/// The state, or nothing where the digest is another.
#[tactic(auto, unfolding(crate::specs::Whole::layout))]
fn read_whole<'a>(
    alloc: Global,
    reader: &mut XdrReader<'a>,
    levels: u32,
    digest: &[u8; DIGEST],
) -> Result<Option<Laid<'a>>, Halt>
    ensures reads { Completes result reader.old reader.new
        (parse (layout levels digest.now) reader.old.rest) }
    ensures each { EachLevel levels result }
{
    let given = read_head(reader)?;
    if !is_same(given, digest) {
        return Ok(None);
    }
    let laid = read_body(alloc, reader, levels)?;
    if !reader.rest().is_empty() {
        return Err(Halt::Fault(XdrError::TooLong));
    }
    Ok(Some(laid))
}

fn laid_of<'a>(
    alloc: Global,
    levels: u32,
    digest: &[u8; DIGEST],
    bytes: &'a [u8],
) -> Result<Laid<'a>, LayoutError>
    ensures reads { Answers result bytes.now (parse (layout levels digest.now) bytes.now) }
    ensures each { IfOk result (λ laid. HasLasts levels laid) }
{
    let mut reader = XdrReader::new(bytes);
    match read_whole(alloc, &mut reader, levels, digest) {
        Ok(Some(laid)) => Ok(laid),
        Ok(None) => Err(LayoutError::Policy),
        Err(Halt::Memory) => Err(LayoutError::Memory),
        Err(Halt::Fault(_)) => Err(LayoutError::Damaged { at: reader.at() }),
    }
}

/// The state whose layout the bytes are, under a policy of so many levels and of this digest. Names, owners, what is kept of
/// requests, labels and contents are lent from the bytes.
///
/// # Errors
///
/// `Policy` where the first 40 bytes are in the layout and the digest is another, whatever follows it; else `Damaged`, with
/// the offset of the first item that is not in the layout, or of the first byte behind the last item; `Memory` where memory
/// runs out.
pub fn read_layout<'a>(
    alloc: Global,
    levels: u32,
    digest: &[u8; 32],
    bytes: &'a [u8],
) -> Result<Laid<'a>, LayoutError>
    // The result is that of reading from left to right.
    ensures reads { Answers result bytes.now (parse (layout levels digest.now) bytes.now) }
    // What is read is what the bytes are.
    ensures found { IfOk result (λ laid.
        Tells (layout levels digest.now) (Some (told_of laid)) bytes.now) }
    // There is a last number for each level, of the world's identifiers and of locks.
    ensures each { IfOk result (λ laid. HasLasts levels laid) }
    // What the bytes are is read, unless memory runs out.
    ensures only { (t : Told) → Tells (layout levels digest.now) (Some t) bytes.now →
        Answers result bytes.now (Ok (Some t)) }
    // The policy is another where it is refused, and is refused where it is another.
    ensures policy { IfPolicy result (IsOfAnother digest.now bytes.now) }
    ensures other { IsOfAnother digest.now bytes.now → Answers result bytes.now (Ok None) }
    // What is refused is in no layout: the items before the offset are there, and none is there.
    ensures damaged { IfDamaged result (λ at. RefusesAt (layout levels digest.now) bytes.now at) }
    // Where no item is, that is refused, unless memory runs out.
    ensures refused { (stuck : List ℕ) → Refuses (layout levels digest.now) bytes.now stuck →
        Answers result bytes.now (Err stuck) }
{
    laid_of(alloc, levels, digest, bytes)
}
