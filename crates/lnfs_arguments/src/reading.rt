ghost use Rattle.std.specs.Prelude.{◌≡◌, ◌+◌, ℕ, List, length, IfOk, Ok, Err};
ghost use Rattle.lnfs_xdr.specs.Message.{parse, Tells, Refuses, RefusesAt};
ghost use Rattle.lnfs_xdr.specs.Reading.{read};
ghost use Rattle.lnfs_arguments.specs.Whole.{header, served, is_cut, compound, operation_at, Heads, Steps, Completes, Answers, IfGarbage};
ghost use Rattle.lnfs_arguments.specs.declared.types.Compound.{Compound};

use crate::further::ExtraGrammar;
use crate::halt::{CompoundError, Halt};
use crate::numbers::{MINOR, OP_LEAST, OP_LIMIT, TAG_LIMIT};
use crate::opaque::opaque_of;
use crate::read_table::arguments_of;
use crate::types::{Compound, Op};
use lnfs_types::{Items, Octets};
use lnfs_xdr::{XdrError, XdrReader};
use std::alloc::Global;

/// The next operation. One of a further grammar is taken as it stands.
fn operation_of<'a, E: ExtraGrammar>(
    alloc: Global,
    reader: &mut XdrReader<'a>,
    extra: &E,
) -> Result<Op<'a>, Halt>
    ensures { Steps result reader.new (operation_at E.grammar reader.old.rest) }
{
    let number = reader.u32()?;
    if !extra.serves(number) {
        return arguments_of(alloc, reader, number);
    }
    let len = extra.length(number, reader.rest())?;
    let args = Octets::from_slice(alloc, reader.raw(len)?)?;
    Ok(Op::Extra { number, args })
}

/// Tag, minor version and count. Of another minor version the count isn't read.
#[tactic(auto, unfolding(crate::specs::Whole::header))]
fn header_of(alloc: Global, reader: &mut XdrReader<'_>) -> Result<(Octets, u32, u32), Halt>
    ensures { Heads result reader.new (read header reader.old.rest) }
{
    let tag = opaque_of(alloc, reader, TAG_LIMIT)?;
    let minor = reader.u32()?;
    if minor != MINOR {
        return Ok((tag, minor, 0));
    }
    let count = reader.u32()?;
    Ok((tag, minor, count))
}

/// How many operations are read.
fn served_of(minor: u32, count: u32) -> u32
    ensures { result ≡ served minor count }
{
    if minor != MINOR {
        0
    } else if count > OP_LIMIT {
        1
    } else {
        count
    }
}

/// How many operations there can be at most: each of those that are read has a word at least.
fn room_of(served: u32, bytes: usize) -> usize {
    (served as usize).min(bytes / OP_LEAST)
}

/// Whether what follows them is unread.
fn is_cut_of(minor: u32, count: u32) -> bool
    ensures { result ≡ is_cut minor count }
{
    minor != MINOR || count > OP_LIMIT
}

#[tactic(auto, unfolding(crate::specs::Whole::compound, crate::specs::Whole::operations))]
fn compound_in<'a, E: ExtraGrammar>(
    alloc: Global,
    reader: &mut XdrReader<'a>,
    extra: &E,
) -> Result<Compound<'a>, Halt>
    ensures { Completes result reader.new (parse (compound E.grammar) reader.old.rest) }
{
    let (tag, minor, count) = header_of(alloc, reader)?;
    let is_cut = is_cut_of(minor, count);
    let served = served_of(minor, count);
    let mut ops = Vec::with_capacity(alloc, room_of(served, reader.rest().len()))?;
    for _ in 0..served {
        match operation_of(alloc, reader, extra) {
            Ok(op) => ops.push(op)?,
            Err(Halt::Outside { number, status }) => {
                ops.push(Op::Outside { number, status })?;
                return Ok(Compound {
                    tag,
                    minor,
                    count,
                    ops: Items::new(ops),
                });
            }
            Err(Halt::Memory) => return Err(Halt::Memory),
            Err(Halt::Fault(cause)) => return Err(Halt::Fault(cause)),
        }
    }
    if !is_cut && !reader.rest().is_empty() {
        return Err(Halt::Fault(XdrError::TooLong));
    }
    Ok(Compound {
        tag,
        minor,
        count,
        ops: Items::new(ops),
    })
}

fn compound_of<'a, E: ExtraGrammar>(
    alloc: Global,
    bytes: &'a [u8],
    extra: &E,
) -> Result<Compound<'a>, CompoundError>
    ensures { Answers result bytes.now (parse (compound E.grammar) bytes.now) }
{
    let mut reader = XdrReader::new(bytes);
    match compound_in(alloc, &mut reader, extra) {
        Ok(found) => Ok(found),
        Err(Halt::Memory) => Err(CompoundError::Memory),
        Err(Halt::Fault(_)) => Err(CompoundError::Garbage {
            at: bytes.len() - reader.rest().len(),
        }),
        Err(Halt::Outside { .. }) => unreachable!(),
    }
}

/// The COMPOUND whose arguments the bytes are (RFC 8881 section 16.2.1). The bytes of a WRITE are
/// lent from them.
///
/// With another minor version than 2 neither the count nor an operation is read, and `count` is 0;
/// with a count above 32 the first operation alone, and none after one that is outside of what is
/// served: the rest is then unread. `Garbage` comes
/// with the offset of the first item of which no continuation is in the grammar.
pub fn read_compound<'a, E: ExtraGrammar>(
    alloc: Global,
    bytes: &'a [u8],
    extra: &E,
) -> Result<Compound<'a>, CompoundError>
    // The result is that of reading from left to right.
    ensures reads { Answers result bytes.now (parse (compound E.grammar) bytes.now) }
    // What is read is what the bytes are.
    ensures found { IfOk result (λ c. Tells (compound E.grammar) c bytes.now) }
    // What the bytes are is read, unless memory runs out.
    ensures only { (c : Compound) → Tells (compound E.grammar) c bytes.now →
        Answers result bytes.now (Ok c) }
    // What is refused is no COMPOUND: the items before the offset are there, and none is there.
    ensures garbage { IfGarbage result (λ at. RefusesAt (compound E.grammar) bytes.now at) }
    // Where no item is, that is refused, unless memory runs out.
    ensures refused { (stuck : List ℕ) → Refuses (compound E.grammar) bytes.now stuck →
        Answers result bytes.now (Err stuck) }
{
    compound_of(alloc, bytes, extra)
}
