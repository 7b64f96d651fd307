//! A whole answer, read.
ghost use Rattle.std.specs.Prelude.{length, ◌<◌, ◌^◌, List, ℕ, Ok, Err, IfOk, All};
ghost use Rattle.lnfs_xdr.specs.Message.{Refuses, RefusesAt, parse};
ghost use Rattle.lnfs_arguments.specs.Whole.{Answers, IfGarbage};
ghost use Rattle.lnfs_answers.specs.declared.types.Said.{Said};
ghost use Rattle.lnfs_answers.specs.Grammar.{answer};
ghost use Rattle.lnfs_answers.specs.Continued.{IsAwaited, IsContinued};
ghost use Rattle.lnfs_answers.specs.Whole.{CanSucceed, IsAnswer};

use crate::results::said_of;
use crate::types::{Awaits, Said};
use lnfs_arguments::{CompoundError, Halt};
use lnfs_types::Items;
use lnfs_xdr::XdrReader;
use std::alloc::Global;

/// The answer, read from left to right, which nothing follows.
fn whole_of(alloc: Global, awaited: &[Awaits], bytes: &[u8]) -> Result<Said, CompoundError>
    ensures { Answers result bytes.now (parse (answer awaited.now) bytes.now) }
{
    let mut reader = XdrReader::new(bytes);
    match said_of(alloc, &mut reader, awaited) {
        Ok(said) => {
            if reader.rest().is_empty() {
                Ok(said)
            } else {
                Err(CompoundError::Garbage { at: reader.at() })
            }
        }
        Err(Halt::Memory) => Err(CompoundError::Memory),
        Err(Halt::Fault(_)) => Err(CompoundError::Garbage { at: reader.at() }),
        // None comes of operations that can succeed.
        Err(Halt::Outside { status, .. }) => Ok(Said {
            status,
            results: Items::new(Vec::new(alloc)),
        }),
    }
}

/// The answer that the bytes are, to operations of which this is awaited (RFC 8881 section 16.2.2).
///
/// `Garbage` comes exactly where the bytes are no such answer, with the offset of the first item
/// that no such answer has there; `Memory` only where memory is wanting. Of an operation that can't
/// succeed (`Awaits::of` gives none) status 0 ends the answer, and it has no results.
pub fn read_answer(alloc: Global, awaited: &[Awaits], bytes: &[u8]) -> Result<Said, CompoundError>
    // The result is that of reading from left to right.
    ensures reads { Answers result bytes.now (parse (answer awaited.now) bytes.now) }
    // What is read is what the bytes are, where the operations can succeed.
    ensures found { All CanSucceed awaited.now →
        IfOk result (λ s. IsAnswer awaited.now s bytes.now) }
    // What the bytes are is read, unless memory runs out.
    ensures only { (s : Said) → IsAnswer awaited.now s bytes.now →
        Answers result bytes.now (Ok s) }
    // What is refused is no answer: the items before the offset are there, and none is there.
    ensures garbage { IfGarbage result (λ at. RefusesAt (answer awaited.now) bytes.now at) }
    // And the bytes before the offset can go on to an answer.
    ensures continued { All IsAwaited awaited.now →
        0 < length awaited.now → length awaited.now < 2 ^ 32 →
        IfGarbage result (λ at. IsContinued awaited.now bytes.now at) }
    // Where no item is, that is refused, unless memory runs out.
    ensures refused { (stuck : List ℕ) → Refuses (answer awaited.now) bytes.now stuck →
        Answers result bytes.now (Err stuck) }
{
    whole_of(alloc, awaited, bytes)
}
