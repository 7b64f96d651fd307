//! Chunks in their order. One that is absent is of zeros, like an empty one.

ghost use Rattle.std.specs.Prelude.{◌≡◌, ℕ, ◌+◌, ◌-◌, ◌*◌, ◌/◌, ◌%◌, ◌<◌, ◌≤◌, ◌&&◌, ◌==◌, ◌++◌, cond, not, nat_le, nat_lt, [], length, take, slice_index_or, OnOk, OnErr};
ghost use Rattle.lnfs_content.specs.Bytes.{byte_in, cell, byte_at, bytes_from, HasPlace};
ghost use Rattle.lnfs_content.specs.Sparse.{is_zeros, has_sort, IsFirst};

use crate::chunk::{Chunk, append_zeros};
use crate::limits::{CHUNK, MOST_CHUNKS};
use lnfs_world::numbers::MOST_FILE;
use lnfs_xdr::XdrWriter;
use std::alloc::{AllocError, Global};

/// Adds empty chunks up to a count.
fn add_chunks(alloc: Global, chunks: &mut Vec<Chunk>, count: usize) -> Result<(), AllocError>
    requires { count ≤ MOST_CHUNKS }
    ensures same { (c at : ℕ) → cell chunks.new.items c at ≡ cell chunks.old.items c at }
    ensures few { length chunks.old.items ≤ MOST_CHUNKS → length chunks.new.items ≤ MOST_CHUNKS }
    ensures kept { (c : ℕ) → length (slice_index_or chunks.old.items c [])
        ≤ length (slice_index_or chunks.new.items c []) }
    ensures more { length chunks.old.items ≤ length chunks.new.items }
    ensures enough { OnOk result (count ≤ length chunks.new.items) }
{
    while chunks.len() < count {
        chunks.push(Chunk::new(alloc))?;
    }
    Ok(())
}

fn grow_chunk(chunks: &mut Vec<Chunk>, index: usize, to: usize) -> Result<(), AllocError>
    requires { index < length chunks.old.items }
    ensures same { (c at : ℕ) → cell chunks.new.items c at ≡ cell chunks.old.items c at }
    ensures kept { (c : ℕ) → length (slice_index_or chunks.old.items c [])
        ≤ length (slice_index_or chunks.new.items c []) }
    ensures count { length chunks.new.items ≡ length chunks.old.items }
    ensures room { OnOk result (to ≤ length (slice_index_or chunks.new.items index [])) }
{
    let chunk = &mut chunks[index];
    chunk.grow(to)
}

/// Makes room for the bytes from a place up to another. No byte changes.
pub(crate) fn make_room(
    alloc: Global,
    chunks: &mut Vec<Chunk>,
    from: usize,
    end: usize,
) -> Result<(), AllocError>
    requires { end ≤ MOST_FILE }
    ensures same { (c at : ℕ) → cell chunks.new.items c at ≡ cell chunks.old.items c at }
    ensures few { length chunks.old.items ≤ MOST_CHUNKS → length chunks.new.items ≤ MOST_CHUNKS }
    ensures kept { (i : ℕ) → HasPlace chunks.old.items i → HasPlace chunks.new.items i }
    ensures room { OnOk result ((i : ℕ) → from ≤ i → i < end → HasPlace chunks.new.items i) }
{
    let count = end.div_ceil(CHUNK);
    add_chunks(alloc, chunks, count)?;
    let mut index = from / CHUNK;
    while index < count {
        let to = (end - index * CHUNK).min(CHUNK);
        grow_chunk(chunks, index, to)?;
        index += 1;
    }
    Ok(())
}

fn put_part(chunks: &mut Vec<Chunk>, index: usize, at: usize, bytes: &[u8])
    requires there { index < length chunks.old.items }
    requires fits { at + length bytes.now ≤ length (slice_index_or chunks.old.items index []) }
    requires short { at + length bytes.now ≤ CHUNK }
    ensures cells { (c r : ℕ) → cell chunks.new.items c r
        ≡ cond (c == index && (nat_le at r && nat_lt r (at + length bytes.now)))
        (byte_in bytes.now (r - at)) (cell chunks.old.items c r) }
    ensures kept { (c : ℕ) → length (slice_index_or chunks.old.items c [])
        ≤ length (slice_index_or chunks.new.items c []) }
    ensures count { length chunks.new.items ≡ length chunks.old.items }
{
    let chunk = &mut chunks[index];
    chunk.put(at, bytes);
}

/// Writes bytes where there is room for them.
pub(crate) fn put_bytes(chunks: &mut Vec<Chunk>, offset: usize, bytes: &[u8])
    requires room { (i : ℕ) → offset ≤ i → i < offset + length bytes.now →
        HasPlace chunks.old.items i }
    requires fits { offset + length bytes.now ≤ MOST_FILE }
    ensures bytes { (i : ℕ) → byte_at chunks.new.items i
        ≡ cond (nat_le offset i && nat_lt i (offset + length bytes.now))
        (byte_in bytes.now (i - offset)) (byte_at chunks.old.items i) }
    ensures kept { (i : ℕ) → HasPlace chunks.old.items i → HasPlace chunks.new.items i }
    ensures count { length chunks.new.items ≡ length chunks.old.items }
{
    let mut done = 0;
    while done < bytes.len() {
        let place = offset + done;
        let at = place % CHUNK;
        let part = (CHUNK - at).min(bytes.len() - done);
        put_part(chunks, place / CHUNK, at, &bytes[done..done + part]);
        done += part;
    }
}

/// Makes zeros of the bytes from a place on.
pub(crate) fn cut_chunks(chunks: &mut Vec<Chunk>, size: usize)
    ensures bytes { (i : ℕ) → byte_at chunks.new.items i
        ≡ cond (nat_lt i size) (byte_at chunks.old.items i) 0 }
    ensures count { length chunks.new.items ≤ length chunks.old.items }
{
    let whole = size / CHUNK;
    let rest = size % CHUNK;
    chunks.truncate(whole + 1);
    if whole < chunks.len() {
        let chunk = &mut chunks[whole];
        chunk.cut(rest);
    }
}

fn zero_part(alloc: Global, chunks: &mut Vec<Chunk>, index: usize, at: usize, count: usize)
    requires there { index < length chunks.old.items }
    requires fits { at + count ≤ CHUNK }
    ensures cells { (c r : ℕ) → r < CHUNK → cell chunks.new.items c r
        ≡ cond (c == index && (nat_le at r && nat_lt r (at + count))) 0
        (cell chunks.old.items c r) }
    ensures behind { (c r : ℕ) → r < CHUNK → (c ≡ index → at + count ≤ r) →
        r < length (slice_index_or chunks.old.items c []) →
        r < length (slice_index_or chunks.new.items c []) }
    ensures whole { at ≡ 0 → count ≡ CHUNK → slice_index_or chunks.new.items index [] ≡ [] }
    ensures kept { (c : ℕ) → c < index → slice_index_or chunks.new.items c []
        ≡ slice_index_or chunks.old.items c [] }
    ensures count { length chunks.new.items ≡ length chunks.old.items }
{
    let chunk = &mut chunks[index];
    chunk.zero(alloc, at, count);
}

/// Makes zeros of the bytes from a place up to another. Whole chunks of them take no memory then.
pub(crate) fn zero_chunks(alloc: Global, chunks: &mut Vec<Chunk>, first: usize, end: usize)
    requires begun { first ≤ end }
    requires fits { end ≤ MOST_FILE }
    ensures bytes { (i : ℕ) → byte_at chunks.new.items i
        ≡ cond (nat_le first i && nat_lt i end) 0 (byte_at chunks.old.items i) }
    ensures behind { (i : ℕ) → end ≤ i → HasPlace chunks.old.items i → HasPlace chunks.new.items i }
    ensures whole { (c : ℕ) → first ≤ CHUNK * c → CHUNK * c + CHUNK ≤ end →
        slice_index_or chunks.new.items c [] ≡ [] }
    ensures count { length chunks.new.items ≡ length chunks.old.items }
{
    let mut place = first;
    while place < end && place / CHUNK < chunks.len() {
        let at = place % CHUNK;
        let part = (CHUNK - at).min(end - place);
        zero_part(alloc, chunks, place / CHUNK, at, part);
        place += part;
    }
}

/// Whether a chunk has a byte that is no zero.
fn has_data(chunks: &Vec<Chunk>, index: usize) -> bool
    ensures { result ≡ not (is_zeros (take CHUNK (slice_index_or chunks.now.items index []))) }
{
    if index >= chunks.len() {
        return false;
    }
    let chunk = &chunks[index];
    chunk.has_data()
}

/// The first place from one on that is in a chunk with data, or in one without, or the end.
pub(crate) fn next_place(chunks: &Vec<Chunk>, from: usize, end: usize, filled: bool) -> usize
    requires begun { from ≤ end }
    requires fits { end ≤ MOST_FILE }
    ensures { IsFirst (λ i. has_sort filled
        (take CHUNK (slice_index_or chunks.now.items (i / CHUNK) []))) from end result }
{
    let mut place = from;
    while place < end {
        if has_data(chunks, place / CHUNK) == filled {
            return place;
        }
        let rest = CHUNK - place % CHUNK;
        place = (place + rest).min(end);
    }
    place
}

/// Appends so many bytes of a chunk from a place on.
fn append_part(
    chunks: &Vec<Chunk>,
    index: usize,
    at: usize,
    count: usize,
    out: &mut XdrWriter,
) -> Result<(), AllocError>
    requires { at + count ≤ CHUNK }
    ensures ok { OnOk result (out.new ≡ out.old ++ bytes_from (cell chunks.now.items index) at
        count) }
    ensures err { OnErr result (out.new ≡ out.old) }
{
    if index >= chunks.len() {
        return append_zeros(count, out);
    }
    let chunk = &chunks[index];
    chunk.append_to(at, count, out)
}

/// Appends the bytes from a place up to another. An error leaves what was written before.
pub(crate) fn append_bytes(
    chunks: &Vec<Chunk>,
    from: usize,
    end: usize,
    out: &mut XdrWriter,
) -> Result<(), AllocError>
    requires { from ≤ end }
    ensures ok { OnOk result (out.new ≡ out.old ++ bytes_from (byte_at chunks.now.items) from
        (end - from)) }
    ensures err { OnErr result (out.new ≡ out.old) }
{
    let mark = out.mark();
    let mut place = from;
    while place < end {
        let at = place % CHUNK;
        let part = (CHUNK - at).min(end - place);
        let Ok(()) = append_part(chunks, place / CHUNK, at, part, out) else {
            out.truncate(mark);
            return Err(AllocError);
        };
        place += part;
    }
    Ok(())
}
