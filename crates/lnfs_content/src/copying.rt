//! Bytes that are copied from chunks to chunks, a part of one chunk at a time.

ghost use Rattle.std.specs.Prelude.{◌≡◌, ℕ, ◌+◌, ◌-◌, ◌/◌, ◌%◌, ◌<◌, ◌≤◌, ◌&&◌, true, cond, nat_le, nat_lt, [], length, OnOk};
ghost use Rattle.lnfs_content.specs.Bytes.{byte_in, cell, byte_at, HasPlace};
ghost use Rattle.lnfs_content.specs.Sparse.{lie_apart};

use crate::chunk::Chunk;
use crate::chunks::{make_room, put_bytes, zero_chunks};
use crate::limits::{CHUNK, MOST_CHUNKS};
use lnfs_world::numbers::MOST_FILE;
use std::alloc::{AllocError, Global};

/// So many of the bytes from a place on, but for zeros behind them.
fn part_of(chunks: &Vec<Chunk>, place: usize, count: usize) -> &[u8]
    requires { place % CHUNK + count ≤ CHUNK }
    ensures short { length result.now ≤ count }
    ensures bytes { (k : ℕ) → k < count → byte_in result.now k
        ≡ byte_at chunks.now.items (place + k) }
    ensures there { (k : ℕ) → k < length result.now → HasPlace chunks.now.items (place + k) }
{
    if place / CHUNK >= chunks.len() {
        return &[];
    }
    let chunk = &chunks[place / CHUNK];
    chunk.part(place % CHUNK, count)
}

/// For how many of so many bytes from a place on there is room.
fn room_of(chunks: &Vec<Chunk>, place: usize, count: usize) -> usize
    ensures short { result ≤ count }
    ensures all { (k : ℕ) → place % CHUNK + k < CHUNK → k < count →
        HasPlace chunks.now.items (place + k) → k < result }
{
    if place / CHUNK >= chunks.len() {
        return 0;
    }
    let chunk = &chunks[place / CHUNK];
    count.min(chunk.room().saturating_sub(place % CHUNK))
}

/// Makes room for so many bytes of other chunks, but for those that have no room there. No byte changes.
pub(crate) fn make_room_for(
    alloc: Global,
    chunks: &mut Vec<Chunk>,
    source: &Vec<Chunk>,
    from: usize,
    to: usize,
    count: usize,
) -> Result<(), AllocError>
    requires source { from + count ≤ MOST_FILE }
    requires fits { to + count ≤ MOST_FILE }
    ensures same { (c at : ℕ) → cell chunks.new.items c at ≡ cell chunks.old.items c at }
    ensures few { length chunks.old.items ≤ MOST_CHUNKS → length chunks.new.items ≤ MOST_CHUNKS }
    ensures room { OnOk result ((k : ℕ) → k < count → HasPlace source.now.items (from + k) →
        HasPlace chunks.new.items (to + k)) }
{
    let mut done = 0;
    while done < count {
        let place = from + done;
        let part = (CHUNK - place % CHUNK).min(count - done);
        let many = room_of(source, place, part);
        make_room(alloc, chunks, to + done, to + done + many)?;
        done += part;
    }
    Ok(())
}

/// Puts bytes where there is room for them, and zeros behind them up to a count.
fn put_piece(alloc: Global, chunks: &mut Vec<Chunk>, place: usize, count: usize, bytes: &[u8])
    requires short { length bytes.now ≤ count }
    requires fits { place + count ≤ MOST_FILE }
    requires room { (i : ℕ) → place ≤ i → i < place + length bytes.now →
        HasPlace chunks.old.items i }
    ensures bytes { (i : ℕ) → byte_at chunks.new.items i
        ≡ cond (nat_le place i && nat_lt i (place + count)) (byte_in bytes.now (i - place))
        (byte_at chunks.old.items i) }
    ensures behind { (i : ℕ) → place + count ≤ i → HasPlace chunks.old.items i →
        HasPlace chunks.new.items i }
    ensures count { length chunks.new.items ≡ length chunks.old.items }
{
    put_bytes(chunks, place, bytes);
    zero_chunks(alloc, chunks, place + bytes.len(), place + count);
}

/// Copies so many bytes of other chunks. There has to be room for those that have room there.
pub(crate) fn copy_chunks(
    alloc: Global,
    chunks: &mut Vec<Chunk>,
    source: &Vec<Chunk>,
    from: usize,
    to: usize,
    count: usize,
)
    requires source { from + count ≤ MOST_FILE }
    requires fits { to + count ≤ MOST_FILE }
    requires room { (k : ℕ) → k < count → HasPlace source.now.items (from + k) →
        HasPlace chunks.old.items (to + k) }
    ensures bytes { (i : ℕ) → byte_at chunks.new.items i
        ≡ cond (nat_le to i && nat_lt i (to + count)) (byte_at source.now.items (from + (i - to)))
        (byte_at chunks.old.items i) }
    ensures count { length chunks.new.items ≡ length chunks.old.items }
{
    let mut done = 0;
    while done < count {
        let place = from + done;
        let part = (CHUNK - place % CHUNK).min(count - done);
        let bytes = part_of(source, place, part);
        put_piece(alloc, chunks, to + done, part, bytes);
        done += part;
    }
}

/// Copies so many bytes from a place to another, for which there is room, by way of a buffer.
fn copy_piece(alloc: Global, chunks: &mut Vec<Chunk>, from: usize, to: usize, count: usize)
    requires part { from % CHUNK + count ≤ CHUNK }
    requires fits { to + count ≤ MOST_FILE }
    requires room { (i : ℕ) → to ≤ i → i < to + count → HasPlace chunks.old.items i }
    ensures bytes { (i : ℕ) → byte_at chunks.new.items i
        ≡ cond (nat_le to i && nat_lt i (to + count)) (byte_at chunks.old.items (from + (i - to)))
        (byte_at chunks.old.items i) }
    ensures behind { (i : ℕ) → to + count ≤ i → HasPlace chunks.old.items i →
        HasPlace chunks.new.items i }
    ensures count { length chunks.new.items ≡ length chunks.old.items }
{
    let mut buffer = [0; CHUNK];
    let bytes = part_of(chunks, from, count);
    let many = bytes.len();
    let part = &mut buffer[..many];
    part.copy_from_slice(bytes);
    put_piece(alloc, chunks, to, count, &buffer[..many]);
}

/// Copies so many bytes from a place to another, for which there is room. The ranges have no place in common.
pub(crate) fn copy_here(
    alloc: Global,
    chunks: &mut Vec<Chunk>,
    from: usize,
    to: usize,
    count: usize,
)
    requires source { from + count ≤ MOST_FILE }
    requires fits { to + count ≤ MOST_FILE }
    requires apart { lie_apart from to count ≡ true }
    requires room { (i : ℕ) → to ≤ i → i < to + count → HasPlace chunks.old.items i }
    ensures bytes { (i : ℕ) → byte_at chunks.new.items i
        ≡ cond (nat_le to i && nat_lt i (to + count)) (byte_at chunks.old.items (from + (i - to)))
        (byte_at chunks.old.items i) }
    ensures count { length chunks.new.items ≡ length chunks.old.items }
{
    let mut done = 0;
    while done < count {
        let place = from + done;
        let part = (CHUNK - place % CHUNK).min(count - done);
        copy_piece(alloc, chunks, place, to + done, part);
        done += part;
    }
}
