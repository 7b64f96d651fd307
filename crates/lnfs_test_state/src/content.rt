//! Bytes at the ends of chunks and of files.

use crate::compare::same;
use lnfs_content::{Content, fits};
use lnfs_world::numbers::MOST_FILE;
use lnfs_xdr::XdrWriter;
use std::alloc::{AllocError, Global};
use std::process::Abort;

/// More than any file has.
const ALL: u32 = 16_777_217;

#[test]
fn the_limit(rt: HostRuntime) {
    same(&rt, fits(0, 16_777_216), true);
    same(&rt, fits(0, 16_777_217), false);
    same(&rt, fits(16_777_215, 1), true);
    same(&rt, fits(16_777_216, 1), false);
    same(&rt, fits(16_777_216, 0), true);
    same(&rt, fits(16_777_217, 0), false);
    same(&rt, fits(u64::MAX, 1), false);
}

/// Compares what is read with the bytes that are due.
fn reads(
    rt: &impl Abort,
    alloc: Global,
    content: &Content,
    offset: u64,
    count: u32,
    due: &[u8],
) -> Result<(), AllocError> {
    let bytes = content.read(alloc, offset, count)?;
    same(rt, bytes.as_slice(), due);
    Ok(())
}

fn fill(rt: &impl Abort, alloc: Global, content: &mut Content) -> Result<(), AllocError> {
    content.set_size(MOST_FILE);
    content.write(alloc, 16_777_214, b"yz")?;
    same(rt, content.len(), 16_777_216);
    reads(rt, alloc, content, 16_777_213, ALL, b"\0yz")?;
    same(rt, content.readable(0, ALL), 16_777_216);
    same(rt, content.takes(16_777_215, b"z"), true);
    same(rt, content.takes(16_777_215, b"z!"), false);
    same(rt, content.takes(u64::MAX, b""), true);
    same(rt, content.readable(u64::MAX, ALL), 0);
    Ok(())
}

#[test]
fn a_file_of_all_bytes(rt: HostRuntime) -> Result<(), AllocError> {
    let mut content = Content::new(rt.alloc());
    fill(&rt, rt.alloc(), &mut content)
}

fn leave_a_gap(rt: &impl Abort, alloc: Global, content: &mut Content) -> Result<(), AllocError> {
    content.write(alloc, 0, b"begin")?;
    content.write(alloc, 8_190, b"end")?;
    same(rt, content.len(), 8_193);
    reads(rt, alloc, content, 3, 4, b"in\0\0")?;
    reads(rt, alloc, content, 8_187, 5, b"\0\0\0en")?;
    reads(rt, alloc, content, 8_191, ALL, b"nd")?;
    reads(rt, alloc, content, 8_193, ALL, b"")
}

#[test]
fn a_gap_of_zeros(rt: HostRuntime) -> Result<(), AllocError> {
    let mut content = Content::new(rt.alloc());
    leave_a_gap(&rt, rt.alloc(), &mut content)
}

fn cut_and_grow(rt: &impl Abort, alloc: Global, content: &mut Content) -> Result<(), AllocError> {
    content.write(alloc, 4_094, b"abcd")?;
    content.set_size(4_095);
    content.set_size(4_099);
    reads(rt, alloc, content, 4_093, ALL, b"\0a\0\0\0\0")
}

#[test]
fn cut_and_grown(rt: HostRuntime) -> Result<(), AllocError> {
    let mut content = Content::new(rt.alloc());
    cut_and_grow(&rt, rt.alloc(), &mut content)
}

fn append(alloc: Global, content: &mut Content, out: &mut XdrWriter) -> Result<(), AllocError> {
    content.write(alloc, 4_094, b"abcd")?;
    out.u32(3)?;
    content.append_to(4_095, 3, out)
}

#[test]
fn appended_behind_others(rt: HostRuntime) -> Result<(), AllocError> {
    let mut content = Content::new(rt.alloc());
    let mut out = XdrWriter::new(rt.alloc());
    append(rt.alloc(), &mut content, &mut out)?;
    let bytes = out.into_bytes();
    same(&rt, bytes.as_slice(), b"\0\0\0\x03bcd".as_slice());
    Ok(())
}
