//! What is refused, and at which byte.
use crate::compare::same;
use crate::items::{SITE, STATE, Site, begins, bytes_of, put};
use lnfs_layout::{LayoutError, read_layout};
use std::alloc::{AllocError, Global};
use std::process::Abort;

/// Compares the refusal of bytes with the one that is due.
fn is_refused(rt: &impl Abort, alloc: Global, site: &Site, bytes: &[u8], due: &LayoutError) {
    match read_layout(alloc, site.levels, &site.digest, bytes) {
        Ok(_) => panic!(rt; "read"),
        Err(came) => same(rt, &came, due),
    }
}

/// The last of the places that isn't behind the offset.
fn item_at(places: &[usize], offset: usize) -> usize {
    let mut last = 0;
    for place in places {
        if *place <= offset {
            last = *place;
        }
    }
    last
}

/// Compares the refusals of all cuts with the items that aren't whole.
fn cuts(rt: &impl Abort, alloc: Global, bytes: &[u8], places: &[usize]) {
    for length in 0..bytes.len() {
        let at = item_at(places, length);
        is_refused(
            rt,
            alloc,
            &SITE,
            &bytes[..length],
            &LayoutError::Damaged { at },
        );
    }
}

/// A state that is cut to any length is refused at the item that isn't whole.
#[test]
fn each_cut(rt: HostRuntime) -> Result<(), AllocError> {
    let alloc = rt.alloc();
    let bytes = bytes_of(&rt, alloc, STATE)?;
    let places = begins(alloc, STATE)?;
    cuts(&rt, alloc, &bytes, &places);
    Ok(())
}

/// Compares the refusal of the state with another byte at an offset, by which an item isn't one.
fn damaged(
    rt: &impl Abort,
    alloc: Global,
    offset: usize,
    byte: u8,
    at: usize,
) -> Result<(), AllocError> {
    let mut bytes = bytes_of(rt, alloc, STATE)?;
    put(rt, &mut bytes, offset, byte);
    is_refused(rt, alloc, &SITE, &bytes, &LayoutError::Damaged { at });
    Ok(())
}

#[test]
fn items_that_are_none(rt: HostRuntime) -> Result<(), AllocError> {
    let alloc = rt.alloc();
    // Another name.
    damaged(&rt, alloc, 7, b'2', 0)?;
    // 2 ^ 62 + 5 events.
    damaged(&rt, alloc, 40, 64, 40)?;
    // The client's flag that it is confirmed is 2.
    damaged(&rt, alloc, 182, 2, 182)?;
    // The node's kind is 3.
    damaged(&rt, alloc, 351, 3, 348)
}

#[test]
fn items_that_are_none_of_locks(rt: HostRuntime) -> Result<(), AllocError> {
    let alloc = rt.alloc();
    // The flag of the first range is 2.
    damaged(&rt, alloc, 645, 2, 645)?;
    // One range, and the second follows.
    damaged(&rt, alloc, 628, 1, 646)?;
    // A third range that isn't there.
    damaged(&rt, alloc, 628, 3, 663)?;
    // No lock, and one follows.
    damaged(&rt, alloc, 567, 0, 568)?;
    // A second lock that isn't there.
    damaged(&rt, alloc, 567, 2, 663)
}

/// Compares the refusal of a state that is cut.
fn cut(rt: &impl Abort, alloc: Global, bytes: &[u8], length: usize, due: &LayoutError) {
    match bytes.get(..length) {
        Some(bytes) => is_refused(rt, alloc, &SITE, bytes, due),
        None => panic!(rt; "too short"),
    }
}

/// What follows the digest is not looked at.
#[test]
fn another_policy(rt: HostRuntime) -> Result<(), AllocError> {
    let alloc = rt.alloc();
    let mut bytes = bytes_of(&rt, alloc, STATE)?;
    put(&rt, &mut bytes, 8, b'1');
    is_refused(&rt, alloc, &SITE, &bytes, &LayoutError::Policy);
    put(&rt, &mut bytes, 8, b'0');
    put(&rt, &mut bytes, 39, 0);
    cut(&rt, alloc, &bytes, 40, &LayoutError::Policy);
    cut(&rt, alloc, &bytes, 39, &LayoutError::Damaged { at: 8 });
    Ok(())
}

#[test]
fn bytes_behind_the_end(rt: HostRuntime) -> Result<(), AllocError> {
    let alloc = rt.alloc();
    let mut bytes = bytes_of(&rt, alloc, STATE)?;
    let end = bytes.len();
    bytes.push(0)?;
    is_refused(&rt, alloc, &SITE, &bytes, &LayoutError::Damaged { at: end });
    Ok(())
}
