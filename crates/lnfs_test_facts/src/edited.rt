//! Checkpoints whose rows are edited, and what becomes of them.
use crate::codecs::codecs_of;
use crate::edits::edit;
use crate::words::Stock;
use lnfs_format::Codecs;
use lnfs_layout::{Laid, read_layout, write_layout};
use lnfs_test_checkpoint_support::judged::comes_to;
use lnfs_test_checkpoint_support::served::{checkpoint_after, events_of};
use lnfs_test_support::flaw::{Flaw, demand, read_of};
use lnfs_test_support::rows::{cells_of, counted_rows};
use std::alloc::{AllocError, Global};

/// The digits of a number.
const DIGITS: &[u8] = b"0123456789";

/// A checkpoint that rows edit, and its policy, which has so many levels.
#[derive(Clone, Copy)]
pub struct Base<'a> {
    pub policy: &'a str,
    pub levels: u32,
    pub bytes: &'a [u8],
}

/// The digest that a checkpoint has behind the name of its layout.
fn digest_of(alloc: Global, bytes: &[u8]) -> Result<[u8; 32], Flaw> {
    let found = bytes.get(8..).and_then(|rest| rest.first_chunk::<32>());
    match found {
        Some(digest) => Ok(*digest),
        None => Err(Flaw::new(alloc, "a digest", "a checkpoint")),
    }
}

/// The rows of a checkpoint.
fn laid_of<'a>(alloc: Global, base: Base<'a>, digest: &[u8; 32]) -> Result<Laid<'a>, Flaw> {
    let read = read_layout(alloc, base.levels, digest, base.bytes);
    read_of(alloc, read.ok(), "a checkpoint")
}

/// Makes edits of rows.
fn edit_all<'a>(
    alloc: Global,
    laid: &mut Laid<'a>,
    stock: Stock<'a>,
    edits: &'a str,
) -> Result<(), Flaw> {
    for words in edits.split(';') {
        let words = words.trim();
        if !words.is_empty() {
            demand(alloc, edit(alloc, laid, stock, words)?, "an edit", edits)?;
        }
    }
    Ok(())
}

/// A checkpoint whose rows are edited as words tell.
pub fn edited<'a>(
    alloc: Global,
    base: Base<'a>,
    stock: Stock<'a>,
    edits: &'a str,
) -> Result<Vec<u8>, Flaw> {
    let digest = digest_of(alloc, base.bytes)?;
    let mut laid = laid_of(alloc, base, &digest)?;
    edit_all(alloc, &mut laid, stock, edits)?;
    let Laid {
        events,
        lists,
        locks,
    } = laid;
    Ok(write_layout(alloc, base.levels, &digest, events, &lists, &locks)?)
}

/// Edits a checkpoint as a row of a table tells, and compares what becomes of it.
fn check_row<'a>(
    alloc: Global,
    codecs: &Codecs,
    base: Base<'a>,
    stock: Stock<'a>,
    row: &'a str,
) -> Result<(), Flaw> {
    let cells = cells_of(alloc, row)?;
    let [_, edits, due] = cells.as_slice() else {
        return demand(alloc, false, "cells", row);
    };
    let bytes = edited(alloc, base, stock, edits)?;
    comes_to(alloc, codecs, base.policy, &bytes, due, row)
}

/// The digits of the numbers that begin with two of them.
fn put_hundred(all: &mut Vec<[u8; 4]>, first: u8, second: u8) -> Result<(), AllocError> {
    for third in DIGITS {
        for fourth in DIGITS {
            all.push([first, second, *third, *fourth])?;
        }
    }
    Ok(())
}

/// The digits of the numbers from 0 to 9,999.
fn all_digits(alloc: Global) -> Result<Vec<[u8; 4]>, AllocError> {
    let mut all = Vec::new(alloc);
    for first in DIGITS {
        for second in DIGITS {
            put_hundred(&mut all, *first, *second)?;
        }
    }
    Ok(all)
}

/// Checks each row of a table, which has so many, by edits of a checkpoint.
pub fn check_table(
    alloc: Global,
    base: Base<'_>,
    longest: usize,
    table: &str,
    count: usize,
) -> Result<(), Flaw> {
    let codecs = codecs_of(alloc)?;
    let long = Vec::from_elem(alloc, b'a', longest)?;
    let digits = all_digits(alloc)?;
    let stock = Stock {
        long: &long,
        digits: &digits,
    };
    for row in &counted_rows(alloc, table, count)? {
        check_row(alloc, &codecs, base, stock, row)?;
    }
    Ok(())
}

/// Checks each row of a table, which has so many, by edits of the checkpoint after events under a policy of four levels. The
/// longest bytes that an edit puts are so many.
pub fn check_after(
    alloc: Global,
    policy: &str,
    events: &str,
    longest: usize,
    table: &str,
    count: usize,
) -> Result<(), Flaw> {
    let codecs = codecs_of(alloc)?;
    let events = events_of(alloc, events)?;
    let bytes = checkpoint_after(alloc, &codecs, policy, &events)?;
    let base = Base {
        policy,
        levels: 4,
        bytes: &bytes,
    };
    check_table(alloc, base, longest, table, count)
}
