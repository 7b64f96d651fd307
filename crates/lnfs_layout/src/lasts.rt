//! Readers and writers of the last numbers, level by level.
ghost use Rattle.std.specs.Prelude.{◌≡◌, ◌++◌, length, map, IfOk, OnOk};
ghost use Rattle.lnfs_xdr.specs.Format.{times};
ghost use Rattle.lnfs_xdr.specs.Reading.{read};
ghost use Rattle.lnfs_xdr.specs.Cursor.{Parses};
ghost use Rattle.lnfs_world.specs.World.{last_of};
ghost use Rattle.lnfs_rows.specs.Lasts.{given_of};
ghost use Rattle.lnfs_rows.specs.World.{AreOf, lasts_of};
ghost use Rattle.lnfs_layout.specs.Grammar.{last_row};
ghost use Rattle.lnfs_layout.specs.Texts.{last_text, lasts_text};
ghost use Rattle.lnfs_layout.specs.Parsing.{ParsesInMemory};
ghost use Rattle.lnfs_layout.specs.Lasts.{IsSplit};
ghost use Rattle.lnfs_layout.specs.Fits.{AreLongs, LastsFit};
ghost use Rattle.lnfs_layout.specs.Whole.{last_numbers};

use crate::errors::Halt;
use lnfs_rows::Lasts;
use lnfs_xdr::{XdrError, XdrReader, XdrWriter};
use std::alloc::{AllocError, Global};

/// The last numbers that were given in a level: before the first of a kind, 0.
#[derive(Clone, Copy, Debug)]
pub(crate) struct LastRow {
    pub clients: u64,
    pub sessions: u64,
    pub contexts: u64,
    pub nodes: u64,
    pub opens: u64,
    pub locks: u64,
}

/// The last numbers of a world's identifiers, and those of locks, by level.
pub type Numbers = (Lasts, Vec<u64>);

#[tactic(auto, unfolding(crate::specs::Grammar::last_row))]
fn read_last(reader: &mut XdrReader<'_>) -> Result<LastRow, XdrError>
    ensures { Parses (λ x. x) result reader.old reader.new (read last_row reader.old.rest) }
{
    let clients = reader.u64()?;
    let sessions = reader.u64()?;
    let contexts = reader.u64()?;
    let nodes = reader.u64()?;
    let opens = reader.u64()?;
    let locks = reader.u64()?;
    Ok(LastRow {
        clients,
        sessions,
        contexts,
        nodes,
        opens,
        locks,
    })
}

fn read_rows(alloc: Global, reader: &mut XdrReader<'_>, levels: u32) -> Result<Vec<LastRow>, Halt>
    ensures { ParsesInMemory (λ v. v.items) result reader.old reader.new
        (read (times levels last_row) reader.old.rest) }
{
    let mut rows = Vec::new(alloc);
    for _ in 0..levels {
        rows.push(read_last(reader)?)?;
    }
    Ok(rows)
}

/// The columns of the rows.
fn split_rows(alloc: Global, rows: &[LastRow]) -> Result<Numbers, AllocError>
    ensures { IfOk result (λ l. IsSplit rows.now l.0 l.1.items) }
{
    let mut lasts = Lasts {
        clients: Vec::new(alloc),
        sessions: Vec::new(alloc),
        contexts: Vec::new(alloc),
        nodes: Vec::new(alloc),
        opens: Vec::new(alloc),
    };
    let mut locks = Vec::new(alloc);
    for row in rows {
        lasts.clients.push(row.clients)?;
        lasts.sessions.push(row.sessions)?;
        lasts.contexts.push(row.contexts)?;
        lasts.nodes.push(row.nodes)?;
        lasts.opens.push(row.opens)?;
        locks.push(row.locks)?;
    }
    Ok((lasts, locks))
}

/// The last numbers of so many levels.
#[tactic(auto, unfolding(crate::specs::Whole::last_numbers))]
pub fn read_lasts(alloc: Global, reader: &mut XdrReader<'_>, levels: u32) -> Result<Numbers, Halt>
    ensures reads { ParsesInMemory (λ l. (lasts_of l.0, given_of l.1.items)) result
        reader.old reader.new (read (last_numbers levels) reader.old.rest) }
    ensures each { IfOk result (λ l. AreOf levels l.0 × (length l.1.items ≡ levels)) }
{
    let rows = read_rows(alloc, reader, levels)?;
    Ok(split_rows(alloc, rows.as_slice())?)
}

/// The number of a level: 0 where there is none.
#[tactic(auto, using(crate::proofs::LastNumbers::last_at))]
fn number_at(numbers: &[u64], level: u32) -> u64
    ensures { result ≡ last_of level (given_of numbers.now) }
{
    match numbers.get(level as usize) {
        Some(number) => *number,
        None => 0,
    }
}

#[tactic(auto, unfolding(crate::specs::Texts::last_text))]
fn put_last(out: &mut XdrWriter, lasts: &Lasts, locks: &[u64], level: u32) -> Result<(), AllocError>
    ensures { OnOk result (out.new ≡ out.old
        ++ last_text level (lasts_of lasts.now) (given_of locks.now)) }
{
    out.u64(number_at(lasts.clients.as_slice(), level))?;
    out.u64(number_at(lasts.sessions.as_slice(), level))?;
    out.u64(number_at(lasts.contexts.as_slice(), level))?;
    out.u64(number_at(lasts.nodes.as_slice(), level))?;
    out.u64(number_at(lasts.opens.as_slice(), level))?;
    out.u64(number_at(locks, level))
}

/// Each number of a slice has room in the layout.
pub fn are_longs(_numbers: &[u64])
    ensures { AreLongs _numbers.now }
{}

/// Each last number has room in the layout.
pub fn lasts_fit(lasts: &Lasts)
    ensures { LastsFit lasts.now }
{
    are_longs(lasts.clients.as_slice());
    are_longs(lasts.sessions.as_slice());
    are_longs(lasts.contexts.as_slice());
    are_longs(lasts.nodes.as_slice());
    are_longs(lasts.opens.as_slice());
}

/// The last numbers of so many levels. A level that a list has no number of gave none.
pub fn put_lasts(
    out: &mut XdrWriter,
    lasts: &Lasts,
    locks: &[u64],
    levels: u32,
) -> Result<(), AllocError>
    ensures { OnOk result (out.new ≡ out.old
        ++ lasts_text 0 levels (lasts_of lasts.now) (given_of locks.now)) }
{
    for level in 0..levels {
        put_last(out, lasts, locks, level)?;
    }
    Ok(())
}
