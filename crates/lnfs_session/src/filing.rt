//! What is kept of the levels of rows that are there already.
ghost use Rattle.std.specs.Prelude.{◌≡◌, ◌≢◌, ◌<◌, ◌≤◌, ◌==◌, cond, IfOk, OnOk, map};
ghost use Rattle.std.specs.List.{AllByRecursion};
ghost use Rattle.lnfs_world.specs.Rows.{inserted};
ghost use Rattle.lnfs_world.specs.World.{level_order};
ghost use Rattle.lnfs_counts.specs.Counters.{FitsCounter};
ghost use Rattle.lnfs_counts.specs.Counters as counters;
ghost use Rattle.lnfs_counts.specs.Counted.{IsCounted};
ghost use Rattle.lnfs_rows.specs.Lasts.{given_of};
ghost use Rattle.lnfs_rows.specs.Told.{client_of, session_of};
ghost use Rattle.lnfs_session.specs.Indexed.{AreFiled, FilesOne};
ghost use Rattle.lnfs_session.specs.Levels.{HaveNone, records_at, lasts_of, put_number};
ghost use Rattle.lnfs_session.specs.Makes.{MakesRecords, MakesSessions};
ghost use Rattle.lnfs_session.specs.Sessions.{own_id};

use crate::levels::{LevelRecords, OwnerNumbers, count, give, make_level, make_place, put};
use lnfs_counts::{Counter, count_given, counters_of};
use lnfs_rows::{ClientRow, SessionRow};
use lnfs_world::numbers::LAST_NUMBER;
use std::alloc::{AllocError, Global};
use std::collections::BTreeMap;

/// Gives a level its last number, where it gave one.
fn give_last(
    levels: &mut BTreeMap<u32, LevelRecords>,
    alloc: Global,
    level: usize,
    last: u64,
) -> Result<(), AllocError>
    requires fits { last ≢ 0 → FitsCounter (record { level = level; number = last }) }
    requires none { HaveNone levels.old }
    ensures none { OnOk result (HaveNone levels.new) }
    ensures lasts { OnOk result (lasts_of levels.new.entries ≡ cond (last == 0)
        (lasts_of levels.old.entries) (inserted level_order (record
        { level = level; number = last }) (lasts_of levels.old.entries))) }
{
    if last == 0 {
        return Ok(());
    }
    make_level(levels, alloc, level as u32)?;
    give(levels, level as u32, last as u32);
    Ok(())
}

/// Levels that have no record yet, with the last number of each.
fn levels_given(alloc: Global, lasts: &[u64]) -> Result<BTreeMap<u32, LevelRecords>, AllocError>
    requires fits { AllByRecursion FitsCounter (given_of lasts.now) }
    ensures none { IfOk result (λ levels. HaveNone levels) }
    ensures lasts { IfOk result (λ levels. lasts_of levels.entries ≡ given_of lasts.now) }
{
    let mut levels = BTreeMap::new(alloc);
    for level in 0..lasts.len() {
        give_last(&mut levels, alloc, level, lasts[level])?;
    }
    Ok(levels)
}

/// An owner's numbers where its confirmed record has a number, or its pending one.
fn with_number(numbers: OwnerNumbers, confirmed: bool, number: u32) -> OwnerNumbers
    ensures { result ≡ put_number confirmed number numbers }
{
    if confirmed {
        OwnerNumbers {
            pending: numbers.pending,
            confirmed: Some(number),
        }
    } else {
        OwnerNumbers {
            pending: Some(number),
            confirmed: numbers.confirmed,
        }
    }
}

/// Counts a record and enters its number as its owner's.
fn file_one(
    levels: &mut BTreeMap<u32, LevelRecords>,
    alloc: Global,
    row: &ClientRow<'_>,
) -> Result<(), AllocError>
    requires number { row.now.id.number ≤ LAST_NUMBER }
    requires few { records_at levels.old row.now.id.level < LAST_NUMBER }
    ensures { OnOk result (FilesOne (client_of row.now) levels.old levels.new) }
{
    let level = row.id.level;
    let numbers = make_place(levels, alloc, level, row.owner)?;
    let records = count(levels, level) + 1;
    let left = with_number(numbers, row.confirmed, row.id.number as u32);
    put(levels, level, row.owner, left, records);
    Ok(())
}

/// What is kept of the levels of these rows, which were given these last numbers.
pub fn file_clients(
    alloc: Global,
    rows: &[ClientRow<'_>],
    lasts: &[u64],
) -> Result<BTreeMap<u32, LevelRecords>, AllocError>
    requires { MakesRecords (map client_of rows.now) (given_of lasts.now) }
    ensures filed { IfOk result (λ levels. AreFiled (map client_of rows.now) levels) }
    ensures lasts { IfOk result (λ levels. lasts_of levels.entries ≡ given_of lasts.now) }
{
    let mut levels = levels_given(alloc, lasts)?;
    for row in rows {
        file_one(&mut levels, alloc, row)?;
    }
    Ok(levels)
}

/// The counters of these rows, whose levels were given these last numbers.
pub fn count_sessions(
    alloc: Global,
    rows: &[SessionRow<'_>],
    lasts: &[u64],
) -> Result<BTreeMap<u32, Counter>, AllocError>
    requires { MakesSessions (map session_of rows.now) (given_of lasts.now) }
    ensures counted { IfOk result (λ made. IsCounted own_id (map session_of rows.now)
        (given_of lasts.now) (counters.last_at made) (counters.count_at made)) }
    ensures lasts { IfOk result (λ made. counters.lasts_of made.entries ≡ given_of lasts.now) }
{
    let mut made = counters_of(alloc, lasts)?;
    for row in rows {
        count_given(&mut made, row.id.level);
    }
    Ok(made)
}
