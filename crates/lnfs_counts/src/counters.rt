//! What is kept of each level beside its rows: the last number that it was given, and how many rows it has.
ghost use Rattle.std.specs.Prelude.{◌≡◌, ◌+◌, ◌-◌, ◌<◌, ◌==◌, ℕ, OnOk, IsSome, cond};
ghost use Rattle.std.specs.Ordering.{nat_cmp};
ghost use Rattle.std.specs.BTreeMap.{get};
ghost use Rattle.lnfs_world.specs.Rows.{inserted};
ghost use Rattle.lnfs_world.specs.World.{level_order};
ghost use Rattle.lnfs_counts.specs.Counters.{last_at, count_at, lasts_of, TellSame};

use lnfs_world::numbers::LAST_NUMBER;
use std::alloc::AllocError;
use std::collections::BTreeMap;

/// What is kept of a level.
#[derive(Clone, Copy, Debug, PartialEq, Eq)]
pub struct Counter {
    /// The last number that it was given: before the first, 0.
    pub last: u32,
    /// How many rows it has.
    pub count: u32,
}

/// The last number that a level was given: before the first, 0.
pub fn last_given(counters: &BTreeMap<u32, Counter>, level: u32) -> u32
    ensures { result ≡ last_at counters.now level }
{
    match counters.get(&level) {
        Some(found) => found.last,
        None => 0,
    }
}

/// How many rows a level has.
pub fn count(counters: &BTreeMap<u32, Counter>, level: u32) -> u32
    ensures { result ≡ count_at counters.now level }
{
    match counters.get(&level) {
        Some(found) => found.count,
        None => 0,
    }
}

/// Makes the counter of a level, where there is none. It changes nothing that is told.
pub fn make_counter(counters: &mut BTreeMap<u32, Counter>, level: u32) -> Result<(), AllocError>
    ensures same { TellSame counters.old counters.new }
    ensures there { OnOk result (IsSome (get nat_cmp counters.new level)) }
{
    if counters.contains_key(&level) {
        return Ok(());
    }
    counters.insert(level, Counter { last: 0, count: 0 })?;
    Ok(())
}

/// Counts one more row of a level, which has a counter, under a number.
pub fn count_one(counters: &mut BTreeMap<u32, Counter>, level: u32, number: u32)
    requires there { IsSome (get nat_cmp counters.old level) }
    requires positive { 0 < number }
    requires few { count_at counters.old level < LAST_NUMBER }
    ensures last { (l : ℕ) → last_at counters.new l
        ≡ cond (level == l) number (last_at counters.old l) }
    ensures count { (l : ℕ) → count_at counters.new l
        ≡ cond (level == l) (count_at counters.old level + 1) (count_at counters.old l) }
    ensures lasts { lasts_of counters.new.entries ≡ inserted level_order
        (record { level = level; number = number }) (lasts_of counters.old.entries) }
{
    let Some(found) = counters.get_mut(&level) else {
        return;
    };
    *found = Counter {
        last: number,
        count: found.count + 1,
    };
}

/// Counts one more row of a level, under a number that it was given before.
pub fn count_given(counters: &mut BTreeMap<u32, Counter>, level: u32)
    requires given { 0 < last_at counters.old level }
    requires few { count_at counters.old level < LAST_NUMBER }
    ensures last { (l : ℕ) → last_at counters.new l ≡ last_at counters.old l }
    ensures count { (l : ℕ) → count_at counters.new l
        ≡ cond (level == l) (count_at counters.old level + 1) (count_at counters.old l) }
    ensures lasts { lasts_of counters.new.entries ≡ lasts_of counters.old.entries }
{
    let Some(found) = counters.get_mut(&level) else {
        return;
    };
    found.count += 1;
}

/// Counts one row less of a level.
pub fn count_off(counters: &mut BTreeMap<u32, Counter>, level: u32)
    ensures last { (l : ℕ) → last_at counters.new l ≡ last_at counters.old l }
    ensures count { (l : ℕ) → count_at counters.new l
        ≡ cond (level == l) (count_at counters.old level - 1) (count_at counters.old l) }
    ensures lasts { lasts_of counters.new.entries ≡ lasts_of counters.old.entries }
{
    let Some(found) = counters.get_mut(&level) else {
        return;
    };
    *found = Counter {
        last: found.last,
        count: found.count.saturating_sub(1),
    };
}
