//! Last numbers as a list of one for each level, from level 0 on, where a level that gave none has 0.
ghost use Rattle.std.specs.Prelude.{◌≡◌, ℕ, IfOk};
ghost use Rattle.std.specs.List.{AllByRecursion};
ghost use Rattle.lnfs_world.specs.World.{last_of};
ghost use Rattle.lnfs_rows.specs.Lasts.{given_of, each_of};
ghost use Rattle.lnfs_counts.specs.Counters.{last_at, count_at, lasts_of, FitsCounter};

use crate::counters::{Counter, last_given};
use std::alloc::{AllocError, Global};
use std::collections::BTreeMap;

/// The last number of each of so many levels, 0 where a level gave none.
pub fn last_numbers(
    alloc: Global,
    counters: &BTreeMap<u32, Counter>,
    levels: u32,
) -> Result<Vec<u64>, AllocError>
    ensures { IfOk result (λ ns. ns.items ≡ each_of levels (lasts_of counters.now.entries)) }
{
    // The levels rise, so that each has one counter.
    let _count = counters.len();
    let mut numbers = Vec::new(alloc);
    for level in 0..levels {
        numbers.push(u64::from(last_given(counters, level)))?;
    }
    Ok(numbers)
}

/// The counters of levels that have no row yet, made of the last number of each.
pub fn counters_of(alloc: Global, lasts: &[u64]) -> Result<BTreeMap<u32, Counter>, AllocError>
    requires fits { AllByRecursion FitsCounter (given_of lasts.now) }
    ensures lasts { IfOk result (λ counters. lasts_of counters.entries ≡ given_of lasts.now) }
    ensures last { IfOk result (λ counters. (level : ℕ) →
        last_at counters level ≡ last_of level (given_of lasts.now)) }
    ensures count { IfOk result (λ counters. (level : ℕ) → count_at counters level ≡ 0) }
{
    let mut counters = BTreeMap::new(alloc);
    for (level, number) in lasts.iter().enumerate() {
        if *number == 0 {
            continue;
        }
        let given = Counter {
            last: *number as u32,
            count: 0,
        };
        counters.insert(level as u32, given)?;
    }
    Ok(counters)
}
