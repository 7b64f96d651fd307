//! The last number that each level was given. How many locks of a level count isn't kept: it changes with the opens.
ghost use Rattle.std.specs.Prelude.{◌≡◌, ◌<◌, ◌==◌, ℕ, IsSome, cond};
ghost use Rattle.std.specs.Ordering.{nat_cmp};
ghost use Rattle.std.specs.BTreeMap.{get};
ghost use Rattle.lnfs_world.specs.Rows.{inserted};
ghost use Rattle.lnfs_world.specs.World.{level_order};
ghost use Rattle.lnfs_counts.specs.Counters.{last_at, lasts_of};

use lnfs_counts::Counter;
use std::collections::BTreeMap;

/// Gives a number to a level, which has a counter.
pub fn give(counters: &mut BTreeMap<u32, Counter>, level: u32, number: u32)
    requires there { IsSome (get nat_cmp counters.old level) }
    requires positive { 0 < number }
    ensures last { (l : ℕ) → last_at counters.new l
        ≡ cond (level == l) number (last_at counters.old l) }
    ensures lasts { lasts_of counters.new.entries ≡ inserted level_order
        (record { level = level; number = number }) (lasts_of counters.old.entries) }
{
    let Some(found) = counters.get_mut(&level) else {
        return;
    };
    *found = Counter {
        last: number,
        count: found.count,
    };
}
