//! Whether given ranges are those that a lock may have.
ghost use Rattle.std.specs.Prelude.{◌≡◌, ◌<◌, ◌↔◌, true, false};
ghost use Rattle.lnfs_ranges.specs.Modes.{touches, AreRuns};
ghost use Rattle.lnfs_ranges.specs.Following.{IsNext};

use crate::range::LockRange;

/// Whether a range begins behind another, and isn't a part of its run.
fn is_behind(end: &LockRange, range: &LockRange) -> bool
    ensures { (result ≡ true) ↔ ((end.now.last < range.now.first) × (touches end.now range.now ≡ false)) }
{
    end.last < range.first && !end.touches(range)
}

/// Whether a range has an offset, and may come next behind the last one so far.
fn is_next(end: &Option<LockRange>, range: &LockRange) -> bool
    ensures { (result ≡ true) ↔ IsNext end.now range.now }
{
    if range.last < range.first {
        return false;
    }
    match end {
        Some(end) => is_behind(end, range),
        None => true,
    }
}

/// Whether ranges rise, are disjoint, and are each as long as its kind lasts.
pub fn are_runs(ranges: &[LockRange]) -> bool
    ensures { (result ≡ true) ↔ AreRuns ranges.now }
{
    let mut end = None;
    for range in ranges {
        if !is_next(&end, range) {
            return false;
        }
        end = Some(*range);
    }
    true
}
