//! How long a list of ranges becomes that is made from its front, without the list.
ghost use Rattle.std.specs.Prelude.{◌≡◌, ◌≤◌, ◌<◌, ◌+◌, ◌++◌, ◌∷◌, ◌^◌, [], length, List};
ghost use Rattle.lnfs_ranges.specs.declared.range.LockRange.{LockRange};
ghost use Rattle.lnfs_ranges.specs.Modes.{joined, below, above, set, AreApart};
ghost use Rattle.lnfs_ranges.specs.Tallying.{Tells};

use crate::range::LockRange;

/// How many ranges a list has, and its last one.
#[derive(Clone, Copy, Debug)]
pub struct Tally {
    pub len: usize,
    pub end: Option<LockRange>,
}

/// Counts one more range, as a part of the last one where that is its neighbour and of its kind.
fn count(tally: &mut Tally, range: LockRange)
    requires { tally.old.len < 2 ^ 63 }
    ensures tells { (xs : List LockRange) → AreApart xs → Tells tally.old xs → Tells tally.new (joined (xs ++ range ∷ [])) }
    ensures len { tally.new.len ≤ tally.old.len + 1 }
{
    if let Some(end) = tally.end {
        if end.touches(&range) {
            tally.end = Some(LockRange {
                first: end.first,
                last: range.last,
                write: range.write,
            });
            return;
        }
    }
    tally.len += 1;
    tally.end = Some(range);
}

/// Counts what lies below an offset.
fn count_below(tally: &mut Tally, ranges: &[LockRange], first: u64)
    requires { tally.old.len + length ranges.now < 2 ^ 63 }
    ensures tells { (xs : List LockRange) → AreApart xs → Tells tally.old xs → Tells tally.new (joined (xs ++ below first ranges.now)) }
    ensures len { tally.new.len ≤ tally.old.len + length ranges.now }
{
    for range in ranges {
        if range.last < first {
            count(tally, *range);
        } else if range.first < first {
            let part = LockRange {
                last: first - 1,
                ..*range
            };
            count(tally, part);
        }
    }
}

/// Counts what lies above an offset.
fn count_above(tally: &mut Tally, ranges: &[LockRange], last: u64)
    requires { tally.old.len + length ranges.now < 2 ^ 63 }
    ensures tells { (xs : List LockRange) → AreApart xs → Tells tally.old xs → Tells tally.new (joined (xs ++ above last ranges.now)) }
    ensures len { tally.new.len ≤ tally.old.len + length ranges.now }
{
    for range in ranges {
        if last < range.first {
            count(tally, *range);
        } else if last < range.last {
            let part = LockRange {
                first: last + 1,
                ..*range
            };
            count(tally, part);
        }
    }
}

/// How many ranges there are with the mode that is asked from `first` to `last`.
pub(crate) fn len_with(ranges: &[LockRange], first: u64, last: u64, asked: Option<bool>) -> usize
    requires { length ranges.now < 2 ^ 60 }
    ensures { result ≡ length (set ranges.now first last asked) }
{
    let mut tally = Tally { len: 0, end: None };
    count_below(&mut tally, ranges, first);
    if let Some(write) = asked {
        count(&mut tally, LockRange { first, last, write });
    }
    count_above(&mut tally, ranges, last);
    tally.len
}
