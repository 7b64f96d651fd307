//! A list of ranges that is made from its front, with neighbours of one kind joined.
ghost use Rattle.std.specs.Prelude.{◌≡◌, ◌≤◌, ◌++◌, ◌∷◌, [], IfOk, OnOk, OnErr};
ghost use Rattle.lnfs_ranges.specs.Modes.{joined, below, above, set, AreApart, AreRuns};

use crate::range::LockRange;
use std::alloc::{AllocError, Global};

/// Puts a range at the end, as a part of the last one where that is its neighbour and of its kind.
fn push_joined(out: &mut Vec<LockRange>, range: LockRange) -> Result<(), AllocError>
    requires { AreApart out.old.items }
    ensures ok { OnOk result (out.new.items ≡ joined (out.old.items ++ range ∷ [])) }
    ensures err { OnErr result (out.new.items ≡ out.old.items) }
    ensures apart { OnOk result (AreApart out.new.items) }
{
    let len = out.len();
    if len > 0 {
        let end = out[len - 1];
        if end.touches(&range) {
            out[len - 1] = LockRange {
                first: end.first,
                last: range.last,
                write: range.write,
            };
            return Ok(());
        }
    }
    out.push(range)?;
    Ok(())
}

/// Puts at the end what lies below an offset.
fn push_below(out: &mut Vec<LockRange>, ranges: &[LockRange], first: u64) -> Result<(), AllocError>
    requires { AreApart out.old.items }
    ensures ok { OnOk result (out.new.items ≡ joined (out.old.items ++ below first ranges.now)) }
    ensures apart { OnOk result (AreApart out.new.items) }
{
    for range in ranges {
        if range.last < first {
            push_joined(out, *range)?;
        } else if range.first < first {
            let part = LockRange {
                last: first - 1,
                ..*range
            };
            push_joined(out, part)?;
        }
    }
    Ok(())
}

/// Puts at the end what lies above an offset.
fn push_above(out: &mut Vec<LockRange>, ranges: &[LockRange], last: u64) -> Result<(), AllocError>
    requires { AreApart out.old.items }
    ensures ok { OnOk result (out.new.items ≡ joined (out.old.items ++ above last ranges.now)) }
    ensures apart { OnOk result (AreApart out.new.items) }
{
    for range in ranges {
        if last < range.first {
            push_joined(out, *range)?;
        } else if last < range.last {
            let part = LockRange {
                first: last + 1,
                ..*range
            };
            push_joined(out, part)?;
        }
    }
    Ok(())
}

/// The ranges with the mode that is asked from `first` to `last`.
pub(crate) fn with_mode(
    alloc: Global,
    ranges: &[LockRange],
    first: u64,
    last: u64,
    asked: Option<bool>,
) -> Result<Vec<LockRange>, AllocError>
    ensures value { IfOk result (λ v. v.items ≡ set ranges.now first last asked) }
    ensures runs { first ≤ last → AreRuns ranges.now → IfOk result (λ v. AreRuns v.items) }
{
    let mut out = Vec::new(alloc);
    push_below(&mut out, ranges, first)?;
    if let Some(write) = asked {
        push_joined(&mut out, LockRange { first, last, write })?;
    }
    push_above(&mut out, ranges, last)?;
    Ok(out)
}
