//! The list of the ranges of one lock.
ghost use Rattle.std.specs.Prelude.{◌≡◌, ◌≤◌, ◌<◌, ◌^◌, ℕ, [], length, IfOk, OnOk, OnErr};
ghost use Rattle.std.specs.List.{find};
ghost use Rattle.lnfs_ranges.specs.Modes.{mode, mode_with, set, conflicts, AreRuns};

use crate::joining::with_mode;
use crate::range::LockRange;
use crate::tally::len_with;
use std::alloc::{AllocError, Global};
use std::marker::Model;

/// The ranges of one lock: rising, disjoint, and no two that touch are of one kind.
///
/// A mode that is asked is `None` for no lock, and else whether the lock is for write.
#[derive(Debug, Drop)]
pub struct RangeList {
    alloc: Global,
    ranges: Vec<LockRange>,
}

impl Model for RangeList {
    ghost use Rattle.std.specs.Prelude.{List};
    ghost use Rattle.lnfs_ranges.specs.declared.range.LockRange.{LockRange};
    ghost use Rattle.lnfs_ranges.specs.Modes.{AreRuns};

    ghost Value = { List LockRange };

    ghost view = { λ l. l.ranges.items };

    ghost invariant = { λ l. AreRuns l.ranges.items };
}

impl RangeList {
    /// No range. Takes no memory.
    pub fn new(alloc: Global) -> RangeList
        ensures { result ≡ [] }
    {
        RangeList {
            alloc,
            ranges: Vec::new(alloc),
        }
    }

    /// The list of ranges that are runs, copied.
    pub fn from_runs(alloc: Global, ranges: &[LockRange]) -> Result<RangeList, AllocError>
        requires { AreRuns ranges.now }
        ensures { IfOk result (λ list. list ≡ ranges.now) }
    {
        Ok(RangeList {
            alloc,
            ranges: Vec::from_slice(alloc, ranges)?,
        })
    }

    /// How many ranges there are.
    pub fn len(&self) -> usize
        ensures { result ≡ length self.now }
    {
        self.ranges.len()
    }

    /// The ranges in order: rising, disjoint, and the maximal runs of one mode.
    pub fn as_slice(&self) -> &[LockRange]
        ensures value { result.now ≡ self.now }
        ensures runs { AreRuns self.now }
    {
        &self.ranges
    }

    /// The first range that stands in the way of a lock of another from `first` to `last` (RFC 8881 section 18.11).
    pub fn first_conflict(&self, first: u64, last: u64, write: bool) -> Option<LockRange>
        ensures { result ≡ find (conflicts first last write) self.now }
    {
        self.ranges
            .iter()
            .copied()
            .find(|range| range.conflicts(first, last, write))
    }

    /// The list with the mode that is asked from `first` to `last`, and every other offset as it is (RFC 8881 section 9.2).
    /// Its length tells whether a limit bears it before anything is changed.
    pub fn with(&self, first: u64, last: u64, asked: Option<bool>) -> Result<RangeList, AllocError>
        requires { first ≤ last }
        ensures value { IfOk result (λ list. list ≡ set self.now first last asked) }
        // What that is at each offset, which with the order of the ranges says all of it.
        ensures modes { IfOk result (λ list. (x : ℕ) → mode list x ≡ mode_with first last asked (mode self.now x) x) }
    {
        let ranges = with_mode(self.alloc, &self.ranges, first, last, asked)?;
        Ok(RangeList {
            alloc: self.alloc,
            ranges,
        })
    }

    /// How many ranges there would be with the mode that is asked from `first` to `last`. Takes no memory.
    pub fn len_after(&self, first: u64, last: u64, asked: Option<bool>) -> usize
        requires { length self.now < 2 ^ 60 }
        ensures { result ≡ length (set self.now first last asked) }
    {
        len_with(&self.ranges, first, last, asked)
    }

    /// Sets the mode from `first` to `last` (RFC 8881 sections 18.10 and 18.12). An `Err` changes nothing.
    pub fn set(&mut self, first: u64, last: u64, asked: Option<bool>) -> Result<(), AllocError>
        requires { first ≤ last }
        ensures ok { OnOk result (self.new ≡ set self.old first last asked) }
        ensures modes { OnOk result ((x : ℕ) → mode self.new x ≡ mode_with first last asked (mode self.old x) x) }
        ensures err { OnErr result (self.new ≡ self.old) }
    {
        *self = self.with(first, last, asked)?;
        Ok(())
    }
}
