//! The law of lists of ranges, as a contract of a function that does nothing.
ghost use Rattle.std.specs.Prelude.{◌≡◌, ℕ, List};
ghost use Rattle.lnfs_ranges.specs.declared.range.LockRange.{LockRange};
ghost use Rattle.lnfs_ranges.specs.Modes.{mode, AreRuns};

/// Two lists of maximal runs with the same mode at each offset are one list. So what `RangeList::set` says of the modes
/// says all of it.
pub fn runs_are_told_by_their_modes()
    ensures { (xs ys : List LockRange) → AreRuns xs → AreRuns ys → ((x : ℕ) → mode xs x ≡ mode ys x) → xs ≡ ys }
{}
