//! One range of a lock.
ghost use Rattle.std.specs.Prelude.{◌≡◌};
ghost use Rattle.lnfs_ranges.specs.Modes.{touches, conflicts};

/// A range of offsets, the last one included, and whether it is locked for write. With the last offset in it a range may
/// reach to the end of what a file can have (RFC 8881 section 18.10.3).
#[derive(Clone, Copy, Debug, PartialEq, Eq)]
pub struct LockRange {
    pub first: u64,
    pub last: u64,
    pub write: bool,
}

impl LockRange {
    /// Whether it ends right before another of its kind.
    pub(crate) fn touches(&self, next: &LockRange) -> bool
        ensures { result ≡ touches self.now next.now }
    {
        self.last < next.first && next.first - self.last == 1 && self.write == next.write
    }

    /// Whether it stands in the way of a lock of another: they have an offset in common, and one of them is for write (RFC 8881
    /// section 18.10).
    pub(crate) fn conflicts(&self, first: u64, last: u64, write: bool) -> bool
        ensures { result ≡ conflicts first last write self.now }
    {
        self.first <= last && first <= self.last && (self.write || write)
    }
}
