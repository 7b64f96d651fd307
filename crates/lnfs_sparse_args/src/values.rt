ghost use Rattle.std.specs.Prelude.{◌≡◌, ◌==◌, true, nat_le};
ghost use Rattle.lnfs_sparse_ops.specs.declared.numbers.TheConstants.{NFS4_CONTENT_HOLE};
ghost use Rattle.lnfs_sparse_ops.specs.Regions.{is_region, end_of};
ghost use Rattle.lnfs_sparse_ops.specs.Clone.{are_ranges};
ghost use Rattle.lnfs_sparse_args.specs.Values.{region_args_of, clone_args_of};

use lnfs_arguments::StateId;
use lnfs_sparse_ops::numbers::{LAST_OFFSET, NFS4_CONTENT_HOLE};

/// The arguments of ALLOCATE and of DEALLOCATE (RFC 7862 sections 15.1.1 and 15.4.1).
#[derive(Clone, Copy, Debug, PartialEq, Eq)]
pub struct RegionArgs {
    pub id: StateId,
    pub offset: u64,
    pub length: u64,
}

impl RegionArgs {
    /// Whether it is a region: not empty, and not past the last offset.
    pub fn is_region(&self) -> bool
        ensures { result ≡ is_region self.now.offset self.now.length }
    {
        let RegionArgs { offset, length, .. } = *self;
        length != 0 && length <= LAST_OFFSET - offset
    }

    /// The offset behind the region.
    pub fn end(&self) -> u64
        requires { is_region self.now.offset self.now.length ≡ true }
        ensures { result ≡ end_of (region_args_of self.now) }
    {
        self.offset + self.length
    }
}

/// The arguments of SEEK (RFC 7862 section 15.11.1).
#[derive(Clone, Copy, Debug, PartialEq, Eq)]
pub struct SeekArgs {
    pub id: StateId,
    pub offset: u64,
    /// A `data_content4`, or no sort that is served.
    pub what: u32,
}

impl SeekArgs {
    /// Whether its sort is one that is served: data or a hole.
    pub fn is_sort(&self) -> bool
        ensures { result ≡ nat_le self.now.what NFS4_CONTENT_HOLE }
    {
        self.what <= NFS4_CONTENT_HOLE
    }

    /// Whether a hole is looked for, and not data.
    pub fn is_for_hole(&self) -> bool
        ensures { result ≡ (self.now.what == NFS4_CONTENT_HOLE) }
    {
        self.what == NFS4_CONTENT_HOLE
    }
}

/// The arguments of CLONE (RFC 7862 section 15.13.1).
#[derive(Clone, Copy, Debug, PartialEq, Eq)]
pub struct CloneArgs {
    pub source: StateId,
    pub target: StateId,
    pub from: u64,
    pub to: u64,
    /// So many bytes, or all up to the end of the source where it is 0.
    pub count: u64,
}

impl CloneArgs {
    /// Whether neither range goes past the last offset.
    pub fn are_ranges(&self) -> bool
        ensures { result ≡ are_ranges (clone_args_of self.now) }
    {
        let CloneArgs {
            from,
            to,
            count,
            ..
        } = *self;
        count <= LAST_OFFSET - from && count <= LAST_OFFSET - to
    }
}
