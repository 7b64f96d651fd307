//! The ranges of a CLONE: how many bytes it copies, whether it copies a file onto itself, and how large the target gets.
ghost use Rattle.std.specs.Prelude.{◌≡◌, ◌+◌, ◌-◌, ◌≤◌, ◌==◌, ℕ, cond, length, List, nat_le};
ghost use Rattle.lnfs_world.specs.Effects.{size_written};
ghost use Rattle.lnfs_content.specs.Sparse.{lie_apart};
ghost use Rattle.lnfs_sparse.specs.Cloning.{IsSize};

use lnfs_sparse_args::CloneArgs;

/// Whether the range of the source ends within it.
pub fn is_within(args: &CloneArgs, size: u64) -> bool
    ensures { result ≡ nat_le (args.now.from + args.now.count) size }
{
    let CloneArgs { from, count, .. } = *args;
    from <= size && count <= size - from
}

/// How many bytes are copied: a count of 0 stands for all up to the end of the source.
pub fn count_of(args: &CloneArgs, size: u64) -> u64
    requires { args.now.from + args.now.count ≤ size }
    ensures value { result ≡ cond (args.now.count == 0) (size - args.now.from) args.now.count }
    ensures within { args.now.from + result ≤ size }
{
    if args.count == 0 {
        size - args.from
    } else {
        args.count
    }
}

/// Whether two ranges of so many bytes have none in common.
pub fn lie_apart(from: u64, to: u64, count: u64) -> bool
    ensures { result ≡ lie_apart from to count }
{
    let (first, second) = if from <= to { (from, to) } else { (to, from) };
    count <= second - first
}

/// How many bytes a file has after so many are written at an offset. None where no file has so many.
pub fn size_after(size: u64, to: u64, count: u64) -> Option<u64>
    ensures { (bytes content : List ℕ) → length bytes ≡ count → length content ≡ size →
        IsSize (size_written to bytes content) result }
{
    if count == 0 {
        return Some(size);
    }
    let end = to.checked_add(count)?;
    Some(size.max(end))
}
