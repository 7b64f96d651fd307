//! What is tested of the arguments alone, before the file handles.
ghost use Rattle.std.specs.Prelude.{◌≡◌, true, nat_le, IfOk};
ghost use Rattle.lnfs_arguments.specs.declared.statuses.TheConstants.{NFS4ERR_INVAL};
ghost use Rattle.lnfs_world.specs.Outcome.{Place, Outcome};
ghost use Rattle.lnfs_operations.specs.declared.Gate.TheVariants.{Argument};
ghost use Rattle.lnfs_operations.specs.Chain.{Answer, refuse, demand};
ghost use Rattle.lnfs_sparse_ops.specs.declared.numbers.TheConstants.{NFS4_CONTENT_HOLE, NFS4ERR_UNION_NOTSUPP};
ghost use Rattle.lnfs_sparse_ops.specs.Regions.{is_region, where_region};
ghost use Rattle.lnfs_sparse_ops.specs.Seek as seeking;
ghost use Rattle.lnfs_sparse_ops.specs.Clone.{are_ranges};
ghost use Rattle.lnfs_sparse_args.specs.Values.{region_args_of, clone_args_of};
ghost use Rattle.lnfs_sparse_args.specs.Tests.{unless};

use crate::values::{CloneArgs, RegionArgs, SeekArgs};
use lnfs_arguments::statuses::NFS4ERR_INVAL;
use lnfs_operations::{Gate, Refusal};
use lnfs_sparse_ops::numbers::NFS4ERR_UNION_NOTSUPP;

/// What refuses arguments by a test of them alone.
fn argument(status: u32) -> Refusal
    ensures { result ≡ record { gate = Argument; status = status } }
{
    Refusal {
        gate: Gate::Argument,
        status,
    }
}

/// What refuses ALLOCATE and DEALLOCATE by their region.
///
/// # Errors
///
/// NFS4ERR_INVAL (RFC 7862 section 11.2) of an empty region, and of one that goes past the last offset.
pub fn check_region(args: &RegionArgs) -> Result<(), Refusal>
    ensures region { (p : Place) (next : Outcome (Answer (Unit {0}))) →
        where_region p (region_args_of args.now) next ≡ unless p result next }
    ensures passes { IfOk result (λ it. is_region args.now.offset args.now.length ≡ true) }
{
    if args.is_region() {
        Ok(())
    } else {
        Err(argument(NFS4ERR_INVAL))
    }
}

/// What refuses SEEK by the sort that is looked for.
///
/// # Errors
///
/// NFS4ERR_UNION_NOTSUPP of neither data nor a hole (RFC 7862 section 11.1.1.1).
pub fn check_sort(args: &SeekArgs) -> Result<(), Refusal>
    ensures sort { (p : Place) (next : Outcome (Answer seeking.Sought)) →
        demand (nat_le args.now.what NFS4_CONTENT_HOLE)
        (refuse p Argument NFS4ERR_UNION_NOTSUPP) next ≡ unless p result next }
    ensures passes { IfOk result (λ it. nat_le args.now.what NFS4_CONTENT_HOLE ≡ true) }
{
    if args.is_sort() {
        Ok(())
    } else {
        Err(argument(NFS4ERR_UNION_NOTSUPP))
    }
}

/// What refuses CLONE by its ranges.
///
/// # Errors
///
/// NFS4ERR_INVAL (RFC 7862 section 11.2) of a range that goes past the last offset.
pub fn check_ranges(args: &CloneArgs) -> Result<(), Refusal>
    ensures ranges { (p : Place) (next : Outcome (Answer (Unit {0}))) →
        demand (are_ranges (clone_args_of args.now))
        (refuse p Argument NFS4ERR_INVAL) next ≡ unless p result next }
    ensures passes { IfOk result (λ it. are_ranges (clone_args_of args.now) ≡ true) }
{
    if args.are_ranges() {
        Ok(())
    } else {
        Err(argument(NFS4ERR_INVAL))
    }
}
