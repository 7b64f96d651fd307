//! The laws of two side by side, as a contract of a function that does nothing.
ghost use Rattle.lnfs_operations.specs.Carried.{FurtherCarry};
ghost use Rattle.lnfs_operations.specs.Extra.{AreLawful};
ghost use Rattle.lnfs_beside.specs.Sides.{beside};

use lnfs_operations::ExtraRows;

/// What meets what further operations owe meets it side by side too, also where labels are carried alone.
pub fn beside_is_lawful<A: ExtraRows, B: ExtraRows>()
    ensures laws { AreLawful (beside A.extra B.extra) }
    ensures labels { FurtherCarry A.extra → FurtherCarry B.extra → FurtherCarry (beside A.extra B.extra) }
{}
