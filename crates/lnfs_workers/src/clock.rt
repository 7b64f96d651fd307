//! The moments of a clock.
ghost use Rattle.std.specs.Prelude.{◌≤◌, ◌<◌};

use lnfs_outside::Clock;
use lnfs_types::Moment;

/// The moment of the call, within the bounds of an event's.
pub fn moment_of<C: Clock>(clock: &C) -> Moment
    ensures may { C.may clock.now result }
    ensures secs { result.secs ≤ 9223372036854775807 }
    ensures nanos { result.nanos < 1000000000 }
{
    clock.now()
}
