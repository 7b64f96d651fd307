//! The general part of a run: the line of its ending, and the end of its streams.
ghost use Rattle.std.specs.Prelude.{◌≡◌, ℕ};
ghost use Rattle.lnfs_stage.specs.Seen.{Seen};
ghost use Rattle.lnfs_stage.specs.Ending.{status_of};
ghost use Rattle.lnfs_stage.specs.Due.{Due, told};
ghost use Rattle.lnfs_stage.specs.Does.{Becomes, DoesBy, HandedOn};

use crate::outside::Outside;
use crate::stop::Stop;
use std::alloc::Global;

/// Tells the ending of what was judged by its line.
pub fn tell<O: Outside>(
    alloc: Global,
    judged: Result<(), Stop>,
    outside: &mut O,
) -> Result<(), Stop>
    // what was done of what is due was done with the line, whatever came before, and beside any net
    ensures does { (net net' : ℕ) (before : Seen) (due : Due) →
        DoesBy net net' judged before (O.seen outside.old) due →
        DoesBy net net' result before (O.seen outside.new) (told due) }
    ensures becomes { Becomes (status_of judged) (status_of result) }
    ensures shelf { O.shelf outside.new ≡ O.shelf outside.old }
{
    match judged {
        Ok(()) => Ok(()),
        Err(Stop::Ends(ending)) => {
            let line = ending.line(alloc)?;
            outside.put_line(line.as_bytes())?;
            Err(Stop::Ends(ending))
        }
        Err(Stop::ReadFault) => Err(Stop::ReadFault),
        Err(Stop::WriteFault) => Err(Stop::WriteFault),
        Err(Stop::NetFault) => Err(Stop::NetFault),
        Err(Stop::Memory) => Err(Stop::Memory),
    }
}

/// Hands on all that the streams took, however the run ends.
pub fn close<O: Outside>(told: Result<(), Stop>, outside: &mut O) -> Result<(), Stop>
    ensures does { (net net' : ℕ) (before : Seen) (due : Due) →
        DoesBy net net' told before (O.seen outside.old) due →
        DoesBy net net' result before (O.seen outside.new) due }
    ensures becomes { Becomes (status_of told) (status_of result) }
    ensures handed { HandedOn result (O.seen outside.old) (O.seen outside.new) }
    ensures shelf { O.shelf outside.new ≡ O.shelf outside.old }
{
    let handed = outside.hand_on();
    match told {
        Ok(()) => handed,
        Err(Stop::Ends(ending)) => {
            handed?;
            Err(Stop::Ends(ending))
        }
        Err(stop) => Err(stop),
    }
}
