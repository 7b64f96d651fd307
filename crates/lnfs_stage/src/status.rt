//! The status of a run.
ghost use Rattle.std.specs.Prelude.{◌≡◌};
ghost use Rattle.lnfs_stage.specs.Ending.{number_of, status_of};

use crate::ending::Ending;
use crate::stop::Stop;

/// The status of a run.
#[derive(Debug, Drop)]
pub enum Status {
    /// All that is due was written.
    Ok,
    /// The run has another ending, and all that is due was written, with its line.
    Ends(Ending),
    /// A call of the files failed.
    ReadFault,
    /// A write failed.
    WriteFault,
    /// There was no memory.
    Memory,
    /// A call of the net failed: before all links were accepted, or where a client talks over its link.
    NetFault,
}

impl Status {
    /// The status of a call that ended, or gave up.
    pub fn of(ended: Result<(), Stop>) -> Status
        ensures { result ≡ status_of ended }
    {
        match ended {
            Ok(()) => Status::Ok,
            Err(Stop::Ends(ending)) => Status::Ends(ending),
            Err(Stop::ReadFault) => Status::ReadFault,
            Err(Stop::WriteFault) => Status::WriteFault,
            Err(Stop::Memory) => Status::Memory,
            Err(Stop::NetFault) => Status::NetFault,
        }
    }

    /// The exit status of the program: 0 for `Ok`, and from 2 to 14 for the others.
    pub fn number(&self) -> u8
        ensures { result ≡ number_of self.now }
    {
        match self {
            Status::Ok => 0,
            Status::Ends(ending) => ending.number(),
            Status::ReadFault => 5,
            Status::WriteFault => 6,
            Status::Memory => 7,
            Status::NetFault => 8,
        }
    }
}
