//! The outside as one value.
ghost use Rattle.std.specs.Prelude.{[], ◌∷◌, All};
ghost use Rattle.lnfs_types.specs.Moments.{Fits};
ghost use Rattle.lnfs_traffic.specs.Texts.{recording_text};
ghost use Rattle.lnfs_stage.specs.Seen.{Seen};
ghost use Rattle.lnfs_stage.specs.Writes.{to_out, to_audit};
ghost use Rattle.lnfs_stage.specs.Due.{written};
ghost use Rattle.lnfs_stage.specs.Does.{Does, Beside, ReadsIn, OpensIn, ReadsPiece, HandedOn};

use crate::stop::Stop;
use lnfs_types::Event;
use std::alloc::Global;

/// Files, standard output and the audit stream.
pub trait Outside {
    type F;

    // what is told of all three
    ghost seen: { Self → Seen };
    // the files themselves
    ghost shelf: { Self → Self.F };

    /// Writes a text on standard output.
    fn put_text(&mut self, text: &[u8]) -> Result<(), Stop>
        ensures does { Does result (seen self.old) (seen self.new)
            (written (to_out text.now ∷ [])) }
        ensures beside { Beside result (seen self.old) (seen self.new) (shelf self.old)
            (shelf self.new) };

    /// Writes on standard output the recording of events. Takes no memory.
    fn put_recording(&mut self, events: &[Event]) -> Result<(), Stop>
        requires fits { All Fits events.now }
        ensures does { Does result (seen self.old) (seen self.new)
            (written (to_out (recording_text events.now) ∷ [])) }
        ensures beside { Beside result (seen self.old) (seen self.new) (shelf self.old)
            (shelf self.new) };

    /// Writes a line on the audit stream, behind all that standard output took: on a terminal that
    /// shows both, it doesn't come before the frame of its event. An empty line is none.
    fn put_line(&mut self, line: &[u8]) -> Result<(), Stop>
        ensures does { Does result (seen self.old) (seen self.new)
            (written (to_audit line.now ∷ [])) }
        ensures beside { Beside result (seen self.old) (seen self.new) (shelf self.old)
            (shelf self.new) };

    /// Reads the file of the name whole, or tells that there is none.
    fn read_file(&mut self, alloc: Global, name: &str) -> Result<Vec<u8>, Stop>
        ensures { ReadsIn result (seen self.old) (seen self.new) name.now };

    /// Makes the file of the name current, or tells that there is none.
    fn open(&mut self, alloc: Global, name: &str) -> Result<(), Stop>
        ensures { OpensIn result (seen self.old) (seen self.new) name.now };

    /// Puts the next bytes of the current file at the front of the buffer and says how many. Into a
    /// buffer that isn't empty it is 0 only at the file's end.
    fn read(&mut self, buf: &mut [u8]) -> Result<usize, Stop>
        ensures { ReadsPiece result (seen self.old) (seen self.new) buf.new };

    /// Hands on all that the two streams took; the second too where the first fails.
    fn hand_on(&mut self) -> Result<(), Stop>
        ensures does { Does result (seen self.old) (seen self.new) (written []) }
        ensures handed { HandedOn result (seen self.old) (seen self.new) }
        ensures beside { Beside result (seen self.old) (seen self.new) (shelf self.old)
            (shelf self.new) };
}
