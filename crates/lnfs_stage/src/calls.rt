//! Calls of one sink or of the files alone.
ghost use Rattle.std.specs.Prelude.{◌≡◌, ◌≤◌, [], All, OnOk, IfOk, IfErr, IfSome};
ghost use Rattle.std.specs.Io.{ReadsAtMost};
ghost use Rattle.std.specs.Io.KnownBytes.{ReadConsumes};
ghost use Rattle.lnfs_outside.specs.Causes.{Rose};
ghost use Rattle.lnfs_outside.specs.Bytes.{Puts};
ghost use Rattle.lnfs_types.specs.Moments.{Fits};
ghost use Rattle.lnfs_traffic.specs.Texts.{recording_text};
ghost use Rattle.lnfs_stage.specs.Seen.{stream};
ghost use Rattle.lnfs_stage.specs.Does.{Reads, Finding, Finds, HandsAll, PutsLine};

use crate::ending::Ending;
use crate::stop::Stop;
use lnfs_outside::{Files, Sink, put_all};
use lnfs_traffic::put_traffic;
use lnfs_types::{Event, Text};
use std::alloc::Global;

/// How many bytes are read at once of a file that is read whole.
const PIECE: usize = 65_536;

/// Writes all of the bytes.
pub fn put<K: Sink>(sink: &mut K, bytes: &[u8]) -> Result<(), Stop>
    ensures bytes { Puts (K.taken sink.old) (K.taken sink.new) result bytes.now }
    ensures later { K.write_faults sink.old ≤ K.write_faults sink.new }
    ensures excused { IfErr result (λ stop. (stop ≡ Stop.WriteFault)
        × Rose (K.write_faults sink.old) (K.write_faults sink.new)) }
{
    match put_all(sink, bytes) {
        Ok(()) => Ok(()),
        Err(_) => Err(Stop::WriteFault),
    }
}

/// Writes the recording of events. Takes no memory.
pub fn put_recording<K: Sink>(sink: &mut K, events: &[Event]) -> Result<(), Stop>
    requires { All Fits events.now }
    ensures bytes { Puts (K.taken sink.old) (K.taken sink.new) result (recording_text events.now) }
    ensures later { K.write_faults sink.old ≤ K.write_faults sink.new }
    ensures excused { IfErr result (λ stop. (stop ≡ Stop.WriteFault)
        × Rose (K.write_faults sink.old) (K.write_faults sink.new)) }
{
    match put_traffic(sink, events) {
        Ok(()) => Ok(()),
        Err(_) => Err(Stop::WriteFault),
    }
}

/// Hands on all that a sink took.
pub fn hand_on<K: Sink>(sink: &mut K) -> Result<(), Stop>
    ensures { HandsAll result
        (stream (K.taken sink.old) (K.waiting sink.old) (K.write_faults sink.old))
        (stream (K.taken sink.new) (K.waiting sink.new) (K.write_faults sink.new)) }
{
    match sink.flush() {
        Ok(()) => Ok(()),
        Err(_) => Err(Stop::WriteFault),
    }
}

/// Writes a line, behind all that the other stream took. An empty line is none.
pub fn put_line<K: Sink, A: Sink>(out: &mut K, audit: &mut A, line: &[u8]) -> Result<(), Stop>
    ensures { PutsLine result (stream (K.taken out.old) (K.waiting out.old) (K.write_faults out.old))
        (stream (A.taken audit.old) (A.waiting audit.old) (A.write_faults audit.old))
        (stream (K.taken out.new) (K.waiting out.new) (K.write_faults out.new))
        (stream (A.taken audit.new) (A.waiting audit.new) (A.write_faults audit.new)) line.now }
{
    if line.is_empty() {
        return Ok(());
    }
    hand_on(out)?;
    put(audit, line)
}

/// Reads the current file to its end.
fn read_rest<F: Files>(alloc: Global, files: &mut F) -> Result<Vec<u8>, Stop>
    ensures bytes { IfOk result (λ bytes. IfSome (F.left files.old) (λ left. bytes.items ≡ left)) }
    ensures content { F.content files.new ≡ F.content files.old }
    ensures later { F.faults files.old ≤ F.faults files.new }
    ensures excused { IfErr result (λ stop. Finds stop (F.faults files.old) (F.faults files.new)) }
{
    let mut bytes = Vec::new(alloc);
    let mut buf = [0u8; PIECE];
    loop {
        let Ok(count) = files.read(&mut buf) else {
            return Err(Stop::ReadFault);
        };
        if count == 0 {
            return Ok(bytes);
        }
        bytes.extend_from_slice(&buf[..count])?;
    }
}

/// Reads the file of the name whole, or tells that there is none.
pub fn read_file<F: Files>(alloc: Global, files: &mut F, name: &str) -> Result<Vec<u8>, Stop>
    ensures { Reads result (F.content files.old) (F.faults files.old) (F.content files.new)
        (F.faults files.new) name.now }
{
    match files.open(name) {
        Ok(true) => read_rest(alloc, files),
        Ok(false) => {
            let name = Text::copy_of(alloc, name)?;
            Err(Stop::Ends(Ending::NoFile { name }))
        }
        Err(_) => Err(Stop::ReadFault),
    }
}

/// Makes the file of the name current, or tells that there is none.
pub fn open<F: Files>(alloc: Global, files: &mut F, name: &str) -> Result<(), Stop>
    ensures { Finding result (F.content files.old) (F.faults files.old) (F.content files.new)
        (F.left files.new) (F.faults files.new) name.now }
{
    match files.open(name) {
        Ok(true) => Ok(()),
        Ok(false) => {
            let name = Text::copy_of(alloc, name)?;
            Err(Stop::Ends(Ending::NoFile { name }))
        }
        Err(_) => Err(Stop::ReadFault),
    }
}

/// Puts the next bytes of the current file at the front of the buffer and says how many.
pub fn read<F: Files>(files: &mut F, buf: &mut [u8]) -> Result<usize, Stop>
    ensures bound { ReadsAtMost result buf.new }
    ensures bytes { ReadConsumes (F.left files.old) (F.left files.new) result buf.new }
    ensures content { F.content files.new ≡ F.content files.old }
    ensures later { F.faults files.old ≤ F.faults files.new }
    ensures excused { IfErr result (λ stop. Finds stop (F.faults files.old) (F.faults files.new)) }
{
    match files.read(buf) {
        Ok(count) => Ok(count),
        Err(_) => Err(Stop::ReadFault),
    }
}
