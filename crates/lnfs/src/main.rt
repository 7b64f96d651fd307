//! `lnfs`: a labelled NFS 4.2 server, over links and by its recorded traffic.
//!
//! The words after the program's name say what to do; `start` of `lnfs_program` does it, and is proved
//! against what is due for these words, the files that they name, and what a service came to.
#![tactic(auto)]

ghost use Rattle.std.specs.Prelude.{◌≡◌, IfOk, OnErr};
ghost use Rattle.std.specs.Process.{exit_status};
ghost use Rattle.lnfs_stage.specs.Ending.{number_of};

use lnfs_outside::{DiskFiles, StdClock, StdSink, TcpNet};
use lnfs_program::Status;
use lnfs_program::start::start;
use std::alloc::AllocError;
use std::process::ExitCode;
use std::sync::Wait;
use std::thread::Threads;
use std::{env, io};

/// How many bytes standard output gathers before it hands them on. A longer frame, as that of a READ of 32 KiB, goes
/// past them and isn't copied.
const ROOM: usize = 32_768;

/// The words after the program's name.
fn words_of(rt: HostRuntime) -> io::Result<Vec<String>> {
    let mut words = Vec::new(rt.alloc());
    for word in env::args(&rt)?.skip(1) {
        if words.push(word).is_err() {
            return Err(io::Error::from(io::ErrorKind::OutOfMemory));
        }
    }
    Ok(words)
}

/// Does what the words say, with the files of the disk, the standard streams, the sockets and the
/// clock of the system.
fn status_of<R: Threads + Wait + Sync>(
    threads: &R,
    rt: HostRuntime,
    words: &[String],
) -> Result<Status, AllocError> {
    let mut out = StdSink::new(rt.alloc(), ROOM, rt.stdout())?;
    let mut audit = StdSink::new(rt.alloc(), 0, rt.stderr())?;
    let mut files = DiskFiles::new(rt);
    let mut net = TcpNet::new(rt);
    let clock = StdClock::new(rt);
    start(
        threads,
        rt.alloc(),
        words,
        &mut files,
        &mut out,
        &mut audit,
        &mut net,
        &clock,
    )
}

/// How the process ends: with the number of the status that was told, and with 7 where there was no
/// memory for one.
fn exit_of(told: Result<Status, AllocError>) -> ExitCode
    ensures told { IfOk told (λ status. exit_status result ≡ number_of status) }
    ensures memory { OnErr told (exit_status result ≡ 7) }
{
    let status = match told {
        Ok(status) => status,
        Err(_) => Status::Memory,
    };
    ExitCode::from(status.number())
}

fn main(rt: HostRuntime) -> ExitCode {
    let told = match words_of(rt) {
        Ok(words) => status_of(&rt, rt, &words),
        Err(error) if error.kind() == io::ErrorKind::OutOfMemory => Err(AllocError),
        // a word that is no text stands in no form of the command line
        Err(_) => status_of(&rt, rt, &[]),
    };
    exit_of(told)
}
