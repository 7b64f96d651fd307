//! Workers that go on in one order, by a gate that looks at what was written.
ghost use Rattle.std.specs.Prelude.{None, [], refl};

use lnfs_outside::{Failed, Link, MemLink, Sink, Source};
use lnfs_workers::TurnGate;
use std::sync::atomic::{AtomicU64, Ordering};
use std::thread::yield_now;

/// Lets the workers go on in an order, each once the replies to all records before its own were written.
#[derive(Drop)]
pub struct Order<'a> {
    pub workers: &'a [u32],
    pub written: &'a AtomicU64,
}

impl Order<'_> {
    /// The place in the order of a worker's turn.
    fn place(&self, worker: u32, turn: u64) -> u64 {
        let mut turns = 0u64;
        for (place, one) in self.workers.iter().enumerate() {
            if *one == worker {
                turns = turns.saturating_add(1);
            }
            if turns == turn {
                return place as u64;
            }
        }
        0
    }
}

impl TurnGate for Order<'_> {
    fn pass(&self, worker: u32, turn: u64) {
        let place = self.place(worker, turn);
        for _ in 0..100_000_000u64 {
            if self.written.load(Ordering::SeqCst) >= place {
                return;
            }
            yield_now();
        }
    }
}

/// Counts the replies that were written on it.
#[derive(Drop)]
pub struct Counted<'a> {
    pub link: MemLink,
    pub written: &'a AtomicU64,
}

impl Source for Counted<'_> {
    ghost left = { λ s. None };

    ghost read_faults = { λ s. s.link.input.faults };

    ghost beside_source = { λ s. (None, s.link.output.faults) };

    fn read(&mut self, buf: &mut [u8]) -> Result<usize, Failed> {
        self.link.read(buf)
    }
}

impl Sink for Counted<'_> {
    ghost taken = { λ s. None };

    ghost write_faults = { λ s. s.link.output.faults };

    ghost beside_sink = { λ s. (None, s.link.input.faults) };

    ghost waiting = { λ s. [] };

    fn write(&mut self, bytes: &[u8]) -> Result<usize, Failed> {
        let count = self.link.write(bytes)?;
        self.written.fetch_add(1, Ordering::SeqCst);
        Ok(count)
    }

    fn flush(&mut self) -> Result<(), Failed> {
        self.link.flush()
    }
}

impl Link for Counted<'_> {
    ghost besides = { λ s. (refl, refl) };

    fn close(&mut self) {
        self.link.close();
    }
}
