//! The outside as a struct: one that owns its three objects, and one that borrows them.
ghost use Rattle.lnfs_stage.specs.Seen.{stream, world};

use crate::calls::{hand_on, open, put, put_line, put_recording, read, read_file};
use crate::outside::Outside;
use crate::stop::Stop;
use lnfs_outside::{Files, Sink};
use lnfs_types::Event;
use std::alloc::Global;

/// The outside, owned.
#[derive(Drop)]
pub struct World<F, K, A> {
    pub files: F,
    pub out: K,
    pub audit: A,
}

impl<F: Files, K: Sink, A: Sink> Outside for World<F, K, A> {
    type F = F;

    ghost seen = { λ w. world (F.content w.files) (F.left w.files) (F.faults w.files)
        (stream (K.taken w.out) (K.waiting w.out) (K.write_faults w.out))
        (stream (A.taken w.audit) (A.waiting w.audit) (A.write_faults w.audit))
        (0, 0, 0) };

    ghost shelf = { λ w. w.files };

    fn put_text(&mut self, text: &[u8]) -> Result<(), Stop> {
        put(&mut self.out, text)
    }

    fn put_recording(&mut self, events: &[Event]) -> Result<(), Stop> {
        put_recording(&mut self.out, events)
    }

    fn put_line(&mut self, line: &[u8]) -> Result<(), Stop> {
        put_line(&mut self.out, &mut self.audit, line)
    }

    fn read_file(&mut self, alloc: Global, name: &str) -> Result<Vec<u8>, Stop> {
        read_file(alloc, &mut self.files, name)
    }

    fn open(&mut self, alloc: Global, name: &str) -> Result<(), Stop> {
        open(alloc, &mut self.files, name)
    }

    fn read(&mut self, buf: &mut [u8]) -> Result<usize, Stop> {
        read(&mut self.files, buf)
    }

    fn hand_on(&mut self) -> Result<(), Stop> {
        let first = hand_on(&mut self.out);
        let second = hand_on(&mut self.audit);
        first?;
        second
    }
}

/// The outside, borrowed, each object by a reference of its own.
#[derive(Drop)]
pub struct Borrowed<'f, 'k, 'a, F, K, A> {
    pub files: &'f mut F,
    pub out: &'k mut K,
    pub audit: &'a mut A,
}

impl<'f, 'k, 'a, F: Files, K: Sink, A: Sink> Outside for Borrowed<'f, 'k, 'a, F, K, A> {
    type F = F;

    ghost seen = { λ w. world (F.content w.files.now) (F.left w.files.now) (F.faults w.files.now)
        (stream (K.taken w.out.now) (K.waiting w.out.now) (K.write_faults w.out.now))
        (stream (A.taken w.audit.now) (A.waiting w.audit.now) (A.write_faults w.audit.now))
        (w.files.ghost_name, w.out.ghost_name, w.audit.ghost_name) };

    ghost shelf = { λ w. w.files.now };

    fn put_text(&mut self, text: &[u8]) -> Result<(), Stop> {
        put(self.out, text)
    }

    fn put_recording(&mut self, events: &[Event]) -> Result<(), Stop> {
        put_recording(self.out, events)
    }

    fn put_line(&mut self, line: &[u8]) -> Result<(), Stop> {
        put_line(self.out, self.audit, line)
    }

    fn read_file(&mut self, alloc: Global, name: &str) -> Result<Vec<u8>, Stop> {
        read_file(alloc, self.files, name)
    }

    fn open(&mut self, alloc: Global, name: &str) -> Result<(), Stop> {
        open(alloc, self.files, name)
    }

    fn read(&mut self, buf: &mut [u8]) -> Result<usize, Stop> {
        read(self.files, buf)
    }

    fn hand_on(&mut self) -> Result<(), Stop> {
        let first = hand_on(self.out);
        let second = hand_on(self.audit);
        first?;
        second
    }
}
