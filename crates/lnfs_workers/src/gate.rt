//! What holds workers back, for tests of one order.
ghost use Rattle.std.specs.Prelude.{◌≡◌};
ghost use Rattle.lnfs_outside.specs.Calls.{next};

/// What a worker passes before it serves a record.
pub trait TurnGate {
    /// Returns where the worker may go on. Workers are numbered from 0, and each counts its calls
    /// from 1.
    fn pass(&self, worker: u32, turn: u64);
}

/// Holds nobody back.
#[derive(Clone, Copy, Debug, Drop)]
pub struct OpenGate;

impl TurnGate for OpenGate {
    fn pass(&self, _worker: u32, _turn: u64) {}
}

/// How often a worker came to the gate.
#[derive(Drop)]
pub struct Turns {
    pub worker: u32,
    pub made: u64,
}

impl Turns {
    /// Before its first record.
    pub fn new(worker: u32) -> Turns
        ensures { result ≡ record { worker = worker; made = 0 } }
    {
        Turns { worker, made: 0 }
    }

    /// Comes to the gate once more.
    pub fn pass<G: TurnGate>(&mut self, gate: &G)
        ensures { self.new ≡ record { worker = self.old.worker; made = next self.old.made } }
    {
        self.made = self.made.saturating_add(1);
        gate.pass(self.worker, self.made);
    }
}
