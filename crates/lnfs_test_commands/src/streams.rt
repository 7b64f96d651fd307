//! Streams that can't hand on what they took.
ghost use Rattle.std.specs.Prelude.{None, []};

use lnfs_outside::{CalmFiles, CalmSink, Failed, MemNet, Sink};
use lnfs_program::start::start;
use lnfs_test_support::runs::still;
use std::alloc::AllocError;

/// Takes everything, and can't hand it on.
#[derive(Drop)]
struct Stuck {
    faults: u64,
}

impl Sink for Stuck {
    ghost taken = { λ s. None };

    ghost write_faults = { λ s. s.faults };

    ghost beside_sink = { λ s. (None, 0) };

    ghost waiting = { λ s. [] };

    fn write(&mut self, bytes: &[u8]) -> Result<usize, Failed> {
        Ok(bytes.len())
    }

    fn flush(&mut self) -> Result<(), Failed> {
        self.faults = self.faults.saturating_add(1);
        Err(Failed)
    }
}

#[test]
fn bytes_that_stay_behind(rt: HostRuntime) -> Result<(), AllocError> {
    let words = vec![in rt.alloc(); String::from_str(rt.alloc(), "--version")?]?;
    let mut files = CalmFiles::new(Vec::new(rt.alloc()));
    let mut calm = CalmSink::new();
    let mut stuck = Stuck { faults: 0 };
    let mut net = MemNet::new(rt.alloc(), Vec::new(rt.alloc()), &[])?;
    let clock = still(rt.alloc())?;
    let status = start(
        &rt,
        rt.alloc(),
        &words,
        &mut files,
        &mut stuck,
        &mut calm,
        &mut net,
        &clock,
    )?;
    assert_eq!(rt; status.number(), 6, "standard output");
    let status = start(
        &rt,
        rt.alloc(),
        &words,
        &mut files,
        &mut calm,
        &mut stuck,
        &mut net,
        &clock,
    )?;
    assert_eq!(rt; status.number(), 6, "the audit stream");
    Ok(())
}
