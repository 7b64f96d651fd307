//! Totals, level by level.
ghost use Rattle.std.specs.Prelude.{◌≡◌, ◌+◌, ◌-◌, ◌^◌, ◌<◌, ◌≤◌, length, nat_lt, replicate, IfOk};
ghost use Rattle.lnfs_quota.specs.Quota.{row_at, unused, node_charged, node_credited, resized, moved};

use lnfs_calipso::{Level, MAX_LEVELS};
use std::alloc::{AllocError, Global};
use std::marker::Model;

/// What a level uses.
#[derive(Clone, Copy, Debug, PartialEq, Eq)]
pub struct Row {
    /// The nodes whose home the level is.
    pub nodes: u64,
    /// The bytes of the files whose label the level is.
    pub bytes: u64,
}

/// What each level uses, in the order of levels: a row for each that a policy may list. Its value is their rows.
#[derive(Drop)]
pub struct Quota {
    rows: Vec<Row>,
}

impl Model for Quota {
    ghost use Rattle.std.specs.Prelude.{List};
    ghost use Rattle.lnfs_quota.specs.declared.quota.Row.{Row};

    ghost Value = { List Row };

    ghost view = { λ q. q.rows.items };

    ghost use Rattle.std.specs.Prelude.{◌≡◌, length};
    ghost use Rattle.lnfs_calipso.specs.declared.lattice.TheConstants.{MAX_LEVELS};

    ghost invariant = { λ q. length q.rows.items ≡ MAX_LEVELS };
}

impl Quota {
    /// Nothing is used yet.
    ///
    /// # Errors
    ///
    /// `AllocError` where there is no memory.
    pub fn new(alloc: Global) -> Result<Quota, AllocError>
        ensures { IfOk result (λ quota. quota ≡ replicate MAX_LEVELS unused) }
    {
        let rows = vec![in alloc; Row { nodes: 0, bytes: 0 }; MAX_LEVELS]?;
        Ok(Quota { rows })
    }

    /// How many levels are counted: as many as a policy may list.
    pub fn levels(&self) -> usize
        ensures value { result ≡ length self.now }
        ensures all { result ≡ MAX_LEVELS }
    {
        self.rows.len()
    }

    /// Whether a level is one of those that are counted.
    pub fn knows(&self, level: Level) -> bool
        ensures { result ≡ nat_lt level.0 (length self.now) }
    {
        (level.0 as usize) < self.rows.len()
    }

    /// What a level uses: nodes, then bytes. One that isn't counted uses nothing.
    pub fn used(&self, level: Level) -> (u64, u64)
        ensures nodes { result.0 ≡ (row_at self.now level.0).nodes }
        ensures bytes { result.1 ≡ (row_at self.now level.0).bytes }
    {
        match self.rows.get(level.0 as usize) {
            Some(row) => (row.nodes, row.bytes),
            None => (0, 0),
        }
    }

    /// One more node whose home a level is.
    pub fn charge_node(&mut self, level: Level)
        requires known { level.0 < length self.old }
        requires fits { (row_at self.old level.0).nodes + 1 < 2 ^ 64 }
        ensures { self.new ≡ node_charged self.old level.0 }
    {
        self.rows[level.0 as usize].nodes += 1;
    }

    /// One node less whose home a level is.
    pub fn credit_node(&mut self, level: Level)
        requires known { level.0 < length self.old }
        requires held { 0 < (row_at self.old level.0).nodes }
        ensures { self.new ≡ node_credited self.old level.0 }
    {
        self.rows[level.0 as usize].nodes -= 1;
    }

    /// A file of a level goes from `old` bytes to `new`. One that doesn't grow always fits.
    pub fn resize(&mut self, level: Level, old: u64, new: u64)
        requires known { level.0 < length self.old }
        requires held { old ≤ (row_at self.old level.0).bytes }
        requires fits { old < new → (row_at self.old level.0).bytes - old + new < 2 ^ 64 }
        ensures { self.new ≡ resized self.old level.0 old new }
    {
        let row = &mut self.rows[level.0 as usize];
        row.bytes = row.bytes - old + new;
    }

    /// The bytes of a file of a level go.
    pub fn credit_bytes(&mut self, level: Level, bytes: u64)
        requires known { level.0 < length self.old }
        requires held { bytes ≤ (row_at self.old level.0).bytes }
        ensures { self.new ≡ resized self.old level.0 bytes 0 }
    {
        self.rows[level.0 as usize].bytes -= bytes;
    }

    /// The bytes of a file go from one level to another. Both may be the same level.
    pub fn move_up(&mut self, from: Level, to: Level, bytes: u64)
        requires from_known { from.0 < length self.old }
        requires to_known { to.0 < length self.old }
        requires held { bytes ≤ (row_at self.old from.0).bytes }
        requires fits { (row_at self.old to.0).bytes + bytes < 2 ^ 64 }
        ensures { self.new ≡ moved self.old from.0 to.0 bytes }
    {
        self.rows[from.0 as usize].bytes -= bytes;
        self.rows[to.0 as usize].bytes += bytes;
    }
}
