//! What stands: the lists of a server, whatever events led to them, and whether it is stopped.
ghost use Rattle.std.specs.Prelude.{◌≡◌, true, false, IfOk, OnOk, OnErr, IsErr};
ghost use Rattle.lnfs_types.specs.Moments.{Fits};
ghost use Rattle.lnfs_world.specs.Both.{both};
ghost use Rattle.lnfs_site.specs.Site.{first_world};
ghost use Rattle.lnfs_tree.specs.Rows.{rows_of};
ghost use Rattle.lnfs_engine.specs.Stores.{only_tree};
ghost use Rattle.lnfs_step.specs.Step.{step_with};
ghost use Rattle.lnfs_step.specs.Journal.{IsKept};
ghost use Rattle.lnfs_vault.specs.Prepared.{IsPrepared};
ghost use Rattle.lnfs_vault.specs.Says.{Says};

use crate::decode::Prepared;
use crate::step::{JournaledEvent, Said, make_step};
use lnfs_engine::{Engine, Extra, first_tree};
use lnfs_gss3::Mechanism;
use lnfs_site::Site;
use std::alloc::{AllocError, Global};

/// The lists, and whether want of memory has stopped it.
#[derive(Drop)]
pub struct Stand<X: Extra> {
    pub engine: Engine<X>,
    pub stopped: bool,
}

impl<X: Extra> Stand<X> {
    /// What stands at a site before all events.
    ///
    /// # Errors
    ///
    /// `AllocError` where there is no memory.
    pub fn first(alloc: Global, site: &Site<'_>, extra: X) -> Result<Stand<X>, AllocError>
        ensures store { IfOk result (λ stand. stand.engine.store
            ≡ only_tree (rows_of (first_world site.now))) }
        ensures extra { IfOk result (λ stand. stand.engine.extra ≡ extra) }
        ensures running { IfOk result (λ stand. stand.stopped ≡ false) }
    {
        let tree = first_tree(alloc, site)?;
        Ok(Stand {
            engine: Engine::new(alloc, tree, extra)?,
            stopped: false,
        })
    }

    /// Makes the step of an event whose record was decoded, from any state that is kept. Want of memory stops it.
    pub fn make_step<'p, M: Mechanism>(
        &mut self,
        alloc: Global,
        site: &Site<'_>,
        arrival: JournaledEvent<'_>,
        prepared: Prepared<'p, '_>,
    ) -> Result<Said<'p>, AllocError>
        requires event { Fits arrival.event.now }
        requires kept { self.old.stopped ≡ false → IsKept X.extra site.now
            (both self.old.engine.store (X.rows self.old.engine.extra)) }
        requires prepared { IsPrepared X.extra.grammar M.signing site.now arrival.event.now.class
            arrival.event.now.message prepared }
        ensures says { IfOk result (λ said. Says M.signing arrival.entry.at
            (both self.new.engine.store (X.rows self.new.engine.extra))
            (step_with X.extra M.signing site.now
            (both self.old.engine.store (X.rows self.old.engine.extra))
            arrival.entry.event.now) said) }
        ensures ok { OnOk result (self.new.stopped ≡ false) }
        ensures stops { OnErr result (self.new.stopped ≡ true) }
        ensures stopped { self.old.stopped ≡ true → IsErr result }
    {
        if self.stopped {
            return Err(AllocError);
        }
        self.stopped = true;
        let said = make_step::<X, M>(alloc, site, &mut self.engine, arrival, prepared)?;
        self.stopped = false;
        Ok(said)
    }
}
