//! A server that goes on from a checkpoint.
ghost use Rattle.std.specs.Prelude.{◌≡◌, ◌+◌, ◌<◌, ◌≤◌, ◌^◌, Some, true, false, IfOk, IfSome, OnOk, OnErr, IsErr, length};
ghost use Rattle.lnfs_types.specs.declared.limits.TheConstants.{RECORD_LIMIT};
ghost use Rattle.lnfs_types.specs.Moments.{Fits};
ghost use Rattle.lnfs_further.specs.Further.{further};
ghost use Rattle.lnfs_xdr.specs.Message.{Tells};
ghost use Rattle.lnfs_layout.specs.declared.numbers.TheConstants.{MOST_EVENTS};
ghost use Rattle.lnfs_layout.specs.Whole.{Told};
ghost use Rattle.lnfs_step.specs.Step.{step_with};
ghost use Rattle.lnfs_step.specs.Journal.{first_state};
ghost use Rattle.lnfs_vault.specs.Lines.{IsLineOf};
ghost use Rattle.lnfs_checkpoint.specs.Checkpoint.{checkpoint, checkpoint_text, IsFit};
ghost use Rattle.lnfs_checkpoint.specs.Resumed.{state_of};

use crate::telling::write_checkpoint;
use lnfs_format::Codecs;
use lnfs_further::{Further, new_further};
use lnfs_gss3::Mechanism;
use lnfs_lock_bounds::locks_are_bounded;
use lnfs_policy::Policy;
use lnfs_sparse::Sparse;
use lnfs_step::contexts_fit;
use lnfs_types::Event;
use lnfs_vault::{Core, Served};
use std::alloc::{AllocError, Global};
use std::marker::Model;

/// A server's lists and locks after events that were served elsewhere, and how many there were.
#[derive(Drop)]
pub struct Resumed<M: Mechanism + Drop> {
    pub(crate) core: Core<M, Further>,
    pub(crate) events: u64,
}

impl<M: Mechanism + Drop> Model for Resumed<M> {
    ghost use Rattle.std.specs.Prelude.{◌≡◌, false};
    ghost use Rattle.lnfs_checkpoint.specs.Checkpoint.{IsFit};
    ghost use Rattle.lnfs_checkpoint.specs.Resumed.{Resumed};

    ghost Value = { Resumed };

    ghost view = { λ r. record { policy = r.core.policy; events = r.events; world = r.core.world; locks = r.core.extra.first; stopped = r.core.stopped } };

    // the state is one that a server of this policy may have
    ghost invariant = { λ r. r.core.stopped ≡ false → IsFit r.core.policy r.core.world r.core.extra.first };
}

impl<M: Mechanism + Drop> Resumed<M> {
    /// A server before all events. The codecs write its labels.
    ///
    /// # Errors
    ///
    /// `AllocError` where there is no memory.
    pub fn new(
        alloc: Global,
        policy: Policy,
        codecs: &Codecs,
        mechanism: M,
    ) -> Result<Resumed<M>, AllocError>
        ensures policy { IfOk result (λ r. r.policy ≡ policy) }
        ensures events { IfOk result (λ r. r.events ≡ 0) }
        ensures state { IfOk result (λ r. state_of r.world r.locks ≡ first_state further policy) }
        ensures running { IfOk result (λ r. r.stopped ≡ false) }
    {
        contexts_fit::<Further, M>();
        locks_are_bounded::<Sparse, M>();
        policy.law_policy();
        let core = Core::with_extra(alloc, policy, codecs, mechanism, new_further(alloc))?;
        Ok(Resumed { core, events: 0 })
    }

    /// How many events there were, before the checkpoint and since. The next one is that number plus 1.
    pub fn events(&self) -> u64
        ensures { result ≡ self.now.events }
    {
        self.events
    }

    /// Serves an event: makes its step on the state that stands, as the next event behind all that there were. The codecs
    /// read labels that are asserted.
    ///
    /// Want of memory is the one error. It stops the server: each later call answers it too.
    pub fn serve(&mut self, codecs: &Codecs, event: &Event) -> Result<Served, AllocError>
        requires event { Fits event.now }
        requires few { self.old.events < 2 ^ 63 }
        ensures reply { IfOk result (λ served. served.reply ≡ (step_with further M.signing
            self.old.policy (state_of self.old.world self.old.locks) event.now).reply) }
        ensures line { IfOk result (λ served. IsLineOf (self.old.events + 1)
            (step_with further M.signing self.old.policy
            (state_of self.old.world self.old.locks) event.now).line served.line) }
        ensures at { IfOk result (λ served. served.at ≡ self.old.events + 1) }
        ensures state { OnOk result (state_of self.new.world self.new.locks
            ≡ (step_with further M.signing self.old.policy
            (state_of self.old.world self.old.locks) event.now).state) }
        ensures events { OnOk result (self.new.events ≡ self.old.events + 1) }
        ensures ok { OnOk result (self.new.stopped ≡ false) }
        ensures policy { self.new.policy ≡ self.old.policy }
        ensures stops { OnErr result (self.new.stopped ≡ true) }
        ensures stopped { self.old.stopped ≡ true → IsErr result }
        // A reply is a record.
        ensures short { IfOk result (λ served. IfSome served.reply (λ reply. length reply
            ≤ RECORD_LIMIT)) }
    {
        contexts_fit::<Further, M>();
        locks_are_bounded::<Sparse, M>();
        self.core.policy().law_policy();
        let number = self.events + 1;
        let served = self.core.step(codecs, number, event)?;
        self.events = number;
        Ok(served)
    }

    /// The checkpoint of its state.
    ///
    /// # Errors
    ///
    /// `AllocError` where there is no memory, and where want of memory has stopped the server.
    pub fn write(&self, alloc: Global) -> Result<Vec<u8>, AllocError>
        requires { self.now.events ≤ MOST_EVENTS }
        ensures text { IfOk result (λ bytes. bytes.items
            ≡ checkpoint_text self.now.policy self.now.events self.now.world self.now.locks) }
        // It is taken again, as that state.
        ensures again { IfOk result (λ bytes. Tells (checkpoint self.now.policy)
            (Some (record { events = self.now.events; world = self.now.world; locks = self.now.locks }))
            bytes.items) }
        ensures fit { IfOk result (λ bytes. IsFit self.now.policy self.now.world self.now.locks) }
        ensures stopped { self.now.stopped ≡ true → IsErr result }
    {
        write_checkpoint(alloc, &self.core, self.events)
    }
}
