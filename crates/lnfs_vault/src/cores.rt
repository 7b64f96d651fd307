//! A server without a journal: a replica or a checker that has the events from elsewhere.
ghost use Rattle.std.specs.Prelude.{◌≡◌, ◌≤◌, [], true, false, length, IfOk, IfSome, OnOk, OnErr, IsErr};
ghost use Rattle.lnfs_types.specs.declared.limits.TheConstants.{RECORD_LIMIT};
ghost use Rattle.lnfs_types.specs.Moments.{Fits};
ghost use Rattle.lnfs_policy.specs.Policy.{dominance};
ghost use Rattle.lnfs_world.specs.Labels.{LabelsRise};
ghost use Rattle.lnfs_operations.specs.Accepted.{AllAccepted};
ghost use Rattle.lnfs_operations.specs.Extra.{no_extra};
ghost use Rattle.lnfs_step.specs.Step.{step_with};
ghost use Rattle.lnfs_step.specs.Journal.{Holds, IsKept, first_state};
ghost use Rattle.lnfs_vault.specs.Pieces.{state_of};
ghost use Rattle.lnfs_vault.specs.Lines.{IsLineOf};

use crate::front::Front;
use crate::stand::Stand;
use crate::step::{JournaledEvent, Said};
use crate::vault::Served;
use lnfs_engine::{NoExtra, ReadExtra};
use lnfs_format::Codecs;
use lnfs_gss3::Mechanism;
use lnfs_policy::Policy;
use lnfs_step::one_step;
use lnfs_types::Event;
use std::alloc::{AllocError, Global};
use std::marker::Model;

/// The lists of a server under a policy, from any state that is kept. It has no journal: whoever calls it numbers the events.
#[derive(Drop)]
pub struct Core<M: Mechanism + Drop, X: ReadExtra> {
    pub(crate) front: Front<M, X>,
    pub(crate) stand: Stand<X>,
}

impl<M: Mechanism + Drop, X: ReadExtra> Model for Core<M, X> {
    ghost use Rattle.lnfs_vault.specs.Pieces.{Standing};

    ghost Value = { Standing M X };

    ghost view = { λ c. record { policy = c.front.policy; mechanism = c.front.mechanism; world = c.stand.engine.store; extra = c.stand.engine.extra; stopped = c.stand.stopped } };
}

impl<M: Mechanism + Drop, X: ReadExtra> Core<M, X> {
    /// The core of a site with further operations, before all events. The codecs write its labels.
    ///
    /// # Errors
    ///
    /// `AllocError` where there is no memory.
    pub fn with_extra(
        alloc: Global,
        policy: Policy,
        codecs: &Codecs,
        mechanism: M,
        extra: X,
    ) -> Result<Core<M, X>, AllocError>
        requires { X.rows extra ≡ [] }
        ensures policy { IfOk result (λ core. core.policy ≡ policy) }
        ensures mechanism { IfOk result (λ core. core.mechanism ≡ mechanism) }
        ensures state { IfOk result (λ core. state_of X.rows core ≡ first_state X.extra policy) }
        ensures running { IfOk result (λ core. core.stopped ≡ false) }
        // What `step` asks of the state holds.
        ensures kept { IfOk result (λ core. IsKept X.extra core.policy (state_of X.rows core)) }
    {
        one_step::<X, M>();
        let front = Front::new(alloc, policy, codecs, mechanism, &extra)?;
        front.policy().law_policy();
        let stand = Stand::first(alloc, &front.site(), extra)?;
        Ok(Core { front, stand })
    }

    /// What it was made of: the policy, and what signs. Takes no memory.
    pub fn into_parts(self) -> (Policy, M)
        ensures policy { result.0 ≡ self.policy }
        ensures mechanism { result.1 ≡ self.mechanism }
    {
        self.front.into_parts()
    }

    /// All three parts of a step.
    fn attempt(&mut self, codecs: &Codecs, number: u64, event: &Event) -> Result<Served, AllocError>
        requires event { Fits event.now }
        requires kept { self.old.stopped ≡ false → IsKept X.extra self.old.policy
            (state_of X.rows self.old) }
        ensures reply { IfOk result (λ served. served.reply ≡ (step_with X.extra M.signing
            self.old.policy (state_of X.rows self.old) event.now).reply) }
        ensures line { IfOk result (λ served. IsLineOf number (step_with X.extra M.signing
            self.old.policy (state_of X.rows self.old) event.now).line served.line) }
        ensures at { IfOk result (λ served. served.at ≡ number) }
        ensures state { OnOk result (state_of X.rows self.new ≡ (step_with X.extra M.signing
            self.old.policy (state_of X.rows self.old) event.now).state) }
        ensures ok { OnOk result (self.new.stopped ≡ false) }
        ensures policy { self.new.policy ≡ self.old.policy }
        ensures mechanism { self.new.mechanism ≡ self.old.mechanism }
        ensures stopped { self.old.stopped ≡ true → IsErr result }
    {
        let front = &self.front;
        let prepared = front.decode(codecs, event)?;
        let arrival = JournaledEvent { at: number, event };
        let site = front.site();
        let said = self
            .stand
            .make_step::<M>(front.alloc(), &site, arrival, prepared)?;
        let Said { unsealed, line } = said;
        let reply = front.seal(unsealed)?;
        Ok(Served {
            reply,
            line,
            at: number,
        })
    }

    /// Serves an event of this number: makes its step, whatever state it is on. The codecs read labels that are asserted.
    ///
    /// Want of memory is the one error. It stops the core: each later call answers it too.
    pub fn step(
        &mut self,
        codecs: &Codecs,
        number: u64,
        event: &Event,
    ) -> Result<Served, AllocError>
        requires event { Fits event.now }
        requires kept { self.old.stopped ≡ false → IsKept X.extra self.old.policy
            (state_of X.rows self.old) }
        // The reply, the line and the state are those of the event's step.
        ensures reply { IfOk result (λ served. served.reply ≡ (step_with X.extra M.signing
            self.old.policy (state_of X.rows self.old) event.now).reply) }
        ensures line { IfOk result (λ served. IsLineOf number (step_with X.extra M.signing
            self.old.policy (state_of X.rows self.old) event.now).line served.line) }
        ensures at { IfOk result (λ served. served.at ≡ number) }
        ensures state { OnOk result (state_of X.rows self.new ≡ (step_with X.extra M.signing
            self.old.policy (state_of X.rows self.old) event.now).state) }
        ensures ok { OnOk result (self.new.stopped ≡ false) }
        ensures policy { self.new.policy ≡ self.old.policy }
        ensures mechanism { self.new.mechanism ≡ self.old.mechanism }
        ensures stops { OnErr result (self.new.stopped ≡ true) }
        ensures stopped { self.old.stopped ≡ true → IsErr result }
        // What was asked of the state holds again.
        ensures kept { self.new.stopped ≡ false → IsKept X.extra self.new.policy
            (state_of X.rows self.new) }
        ensures facts { self.new.stopped ≡ false → Holds X.extra self.new.policy
            (state_of X.rows self.new) }
        // What slots keep stays accepted.
        ensures accepted { AllAccepted X.grammar (state_of X.rows self.old).world →
            OnOk result (AllAccepted X.grammar (state_of X.rows self.new).world) }
        // Labels go up alone.
        ensures labels { OnOk result (LabelsRise (dominance self.old.policy)
            (state_of X.rows self.old).world (state_of X.rows self.new).world) }
        ensures short { IfOk result (λ served. IfSome served.reply (λ reply. length reply
            ≤ RECORD_LIMIT)) }
    {
        one_step::<X, M>();
        self.front.policy().law_preorder();
        self.front.policy().law_policy();
        match self.attempt(codecs, number, event) {
            Ok(served) => Ok(served),
            Err(error) => {
                self.stand.stopped = true;
                Err(error)
            }
        }
    }
}

impl<M: Mechanism + Drop> Core<M, NoExtra> {
    /// The core of a site, before all events. The codecs write its labels.
    ///
    /// # Errors
    ///
    /// `AllocError` where there is no memory.
    pub fn new(
        alloc: Global,
        policy: Policy,
        codecs: &Codecs,
        mechanism: M,
    ) -> Result<Core<M, NoExtra>, AllocError>
        ensures policy { IfOk result (λ core. core.policy ≡ policy) }
        ensures mechanism { IfOk result (λ core. core.mechanism ≡ mechanism) }
        ensures state { IfOk result (λ core. state_of (λ it. []) core
            ≡ first_state no_extra policy) }
        ensures running { IfOk result (λ core. core.stopped ≡ false) }
        ensures kept { IfOk result (λ core. IsKept no_extra core.policy
            (state_of (λ it. []) core)) }
    {
        Core::with_extra(alloc, policy, codecs, mechanism, NoExtra)
    }
}
