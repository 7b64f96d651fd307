//! What stands with its journal, and without its policy: what may lie under a lock.
ghost use Rattle.std.specs.Prelude.{◌≡◌, ◌≤◌, ◌+◌, ◌++◌, ◌∷◌, [], length, Some, None, true, false, IfOk, IfSome, OnOk, IsErr};
ghost use Rattle.lnfs_types.specs.declared.limits.TheConstants.{RECORD_LIMIT};
ghost use Rattle.lnfs_types.specs.Moments.{Fits};
ghost use Rattle.lnfs_world.specs.Usage.{nodes_used, bytes_used};
ghost use Rattle.lnfs_step.specs.Journal.{state_after, reply_with, line_with};
ghost use Rattle.lnfs_vault.specs.Pieces.{held};
ghost use Rattle.lnfs_vault.specs.Lines.{IsLineOf};
ghost use Rattle.lnfs_vault.specs.Prepared.{IsPrepared};
ghost use Rattle.lnfs_vault.specs.Sealed.{sealed_of};

use crate::decode::Prepared;
use crate::stand::Stand;
use crate::step::{JournaledEvent, Said};
use lnfs_calipso::Level;
use lnfs_engine::Extra;
use lnfs_gss3::Mechanism;
use lnfs_policy::Policy;
use lnfs_site::Site;
use lnfs_step::purge;
use lnfs_types::Event;
use std::alloc::{AllocError, Global};
use std::marker::{Model, PhantomData};
use std::snapshot::Snapshot;

/// What stands, and the journal that it came about by. While an event is pending, its step was made, and it is not yet in the
/// journal.
#[derive(Drop)]
pub struct Books<M: Mechanism, X: Extra> {
    alloc: Global,
    site: Snapshot<Policy>,
    stand: Stand<X>,
    journal: Vec<Event>,
    pending: Option<Snapshot<Event>>,
    of: PhantomData<M>,
}

impl<M: Mechanism, X: Extra> Model for Books<M, X> {
    ghost use Rattle.std.specs.Prelude.{◌≡◌, ◌<◌, ◌++◌, IsSome, option_map, false};
    ghost use Rattle.std.specs.Option.{option_to_list};
    ghost use Rattle.std.specs.Vec.{vec_len, vec_capacity};
    ghost use Rattle.lnfs_vault.specs.Pieces.{Held, held};
    ghost use Rattle.lnfs_world.specs.Both.{both};

    ghost Value = { Held };

    ghost use Rattle.lnfs_step.specs.Journal.{state_after};

    ghost view = { λ b. held b.site.value b.journal.items (option_map (λ s. s.value) b.pending) b.stand.stopped };

    // what stands is the state after the journal and the pending event, for which there is room
    ghost invariant = { λ b. (b.stand.stopped ≡ false → both b.stand.engine.store (X.rows b.stand.engine.extra) ≡ state_after X.extra M.signing b.site.value (b.journal.items ++ option_to_list (option_map (λ s. s.value) b.pending)))
        × (IsSome b.pending → vec_len b.journal < vec_capacity b.journal) };
}

impl<M: Mechanism, X: Extra> Books<M, X> {
    /// The books of a site before all events.
    ///
    /// # Errors
    ///
    /// `AllocError` where there is no memory.
    pub fn new(alloc: Global, site: &Site<'_>, extra: X) -> Result<Books<M, X>, AllocError>
        requires { X.rows extra ≡ [] }
        ensures { IfOk result (λ books. books ≡ held site.now [] None false) }
    {
        let stand = Stand::first(alloc, site, extra)?;
        Ok(Books {
            alloc,
            site: Snapshot::of(site.policy()),
            stand,
            journal: Vec::new(alloc),
            pending: None,
            of: PhantomData,
        })
    }

    /// The events that were served, in order.
    pub fn journal(&self) -> &[Event]
        ensures { result.now ≡ self.now.journal }
    {
        &self.journal
    }

    /// What a level uses: the nodes whose home it is, then the bytes of the files whose label it is. Both are kept as totals.
    pub fn used(&self, level: Level) -> (u64, u64)
        ensures nodes { self.now.stopped ≡ false → self.now.pending ≡ None →
            result.0 ≡ nodes_used (state_after X.extra M.signing self.now.policy
            self.now.journal).world.nodes level.0 }
        ensures bytes { self.now.stopped ≡ false → self.now.pending ≡ None →
            result.1 ≡ bytes_used (state_after X.extra M.signing self.now.policy
            self.now.journal).world.nodes level.0 }
    {
        self.stand.engine.store.used(level)
    }

    /// Stops them. A step whose event did not come is as one that was not made.
    pub fn stop(&mut self)
        ensures { self.new ≡ held self.old.policy self.old.journal None true }
    {
        self.stand.stopped = true;
        self.pending = None;
    }

    /// Stops them if an event is pending.
    pub fn close(&mut self)
        ensures policy { self.new.policy ≡ self.old.policy }
        ensures journal { self.new.journal ≡ self.old.journal }
        ensures closed { self.new.pending ≡ None }
        ensures stopped { self.old.pending ≡ None → self.new.stopped ≡ self.old.stopped }
    {
        if self.pending.is_some() {
            self.stop();
        }
    }

    /// Makes the step of an event whose record was decoded on the state after the journal, and leaves the event pending.
    ///
    /// # Errors
    ///
    /// `AllocError` where there is no memory, where they are stopped, and where an event is pending already.
    pub fn make_step<'p>(
        &mut self,
        site: &Site<'_>,
        event: &Event,
        prepared: Prepared<'p, '_>,
    ) -> Result<Said<'p>, AllocError>
        requires site { site.now ≡ self.old.policy }
        requires event { Fits event.now }
        requires prepared { IsPrepared X.extra.grammar M.signing site.now event.now.class
            event.now.message prepared }
        ensures reply { IfOk result (λ said. sealed_of M.signing said.unsealed
            ≡ reply_with X.extra M.signing self.old.policy self.old.journal event.now) }
        ensures line { IfOk result (λ said. IsLineOf (length self.old.journal + 1)
            (line_with X.extra M.signing self.old.policy self.old.journal event.now) said.line) }
        // The reply is a record that a fragment holds.
        ensures short { IfOk result (λ said. IfSome (sealed_of M.signing said.unsealed) (λ reply.
            length reply ≤ RECORD_LIMIT)) }
        ensures ok { OnOk result (self.new
            ≡ held self.old.policy self.old.journal (Some event.now) false) }
        ensures policy { self.new.policy ≡ self.old.policy }
        ensures journal { self.new.journal ≡ self.old.journal }
        ensures stopped { self.old.stopped ≡ true → IsErr result }
    {
        purge::<X, M>();
        site.policy().law_policy();
        if self.pending.is_some() || self.stand.stopped {
            return Err(AllocError);
        }
        self.journal.reserve(1)?;
        let at = self.journal.len() as u64 + 1;
        let arrival = JournaledEvent { at, event };
        let said = self
            .stand
            .make_step::<M>(self.alloc, site, arrival, prepared)?;
        self.pending = Some(Snapshot::of(event));
        Ok(said)
    }

    /// Puts the event of the last step into the journal. Takes no memory.
    pub fn keep(&mut self, event: Event)
        requires { self.old.pending ≡ Some event }
        ensures { self.new
            ≡ held self.old.policy (self.old.journal ++ event ∷ []) None self.old.stopped }
    {
        self.journal.push_reserved(event);
        self.pending = None;
    }
}
