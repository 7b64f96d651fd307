//! The laws of how a request came, as the contract of a function that does nothing.
ghost use Rattle.std.specs.Prelude.{◌≡◌, ℕ, List, [], ◌∷◌, None};
ghost use Rattle.lnfs_calipso.specs.Label.{IsPreorderWithBottom};
ghost use Rattle.lnfs_types.specs.declared.event.Moment.{Moment};
ghost use Rattle.lnfs_arguments.specs.declared.types.Op.{Op};
ghost use Rattle.lnfs_arguments.specs.declared.types.Op.TheVariants as ops;
ghost use Rattle.lnfs_arguments.specs.declared.types.Compound.{Compound};
ghost use Rattle.lnfs_arguments.specs.declared.types.CreateSession.{CreateSession};
ghost use Rattle.lnfs_arguments.specs.declared.types.Sequence.{Sequence};
ghost use Rattle.lnfs_world.specs.Outcome.{Site, begins_at};
ghost use Rattle.lnfs_world.specs.Both.{Both, BothStand};
ghost use Rattle.lnfs_operations.specs.declared.Gate.{Gate};
ghost use Rattle.lnfs_operations.specs.Came.{New, Again, Refused, came_on_slot, came_to_record, refused_first, KeepsOnSlot, KeepsInRecord};
ghost use Rattle.lnfs_operations.specs.Sequence.{Sent};
ghost use Rattle.lnfs_operations.specs.SlotRule.{served};

use crate::extra::ExtraRows;

/// How a COMPOUND came decides whether it acts. A retry gets the reply that is kept, and leaves the whole state: the
/// world, and the rows of further operations. So does one that is refused before it is executed. A new one keeps its
/// arguments with its result, under the sequence that it brought (RFC 8881 section 2.10.6.1).
pub fn requests_act_by_how_they_came<X: ExtraRows>()
    ensures slot_again { (site : Site) (sent : Sent) (c : Compound) (level : ℕ) (moment : Moment)
        (b : Both X.extra.Row) (args : Sequence) (rest : List Op) (reply : List ℕ) →
        c.minor ≡ 2 → c.ops ≡ ops.Sequence args ∷ rest →
        came_on_slot level b.world args sent ≡ Again reply →
        served X.extra site sent c (begins_at level moment) b ≡ record {
          answer = record { result = reply; denial = None };
          place = begins_at level moment;
          state = b;
        } }
    ensures slot_refused { (site : Site) (sent : Sent) (c : Compound) (level : ℕ) (moment : Moment)
        (b : Both X.extra.Row) (args : Sequence) (rest : List Op) →
        c.minor ≡ 2 → c.ops ≡ ops.Sequence args ∷ rest →
        came_on_slot level b.world args sent ≡ Refused →
        (gate : Gate) × (status : ℕ) × (served X.extra site sent c (begins_at level moment) b
        ≡ record {
          answer = refused_first c (ops.Sequence args) gate status;
          place = begins_at level moment;
          state = b;
        }) }
    ensures slot_new { (site : Site) → IsPreorderWithBottom site.dom →
        (sent : Sent) (c : Compound) (level : ℕ) (moment : Moment)
        (b : Both X.extra.Row) (args : Sequence) (rest : List Op) →
        BothStand X.extra.Fact site.dom (begins_at level moment) b →
        c.minor ≡ 2 → c.ops ≡ ops.Sequence args ∷ rest →
        came_on_slot level b.world args sent ≡ New →
        let t = served X.extra site sent c (begins_at level moment) b in
        KeepsOnSlot args sent.arguments t.answer.result b.world t.state.world }
    // A CREATE_SESSION, that stands alone (RFC 8881 section 18.36.4).
    ensures record_again { (site : Site) (sent : Sent) (c : Compound) (level : ℕ) (moment : Moment)
        (b : Both X.extra.Row) (args : CreateSession) (rest : List Op) (reply : List ℕ) →
        c.minor ≡ 2 → c.count ≡ 1 → c.ops ≡ ops.CreateSession args ∷ rest →
        came_to_record level b.world args sent.arguments ≡ Again reply →
        served X.extra site sent c (begins_at level moment) b ≡ record {
          answer = record { result = reply; denial = None };
          place = begins_at level moment;
          state = b;
        } }
    ensures record_refused { (site : Site) (sent : Sent) (c : Compound) (level : ℕ)
        (moment : Moment)
        (b : Both X.extra.Row) (args : CreateSession) (rest : List Op) →
        c.minor ≡ 2 → c.count ≡ 1 → c.ops ≡ ops.CreateSession args ∷ rest →
        came_to_record level b.world args sent.arguments ≡ Refused →
        (gate : Gate) × (status : ℕ) × (served X.extra site sent c (begins_at level moment) b
        ≡ record {
          answer = refused_first c (ops.CreateSession args) gate status;
          place = begins_at level moment;
          state = b;
        }) }
    // Be it granted or refused, a new one keeps its result in the record of its client.
    ensures record_new { (site : Site) (sent : Sent) (c : Compound) (level : ℕ) (moment : Moment)
        (b : Both X.extra.Row) (args : CreateSession) →
        c.minor ≡ 2 → c.count ≡ 1 → c.ops ≡ ops.CreateSession args ∷ [] →
        came_to_record level b.world args sent.arguments ≡ New →
        let t = served X.extra site sent c (begins_at level moment) b in
        KeepsInRecord args sent.arguments t.answer.result b.world t.state.world }
{}
