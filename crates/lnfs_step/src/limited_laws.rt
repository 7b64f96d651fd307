//! The laws of a limited policy, as the contract of a function that does nothing.
ghost use Rattle.std.specs.Prelude.{◌≡◌, ℕ, false, List, Some, Ok};
ghost use Rattle.lnfs_calipso.specs.Label.{IsPreorderWithBottom};
ghost use Rattle.lnfs_types.specs.declared.event.Event.{Event};
ghost use Rattle.lnfs_rpc.specs.Calls.{CallMessage, call_of};
ghost use Rattle.lnfs_policy.specs.declared.mode.Mode.TheVariants.{Limited};
ghost use Rattle.lnfs_policy.specs.Policy.{Policy, dominance};
ghost use Rattle.lnfs_world.specs.World.{Id, Node, World, node_at};
ghost use Rattle.lnfs_world.specs.Outcome.{Place};
ghost use Rattle.lnfs_world.specs.Both.{Both};
ghost use Rattle.lnfs_operations.specs.Carried.{CarriesAlone, AllLow, StandsLow, FurtherCarry, label_of, sets_label, LabelsStay};
ghost use Rattle.lnfs_operations.specs.Shown.{label_shown};
ghost use Rattle.lnfs_site.specs.Site.{site_of};
ghost use Rattle.lnfs_step.specs.Level.{level_of};
ghost use Rattle.lnfs_step.specs.Limited.{IsGuestCall, BearsNoRule};
ghost use Rattle.lnfs_step.specs.Named.{some_operation};
ghost use Rattle.lnfs_step.specs.Request.{request_with};
ghost use Rattle.lnfs_step.specs.Step.{step_with};
ghost use Rattle.lnfs_step.specs.Journal.{Holds, first_state, state_after, line_with};

use lnfs_gss3::Mechanism;
use lnfs_operations::ExtraRows;

/// Under a limited policy the clients enforce, and the server carries labels alone (RFC 7862 section 9.6.2):
/// callers and rows are of level 0, no rule of labels but M9 refuses anything, and labels are kept and shown
/// as they were given. So it is with further operations that owe the same.
pub fn labels_are_carried<X: ExtraRows, M: Mechanism>()
    // So the laws `labels_are_kept_as_given` of lnfs_operations hold of each operation.
    ensures site { (p : Policy) → p.mode ≡ Limited → CarriesAlone (site_of p) }
    // Each call of a guest but NULL has level 0, and no event has another level.
    ensures guests { (p : Policy) → p.mode ≡ Limited → (event : Event) (call : CallMessage) →
        call_of event.message ≡ Ok call → IsGuestCall call →
        level_of M.signing p event.class event.message ≡ Some 0 }
    ensures level { (p : Policy) → p.mode ≡ Limited → (event : Event) (level : ℕ) →
        level_of M.signing p event.class event.message ≡ Some level → level ≡ 0 }
    // All rows are of level 0 before all events, and so they stay with each event on any state that keeps the facts.
    ensures first { (p : Policy) → p.mode ≡ Limited → AllLow (first_state X.extra p).world }
    ensures low { (p : Policy) → IsPreorderWithBottom (dominance p) → p.mode ≡ Limited →
        FurtherCarry X.extra → (a : Both X.extra.Row) (event : Event) →
        Holds X.extra p a → AllLow a.world →
        AllLow (step_with X.extra M.signing p a event).state.world }
    ensures rules { (p : Policy) → IsPreorderWithBottom (dominance p) → p.mode ≡ Limited →
        FurtherCarry X.extra → (a : Both X.extra.Row) (event : Event) →
        Holds X.extra p a → AllLow a.world →
        BearsNoRule (step_with X.extra M.signing p a event).line }
    // An event of which no operation sets a label leaves the label of every node.
    ensures labels { (p : Policy) → IsPreorderWithBottom (dominance p) → p.mode ≡ Limited →
        FurtherCarry X.extra → (a : Both X.extra.Row) (event : Event) →
        Holds X.extra p a → AllLow a.world →
        some_operation sets_label (request_with X.extra.grammar M.signing p event.class event.message)
        ≡ false →
        LabelsStay a.world (step_with X.extra M.signing p a event).state.world }
    // What a node shows is the label that it has: as it was given, or where none is kept that of level 0 in the
    // first format.
    ensures shown { (p : Policy) → IsPreorderWithBottom (dominance p) → p.mode ≡ Limited →
        (q : Place) (w : World) (i : Id) (n : Node) →
        StandsLow q w → node_at w.nodes i ≡ Some n →
        label_shown (site_of p) q n ≡ label_of (site_of p) n }
    // So it is after each journal.
    ensures low_after { (p : Policy) → IsPreorderWithBottom (dominance p) → p.mode ≡ Limited →
        FurtherCarry X.extra → (journal : List Event) →
        AllLow (state_after X.extra M.signing p journal).world }
    ensures rules_after { (p : Policy) → IsPreorderWithBottom (dominance p) → p.mode ≡ Limited →
        FurtherCarry X.extra → (journal : List Event) (event : Event) →
        BearsNoRule (line_with X.extra M.signing p journal event) }
{}
