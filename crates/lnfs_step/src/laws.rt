//! The laws over events and journals, as contracts of functions that do nothing.
ghost use Rattle.std.specs.Prelude.{◌≡◌, ◌≤◌, ℕ, List, [], ◌∷◌, ◌++◌, Some, true, false, length, IfSome};
ghost use Rattle.lnfs_calipso.specs.Label.{IsPreorderWithBottom};
ghost use Rattle.lnfs_types.specs.declared.limits.TheConstants.{RECORD_LIMIT};
ghost use Rattle.lnfs_types.specs.declared.event.Event.{Event};
ghost use Rattle.lnfs_policy.specs.Policy.{Policy, dominance};
ghost use Rattle.lnfs_policy.specs.PolicyText.{IsPolicy};
ghost use Rattle.lnfs_world.specs.Both.{Both};
ghost use Rattle.lnfs_world.specs.Labels.{LabelsRise};
ghost use Rattle.lnfs_step.specs.Level.{level_of};
ghost use Rattle.lnfs_step.specs.Purged.{is_dominated, IsSecret};
ghost use Rattle.lnfs_step.specs.Step.{step_with};
ghost use Rattle.lnfs_step.specs.Journal.{Holds, IsKept, seen_at, state_after, reply_with, answer_with};

use lnfs_gss3::Mechanism;
use lnfs_operations::ExtraRows;

/// With further operations, under a mechanism of signatures: each reply is the one that its requester
/// would get with every event outside its dominance purged from the journal.
pub fn purge<X: ExtraRows, M: Mechanism>()
    ensures replies { (p : Policy) → IsPreorderWithBottom (dominance p) →
        (journal : List Event) (event : Event) →
        reply_with X.extra M.signing p journal event
        ≡ answer_with X.extra M.signing p journal event }
    // For a level that dominates the event's, the reply and what that level sees afterwards are
    // determined by the event and by what it saw before.
    ensures seen { (p : Policy) → IsPreorderWithBottom (dominance p) →
        (level s : ℕ) (event : Event) (a b : Both X.extra.Row) →
        level_of M.signing p event.class event.message ≡ Some s → dominance p level s ≡ true →
        Holds X.extra p a → Holds X.extra p b → seen_at X.extra p level a
        ≡ seen_at X.extra p level b →
        ((step_with X.extra M.signing p a event).reply
        ≡ (step_with X.extra M.signing p b event).reply)
        × (seen_at X.extra p level (step_with X.extra M.signing p a event).state
        ≡ seen_at X.extra p level (step_with X.extra M.signing p b event).state) }
    // For any other level, what it sees stays.
    ensures unseen { (p : Policy) → IsPreorderWithBottom (dominance p) →
        (level : ℕ) (event : Event) (a : Both X.extra.Row) →
        is_dominated (dominance p) level (level_of M.signing p event.class event.message) ≡ false →
        Holds X.extra p a →
        seen_at X.extra p level (step_with X.extra M.signing p a event).state
        ≡ seen_at X.extra p level a }
    ensures facts { (p : Policy) → IsPreorderWithBottom (dominance p) → (journal : List Event) →
        Holds X.extra p (state_after X.extra M.signing p journal) }
    // With the facts the bounds of all rows hold, under a policy that was read.
    ensures kept { (p : Policy) → IsPolicy p → (journal : List Event) →
        IsKept X.extra p (state_after X.extra M.signing p journal) }
    // Labels go up alone: a node that stands before and after an event has a label afterwards that dominates
    // the one that it had.
    ensures labels { (p : Policy) → IsPreorderWithBottom (dominance p) →
        (journal : List Event) (event : Event) →
        LabelsRise (dominance p) (state_after X.extra M.signing p journal).world
        (state_after X.extra M.signing p (journal ++ event ∷ [])).world }
    // A reply is a record that a fragment holds.
    ensures short { (p : Policy) → IsPolicy p →
        (journal : List Event) (event : Event) →
        IfSome (reply_with X.extra M.signing p journal event) (λ reply. length reply
        ≤ RECORD_LIMIT) }
{}

/// Secrecy alone: whatever the server answers, one function gives each reply from the event and from the
/// events before it that its requester dominates. So a reply tells nothing of the others. Who believes this has
/// to read how an event gets its level, what dominance is and what is purged, and nothing of the operations.
pub fn secrecy<X: ExtraRows, M: Mechanism>()
    ensures { (p : Policy) → IsPreorderWithBottom (dominance p) →
        IsSecret M.signing p (reply_with X.extra M.signing p) }
{}
