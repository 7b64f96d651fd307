//! The law of what bounds contexts, as the contract of a function that does nothing.
ghost use Rattle.lnfs_calipso.specs.Label.{IsPreorderWithBottom};
ghost use Rattle.lnfs_types.specs.declared.event.Event.{Event};
ghost use Rattle.lnfs_policy.specs.Policy.{Policy, dominance};
ghost use Rattle.lnfs_world.specs.Both.{Both};
ghost use Rattle.lnfs_step.specs.ContextBounds.{ContextsFit};
ghost use Rattle.lnfs_step.specs.Journal.{Holds, first_state};
ghost use Rattle.lnfs_step.specs.Step.{step_with};

use lnfs_gss3::Mechanism;
use lnfs_operations::ExtraRows;

/// Each context is under a parent of the policy, and no level has more contexts than it may have: before all events, and
/// after each event on a state of which it holds.
pub fn contexts_fit<X: ExtraRows, M: Mechanism>()
    ensures first { (p : Policy) → ContextsFit p (first_state X.extra p).world }
    ensures kept { (p : Policy) → IsPreorderWithBottom (dominance p) →
        (a : Both X.extra.Row) (event : Event) → Holds X.extra p a → ContextsFit p a.world →
        ContextsFit p (step_with X.extra M.signing p a event).state.world }
{}
