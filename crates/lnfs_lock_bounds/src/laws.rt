//! The law of what bounds byte-range locks, as the contract of a function that does nothing.
ghost use Rattle.std.specs.Prelude.{List};
ghost use Rattle.lnfs_types.specs.declared.event.Event.{Event};
ghost use Rattle.lnfs_policy.specs.Policy.{Policy};
ghost use Rattle.lnfs_policy.specs.PolicyText.{IsPolicy};
ghost use Rattle.lnfs_world.specs.Both.{Both};
ghost use Rattle.lnfs_beside.specs.Sides.{beside, lefts};
ghost use Rattle.lnfs_locks.specs.Locks.{locks_of};
ghost use Rattle.lnfs_locks.specs.Outcome.{locking};
ghost use Rattle.lnfs_lock_rows.specs.Bounds.{LocksBounded};
ghost use Rattle.lnfs_site.specs.Site.{site_of};
ghost use Rattle.lnfs_step.specs.Journal.{IsKept, first_state, state_after};
ghost use Rattle.lnfs_step.specs.Step.{step_with};

use lnfs_gss3::Mechanism;
use lnfs_operations::ExtraRows;

/// All locks are within their bounds, over the site of a policy, whatever else is served beside them: before all events, after
/// each event on any state that is kept, and so after each journal.
pub fn locks_are_bounded<B: ExtraRows, M: Mechanism>()
    ensures first { (p : Policy) → LocksBounded (site_of p)
        (locks_of (lefts (first_state (beside locking B.extra) p).own)) }
    ensures kept { (p : Policy) → IsPolicy p →
        (b : Both (beside locking B.extra).Row) (event : Event) →
        IsKept (beside locking B.extra) p b →
        LocksBounded (site_of p) (locks_of (lefts b.own)) →
        LocksBounded (site_of p) (locks_of (lefts
        (step_with (beside locking B.extra) M.signing p b event).state.own)) }
    ensures after { (p : Policy) → IsPolicy p → (journal : List Event) →
        LocksBounded (site_of p) (locks_of (lefts
        (state_after (beside locking B.extra) M.signing p journal).own)) }
{}
