//! The law of a break: what is served behind it is what would have been served without it.
ghost use Rattle.std.specs.Prelude.{◌≡◌, ◌++◌, ◌≤◌, ℕ, List, Some, length};
ghost use Rattle.lnfs_types.specs.declared.event.Event.{Event};
ghost use Rattle.lnfs_policy.specs.Policy.{Policy};
ghost use Rattle.lnfs_policy.specs.PolicyText.{IsPolicy};
ghost use Rattle.lnfs_world.specs.World.{World};
ghost use Rattle.lnfs_locks.specs.Locks.{Locks};
ghost use Rattle.lnfs_further.specs.Further.{further, locks_in};
ghost use Rattle.lnfs_xdr.specs.Message.{Tells};
ghost use Rattle.lnfs_layout.specs.Fits.{RowsFit, LockRowsFit};
ghost use Rattle.lnfs_layout.specs.Whole.{Told};
ghost use Rattle.lnfs_layout.specs.declared.numbers.TheConstants.{MOST_EVENTS};
ghost use Rattle.lnfs_step.specs.Journal.{first_state, state_after};
ghost use Rattle.lnfs_checkpoint.specs.Checkpoint.{checkpoint, checkpoint_text, IsFit};
ghost use Rattle.lnfs_checkpoint.specs.Resumed.{got_from, got_after, state_of};

use lnfs_further::Further;
use lnfs_gss3::Mechanism;
use lnfs_layout::laws::written;
use lnfs_lock_bounds::locks_are_bounded;
use lnfs_sparse::Sparse;
use lnfs_step::{contexts_fit, one_step, purge};

/// Of events `a` and then `b`: a server that goes on from the checkpoint after `a` gives to `b` the replies and the lines, with
/// their numbers, that these get behind `a` in one server.
pub fn resumed<M: Mechanism>()
    // The state after events is one that a checkpoint is taken of: a world and locks.
    ensures fit { (p : Policy) → IsPolicy p → (a : List Event) →
        let b = state_after further M.signing p a in
        IsFit p b.world (locks_in b.own) }
    ensures whole { (p : Policy) → IsPolicy p → (a : List Event) →
        let b = state_after further M.signing p a in
        state_of b.world (locks_in b.own) ≡ b }
    // What is told of such a state is taken again, as that state. Its rows have room in the layout, as those have that a
    // server keeps.
    ensures taken { (p : Policy) → IsPolicy p → (w : World) (own : Locks) → IsFit p w own →
        RowsFit w → LockRowsFit own → (n : ℕ) → n ≤ MOST_EVENTS → Tells (checkpoint p)
        (Some (record { events = n; world = w; locks = own })) (checkpoint_text p n w own) }
    // And nothing else is.
    ensures alone { (p : Policy) → IsPolicy p → (w : World) (own : Locks) → IsFit p w own →
        RowsFit w → LockRowsFit own → (n : ℕ) → n ≤ MOST_EVENTS → (t : Told) →
        Tells (checkpoint p) (Some t) (checkpoint_text p n w own) →
        t ≡ record { events = n; world = w; locks = own } }
    // What is got behind it is the rest of what is got without a break.
    ensures rest { (p : Policy) (a b : List Event) →
        got_from further M.signing p 0 (first_state further p) (a ++ b)
        ≡ got_from further M.signing p 0 (first_state further p) a
        ++ got_from further M.signing p (length a) (state_after further M.signing p a) b }
    // And it is told by the events before: each reply is the one that its requester would get with every event outside its
    // dominance purged.
    ensures journal { (p : Policy) (a b : List Event) →
        got_from further M.signing p (length a) (state_after further M.signing p a) b
        ≡ got_after further M.signing p a b }
{
    contexts_fit::<Further, M>();
    one_step::<Further, M>();
    purge::<Further, M>();
    locks_are_bounded::<Sparse, M>();
    written();
}
