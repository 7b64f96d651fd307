//! A further operation with rows of its own, served beside those of the table: recordings, and the purge law of it.
#![tactic(auto)]

#[cfg(test)]
mod codecs;
#[cfg(test)]
mod locks;

ghost use Rattle.std.specs.Prelude.{◌≡◌, List};
ghost use Rattle.lnfs_calipso.specs.Label.{IsPreorderWithBottom};
ghost use Rattle.lnfs_types.specs.declared.event.Event.{Event};
ghost use Rattle.lnfs_policy.specs.Policy.{Policy, dominance};
ghost use Rattle.lnfs_step.specs.Journal.{reply_with, answer_with};
ghost use Rattle.lnfs_locks.specs.Outcome.{locking};

use lnfs_byte_locks::Ranges;
use lnfs_gss3::Mechanism;
use lnfs_step::purge;

/// With byte-range locks beside the table, and under any mechanism of signatures, each reply is the one that its
/// requester would get with every event outside its dominance purged from the journal.
pub fn locks_are_purged<M: Mechanism>()
    ensures { (p : Policy) → IsPreorderWithBottom (dominance p) → (journal : List Event) (event : Event) →
        reply_with locking M.signing p journal event ≡ answer_with locking M.signing p journal event }
{
    purge::<Ranges, M>();
}
