//! LOCK, LOCKT and LOCKU on a small world, as the checker computes their definitions.
#![tactic(auto)]

ghost use Rattle.std.specs.Prelude.{◌≡◌, [], ◌∷◌, true};
ghost use Rattle.lnfs_arguments.specs.SharedTexts.{state_id_text};
ghost use Rattle.lnfs_monitor.specs.declared.rule.Rule.TheVariants.{M7};
ghost use Rattle.lnfs_operations.specs.declared.Gate.TheVariants.{Monitor};
ghost use Rattle.lnfs_operations.specs.Chain.{Done, Refused};
ghost use Rattle.lnfs_locks.specs.Effects.{Denied, Free, Holds};
ghost use Rattle.lnfs_locks.specs.StateIds.{state_of};
ghost use Rattle.lnfs_test_locks.specs.Rows.{taken, left, first_locked, tested_beside, unlocked, tested_inside, locked_from_above, tested_from_above};

/// A lock owner locks ten bytes for write, and unlocks two in the middle.
pub fn a_range_is_locked_and_parted()
    ensures locked { first_locked ≡ Done (Holds taken []) }
    // Its state id: the sequence 1, the level 0, and the number 1 above those of all opens.
    ensures told { state_id_text (state_of taken) ≡ 0 ∷ 0 ∷ 0 ∷ 1 ∷ 0 ∷ 0 ∷ 0 ∷ 0 ∷ 0 ∷ 0 ∷ 0 ∷ 1 ∷ 0 ∷ 0 ∷ 0 ∷ 1 ∷ [] }
    // Another owner is told the whole lock, of which the last byte is in its way.
    ensures beside { tested_beside ≡ Done (Denied (record { lock = taken; range = record { first = 0; last = 9; write = true } })) }
    ensures unlocked { unlocked ≡ Done (Holds left []) }
    // Between both parts nothing is.
    ensures inside { tested_inside ≡ Done Free }
{}

/// Who reads down takes no lock, and is told of those there.
pub fn from_above_locks_are_seen_and_not_taken()
    ensures locked { locked_from_above ≡ Refused (record { gate = Monitor M7; status = 13 }) }
    ensures tested { tested_from_above ≡ Done (Denied (record { lock = left; range = record { first = 0; last = 3; write = true } })) }
{}
