//! Laws of the locks, as contracts of functions that do nothing.
ghost use Rattle.std.specs.Prelude.{◌≡◌, ◌==◌, ◌||◌, ℕ, List};
ghost use Rattle.lnfs_arguments.specs.Further.{IsLawful};
ghost use Rattle.lnfs_world.specs.Both.{Both};
ghost use Rattle.lnfs_world.specs.Outcome.{Site};
ghost use Rattle.lnfs_operations.specs.Carried.{FurtherCarry};
ghost use Rattle.lnfs_operations.specs.Extra.{Spot, AreLawful};
ghost use Rattle.lnfs_locks.specs.declared.numbers.TheConstants.{OP_LOCK, OP_LOCKT, OP_LOCKU};
ghost use Rattle.lnfs_locks.specs.Arguments.{lock_grammar};
ghost use Rattle.lnfs_locks.specs.Locks.{Row};
ghost use Rattle.lnfs_locks.specs.Outcome.{locking};

/// LOCK, LOCKT and LOCKU meet what further operations owe: what a level sees of them is determined by what it saw before, and
/// what holds of all locks is kept. So they do where labels are carried alone.
pub fn locks_are_lawful()
    ensures laws { AreLawful locking }
    ensures labels { FurtherCarry locking }
{}

/// LOCK, LOCKT and LOCKU are read beside the operations of the table, and no other number is.
pub fn lock_grammar_is_lawful()
    ensures laws { IsLawful lock_grammar }
    ensures numbers { (number : ℕ) → lock_grammar.serves number
        ≡ (number == OP_LOCK || number == OP_LOCKT || number == OP_LOCKU) }
{}

/// Locks are advisory: nothing else changes with them, and the file handles stay.
pub fn locks_leave_the_world()
    ensures world { (site : Site) (number : ℕ) (arguments : List ℕ) (at : Spot) (a : Both Row) →
        (locking.outcome site number arguments at a).state.world ≡ a.world }
    ensures current { (site : Site) (number : ℕ) (arguments : List ℕ) (at : Spot) (a : Both Row) →
        (locking.outcome site number arguments at a).current ≡ at.current }
    ensures saved { (site : Site) (number : ℕ) (arguments : List ℕ) (at : Spot) (a : Both Row) →
        (locking.outcome site number arguments at a).saved ≡ at.saved }
{}
