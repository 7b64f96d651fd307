//! The law of the lines of events, as the contract of a function that does nothing.
ghost use Rattle.std.specs.Prelude.{◌≡◌, List};
ghost use Rattle.lnfs_calipso.specs.Label.{IsPreorderWithBottom};
ghost use Rattle.lnfs_types.specs.declared.event.Event.{Event};
ghost use Rattle.lnfs_policy.specs.Policy.{Policy, dominance};
ghost use Rattle.lnfs_operations.specs.declared.Gate.{Gate};
ghost use Rattle.lnfs_step.specs.Step.{letter};
ghost use Rattle.lnfs_step.specs.Lines.{Recorded};

use lnfs_gss3::Mechanism;
use lnfs_operations::ExtraRows;

/// Every denial has its line, after each journal: with further operations that meet what these owe,
/// under any mechanism of signatures, and under a policy whose dominance is a preorder with level 0
/// below all. An event has no line only where it is no call, where it gets again what was kept for
/// its arguments, or where its call was accepted and its COMPOUND, if it has one, ended with status 0.
/// The line of a call that is refused as a whole bears the status with which the head of the reply
/// ends, and whether it is for the caller, for what is called or for the version of RPC. The line of a
/// COMPOUND bears the status with which that ended, which isn't 0, and names the operation that failed,
/// by its place and its number, or the COMPOUND as a whole. Where an operation of the table is denied
/// access, the gate is a rule of labels, and only there.
pub fn denials_are_recorded<X: ExtraRows, M: Mechanism>()
    ensures recorded { (p : Policy) → IsPreorderWithBottom (dominance p) →
        (journal : List Event) (event : Event) →
        Recorded X.extra M.signing p journal event }
    // Which gate refused an operation is told by its name alone.
    ensures names { (a b : Gate) → letter a ≡ letter b → a ≡ b }
{}
