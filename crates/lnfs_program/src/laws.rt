//! The law of two runs: one of `checkpoint`, and then one of `resume`.
ghost use Rattle.std.specs.Prelude.{◌≡◌, ℕ, List, []};
ghost use Rattle.std.specs.declared.option.Option.{Option};
ghost use Rattle.std.specs.declared.option.Option.TheVariants.{Some};
ghost use Rattle.lnfs_policy.specs.Policy.{Policy};
ghost use Rattle.lnfs_traffic.specs.Parts.{recorded};
ghost use Rattle.lnfs_stage.specs.declared.status.Status.{Status};
ghost use Rattle.lnfs_stage.specs.declared.status.Status.TheVariants as status;
ghost use Rattle.lnfs_stage.specs.Seen.{Seen};
ghost use Rattle.lnfs_commands.specs.Words.{save, resume};
ghost use Rattle.lnfs_service.specs.Handed.{Dealings};
ghost use Rattle.lnfs_program.specs.Runs.{Runs, streams};
ghost use Rattle.lnfs_program.specs.TwoRuns.{IsSpelledIn, Completes, replay_behind};

use lnfs_checkpointing::laws::joined;
use lnfs_outside::Clock;

/// Of a run of `checkpoint` with status 0, and a run of `resume` under the same policy, from a file with the bytes that `out` of
/// the first one took: unless it gives up, the second one ends as a replay of its recording behind the events of the first one's
/// recording, and the streams take what that writes. Each has a clock of its own.
pub fn two_runs<C: Clock, D: Clock>(earlier: &C, later: &D)
    ensures { (p : Policy) (look look' : List ℕ → Option (List ℕ))
        (policy name traffic bytes : List ℕ) (audit audit' : Option (List ℕ)) (net : Dealings) →
        IsSpelledIn look policy p → look name ≡ Some traffic →
        Runs (Some look) (C.may earlier.now) (Some (save policy name)) status.Ok
        (streams (Some []) audit) (streams (Some bytes) audit') net →
        (policy' checkpoint more : List ℕ) (ending : Status) (before after : Seen)
        (net' : Dealings) →
        IsSpelledIn look' policy' p → look' checkpoint ≡ Some bytes →
        Runs (Some look') (D.may later.now) (Some (resume policy' checkpoint more)) ending before
        after net' →
        Completes ending before after (replay_behind p (recorded traffic) more (look' more)) }
{
    joined();
}
