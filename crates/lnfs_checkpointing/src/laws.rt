//! The laws of a break: a resume writes what `replay` writes behind the events before it, and goes on from what `checkpoint` wrote.
ghost use Rattle.std.specs.Prelude.{◌≡◌, ℕ, List, [], Some, None, Ok, IsSome};
ghost use Rattle.lnfs_calipso.specs.Label.{IsPreorderWithBottom};
ghost use Rattle.lnfs_types.specs.declared.event.Event.{Event};
ghost use Rattle.lnfs_policy.specs.Policy.{Policy, dominance};
ghost use Rattle.lnfs_policy.specs.PolicyText.{policy_of};
ghost use Rattle.lnfs_gss3.specs.Mechanism.{keyed_digest};
ghost use Rattle.lnfs_step.specs.Journal.{first_state};
ghost use Rattle.lnfs_traffic.specs.Parts.{recorded};
ghost use Rattle.lnfs_checkpoint.specs.Resumed.{got_from};
ghost use Rattle.lnfs_checkpoint.specs.Takes.{Verdict, IsVerdict};
ghost use Rattle.lnfs_stage.specs.declared.status.Status.{Status};
ghost use Rattle.lnfs_stage.specs.Contents.{Contents, first, others};
ghost use Rattle.lnfs_stage.specs.Due.{given};
ghost use Rattle.lnfs_stage.specs.Ending.{told_by};
ghost use Rattle.lnfs_stage.specs.Writes.{on_out, on_audit};
ghost use Rattle.lnfs_commands.specs.Commands.{replayed};
ghost use Rattle.lnfs_commands.specs.Events.{audit_with, lines_after};
ghost use Rattle.lnfs_further.specs.Further.{further};
ghost use Rattle.lnfs_checkpointing.specs.Checkpoints.{Ruling, line_alone, resumed, resumption_due, saved, text_behind, told_behind, writes_of, IsJudged, IsTakenAgain};

use lnfs_checkpoint::one_verdict;
use lnfs_further::Further;
use lnfs_gss3::KeyedDigest;
use lnfs_step::purge;

/// What a resume writes from the state after events on is what `replay` writes for the recording behind these events: the replies
/// and the lines, with their numbers. What `checkpoint` writes beside the checkpoint are the lines that `replay` writes.
pub fn breaks()
    ensures resumed { (p : Policy) → IsPreorderWithBottom (dominance p) →
        (a : List Event) (traffic : List ℕ) →
        resumed p (told_behind p a) traffic ≡ replayed further keyed_digest p a traffic }
    ensures lines { (p : Policy) (events : List Event) →
        on_audit (writes_of line_alone
        (got_from further keyed_digest p 0 (first_state further p) events))
        ≡ lines_after (audit_with further keyed_digest p) [] events }
    ensures silent { (p : Policy) (events : List Event) →
        on_out (writes_of line_alone
        (got_from further keyed_digest p 0 (first_state further p) events)) ≡ [] }
{
    purge::<Further, KeyedDigest>();
}

/// What a resume writes behind the checkpoint that another run wrote, under the same policy. That its bytes are taken again
/// (`IsTakenAgain`) is said by the run that wrote them, and that the verdict is one on them (`IsJudged`) by the resume.
pub fn joined()
    // What `checkpoint` writes to `out` for a recording are these bytes.
    ensures out { (p : Policy) (traffic : List ℕ) → (saved p traffic).ending ≡ None →
        on_out (saved p traffic).writes ≡ text_behind p (recorded traffic) }
    // They have one verdict: the state behind the events.
    ensures verdict { (p : Policy) (a : List Event) → IsTakenAgain p a → (v : Verdict) →
        IsVerdict p (text_behind p a) v → v ≡ Ok (told_behind p a) }
    // A resume from them that doesn't give up does what `replay` does for its recording behind the events.
    ensures resumed { (p : Policy) (text : List ℕ) → policy_of text ≡ Ok p →
        (a : List Event) → IsTakenAgain p a →
        (files : Contents) (ending : Status) (verdict : Ruling) →
        IsJudged files ending verdict → IsSome (told_by ending) →
        first files ≡ Some text → first (others files) ≡ Some (text_behind p a) →
        (policy checkpoint traffic : List ℕ) →
        resumption_due policy checkpoint traffic verdict files
        ≡ given (first (others (others files))) traffic (replayed further keyed_digest p a) }
{
    one_verdict();
    purge::<Further, KeyedDigest>();
}
