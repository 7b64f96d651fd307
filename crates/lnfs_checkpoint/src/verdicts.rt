//! The law of verdicts.
ghost use Rattle.std.specs.Prelude.{◌≡◌, ℕ, List};
ghost use Rattle.lnfs_policy.specs.Policy.{Policy};
ghost use Rattle.lnfs_checkpoint.specs.Takes.{Verdict, IsVerdict, AreBytes};

/// Under a policy bytes have one verdict.
pub fn one_verdict()
    ensures { (p : Policy) (bytes : List ℕ) → AreBytes bytes → (v w : Verdict) →
        IsVerdict p bytes v → IsVerdict p bytes w → v ≡ w }
{}
