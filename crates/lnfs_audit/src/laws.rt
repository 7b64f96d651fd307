//! The laws of findings, as contracts of functions that do nothing.
ghost use Rattle.std.specs.Prelude.{◌≡◌, ◌↔◌, ℕ, List, Option};
ghost use Rattle.lnfs_audit.specs.declared.finding.Finding.{Finding};
ghost use Rattle.lnfs_audit.specs.Findings.{IsFinding};
ghost use Rattle.lnfs_audit.specs.Found.{found_of};

/// Of replies and recorded bytes one thing is found and no other. So what an audit finds comes exactly where its definition
/// says so.
pub fn one_finding()
    ensures { (replies : List (Option (List ℕ))) (bytes : List ℕ) (a b : Finding) →
        IsFinding replies bytes a → IsFinding replies bytes b → a ≡ b }
{}

/// Something is found of any replies and bytes: what reading the records one after another comes to.
pub fn some_finding(records: &[u8])
    ensures { (replies : List (Option (List ℕ))) (finding : Finding) →
        IsFinding replies records.now finding ↔ (finding ≡ found_of replies records.now) }
{}
