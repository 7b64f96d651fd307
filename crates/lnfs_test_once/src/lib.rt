//! A schedule in which requests act, are repeated, lost and reordered, as the checker computes it.
#![tactic(auto)]

ghost use Rattle.std.specs.Prelude.{◌≡◌, [], ◌∷◌, None, map};
ghost use Rattle.lnfs_test_once.specs.Tally.{played};

/// Two numbers are added, each once, and the client takes the sum behind each.
pub fn two_numbers_are_added()
    ensures sum { played.server.sum ≡ 12 }
    // What acted are the third and the fourth transaction, the last one first.
    ensures acts { map (λ r. r.packet.xid) played.acts ≡ 4 ∷ 3 ∷ [] }
    // Each was answered first as it acted, and once more or twice behind.
    ensures given { map (λ r. r.outcome) played.given ≡ 0 ∷ 12 ∷ 5 ∷ 5 ∷ 5 ∷ 5 ∷ 0 ∷ 0 ∷ [] }
    ensures taken { map (λ r. r.outcome) played.taken ≡ 12 ∷ 5 ∷ 0 ∷ 0 ∷ [] }
    ensures idle { played.client.awaited ≡ None }
{}
