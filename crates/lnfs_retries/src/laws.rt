//! The law of the client's requests over schedules, as the contract of a function that does nothing.
ghost use Rattle.std.specs.Prelude.{◌≡◌, ℕ, List, [], length, Some, None};
ghost use Rattle.lnfs_calipso.specs.Label.{IsPreorderWithBottom};
ghost use Rattle.lnfs_policy.specs.Policy.{Policy, dominance};
ghost use Rattle.lnfs_arguments.specs.Further.{IsLawful};
ghost use Rattle.lnfs_signed_calls.specs.Laws.{Accepts};
ghost use Rattle.lnfs_once.specs.Schedule.{ActsOnce};
ghost use Rattle.lnfs_slots.specs.OneClient.{When, before_all};
ghost use Rattle.lnfs_retries.specs.Packets.{Setting, MayCome, served_level};
ghost use Rattle.lnfs_retries.specs.Schedule.{ClientTurn, IsAwaited, client_run, client_start, seen_state, server_of, twice};

use lnfs_gss3::Mechanism;
use lnfs_operations::ExtraRows;

/// Over every schedule, whatever actions begin: each COMPOUND and each CREATE_SESSION of the client acts at most once, and the
/// reply that the client takes to one is the first that was given to it. What may be lost, repeated and reordered is each
/// packet of the client, and each reply to one. It is so of guests and of those who come under a parent, for each policy,
/// and each mechanism that takes the signatures that it makes.
///
/// Numbers of the policy and of the client that are sent as words fit one.
pub fn acts_once<X: ExtraRows, M: Mechanism>()
    ensures once { (p : Policy) → IsPreorderWithBottom (dominance p) → IsLawful X.extra.grammar →
        Accepts M.signing → (s : Setting) → MayCome p s → (level : ℕ) →
        served_level p s ≡ Some level → (turns : List (ClientTurn X.extra M.signing p s level)) →
        let end_ = client_run X.extra M.signing p s level turns
        (client_start X.extra M.signing p s level (before_all X.extra p)) in
        ActsOnce (server_of X.extra M.signing p s level)
        (seen_state X.extra M.signing p s level end_) }
    // The packet that is awaited is, byte for byte, the request that the client would send again.
    ensures awaited { (p : Policy) → IsPreorderWithBottom (dominance p) → IsLawful X.extra.grammar →
        Accepts M.signing → (s : Setting) → MayCome p s → (level : ℕ) →
        served_level p s ≡ Some level → (turns : List (ClientTurn X.extra M.signing p s level)) →
        IsAwaited X.extra M.signing p s level (client_run X.extra M.signing p s level turns
        (client_start X.extra M.signing p s level (before_all X.extra p))) }
    // Where the policy gives the client no level nothing of it acts.
    ensures none { (p : Policy) → Accepts M.signing → (s : Setting) → MayCome p s → (level : ℕ) →
        served_level p s ≡ None → (turns : List (ClientTurn X.extra M.signing p s level)) →
        let end_ = client_run X.extra M.signing p s level turns
        (client_start X.extra M.signing p s level (before_all X.extra p)) in
        (end_.acts ≡ []) × ActsOnce (server_of X.extra M.signing p s level)
        (seen_state X.extra M.signing p s level end_) }
    // Requests are made, sent again and answered: those of a Mount, whoever the client is.
    ensures asks { (p : Policy) (s : Setting) (level : ℕ) (when : When) →
        let end_ = client_run X.extra M.signing p s level (twice X.extra M.signing p s level when)
        (client_start X.extra M.signing p s level (before_all X.extra p)) in
        (length end_.sent ≡ 2) × (length end_.given ≡ 2) × (end_.client.sent ≡ 1) }
{}
