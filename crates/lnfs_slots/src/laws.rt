//! The laws of slots over the real step, as contracts of functions that do nothing. They are those that a server owes for
//! acting once over every schedule.
ghost use Rattle.lnfs_calipso.specs.Label.{IsPreorderWithBottom};
ghost use Rattle.lnfs_policy.specs.Policy.{Policy, dominance};
ghost use Rattle.lnfs_once.specs.Client.{Assert, Exchange, Destroy, Leave, End};
ghost use Rattle.std.specs.Prelude.{List};
ghost use Rattle.lnfs_once.specs.Laws.{IsBare, IsLawful};
ghost use Rattle.lnfs_once.specs.Schedule.{ActsOnce, Turn, run, start};
ghost use Rattle.lnfs_slots.specs.OneClient.{Writer, before_all, step_server, rows};
ghost use Rattle.lnfs_slots.specs.SlotLaws.{AreSlotsKept, AreOthersApart, DoCompoundsAct, DoCreatesAct, IsPlainKind};
ghost use Rattle.lnfs_slots.specs.Written.{IsWriter};

use lnfs_gss3::Mechanism;
use lnfs_operations::ExtraRows;

/// A COMPOUND, and a CREATE_SESSION, that isn't the next one of its slot leaves the state. One whose slot keeps its result
/// gets the reply that it got, byte for byte.
pub fn slots_are_kept<A, X: ExtraRows, M: Mechanism>()
    ensures { (p : Policy) (w : Writer A) → IsWriter X.extra M.signing p w →
        AreSlotsKept X.extra M.signing p w }
{}

/// A COMPOUND under the next sequence of its slot acts. The slot keeps its reply under that sequence. All other rows of the
/// client stay, and its contexts, and what it was given stays given.
pub fn compounds_act<A, X: ExtraRows, M: Mechanism>()
    ensures { (p : Policy) → IsPreorderWithBottom (dominance p) → (w : Writer A) →
        IsWriter X.extra M.signing p w → DoCompoundsAct X.extra M.signing p w }
{}

/// A CREATE_SESSION under the next sequence of its client's record acts, be it granted or refused. The record keeps its reply
/// under that sequence. A session that it makes is new and unused, and all other rows of the client stay.
pub fn creates_act<A, X: ExtraRows, M: Mechanism>()
    ensures { (p : Policy) → IsPreorderWithBottom (dominance p) → (w : Writer A) →
        IsWriter X.extra M.signing p w → DoCreatesAct X.extra M.signing p w }
{}

/// A DESTROY_SESSION, a DESTROY_CLIENTID and the end of a context end what they name, where it is there and may go. All else
/// of the client stays, and what it was given stays given; what has ended doesn't come back.
pub fn endings_keep_the_rest<A, X: ExtraRows, M: Mechanism>()
    ensures destroy { (p : Policy) → IsPreorderWithBottom (dominance p) → (w : Writer A) →
        IsWriter X.extra M.signing p w → IsPlainKind X.extra M.signing p w Destroy }
    ensures leave { (p : Policy) → IsPreorderWithBottom (dominance p) → (w : Writer A) →
        IsWriter X.extra M.signing p w → IsPlainKind X.extra M.signing p w Leave }
    ensures context { (p : Policy) → IsPreorderWithBottom (dominance p) → (w : Writer A) →
        IsWriter X.extra M.signing p w → IsPlainKind X.extra M.signing p w End }
{}

/// A context that is asked for, and an EXCHANGE_ID, give the client what they tell, and nothing that was another's. All else
/// of the client stays.
pub fn beginnings_keep_the_rest<A, X: ExtraRows, M: Mechanism>()
    ensures context { (p : Policy) → IsPreorderWithBottom (dominance p) → (w : Writer A) →
        IsWriter X.extra M.signing p w → IsPlainKind X.extra M.signing p w Assert }
    ensures exchange { (p : Policy) → IsPreorderWithBottom (dominance p) → (w : Writer A) →
        IsWriter X.extra M.signing p w → IsPlainKind X.extra M.signing p w Exchange }
{}

/// An event of others, that names nothing of the client's, leaves the client's rows and contexts, and makes nothing more of it.
pub fn others_stay_apart<A, X: ExtraRows, M: Mechanism>()
    ensures { (p : Policy) → IsPreorderWithBottom (dominance p) → (w : Writer A) →
        AreOthersApart X.extra M.signing p w }
{}

/// So the step meets all laws from which requests act at most once over every schedule.
pub fn step_is_lawful<A, X: ExtraRows, M: Mechanism>()
    ensures { (p : Policy) → IsPreorderWithBottom (dominance p) → (w : Writer A) →
        IsWriter X.extra M.signing p w → IsLawful (rows X.extra M.signing p w) }
{}

/// Over every schedule from the state before all events on, each COMPOUND and each CREATE_SESSION of the client acts at most
/// once, and the client takes the first reply that was given to it. What may be lost, repeated and reordered is each packet
/// of the client, and each reply to one.
pub fn requests_act_once<A, X: ExtraRows, M: Mechanism>()
    // Before all events the client has nothing.
    ensures first { (p : Policy) → IsPreorderWithBottom (dominance p) → (w : Writer A) →
        IsBare (rows X.extra M.signing p w) (before_all X.extra p) }
    ensures once { (p : Policy) → IsPreorderWithBottom (dominance p) → (w : Writer A) →
        IsWriter X.extra M.signing p w →
        let server = step_server X.extra M.signing p w in
        (turns : List (Turn server)) →
        ActsOnce server (run server turns (start server (before_all X.extra p))) }
{}
