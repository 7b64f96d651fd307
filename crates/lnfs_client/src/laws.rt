//! Laws of what a client does over time, as the contracts of functions that do nothing.
ghost use Rattle.std.specs.Prelude.{◌≡◌, ◌+◌, ◌∷◌, [], ℕ, List, Some, None, true};
ghost use Rattle.std.specs.List.{AllPairs};
ghost use Rattle.lnfs_policy.specs.Policy.{Policy};
ghost use Rattle.lnfs_script.specs.declared.action.Action.{Action};
ghost use Rattle.lnfs_script.specs.declared.identity.Identity.{Identity};
ghost use Rattle.lnfs_script.specs.Fits.{ActionSuits};
ghost use Rattle.lnfs_client.specs.declared.known.Known.{Known};
ghost use Rattle.lnfs_client.specs.declared.known.Running.{Running};
ghost use Rattle.lnfs_client.specs.Fits.{Suits};
ghost use Rattle.lnfs_client.specs.Machine.{begun, started, turn};
ghost use Rattle.lnfs_client.specs.Promises.{ChangesAreGuarded, IfShown, IsShownOf};
ghost use Rattle.lnfs_client.specs.Runs.{AreJudged, Deed, DeedsSuit, MayStart, run};
ghost use Rattle.lnfs_client.specs.Slot.{Follows, used};

use lnfs_gss3::Mechanism;

/// A policy that suits a client suits it when an action has begun whose levels it has.
pub fn beginning()
    ensures start { (p : Policy) (level : ℕ) (who : Identity) (owner : List ℕ) →
        MayStart p level who → Suits p (started level who owner) }
    ensures begun { (p : Policy) (k : Known) (action : Action) →
        Suits p k → ActionSuits p action → Suits p (begun action k) }
{}

/// Whatever actions begin, whenever requests are made, and whatever records come.
pub fn dialogues<M: Mechanism>()
    // The next request writes, makes, removes or raises something only behind a label that was read, that tells the client's own
    // level, and that the request verifies in the same COMPOUND.
    ensures guarded { (p : Policy) (level : ℕ) (who : Identity) (owner : List ℕ) →
        MayStart p level who → (deeds : List Deed) → DeedsSuit p deeds →
        ChangesAreGuarded p (run M.signing p (started level who owner) deeds) }
    // Data and entries come of the record that ends the action, whose own label the client's level dominates.
    ensures shown { (p : Policy) (level : ℕ) (who : Identity) (owner : List ℕ) →
        (deeds : List Deed) (bytes : List ℕ) →
        let k = run M.signing p (started level who owner) deeds in
        IfShown (turn M.signing p k bytes).told (IsShownOf M.signing p k bytes) }
    // The entries that are kept from earlier records came each of a record whose own label was judged so.
    ensures entries { (p : Policy) (level : ℕ) (who : Identity) (owner : List ℕ) →
        (deeds : List Deed) (r : Running) →
        (run M.signing p (started level who owner) deeds).running ≡ Some r →
        AreJudged M.signing p (started level who owner) r.shown }
    // No two requests in one session have the same number in its slot: each has a higher one than all before it.
    ensures numbers { (p : Policy) (level : ℕ) (who : Identity) (owner : List ℕ) →
        (deeds : List Deed) →
        AllPairs Follows (used M.signing p (started level who owner) deeds []) }
{}
