//! The laws of tests, as contracts of functions that do nothing.
ghost use Rattle.std.specs.Prelude.{◌≡◌, ◌↔◌, ℕ, Bool, true, List, Option, Some, is_some, length, slice_index, None, false, [], ◌∷◌, ◌++◌};
ghost use Rattle.std.specs.List.{list_any};
ghost use Rattle.lnfs_world.specs.Rows.{Rising, Apart};
ghost use Rattle.lnfs_world.specs.Names.{entry_at};
ghost use Rattle.lnfs_world.specs.World.{Id, Client, Session, Context, Node, Entry, Open, node_order, level_order, directory_at, last_of};
ghost use Rattle.lnfs_world.specs.Tree.{Tree, LeadsTo, root, is_above};
ghost use Rattle.lnfs_world.specs.Facts.{ClientFacts, SessionFacts, ContextFacts, NodeFacts, OpenFacts, same_name, same_opening, are_rivals};
ghost use Rattle.lnfs_decide.specs.Tests.{client_test, session_test, context_test, open_test, open_rest_test};
ghost use Rattle.lnfs_rows.specs.Lasts.{given_of, each_of};
ghost use Rattle.lnfs_decide.specs.Lasts.{IsOfLevels};
ghost use Rattle.lnfs_decide.specs.NodeTests.{tree_test, node_test};

/// The tests of rows are exact.
pub fn decided()
    ensures clients { (clients : List Client) (lasts : List Id) → (client_test clients lasts ≡ true) ↔ ClientFacts clients lasts }
    ensures sessions { (clients : List Client) (sessions : List Session) (lasts : List Id) →
        (session_test clients sessions lasts ≡ true) ↔ SessionFacts clients sessions lasts }
    ensures contexts { (contexts : List Context) (lasts : List Id) → (context_test contexts lasts ≡ true) ↔ ContextFacts contexts lasts }
    ensures opens { (dom : ℕ → ℕ → Bool) (clients : List Client) (label : Id → Option ℕ) (opens : List Open) (lasts : List Id) →
        (open_test opens lasts ≡ true) × (open_rest_test dom clients (λ i. is_some (label i)) opens ≡ true) ↔ OpenFacts dom clients label opens lasts }
    ensures tree { (nodes : List Node) (entries : List Entry) → Rising node_order nodes →
        (tree_test nodes entries ≡ true) ↔ Tree (directory_at nodes) entries }
    ensures nodes { (dom : ℕ → ℕ → Bool) (nodes : List Node) (entries : List Entry) (lasts : List Id) →
        (node_test dom nodes entries lasts ≡ true) ↔ NodeFacts dom nodes entries lasts }
    // A way up on which each step leaves a row comes to the root within as many steps as there are rows, or not at all.
    ensures bounded { (up : Id → Option Id) (nodes : List Node) → ((d p : Id) → up d ≡ Some p → is_some (directory_at nodes d) ≡ true) →
        (i : Id) → (is_above (length nodes) up root i ≡ true) ↔ LeadsTo up i root }
{}

/// Last numbers of levels, one for each, and those alone that were given.
pub fn lasts()
    // What a level was given last stands at its place.
    ensures told { (numbers : List ℕ) (level : ℕ) → last_of level (given_of numbers) ≡ slice_index numbers level }
    ensures rise { (numbers : List ℕ) → Rising level_order (given_of numbers) }
    ensures levels { (numbers : List ℕ) → IsOfLevels (length numbers) (given_of numbers) }
    ensures back { (numbers : List ℕ) → each_of (length numbers) (given_of numbers) ≡ numbers }
    ensures forth { (levels : ℕ) (lasts : List Id) → Rising level_order lasts → IsOfLevels levels lasts → given_of (each_of levels lasts) ≡ lasts }
{}

/// Rows that are added one by one, as an index of theirs is built: each is asked for before it is added.
pub fn growing()
    ensures names { (es : List Entry) (e : Entry) → Apart same_name (es ++ e ∷ []) ↔ Apart same_name es × (entry_at es e.directory e.name ≡ None) }
    ensures opens { (os : List Open) (o : Open) → Apart same_opening (os ++ o ∷ []) ↔ Apart same_opening os × (list_any (λ x. same_opening x o) os ≡ false) }
    ensures rivals { (cs : List Client) (c : Client) → Apart are_rivals (cs ++ c ∷ []) ↔ Apart are_rivals cs × (list_any (λ x. are_rivals x c) cs ≡ false) }
    // Where rows so far clash, all of them do.
    ensures front { (es rest : List Entry) → Apart same_name (es ++ rest) → Apart same_name es }
{}
