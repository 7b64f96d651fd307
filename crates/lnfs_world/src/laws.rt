//! The laws of worlds, as contracts of functions that do nothing.
ghost use Rattle.std.specs.Prelude.{◌≡◌, ◌↔◌, ℕ, suc, Bool, true, false, List, length, Option, Some, option_map};
ghost use Rattle.std.specs.List.{AllByRecursion};
ghost use Rattle.lnfs_calipso.specs.Label.{IsPreorderWithBottom};
ghost use Rattle.lnfs_world.specs.World.{Id, Stored, Node, World, node_at, label_at, directory_at};
ghost use Rattle.lnfs_world.specs.Erased.{erased, sees, shrunk, blank, outer_of, dominates_label};
ghost use Rattle.lnfs_world.specs.Tree.{Tree, LeadsTo, parent_of, way_up, is_above, goes_under};
ghost use Rattle.lnfs_world.specs.Change.{Change, apply};
ghost use Rattle.lnfs_world.specs.Facts.{Facts};
ghost use Rattle.lnfs_world.specs.Within.{is_within};
ghost use Rattle.lnfs_world.specs.Tame.{Tame};
ghost use Rattle.lnfs_world.specs.Labels.{LabelsRise};
ghost use Rattle.lnfs_world.specs.First.{FirstDir, first_tree};
ghost use Rattle.lnfs_world.specs.Usage.{bytes_of};

/// What each change comes to that a subject may make.
pub fn changes()
    // What a level that dominates the subject sees afterwards is determined by what it saw before.
    ensures determined { (dom : ℕ → ℕ → Bool) → IsPreorderWithBottom dom →
        (level s : ℕ) (c : Change) (w : World) →
        dom level s ≡ true → Facts dom w → is_within dom s w c ≡ true →
        erased dom level (apply c w) ≡ erased dom level (apply c (erased dom level w)) }
    // What any other level sees stays.
    ensures unseen { (dom : ℕ → ℕ → Bool) → IsPreorderWithBottom dom →
        (level s : ℕ) (c : Change) (w : World) →
        dom level s ≡ false → Facts dom w → is_within dom s w c ≡ true →
        erased dom level (apply c w) ≡ erased dom level w }
    ensures facts { (dom : ℕ → ℕ → Bool) → IsPreorderWithBottom dom →
        (s : ℕ) (c : Change) (w : World) →
        Facts dom w → is_within dom s w c ≡ true → Facts dom (apply c w) }
    ensures tame { (dom : ℕ → ℕ → Bool) (s : ℕ) (c : Change) (w : World) →
        is_within dom s w c ≡ true → Tame w (apply c w) }
    // Labels go up alone.
    ensures labels { (dom : ℕ → ℕ → Bool) → IsPreorderWithBottom dom →
        (s : ℕ) (c : Change) (w : World) →
        Facts dom w → is_within dom s w c ≡ true → LabelsRise dom w (apply c w) }
{}

/// What a level sees is a matter of labels: of a world that was seen by a level above it sees the
/// same, and of a directory's names it sees all or none, by the directory's label.
pub fn erasure()
    ensures below { (dom : ℕ → ℕ → Bool) → IsPreorderWithBottom dom → (level s : ℕ) (w : World) →
        dom level s ≡ true → erased dom s (erased dom level w) ≡ erased dom s w }
    ensures names { (dom : ℕ → ℕ → Bool) → IsPreorderWithBottom dom →
        (level : ℕ) (w : World) (i : Id) → Facts dom w →
        sees dom level w.nodes i ≡ dominates_label dom level (label_at w.nodes i) }
    // A level that dominates a node's home sees its kind, label and verifier.
    ensures outer { (dom : ℕ → ℕ → Bool) (level : ℕ) (w : World) (i : Id) →
        dom level i.level ≡ true →
        option_map outer_of (node_at (erased dom level w).nodes i)
        ≡ option_map outer_of (node_at w.nodes i) }
    // And nothing more, unless it dominates the label.
    ensures inner { (dom : ℕ → ℕ → Bool) (level : ℕ) (n : Node) → dom level n.label ≡ false →
        (shrunk dom level n).inner ≡ blank }
{}

/// Directories are a tree in every world with the facts.
pub fn tree()
    ensures tree { (dom : ℕ → ℕ → Bool) (w : World) → Facts dom w →
        Tree (directory_at w.nodes) w.entries }
    // No directory lies above itself.
    ensures loops { (dom : ℕ → ℕ → Bool) (w : World) (d : Id) (steps : ℕ) → Facts dom w →
        directory_at w.nodes d ≡ Some true → way_up (parent_of w.entries) (suc steps) d ≡ Some d →
        ⊥ }
    // A walk up, whose steps are limited by what its subject sees, finds what lies above each directory
    // that it sees, and nothing else.
    ensures walk { (dom : ℕ → ℕ → Bool) → IsPreorderWithBottom dom →
        (s : ℕ) (w : World) (moved target : Id) → Facts dom w →
        directory_at w.nodes target ≡ Some true → sees dom s w.nodes target ≡ true →
        (goes_under dom s w moved target ≡ true) ↔ LeadsTo (parent_of w.entries) target moved }
    // So does a walk of as many steps as there are nodes, to any directory.
    ensures whole { (dom : ℕ → ℕ → Bool) (w : World) (moved target : Id) → Facts dom w →
        directory_at w.nodes target ≡ Some true →
        (is_above (length w.nodes) (parent_of w.entries) moved target ≡ true)
        ↔ LeadsTo (parent_of w.entries) target moved }
{}

/// The first world has the facts, and no bytes, whatever directories are to stand.
pub fn first()
    ensures facts { (dom : ℕ → ℕ → Bool) → IsPreorderWithBottom dom →
        (stored : Option Stored) (dirs : List FirstDir) →
        Facts dom (first_tree dom stored dirs) }
    // No node has bytes.
    ensures empty { (dom : ℕ → ℕ → Bool) (stored : Option Stored) (dirs : List FirstDir) →
        AllByRecursion (λ n. bytes_of n n.kind ≡ 0) (first_tree dom stored dirs).nodes }
{}
