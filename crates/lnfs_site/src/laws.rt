//! Laws of the first world, as the contract of a function that does nothing.
ghost use Rattle.std.specs.Prelude.{◌≡◌, ◌+◌, ℕ, List, [], ◌∷◌, map, length, Some, None, Ok};
ghost use Rattle.std.specs.List.{AllByRecursion};
ghost use Rattle.lnfs_policy.specs.Policy.{Policy};
ghost use Rattle.lnfs_policy.specs.PolicyText.{policy_of};
ghost use Rattle.lnfs_policy.specs.declared.mode.Mode.TheVariants.{Enforcing, Limited};
ghost use Rattle.lnfs_world.specs.First.{HasDirectory, InOrder, root_dir};
ghost use Rattle.lnfs_site.specs.Site.{spelling, first_label, first_world};

/// Of every policy that a text spells: in its first world stand the root and the directory of each `dir` line, in the
/// order of the lines, and no other node.
pub fn first_world_of_every_policy()
    // The path of each line leads to a directory of the line's level.
    ensures enforcing { (text : List ℕ) (p : Policy) → policy_of text ≡ Ok p → p.mode ≡ Enforcing →
        AllByRecursion (λ line.
        HasDirectory (first_world p)
        (record { path = line.path; level = line.level.0; stored = None })) p.dirs }
    // Under a limited policy that is level 0, and the directory bears the label of the line's level as bytes.
    ensures limited { (text : List ℕ) (p : Policy) → policy_of text ≡ Ok p → p.mode ≡ Limited →
        AllByRecursion (λ line.
        HasDirectory (first_world p)
        (record { path = line.path; level = 0; stored = Some (spelling p line.level.0) }))
        p.dirs }
    ensures root { (text : List ℕ) (p : Policy) → policy_of text ≡ Ok p →
        HasDirectory (first_world p) (root_dir (first_label p 0)) }
    // Of two nodes of one home the later line's has the higher number. The root comes before all.
    ensures order { (text : List ℕ) (p : Policy) → policy_of text ≡ Ok p →
        InOrder (first_world p) ([] ∷ map (λ line. line.path) p.dirs) }
    ensures count { (text : List ℕ) (p : Policy) → policy_of text ≡ Ok p →
        length (first_world p).nodes ≡ 1 + length p.dirs }
{}
