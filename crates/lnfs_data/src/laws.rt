//! Laws of worlds that have the rows of a tree, as the contract of a function that does nothing.
ghost use Rattle.std.specs.Prelude.{◌≡◌, ℕ, List};
ghost use Rattle.lnfs_types.specs.declared.event.Moment.{Moment};
ghost use Rattle.lnfs_world.specs.World.{Id, World, node_at};
ghost use Rattle.lnfs_tree.specs.Rows.{Rows};
ghost use Rattle.lnfs_tree.specs.Changed.{Does, set_size_of, write_of, zero_of, copy_of, move_of};
ghost use Rattle.lnfs_data.specs.Charges.{IsAccessed};
ghost use Rattle.lnfs_data.specs.Worlds.{Touches, Answer, DoesIn, with_access};

/// What a call does to the rows of a tree, it does to every world that has them.
pub fn law_worlds()
    ensures set_size { (f : Rows → World) → Touches f → (t u : Rows) (i : Id) (size : ℕ) (at : Moment)
        (r : Answer) → Does (λ x. x) (set_size_of t i size at) t u r →
        DoesIn (set_size_of t i size at) (f t) (f u) r }
    ensures write { (f : Rows → World) → Touches f → (t u : Rows) (i : Id) (offset : ℕ)
        (bytes : List ℕ) (at : Moment) (r : Answer) →
        Does (λ x. x) (write_of t i offset bytes at) t u r →
        DoesIn (write_of t i offset bytes at) (f t) (f u) r }
    ensures zero { (f : Rows → World) → Touches f → (t u : Rows) (i : Id) (first end : ℕ)
        (at : Moment) (r : Answer) → Does (λ x. x) (zero_of t i first end at) t u r →
        DoesIn (zero_of t i first end at) (f t) (f u) r }
    ensures copy { (f : Rows → World) → Touches f → (t u : Rows) (from to : Id)
        (source target count : ℕ) (at : Moment) (r : Answer) →
        Does (λ x. x) (copy_of t from to source target count at) t u r →
        DoesIn (copy_of t from to source target count at) (f t) (f u) r }
    ensures copy_within { (f : Rows → World) → Touches f → (t u : Rows) (i : Id)
        (from to count : ℕ) (at : Moment) (r : Answer) →
        Does (λ x. x) (move_of t i from to count at) t u r →
        DoesIn (move_of t i from to count at) (f t) (f u) r }
    ensures touch { (f : Rows → World) → Touches f → (t u : Rows) (i : Id) (at : Moment) →
        IsAccessed i at t u → f u ≡ with_access i at (f t) (node_at t.nodes i) }
{}
