//! Laws of what words spell.

ghost use Rattle.std.specs.Prelude.{◌≡◌, ◌<◌, ◌≤◌, ◌^◌, ◌↔◌, ℕ, List, Some};
ghost use Rattle.std.specs.Fmt.{decimal};
ghost use Rattle.lnfs_words.specs.Numbers.{number_up_to};

/// A word spells a number exactly where it is the number's decimal text.
pub fn numbers()
    ensures { (most : ℕ) → most < 2 ^ 64 → (word : List ℕ) (n : ℕ)
        → (number_up_to most word ≡ Some n) ↔ ((n ≤ most) × (word ≡ decimal n)) }
{}
