//! Laws of translation.

ghost use Rattle.std.specs.Prelude.{◌≡◌, ℕ, List, Ok};
ghost use Rattle.lnfs_calipso.specs.Label.{Label};
ghost use Rattle.lnfs_format.specs.declared.formats.FormatEntry.{FormatEntry};
ghost use Rattle.lnfs_format.specs.declared.formats.Pair.{Pair};
ghost use Rattle.lnfs_format.specs.Site.{IsSite};
ghost use Rattle.lnfs_map.specs.Translated.{translated};
ghost use Rattle.lnfs_map.specs.Kept.{IsOneLevel, dom_by};

/// A translation keeps the level, and so dominance in both directions.
pub fn translation()
    ensures level { (entries : List FormatEntry) (labels : List Label) → IsSite entries labels
        → (source target : Pair) (bytes text : List ℕ)
        → translated entries labels source target bytes ≡ Ok text
        → IsOneLevel entries labels source target bytes text }
    ensures dominance { (entries : List FormatEntry) (labels : List Label) → IsSite entries labels
        → (source target : Pair) (a b text_a text_b : List ℕ)
        → translated entries labels source target a ≡ Ok text_a
        → translated entries labels source target b ≡ Ok text_b
        → dom_by entries labels target text_a text_b ≡ dom_by entries labels source a b }
{
    lnfs_format::laws::formats();
}
