//! Laws of formats: reading and writing are inverse to each other.

ghost use Rattle.std.specs.Prelude.{◌≡◌, ◌<◌, ◌^◌, ℕ, Some, List, []};
ghost use Rattle.lnfs_calipso.specs.Label.{Label, IsLabel};
ghost use Rattle.lnfs_format.specs.Text.{comps_text};
ghost use Rattle.lnfs_format.specs.Reading.{reads_comps};
ghost use Rattle.lnfs_format.specs.Laws.{IsComps, ReadBack, WrittenBack};

/// Some bytes are read as a label exactly where that label is written as these bytes.
pub fn formats()
    ensures written_back { WrittenBack }
    ensures read_back { ReadBack }
{
    lnfs_calipso::laws::bodies();
}

/// The compartments of a label that has one are read as that label, and no other bytes are.
pub fn compartments()
    ensures read_back { (label : Label) → IsLabel label → (label.comps ≡ [] → ⊥)
        → reads_comps label.doi label.sens (comps_text label.comps) ≡ Some label }
    ensures written_back { (doi sens : ℕ) → doi < 2 ^ 32 → sens < 256 →
        (bytes : List ℕ) (label : Label)
        → reads_comps doi sens bytes ≡ Some label → IsComps doi sens label bytes }
{}
