//! Laws of labels and their bodies: what the definitions say, for all labels and byte lists.

ghost use Rattle.std.specs.Prelude.{◌≡◌, ◌<◌, ℕ, Some, List, true, slice_index};
ghost use Rattle.lnfs_calipso.specs.Label.{Label, IsLabel, dominates};
ghost use Rattle.lnfs_calipso.specs.Body.{body_of, label_of_body};

/// Dominance is an order on labels.
pub fn dominance()
    ensures reflexive { (a : Label) → dominates a a ≡ true }
    ensures transitive { (a b c : Label) → dominates a b ≡ true → dominates b c ≡ true
        → dominates a c ≡ true }
    ensures antisymmetric { (a b : Label) → IsLabel a → IsLabel b → dominates a b ≡ true
        → dominates b a ≡ true → a ≡ b }
{}

/// Reading and writing of bodies are inverse to each other.
pub fn bodies()
    ensures read_back { (label : Label) → IsLabel label →
        label_of_body (body_of label) ≡ Some label }
    ensures written_back { (bytes : List ℕ) → ((k : ℕ) → slice_index bytes k < 256)
        → (label : Label) → label_of_body bytes ≡ Some label → body_of label ≡ bytes }
{}
