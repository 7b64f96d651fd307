//! Laws of the policy's text.

ghost use Rattle.std.specs.Prelude.{◌≡◌, ◌↔◌, ℕ, List, Ok, All, length};
ghost use Rattle.lnfs_calipso.specs.Label.{IsLabel, IsOfLabels};
ghost use Rattle.lnfs_calipso.specs.Levels.{AllAbove};
ghost use Rattle.lnfs_format.specs.Site.{AreFormats};
ghost use Rattle.lnfs_policy.specs.FirstVersion.{IsOfFirst};
ghost use Rattle.lnfs_policy.specs.Migrated.{IsMigrated, in_version_2};
ghost use Rattle.lnfs_policy.specs.Policy.{Policy, dominance};
ghost use Rattle.lnfs_policy.specs.PolicyText.{IsPolicy, policy_of};
ghost use Rattle.lnfs_policy.specs.Line.{Line, line_of};
ghost use Rattle.lnfs_policy.specs.Spelled.{spelled, HasNumbers};

/// A line says something exactly where its words are the one spelling of it.
pub fn lines()
    ensures { (words : List (List ℕ)) (line : Line) →
        (line_of words ≡ Ok line) ↔ (HasNumbers line × (words ≡ spelled line)) }
{}

/// The labels of a policy are labels, and its formats are formats. So each format reads some bytes as a label
/// exactly where it writes that label as these bytes (`lnfs_format::laws::formats`).
pub fn site()
    ensures labels { (text : List ℕ) (p : Policy) → policy_of text ≡ Ok p → All IsLabel p.labels }
    ensures formats { (text : List ℕ) (p : Policy) → policy_of text ≡ Ok p → AreFormats p.formats }
{
    lnfs_format::laws::compartments();
}

/// What holds of a policy of version 1: each label dominates the first, and has no compartment above 255. So
/// dominance of its levels is that of their labels, and a CALIPSO body of more than 8 words is that of no level.
pub fn first_version()
    ensures above { (text : List ℕ) (p : Policy) → policy_of text ≡ Ok p → p.version ≡ 1
        → AllAbove p.labels (length p.labels) }
    ensures compartments { (text : List ℕ) (p : Policy) → policy_of text ≡ Ok p → p.version ≡ 1
        → All IsOfFirst p.labels }
    ensures dominance { (text : List ℕ) (p : Policy) → policy_of text ≡ Ok p → p.version ≡ 1
        → IsOfLabels p.labels (dominance p) }
{
    lnfs_format::laws::compartments();
}

/// The text of a policy in version 2 spells a policy that says the same.
pub fn migration()
    ensures { (p : Policy) → IsPolicy p → IsMigrated p (in_version_2 p.text) }
{}
