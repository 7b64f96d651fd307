//! Laws of scripts and of their paths.

ghost use Rattle.std.specs.Prelude.{◌≡◌, ◌≤◌, ℕ, true, List, All, Ok, length, IsTrue};
ghost use Rattle.lnfs_words.specs.Paths.{is_component, is_path};
ghost use Rattle.lnfs_policy.specs.Policy.{Policy};
ghost use Rattle.lnfs_policy.specs.declared.fits.TheConstants.{MAX_CLASS};
ghost use Rattle.lnfs_script.specs.Fits.{ActionFits, ActionSuits, IdentitySuits, IsOfLine};
ghost use Rattle.lnfs_script.specs.Paths.{components, is_root_or_path, joined};
ghost use Rattle.lnfs_script.specs.Script.{script_of};
ghost use Rattle.lnfs_script.specs.declared.script.Script.{Script};

/// What holds of a script that a text spells: its actions keep the bounds of a line, name levels of the policy, and are
/// neither mount nor leave; its class is at most 7, and its parent is one of the policy.
pub fn scripts()
    ensures fits { (p : Policy) (text : List ℕ) (s : Script) → script_of p text ≡ Ok s
        → All ActionFits s.actions }
    ensures suits { (p : Policy) (text : List ℕ) (s : Script) → script_of p text ≡ Ok s
        → All (ActionSuits p) s.actions }
    ensures of_lines { (p : Policy) (text : List ℕ) (s : Script) → script_of p text ≡ Ok s
        → All IsOfLine s.actions }
    ensures class { (p : Policy) (text : List ℕ) (s : Script) → script_of p text ≡ Ok s
        → s.class ≤ MAX_CLASS }
    ensures identity { (p : Policy) (text : List ℕ) (s : Script) → script_of p text ≡ Ok s
        → IdentitySuits p s.identity }
{}

/// A path has at most 16 components, each of them a name of 1 to 255 bytes; below the root it has at least one, and is each of
/// them behind a slash.
pub fn paths()
    ensures few { (path : List ℕ) → IsTrue (is_root_or_path path) → length (components path) ≤ 16 }
    ensures names { (path : List ℕ) → IsTrue (is_root_or_path path)
        → All (λ name. is_component name ≡ true) (components path) }
    ensures some { (path : List ℕ) → IsTrue (is_path path) → 1 ≤ length (components path) }
    ensures below { (path : List ℕ) → IsTrue (is_path path) → IsTrue (is_root_or_path path) }
    ensures spelled { (path : List ℕ) → IsTrue (is_path path) → joined (components path) ≡ path }
{}
