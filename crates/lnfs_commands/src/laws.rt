//! What the definitions mean: facts about them alone.
ghost use Rattle.std.specs.Prelude.{◌≡◌, List, ℕ, Ok, Err};
ghost use Rattle.std.specs.declared.option.Option.{Option};
ghost use Rattle.lnfs_map.specs.Kept.{IsOneLevel, dom_by};
ghost use Rattle.lnfs_map.specs.Translated.{translated};
ghost use Rattle.lnfs_map.specs.declared.table.MapError.TheVariants.{Memory};
ghost use Rattle.lnfs_calipso.specs.Label.{Label};
ghost use Rattle.lnfs_format.specs.declared.formats.FormatEntry.{FormatEntry};
ghost use Rattle.lnfs_format.specs.declared.formats.Pair.{Pair};
ghost use Rattle.lnfs_types.specs.declared.event.Event.{Event};
ghost use Rattle.lnfs_policy.specs.Policy.{Policy};
ghost use Rattle.lnfs_policy.specs.Migrated.{in_version_2};
ghost use Rattle.lnfs_policy.specs.PolicyText.{policy_of};
ghost use Rattle.lnfs_stage.specs.Writes.{on_out, on_audit};
ghost use Rattle.lnfs_commands.specs.Events.{writes_after, frames_after, lines_after};

/// Of what is written for events, standard output gets the frames of the replies, and the audit
/// stream the lines.
pub fn streams()
    ensures out { (reply line : List Event → Event →
        Option (List ℕ)) (journal events : List Event) →
        on_out (writes_after reply line journal events) ≡ frames_after reply journal events }
    ensures audit { (reply line : List Event → Event →
        Option (List ℕ)) (journal events : List Event) →
        on_audit (writes_after reply line journal events) ≡ lines_after line journal events }
{}

/// The text that `migrate` shows spells a policy of version 2 that says the same.
pub fn migration()
    ensures { (text : List ℕ) (p : Policy) → policy_of text ≡ Ok p
        → policy_of (in_version_2 p.text)
        ≡ Ok (record p { text = in_version_2 p.text; version = 2 }) }
{
    lnfs_policy::laws::migration();
}

/// Under a policy a translation keeps the level, and so dominance in both directions. What is told of it isn't
/// want of memory.
pub fn translation()
    ensures level { (text : List ℕ) (p : Policy) → policy_of text ≡ Ok p
        → (source target : Pair) (bytes spelled : List ℕ)
        → translated p.formats p.labels source target bytes ≡ Ok spelled
        → IsOneLevel p.formats p.labels source target bytes spelled }
    ensures dominance { (text : List ℕ) (p : Policy) → policy_of text ≡ Ok p
        → (source target : Pair) (a b spelled_a spelled_b : List ℕ)
        → translated p.formats p.labels source target a ≡ Ok spelled_a
        → translated p.formats p.labels source target b ≡ Ok spelled_b
        → dom_by p.formats p.labels target spelled_a spelled_b
        ≡ dom_by p.formats p.labels source a b }
    ensures memory { (formats : List FormatEntry) (labels : List Label) (source target : Pair)
        (bytes : List ℕ) → translated formats labels source target bytes ≡ Err Memory → ⊥ }
{
    lnfs_policy::laws::site();
    lnfs_map::laws::translation();
}
