//! Commands whose answer is a text.
ghost use Rattle.std.specs.Prelude.{◌≡◌, ◌++◌, ◌∷◌, []};
ghost use Rattle.hex.specs.Hex.{encode_lower};
ghost use Rattle.lnfs_map.specs.Translated.{translated};
ghost use Rattle.lnfs_policy.specs.Migrated.{in_version_2};
ghost use Rattle.lnfs_stage.specs.Does.{Does};
ghost use Rattle.lnfs_commands.specs.Commands.{shown, spelled, stop_of};

use lnfs_format::Codecs;
use lnfs_map::{MapError, Pair, TranslationTable};
use lnfs_policy::{Policy, write_policy};
use lnfs_stage::{Ending, MapCause, Outside, Stop};
use std::alloc::Global;

/// Shows the canonical text of a policy.
pub fn check<O: Outside>(alloc: Global, policy: &Policy, outside: &mut O) -> Result<(), Stop>
    ensures { Does result (O.seen outside.old) (O.seen outside.new) (shown policy.now.text) }
{
    let text = write_policy(alloc, policy)?;
    outside.put_text(&text)
}

/// Shows the text of a policy in version 2.
pub fn migrate<O: Outside>(alloc: Global, policy: &Policy, outside: &mut O) -> Result<(), Stop>
    ensures { Does result (O.seen outside.old) (O.seen outside.new)
        (shown (in_version_2 policy.now.text)) }
{
    let text = lnfs_policy::migrate(alloc, policy)?;
    outside.put_text(&text)
}

/// Shows some bytes in hex.
fn show_hex<O: Outside>(alloc: Global, bytes: &[u8], outside: &mut O) -> Result<(), Stop>
    ensures { Does result (O.seen outside.old) (O.seen outside.new)
        (shown (encode_lower bytes.now ++ 10 ∷ [])) }
{
    let mut text = hex::encode(alloc, bytes)?;
    text.push_str("\n")?;
    outside.put_text(text.as_bytes())
}

/// How the run ends where a label has no translation.
fn no_translation(error: MapError) -> Stop
    ensures { result ≡ stop_of error }
{
    let cause = match error {
        MapError::WrongLfs => MapCause::WrongLfs,
        MapError::BadLabel => MapCause::BadLabel,
        MapError::NoRow => MapCause::NoRow,
        MapError::Memory => return Stop::Memory,
    };
    Stop::Ends(Ending::Untranslated { cause })
}

/// Shows in hex the bytes that spell in the second format the label that the bytes spell in the first.
pub fn translate<O: Outside>(
    alloc: Global,
    codecs: &Codecs,
    policy: &Policy,
    source: Pair,
    target: Pair,
    bytes: &[u8],
    outside: &mut O,
) -> Result<(), Stop>
    ensures { Does result (O.seen outside.old) (O.seen outside.new)
        (spelled (translated policy.now.formats policy.now.labels source target bytes.now)) }
{
    let table = TranslationTable::new(policy.formats(), codecs, policy.lattice());
    match table.translate(source, target, bytes) {
        Ok(text) => show_hex(alloc, &text, outside),
        Err(error) => Err(no_translation(error)),
    }
}
