//! What the closures of codecs can be made of.

ghost use Rattle.std.specs.Prelude.{◌≡◌, IfOk};
ghost use Rattle.std.specs.Option.{option_map};
ghost use Rattle.lnfs_format.specs.Kinds.{reads, writes};

use crate::kind::Kind;
use crate::long::{read_long, write_long};
use crate::name::{read_name, write_name};
use crate::text::{read_text, write_text};
use lnfs_calipso::{Label, read_label, write_label};
use std::alloc::{AllocError, Global};

/// The label that some bytes spell in a format of the given kind.
///
/// # Errors
///
/// `AllocError` where there is no memory.
#[tactic(auto, unfolding(crate::specs::Kinds::reads))]
pub fn read_kind(alloc: Global, kind: &Kind, bytes: &[u8]) -> Result<Option<Label>, AllocError>
    ensures { IfOk result (λ label. label ≡ reads kind.now bytes.now) }
{
    match kind {
        Kind::Calipso => read_label(alloc, bytes),
        Kind::Text { doi } => read_text(alloc, *doi, bytes),
        Kind::Name { rows } => read_name(alloc, rows.as_slice(), bytes),
        Kind::Long => read_long(alloc, bytes),
    }
}

/// The bytes that spell a label in a format of the given kind.
///
/// # Errors
///
/// `AllocError` where there is no memory.
#[tactic(auto, unfolding(crate::specs::Kinds::writes))]
pub fn write_kind(alloc: Global, kind: &Kind, label: &Label) -> Result<Option<Vec<u8>>, AllocError>
    ensures { IfOk result (λ text. option_map (λ v. v.items) text ≡ writes kind.now label.now) }
{
    match kind {
        Kind::Calipso => {
            let bytes = write_label(alloc, label)?;
            Ok(Some(bytes))
        }
        Kind::Text { doi } => write_text(alloc, *doi, label),
        Kind::Name { rows } => write_name(alloc, rows.as_slice(), label),
        Kind::Long => write_long(alloc, label),
    }
}
