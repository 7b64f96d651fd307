//! Long texts of labels, which bear the DOI.

ghost use Rattle.std.specs.Prelude.{◌≡◌, ◌++◌, IfOk, OnOk};
ghost use Rattle.std.specs.Option.{option_map};
ghost use Rattle.lnfs_format.specs.Long.{comps_word, long_of, label_with, reads_long, writes_long};

use crate::formats::MAX_SPELLING;
use crate::runs::{has_comps, put_comps, put_decimal};
use crate::text::{if_short, read_comps};
use lnfs_calipso::Label;
use lnfs_words::{Parts, number, number_up_to, spells};
use std::alloc::{AllocError, Global};

/// The largest sensitivity.
const MAX_SENSITIVITY: u64 = 255;

fn put_comps_word(text: &mut Vec<u8>, label: &Label) -> Result<(), AllocError>
    ensures { OnOk result (text.new.items ≡ text.old.items ++ comps_word label.now.comps) }
{
    if !has_comps(label) {
        text.push(b'-')?;
        return Ok(());
    }
    put_comps(text, label)
}

#[tactic(auto, unfolding(crate::specs::Long::long_of))]
fn spell(alloc: Global, label: &Label) -> Result<Vec<u8>, AllocError>
    ensures { IfOk result (λ text. text.items ≡ long_of label.now) }
{
    let mut text = Vec::new(alloc);
    put_decimal(&mut text, label.doi())?;
    text.push(b'/')?;
    put_decimal(&mut text, u32::from(label.sens()))?;
    text.push(b'/')?;
    put_comps_word(&mut text, label)?;
    Ok(text)
}

/// The long text of a label: its DOI and its sensitivity in decimal, and `-` or its compartments as their maximal runs,
/// joined by slashes; if it has at most 1,024 bytes.
///
/// # Errors
///
/// `AllocError` where there is no memory.
#[tactic(auto, unfolding(crate::specs::Long::writes_long))]
pub fn write_long(alloc: Global, label: &Label) -> Result<Option<Vec<u8>>, AllocError>
    ensures { IfOk result (λ text. option_map (λ v. v.items) text ≡ writes_long label.now) }
{
    let text = spell(alloc, label)?;
    Ok(if_short(text))
}

/// The label of a DOI and a sensitivity whose compartments a word tells: `-`, or what `write_comps` writes.
///
/// # Errors
///
/// `AllocError` where there is no memory.
#[tactic(auto, unfolding(crate::specs::Long::label_with))]
pub fn read_label_with(
    alloc: Global,
    doi: u32,
    sens: u8,
    word: &[u8],
) -> Result<Option<Label>, AllocError>
    ensures { IfOk result (λ label. label ≡ label_with doi sens word.now) }
{
    if spells(word, "-") {
        return Ok(Some(Label::bare(alloc, doi, sens)));
    }
    read_comps(alloc, doi, sens, word)
}

/// The label whose long text the bytes are, if they are one.
///
/// # Errors
///
/// `AllocError` where there is no memory.
#[tactic(auto, unfolding(crate::specs::Long::reads_long))]
pub fn read_long(alloc: Global, bytes: &[u8]) -> Result<Option<Label>, AllocError>
    ensures { IfOk result (λ label. label ≡ reads_long bytes.now) }
{
    if bytes.len() > MAX_SPELLING {
        return Ok(None);
    }
    let Some((doi, sens, comps)) = Parts::new(bytes, b'/').three() else {
        return Ok(None);
    };
    let Some(doi) = number(doi) else {
        return Ok(None);
    };
    let Some(sens) = number_up_to(MAX_SENSITIVITY, sens) else {
        return Ok(None);
    };
    read_label_with(alloc, doi, sens as u8, comps)
}
