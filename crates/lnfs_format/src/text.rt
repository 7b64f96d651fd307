//! Texts of labels.

ghost use Rattle.std.specs.Prelude.{◌≡◌, ◌++◌, IfOk, OnOk};
ghost use Rattle.std.specs.Option.{option_map};
ghost use Rattle.lnfs_format.specs.Text.{comps_text, marked_text, text_of};
ghost use Rattle.lnfs_format.specs.Reading.{short, reads_text, reads_comps, writes_text};

use crate::formats::MAX_SPELLING;
use crate::reading::Reading;
use crate::runs::{has_comps, put_comps, put_decimal};
use lnfs_calipso::Label;
use std::alloc::{AllocError, Global};

/// A text, if it isn't too long for a spelling.
pub fn if_short(text: Vec<u8>) -> Option<Vec<u8>>
    ensures { option_map (λ v. v.items) result ≡ short text.items }
{
    if text.len() > MAX_SPELLING {
        return None;
    }
    Some(text)
}

fn put_marked(text: &mut Vec<u8>, label: &Label) -> Result<(), AllocError>
    ensures { OnOk result (text.new.items ≡ text.old.items ++ marked_text label.now.comps) }
{
    if !has_comps(label) {
        return Ok(());
    }
    text.push(b':')?;
    put_comps(text, label)
}

#[tactic(auto, unfolding(crate::specs::Text::text_of))]
fn spell(alloc: Global, label: &Label) -> Result<Vec<u8>, AllocError>
    ensures { IfOk result (λ text. text.items ≡ text_of label.now) }
{
    let mut text = Vec::new(alloc);
    text.push(b's')?;
    put_decimal(&mut text, u32::from(label.sens()))?;
    put_marked(&mut text, label)?;
    Ok(text)
}

/// The text of a label under a DOI, if that is the label's and the text has at most 1,024 bytes.
///
/// # Errors
///
/// `AllocError` where there is no memory.
#[tactic(auto, unfolding(crate::specs::Reading::writes_text))]
pub fn write_text(alloc: Global, doi: u32, label: &Label) -> Result<Option<Vec<u8>>, AllocError>
    ensures { IfOk result (λ text. option_map (λ v. v.items) text ≡ writes_text doi label.now) }
{
    if label.doi() != doi {
        return Ok(None);
    }
    let text = spell(alloc, label)?;
    Ok(if_short(text))
}

/// The label under a DOI whose text the bytes are, if they are one.
///
/// # Errors
///
/// `AllocError` where there is no memory.
#[tactic(auto, unfolding(crate::specs::Reading::reads_text))]
pub fn read_text(alloc: Global, doi: u32, bytes: &[u8]) -> Result<Option<Label>, AllocError>
    ensures { IfOk result (λ label. label ≡ reads_text doi bytes.now) }
{
    if bytes.len() > MAX_SPELLING {
        return Ok(None);
    }
    let Some(label) = Reading::start(alloc, doi).read(alloc, bytes)? else {
        return Ok(None);
    };
    let text = spell(alloc, &label)?;
    if text.as_slice() != bytes {
        return Ok(None);
    }
    Ok(Some(label))
}

/// The compartments of a label as their maximal runs, joined by commas.
///
/// # Errors
///
/// `AllocError` where there is no memory.
pub fn write_comps(alloc: Global, label: &Label) -> Result<Vec<u8>, AllocError>
    ensures { IfOk result (λ text. text.items ≡ comps_text label.now.comps) }
{
    let mut text = Vec::new(alloc);
    put_comps(&mut text, label)?;
    Ok(text)
}

/// The label of a DOI and a sensitivity whose compartments the bytes are, as `write_comps` writes them; the label
/// has at least one.
///
/// # Errors
///
/// `AllocError` where there is no memory.
#[tactic(auto, unfolding(crate::specs::Reading::reads_comps))]
pub fn read_comps(
    alloc: Global,
    doi: u32,
    sens: u8,
    bytes: &[u8],
) -> Result<Option<Label>, AllocError>
    ensures { IfOk result (λ label. label ≡ reads_comps doi sens bytes.now) }
{
    let Some(label) = Reading::start_comps(alloc, doi, sens).read(alloc, bytes)? else {
        return Ok(None);
    };
    if label.sens() != sens {
        return Ok(None);
    }
    let text = write_comps(alloc, &label)?;
    if text.as_slice() != bytes {
        return Ok(None);
    }
    Ok(Some(label))
}
