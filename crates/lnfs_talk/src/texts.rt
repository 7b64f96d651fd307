//! What is shown of an action.
ghost use Rattle.std.specs.Prelude.{◌≡◌, ◌++◌, ◌∷◌, [], IfOk, OnOk, codes};
ghost use Rattle.std.specs.Fmt.{decimal};
ghost use Rattle.std.specs.List.{flat_map};
ghost use Rattle.hex.specs.Hex.{encode_lower};
ghost use Rattle.lnfs_talk.specs.Texts.{answer_text, entry_text, is_printable, level_text, name_text, refusal_text, shown_byte};

use lnfs_calipso::Level;
use lnfs_client::{Answer, Refusal, Shown};
use std::alloc::{AllocError, Global};

/// Whether a byte is printable ASCII, with the space.
fn is_printable(byte: u8) -> bool
    ensures { result ≡ is_printable byte }
{
    (b' '..=b'~').contains(&byte)
}

/// A byte of a name, or a question mark where it isn't printable.
fn shown_byte(byte: u8) -> u8
    ensures { result ≡ shown_byte byte }
{
    if is_printable(byte) { byte } else { b'?' }
}

/// Appends a name, in which every byte that isn't printable is a question mark.
fn push_name(text: &mut Vec<u8>, name: &[u8]) -> Result<(), AllocError>
    ensures { OnOk result (text.new.items ≡ text.old.items ++ name_text name.now) }
{
    for byte in name {
        text.push(shown_byte(*byte))?;
    }
    Ok(())
}

/// Appends a number in decimal.
fn push_number(alloc: Global, text: &mut Vec<u8>, number: u64) -> Result<(), AllocError>
    ensures { OnOk result (text.new.items ≡ text.old.items ++ decimal number) }
{
    let digits = format!(in alloc; "{number}")?;
    text.extend_from_slice(digits.as_bytes())
}

fn push_level(alloc: Global, text: &mut Vec<u8>, level: Option<Level>) -> Result<(), AllocError>
    ensures { OnOk result (text.new.items ≡ text.old.items ++ level_text level) }
{
    match level {
        Some(level) => push_number(alloc, text, u64::from(level.0)),
        None => Ok(text.push(b'?')?),
    }
}

fn push_entry(alloc: Global, text: &mut Vec<u8>, entry: &Shown) -> Result<(), AllocError>
    ensures { OnOk result (text.new.items ≡ text.old.items ++ entry_text entry.now) }
{
    text.extend_from_slice(b"entry ")?;
    push_name(text, entry.name.as_slice())?;
    text.push(b' ')?;
    push_level(alloc, text, entry.level)?;
    Ok(text.push(b'\n')?)
}

/// A line for each of the entries, and one for their end.
fn entries_text(alloc: Global, entries: &[Shown]) -> Result<Vec<u8>, AllocError>
    ensures { IfOk result (λ text. text.items ≡ flat_map entry_text entries.now ++ codes "end\n") }
{
    let mut text = Vec::new(alloc);
    for entry in entries {
        push_entry(alloc, &mut text, entry)?;
    }
    text.extend_from_slice(b"end\n")?;
    Ok(text)
}

fn line_of(alloc: Global, line: &str) -> Result<Vec<u8>, AllocError>
    ensures { IfOk result (λ text. text.items ≡ line.now) }
{
    Vec::from_slice(alloc, line.as_bytes())
}

/// A word, a number and a newline.
fn numbered(alloc: Global, word: &str, number: u64) -> Result<Vec<u8>, AllocError>
    ensures { IfOk result (λ text. text.items ≡ word.now ++ decimal number ++ 10 ∷ []) }
{
    let mut text = Vec::new(alloc);
    text.extend_from_slice(word.as_bytes())?;
    push_number(alloc, &mut text, number)?;
    text.push(b'\n')?;
    Ok(text)
}

fn data_text(alloc: Global, bytes: &[u8]) -> Result<Vec<u8>, AllocError>
    ensures { IfOk result (λ text. text.items
        ≡ codes "data " ++ encode_lower bytes.now ++ 10 ∷ []) }
{
    let hex = hex::encode(alloc, bytes)?;
    let mut text = Vec::new(alloc);
    text.extend_from_slice(b"data ")?;
    text.extend_from_slice(hex.as_bytes())?;
    text.push(b'\n')?;
    Ok(text)
}

/// The text of an answer.
///
/// # Errors
///
/// `AllocError` where there is no memory for it.
pub fn answer_text(alloc: Global, answer: &Answer) -> Result<Vec<u8>, AllocError>
    ensures { IfOk result (λ text. text.items ≡ answer_text answer.now) }
{
    match answer {
        Answer::Mounted => line_of(alloc, "mounted\n"),
        Answer::Entries(entries) => entries_text(alloc, entries.as_slice()),
        Answer::Data(bytes) => data_text(alloc, bytes.as_slice()),
        Answer::Wrote(count) => numbered(alloc, "wrote ", u64::from(*count)),
        Answer::Made => line_of(alloc, "made\n"),
        Answer::Removed => line_of(alloc, "removed\n"),
        Answer::Raised => line_of(alloc, "raised\n"),
        Answer::Left => line_of(alloc, "left\n"),
    }
}

/// The text that says why an action has no answer. Of want of memory nothing is said.
///
/// # Errors
///
/// `AllocError` where there is no memory for it.
pub fn refusal_text(alloc: Global, refusal: Refusal) -> Result<Vec<u8>, AllocError>
    ensures { IfOk result (λ text. text.items ≡ refusal_text refusal) }
{
    match refusal {
        Refusal::NotDominated => line_of(alloc, "refused NotDominated\n"),
        Refusal::UnknownLabel => line_of(alloc, "refused UnknownLabel\n"),
        Refusal::NotEqual => line_of(alloc, "refused NotEqual\n"),
        Refusal::ServerSaid { status } => numbered(alloc, "server ", u64::from(status)),
        Refusal::Denied { auth } => numbered(alloc, "denied ", u64::from(auth)),
        Refusal::BadReply { at } => numbered(alloc, "bad reply ", at),
        Refusal::Memory => Ok(Vec::new(alloc)),
    }
}
