//! What generated traffic comes to.
ghost use Rattle.std.specs.Prelude.{◌≡◌, ◌<◌, ◌+◌, ◌^◌, ◌∷◌, ◌++◌, [], ℕ, List, IfOk, OnOk};
ghost use Rattle.std.specs.List.{AllByRecursion};
ghost use Rattle.std.specs.Fmt.{decimal};
ghost use Rattle.sha2.specs.Hashers.{Holds256};
ghost use Rattle.lnfs_types.specs.Moments.{Fits};
ghost use Rattle.lnfs_step.specs.Journal.{answer_with, line_with};
ghost use Rattle.lnfs_stage.specs.Does.{Does};
ghost use Rattle.lnfs_commands.specs.Commands.{shown};
ghost use Rattle.lnfs_commands.specs.Events.{framed, frames_after};
ghost use Rattle.lnfs_commands.specs.Summary.{one_of, count_after, row, told, summary};

use crate::frame::frame;
use lnfs_engine::ReadExtra;
use lnfs_format::Codecs;
use lnfs_gss3::Mechanism;
use lnfs_stage::{Outside, Stop};
use lnfs_types::Event;
use lnfs_vault::VaultOf;
use sha2::{Digest, Sha256};
use std::alloc::{AllocError, Global};
use std::collections::VecDeque;

/// What events came to that were served so far.
#[derive(Drop)]
struct Tally {
    replies: u64,
    failed: u64,
    /// A hasher of the frames of all replies.
    frames: Sha256,
}

/// Serves one event, and adds what it comes to.
fn count<M: Mechanism + Drop, X: ReadExtra>(
    alloc: Global,
    codecs: &Codecs,
    vault: &mut VaultOf<M, X>,
    event: Event,
    tally: &mut Tally,
) -> Result<(), AllocError>
    requires fits { Fits event }
    requires replies { tally.old.replies < 2 ^ 63 }
    requires failed { tally.old.failed < 2 ^ 63 }
    ensures replies { OnOk result (tally.new.replies ≡ tally.old.replies
        + one_of (answer_with X.extra M.signing vault.old.policy vault.old.journal event)) }
    ensures failed { OnOk result (tally.new.failed ≡ tally.old.failed
        + one_of (line_with X.extra M.signing vault.old.policy vault.old.journal event)) }
    ensures frames { (bytes : List ℕ) → Holds256 tally.old.frames bytes →
        OnOk result (Holds256 tally.new.frames (bytes
        ++ framed (answer_with X.extra M.signing vault.old.policy vault.old.journal event))) }
    ensures state { OnOk result (vault.new ≡ record vault.old
        { journal = vault.old.journal ++ event ∷ [] }) }
{
    let served = vault.serve(codecs, event)?;
    if served.reply.is_some() {
        tally.replies += 1;
    }
    if served.line.is_some() {
        tally.failed += 1;
    }
    let bytes = frame(alloc, served.reply);
    tally.frames.update(bytes.as_slice());
    Ok(())
}

/// Serves events in a vault, one after another, and adds what they come to.
fn count_all<M: Mechanism + Drop, X: ReadExtra>(
    alloc: Global,
    codecs: &Codecs,
    vault: &mut VaultOf<M, X>,
    events: Vec<Event>,
    tally: &mut Tally,
) -> Result<(), AllocError>
    requires fits { AllByRecursion Fits events.items }
    requires replies { tally.old.replies ≡ 0 }
    requires failed { tally.old.failed ≡ 0 }
    requires frames { Holds256 tally.old.frames [] }
    ensures replies { OnOk result (tally.new.replies ≡ count_after
        (answer_with X.extra M.signing vault.old.policy) vault.old.journal events.items) }
    ensures failed { OnOk result (tally.new.failed ≡ count_after
        (line_with X.extra M.signing vault.old.policy) vault.old.journal events.items) }
    ensures frames { OnOk result (Holds256 tally.new.frames (frames_after
        (answer_with X.extra M.signing vault.old.policy) vault.old.journal events.items)) }
{
    let mut rest = VecDeque::from_vec(events);
    while let Some(event) = rest.pop_front() {
        count(alloc, codecs, vault, event, tally)?;
    }
    Ok(())
}

/// Serves events in a vault, one after another: what they come to.
fn tally_of<M: Mechanism + Drop, X: ReadExtra>(
    alloc: Global,
    codecs: &Codecs,
    vault: &mut VaultOf<M, X>,
    events: Vec<Event>,
) -> Result<Tally, AllocError>
    requires { AllByRecursion Fits events.items }
    ensures replies { IfOk result (λ tally. tally.replies ≡ count_after
        (answer_with X.extra M.signing vault.old.policy) vault.old.journal events.items) }
    ensures failed { IfOk result (λ tally. tally.failed ≡ count_after
        (line_with X.extra M.signing vault.old.policy) vault.old.journal events.items) }
    ensures frames { IfOk result (λ tally. Holds256 tally.frames (frames_after
        (answer_with X.extra M.signing vault.old.policy) vault.old.journal events.items)) }
{
    let mut tally = Tally {
        replies: 0,
        failed: 0,
        frames: Sha256::new(),
    };
    count_all(alloc, codecs, vault, events, &mut tally)?;
    Ok(tally)
}

/// A number in decimal.
fn decimal(alloc: Global, number: u64) -> Result<Vec<u8>, AllocError>
    ensures { IfOk result (λ text. text.items ≡ decimal number) }
{
    let text = format!(in alloc; "{number}")?;
    Ok(text.into_bytes())
}

/// Adds a word, a value and a newline.
fn put_row(text: &mut Vec<u8>, word: &str, value: &[u8]) -> Result<(), AllocError>
    ensures { OnOk result (text.new.items ≡ text.old.items ++ row word.now value.now) }
{
    text.extend_from_slice(word.as_bytes())?;
    text.extend_from_slice(value)?;
    text.push(b'\n')?;
    Ok(())
}

/// The four lines of so many events, and of what they came to.
fn summary_of(alloc: Global, events: u64, tally: Tally) -> Result<Vec<u8>, AllocError>
    ensures { (frames : List ℕ) → Holds256 tally.frames frames →
        IfOk result (λ text. text.items ≡ told events tally.replies tally.failed frames) }
{
    let mut text = Vec::new(alloc);
    put_row(&mut text, "events ", &decimal(alloc, events)?)?;
    put_row(&mut text, "replies ", &decimal(alloc, tally.replies)?)?;
    put_row(&mut text, "failed ", &decimal(alloc, tally.failed)?)?;
    let digest = hex::encode(alloc, &tally.frames.finalize())?;
    put_row(&mut text, "digest ", digest.as_bytes())?;
    Ok(text)
}

/// Serves events in a vault, behind those that it was given before, and shows what they come to in four lines.
pub fn sum_up<M: Mechanism + Drop, X: ReadExtra, O: Outside>(
    alloc: Global,
    codecs: &Codecs,
    vault: &mut VaultOf<M, X>,
    events: Vec<Event>,
    outside: &mut O,
) -> Result<(), Stop>
    requires { AllByRecursion Fits events.items }
    ensures { Does result (O.seen outside.old) (O.seen outside.new)
        (shown (summary X.extra M.signing vault.old.policy vault.old.journal events.items)) }
{
    let number = events.len() as u64;
    let tally = tally_of(alloc, codecs, vault, events)?;
    let text = summary_of(alloc, number, tally)?;
    outside.put_text(&text)
}
