//! Reading and writing the policy file.

ghost use Rattle.std.specs.Prelude.{◌≡◌, ◌&&◌, Ok, IfOk, IfErr};
ghost use Rattle.lnfs_words.specs.Words.{is_empty};
ghost use Rattle.lnfs_policy.specs.PolicyText.{policy_of, IsRefusal};
ghost use Rattle.lnfs_policy.specs.Migrated.{IsMigrated};

use crate::cause::PolicyError;
use crate::policy::Policy;
use crate::reading::Reading;
use lnfs_format::Codecs;
use lnfs_words::Parts;
use std::alloc::{AllocError, Global};

/// The first line of version 2, which is as long as that of version 1.
const VERSION_2: &[u8; 14] = b"lnfs-policy 2\n";

/// Whether nothing stands behind the last newline.
fn is_end(line: &[u8], last: bool) -> bool
    ensures { result ≡ (is_empty line.now && last) }
{
    line.is_empty() && last
}

/// The policy that a text spells.
///
/// # Errors
///
/// `Refused` where the text spells none: the first line that breaks a rule, counted from 1, and the first rule that
/// it breaks in the order of the causes. Empty lines and those that begin with `#` are skipped and counted.
/// `Memory` where there is no memory.
pub fn read_policy(alloc: Global, text: &[u8], codecs: &Codecs) -> Result<Policy, PolicyError>
    ensures accepted { IfOk result (λ policy. policy_of text.now ≡ Ok policy) }
    ensures refused { IfErr result (IsRefusal (policy_of text.now)) }
{
    let mut lines = Parts::new(text, b'\n');
    let mut reading = Reading::new(alloc);
    let mut number: u64 = 1;
    while let Some(line) = lines.next() {
        let last = lines.is_done();
        if is_end(line, last) {
            break;
        }
        if let Err(stop) = reading.judge(!last, line) {
            return Err(stop.at(number));
        }
        number += 1;
    }
    match reading.finish(codecs) {
        Ok(policy) => Ok(policy),
        Err(stop) => Err(stop.at(number)),
    }
}

/// The canonical text of a policy: its lines as they stand, without the skipped ones.
///
/// # Errors
///
/// `AllocError` where there is no memory.
pub fn write_policy(alloc: Global, policy: &Policy) -> Result<Vec<u8>, AllocError>
    ensures text { IfOk result (λ text. text.items ≡ policy.now.text) }
    // reading it gives the policy again
    ensures again { IfOk result (λ text. policy_of text.items ≡ Ok policy.now) }
{
    policy.law_policy();
    Vec::from_slice(alloc, &policy.text)
}

/// The text of a policy in version 2: its canonical text with another first line.
///
/// # Errors
///
/// `AllocError` where there is no memory.
pub fn migrate(alloc: Global, policy: &Policy) -> Result<Vec<u8>, AllocError>
    ensures { IfOk result (λ text. IsMigrated policy.now text.items) }
{
    policy.law_policy();
    let mut text = Vec::with_capacity(alloc, policy.text.len())?;
    text.extend_from_slice(VERSION_2)?;
    text.extend_from_slice(&policy.text[VERSION_2.len()..])?;
    Ok(text)
}
