//! The status and the count in the head of a COMPOUND's result, which are known once its operations ran
//! (RFC 8881 section 16.2.2).
ghost use Rattle.std.specs.Prelude.{◌≡◌, ◌≤◌, ◌+◌, ◌++◌, List, ℕ, Option, length, take, drop};
ghost use Rattle.lnfs_xdr.specs.Canon.{word};
ghost use Rattle.lnfs_arguments.specs.declared.types.Compound.{Compound};
ghost use Rattle.lnfs_results.specs.Texts.{head_text};
ghost use Rattle.lnfs_results.specs.declared.types.OpResult.{OpResult};
ghost use Rattle.lnfs_operations.specs.Results.{Denial};
ghost use Rattle.lnfs_operations.specs.SlotRule.{result_of};
ghost use Rattle.lnfs_engine.specs.Runs.{status_due, EndsBy, Reaches};

use crate::run::Ended;
use lnfs_xdr::XdrWriter;

/// The bytes of a word (RFC 4506 section 3).
const WORD: usize = 4;

/// Writes a word in the place of another.
#[tactic(auto, unfolding(lnfs_xdr::specs::Canon::word))]
fn set_word(bytes: &mut [u8], at: usize, value: u32)
    requires { at + 4 ≤ length bytes.old }
    ensures { bytes.new ≡ take at bytes.old ++ word value ++ drop (at + 4) bytes.old }
{
    bytes[at..at + WORD].copy_from_slice(&value.to_be_bytes());
}

/// Writes status and count into a head with none, which stands from `begin` to `end`.
fn complete_head(bytes: &mut [u8], begin: usize, end: usize, status: u32, count: u32)
    requires head { begin + 8 ≤ end }
    requires within { end ≤ length bytes.old }
    ensures { (before tag results : List ℕ) → bytes.old ≡ before ++ head_text 0 tag 0 ++ results →
        length before ≡ begin → length (before ++ head_text 0 tag 0) ≡ end
        → bytes.new ≡ before ++ head_text status tag count ++ results }
{
    set_word(bytes, begin, status);
    set_word(bytes, end - WORD, count);
}

/// The reply with the result of a COMPOUND that ended, whose head stands from `begin` to `end`: what is
/// known now is written into the head.
pub fn finished(out: XdrWriter, begin: usize, end: usize, ended: &Ended) -> Vec<u8>
    requires head { begin + 8 ≤ end }
    requires within { Reaches end out ended.now }
    ensures { (before : List ℕ) (c : Compound) (results : List OpResult) (refused : Option Denial)
        (again : Option (List ℕ)) → length before ≡ begin →
        length (before ++ head_text 0 c.tag 0) ≡ end →
        EndsBy begin (before ++ head_text 0 c.tag 0) out (status_due c results) results refused
        again ended.now →
        result.items ≡ before ++ result_of c results again }
{
    let mut reply = out.into_bytes();
    if let Ended::New { status, count, .. } = ended {
        complete_head(reply.as_mut_slice(), begin, end, *status, *count);
    }
    reply
}
