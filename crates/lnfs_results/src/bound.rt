//! How large the result of an operation may be (RFC 8881 section 16.2, RFC 7862).
ghost use Rattle.std.specs.Prelude.{◌≡◌, ◌≤◌, length};
ghost use Rattle.lnfs_arguments.specs.Further.{Further, IsLawful};
ghost use Rattle.lnfs_arguments.specs.declared.types.Op.{Op};
ghost use Rattle.lnfs_results.specs.declared.types.OpResult.{OpResult};
ghost use Rattle.lnfs_results.specs.Texts.{result_text};
ghost use Rattle.lnfs_results.specs.Fits.{ResultFits};
ghost use Rattle.lnfs_results.specs.Bounds.{IsLimited, rounded};
ghost use Rattle.lnfs_results.specs.Answering.{op_bound, MayAnswer};

use crate::limits::{MOST_DATA, READ_HEAD, RESULT_HEAD, result_bound};
use lnfs_arguments::{ExtraGrammar, Op};

/// The bytes of a word.
const WORD: u32 = 4;

/// So many bytes with those that fill up their last word (RFC 4506 section 3).
fn rounded_up(count: u32) -> u32
    requires { count ≤ 32768 }
    ensures { result ≡ rounded count }
{
    count.div_ceil(WORD) * WORD
}

/// The most bytes of the result of an operation, its number and its status among them.
pub fn reply_bound<E: ExtraGrammar>(op: &Op<'_>, extra: &E) -> u32
    ensures { result ≡ op_bound E.grammar op.now }
{
    match op {
        Op::Read { count, .. } => READ_HEAD + rounded_up((*count).min(MOST_DATA)),
        Op::ReadDir { maxcount, .. } => RESULT_HEAD + (*maxcount).min(MOST_DATA),
        Op::Outside { .. } => RESULT_HEAD,
        Op::Extra { number, args } => extra.bound(*number, args.as_slice()),
        _ => result_bound(op.number()),
    }
}

/// A law: what may answer an operation is no longer than its bound.
pub fn answers_are_bounded()
    ensures { (x : Further) (op : Op) (r : OpResult) → IsLawful x → MayAnswer x op r →
        ResultFits r → IsLimited r
        → length (result_text r) ≤ op_bound x op }
{}
