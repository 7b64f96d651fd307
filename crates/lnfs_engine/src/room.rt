//! How large the result of a COMPOUND may be.
ghost use Rattle.std.specs.Prelude.{◌≡◌, ◌≤◌, ◌<◌, ◌+◌, ◌^◌, length, sum_by};
ghost use Rattle.lnfs_results.specs.Answering.{op_bound};
ghost use Rattle.lnfs_results.specs.Texts.{head_text};

use lnfs_arguments::{Compound, ExtraGrammar, Op};
use lnfs_results::reply_bound;

/// The bytes of a word (RFC 4506 section 3).
const WORD: usize = 4;

/// The status, the length of the tag and the count of the results.
const WORDS: usize = 12;

/// The bounds of the results of operations together.
fn bounds_of<E: ExtraGrammar>(ops: &[Op<'_>], extra: &E) -> usize
    requires { length ops.now ≤ 32 }
    ensures sum { result ≡ sum_by (op_bound E.grammar) ops.now }
    ensures small { result < 2 ^ 38 }
{
    let mut bounds = 0;
    for op in ops {
        bounds += reply_bound(op, extra) as usize;
    }
    bounds
}

/// The most bytes of the result of a COMPOUND: its head with the tag, and the bound of each operation.
pub fn room_of<E: ExtraGrammar>(compound: &Compound<'_>, extra: &E) -> usize
    requires tag { length compound.now.tag ≤ 1024 }
    requires few { length compound.now.ops ≤ 32 }
    ensures { result ≡ length (head_text 0 compound.now.tag 0)
        + sum_by (op_bound E.grammar) compound.now.ops }
{
    let head = WORDS + compound.tag.len().next_multiple_of(WORD);
    head + bounds_of(compound.ops.as_slice(), extra)
}
