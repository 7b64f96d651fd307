use crate::blocks::pass;
use lnfs_arguments::ExtraGrammar;
use lnfs_locks::numbers::{LOCK_BOUND, LOCKU_BOUND, OP_LOCK, OP_LOCKT, OP_LOCKU};
use lnfs_xdr::{XdrError, XdrReader};

/// How LOCK, LOCKT and LOCKU are read. It needs no locks.
#[derive(Clone, Copy, Debug, Drop)]
pub struct LockGrammar;

impl ExtraGrammar for LockGrammar {
    ghost use Rattle.lnfs_locks.specs.Arguments.{lock_grammar};
    ghost use Rattle.lnfs_locks.proofs.GrammarLaws.{grammar_lawful};

    ghost grammar = { lock_grammar };

    fn serves(&self, number: u32) -> bool {
        matches!(number, OP_LOCK | OP_LOCKT | OP_LOCKU)
    }

    #[tactic(auto, unfolding(lnfs_xdr::specs::Lengths::length_at))]
    fn length(&self, number: u32, rest: &[u8]) -> Result<usize, XdrError> {
        let mut reader = XdrReader::new(rest);
        pass(number, &mut reader)?;
        Ok(reader.at())
    }

    fn bound(&self, number: u32, _args: &[u8]) -> u32 {
        if number == OP_LOCKU {
            LOCKU_BOUND
        } else {
            LOCK_BOUND
        }
    }

    ghost lawful = { grammar_lawful };
}
