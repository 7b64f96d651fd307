use crate::blocks::pass;
use lnfs_arguments::ExtraGrammar;
use lnfs_sparse_ops::numbers::{
    OP_ALLOCATE, OP_CLONE, OP_DEALLOCATE, OP_SEEK, PLAIN_BOUND, SEEK_BOUND,
};
use lnfs_xdr::{XdrError, XdrReader};

/// How ALLOCATE, DEALLOCATE, SEEK and CLONE are read.
#[derive(Clone, Copy, Debug, Drop)]
pub struct SparseGrammar;

impl ExtraGrammar for SparseGrammar {
    ghost use Rattle.lnfs_sparse_ops.specs.Arguments.{sparse_grammar};
    ghost use Rattle.lnfs_sparse_ops.proofs.GrammarLaws.{grammar_lawful};

    ghost grammar = { sparse_grammar };

    fn serves(&self, number: u32) -> bool {
        matches!(number, OP_ALLOCATE | OP_DEALLOCATE | OP_SEEK | OP_CLONE)
    }

    #[tactic(auto, unfolding(lnfs_xdr::specs::Lengths::length_at))]
    fn length(&self, number: u32, rest: &[u8]) -> Result<usize, XdrError> {
        let mut reader = XdrReader::new(rest);
        pass(number, &mut reader)?;
        Ok(reader.at())
    }

    fn bound(&self, number: u32, _args: &[u8]) -> u32 {
        if number == OP_SEEK {
            SEEK_BOUND
        } else {
            PLAIN_BOUND
        }
    }

    ghost lawful = { grammar_lawful };
}
