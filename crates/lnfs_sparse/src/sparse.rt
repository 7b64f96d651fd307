//! What serves ALLOCATE, DEALLOCATE, SEEK and CLONE.
use crate::serving::serve;
use lnfs_arguments::ExtraGrammar;
use lnfs_engine::{Extra, ExtraRan, ReadExtra, Spot, Store};
use lnfs_operations::ExtraRows;
use lnfs_sparse_args::SparseGrammar;
use lnfs_xdr::XdrError;
use std::alloc::{AllocError, Global};

/// The four operations. They have no rows of their own.
#[derive(Clone, Copy, Debug, Drop)]
pub struct Sparse;

impl ExtraRows for Sparse {
    ghost use Rattle.std.specs.Prelude.{[]};
    ghost use Rattle.lnfs_sparse_ops.specs.Outcome.{sparse};
    ghost use Rattle.lnfs_sparse_ops.proofs.SparseLaws.{sparse_is_lawful};

    ghost extra = { sparse };

    ghost rows = { λ it. [] };

    ghost lawful = { sparse_is_lawful };
}

impl ExtraGrammar for Sparse {
    ghost use Rattle.lnfs_sparse_ops.specs.Arguments.{sparse_grammar};
    ghost use Rattle.lnfs_sparse_ops.proofs.GrammarLaws.{grammar_lawful};

    ghost grammar = { sparse_grammar };

    fn serves(&self, number: u32) -> bool {
        SparseGrammar.serves(number)
    }

    fn length(&self, number: u32, rest: &[u8]) -> Result<usize, XdrError> {
        SparseGrammar.length(number, rest)
    }

    fn bound(&self, number: u32, args: &[u8]) -> u32 {
        SparseGrammar.bound(number, args)
    }

    ghost lawful = { grammar_lawful };
}

impl Extra for Sparse {
    ghost use Rattle.std.specs.Prelude.{refl};

    fn run(
        &mut self,
        alloc: Global,
        store: &mut Store,
        at: &mut Spot<'_>,
        number: u32,
        args: &[u8],
    ) -> Result<ExtraRan, AllocError> {
        serve(alloc, store, at, number, args)
    }

    ghost same_grammar = { refl };
}

impl ReadExtra for Sparse {
    type Reader = SparseGrammar;

    ghost use Rattle.std.specs.Prelude.{refl};

    fn reader(&self) -> SparseGrammar {
        SparseGrammar
    }

    ghost same_reader = { refl };
}
