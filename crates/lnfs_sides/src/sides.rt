//! Two further operations side by side.
ghost use Rattle.std.specs.Prelude.{◌≡◌};

use lnfs_arguments::ExtraGrammar;
use lnfs_engine::{Extra, ExtraRan, ReadExtra, Spot, Store};
use lnfs_operations::ExtraRows;
use lnfs_xdr::XdrError;
use std::alloc::{AllocError, Global};

/// Two further operations side by side.
#[derive(Debug, Drop)]
pub struct Beside<A, B> {
    pub first: A,
    pub second: B,
}

impl<A, B> Beside<A, B> {
    /// The first, and the second for the numbers that the first doesn't serve.
    pub fn new(first: A, second: B) -> Beside<A, B>
        ensures first { result.first ≡ first }
        ensures second { result.second ≡ second }
    {
        Beside { first, second }
    }

    /// The first.
    pub fn first(&self) -> &A
        ensures { result.now ≡ self.now.first }
    {
        &self.first
    }

    /// The second.
    pub fn second(&self) -> &B
        ensures { result.now ≡ self.now.second }
    {
        &self.second
    }
}

impl<A: ExtraRows, B: ExtraRows> ExtraRows for Beside<A, B> {
    ghost use Rattle.lnfs_beside.specs.Sides.{both_rows, beside};
    ghost use Rattle.lnfs_beside.proofs.SidesLaws.{sides_lawful};

    ghost extra = { beside A.extra B.extra };

    ghost rows = { λ it. both_rows (A.rows it.first) (B.rows it.second) };

    ghost lawful = { sides_lawful A.extra B.extra A.lawful B.lawful };
}

impl<A: ExtraGrammar, B: ExtraGrammar> ExtraGrammar for Beside<A, B> {
    ghost use Rattle.lnfs_beside.specs.Sides.{further_beside};
    ghost use Rattle.lnfs_beside.proofs.SidesLaws.{grammar_lawful};

    ghost grammar = { further_beside A.grammar B.grammar };

    fn serves(&self, number: u32) -> bool {
        self.first.serves(number) || self.second.serves(number)
    }

    fn length(&self, number: u32, rest: &[u8]) -> Result<usize, XdrError> {
        if self.first.serves(number) {
            self.first.length(number, rest)
        } else {
            self.second.length(number, rest)
        }
    }

    fn bound(&self, number: u32, args: &[u8]) -> u32 {
        if self.first.serves(number) {
            self.first.bound(number, args)
        } else {
            self.second.bound(number, args)
        }
    }

    ghost lawful = { grammar_lawful A.grammar B.grammar A.lawful B.lawful };
}

impl<A: Extra, B: Extra> Extra for Beside<A, B> {
    ghost use Rattle.lnfs_beside.proofs.Telling.{same_sides};

    fn run(
        &mut self,
        alloc: Global,
        store: &mut Store,
        at: &mut Spot<'_>,
        number: u32,
        args: &[u8],
    ) -> Result<ExtraRan, AllocError> {
        if self.first.serves(number) {
            self.first.run(alloc, store, at, number, args)
        } else {
            self.second.run(alloc, store, at, number, args)
        }
    }

    ghost same_grammar = { same_sides A.same_grammar B.same_grammar };
}

impl<A: ReadExtra, B: ReadExtra> ReadExtra for Beside<A, B> {
    type Reader = Beside<A::Reader, B::Reader>;

    ghost use Rattle.lnfs_beside.proofs.Telling.{same_sides};

    fn reader(&self) -> Beside<A::Reader, B::Reader> {
        Beside {
            first: self.first.reader(),
            second: self.second.reader(),
        }
    }

    ghost same_reader = { same_sides A.same_reader B.same_reader };
}
