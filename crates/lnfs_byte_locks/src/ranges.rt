//! The locks of all levels, as what serves LOCK, LOCKT and LOCKU.
ghost use Rattle.std.specs.Prelude.{◌≡◌, []};
ghost use Rattle.lnfs_locks.specs.Locks.{rows_of};

use crate::serving::serve;
use lnfs_arguments::ExtraGrammar;
use lnfs_engine::{Extra, ExtraRan, ReadExtra, Spot, Store};
use lnfs_lock_args::LockGrammar;
use lnfs_locking::Locks;
use lnfs_operations::ExtraRows;
use lnfs_xdr::XdrError;
use std::alloc::{AllocError, Global};
use std::marker::Model;

/// The locks of all levels, and the last number that each level was given. Its value is that of the locks.
#[derive(Drop)]
pub struct Ranges {
    pub(crate) locks: Locks,
}

impl Model for Ranges {
    ghost use Rattle.lnfs_locks.specs.Locks as kept;

    ghost Value = { kept.Locks };

    ghost view = { λ r. r.locks };
}

impl Ranges {
    /// No lock, and no number given yet. Takes no memory.
    pub fn new(alloc: Global) -> Ranges
        ensures value { result ≡ record { lasts = []; locks = [] } }
        ensures rows { rows_of result ≡ [] }
    {
        Ranges {
            locks: Locks::new(alloc),
        }
    }

    /// What serves locks that are kept already.
    pub fn from_locks(locks: Locks) -> Ranges
        ensures { result ≡ locks }
    {
        Ranges { locks }
    }

    /// The locks of all levels.
    pub fn locks(&self) -> &Locks
        ensures { result.now ≡ self.now }
    {
        &self.locks
    }
}

impl ExtraRows for Ranges {
    ghost use Rattle.lnfs_locks.specs.Locks.{rows_of};
    ghost use Rattle.lnfs_locks.specs.Outcome.{locking};
    ghost use Rattle.lnfs_locks.proofs.LockLaws.{locks_are_lawful};

    ghost extra = { locking };

    ghost rows = { λ own. rows_of own };

    ghost lawful = { locks_are_lawful };
}

impl ExtraGrammar for Ranges {
    ghost use Rattle.lnfs_locks.specs.Arguments.{lock_grammar};
    ghost use Rattle.lnfs_locks.proofs.GrammarLaws.{grammar_lawful};

    ghost grammar = { lock_grammar };

    fn serves(&self, number: u32) -> bool {
        LockGrammar.serves(number)
    }

    fn length(&self, number: u32, rest: &[u8]) -> Result<usize, XdrError> {
        LockGrammar.length(number, rest)
    }

    fn bound(&self, number: u32, args: &[u8]) -> u32 {
        LockGrammar.bound(number, args)
    }

    ghost lawful = { grammar_lawful };
}

impl Extra for Ranges {
    ghost use Rattle.std.specs.Prelude.{refl};

    fn run(
        &mut self,
        alloc: Global,
        store: &mut Store,
        at: &mut Spot<'_>,
        number: u32,
        args: &[u8],
    ) -> Result<ExtraRan, AllocError> {
        serve(alloc, store, &mut self.locks, at, number, args)
    }

    ghost same_grammar = { refl };
}

impl ReadExtra for Ranges {
    type Reader = LockGrammar;

    ghost use Rattle.std.specs.Prelude.{refl};

    fn reader(&self) -> LockGrammar {
        LockGrammar
    }

    ghost same_reader = { refl };
}
