//! What is awaited of an operation.
ghost use Rattle.std.specs.Prelude.{◌≡◌};
ghost use Rattle.lnfs_answers.specs.Asking.{awaits_of, IsServed};
ghost use Rattle.lnfs_answers.specs.Continued.{IsAwaited};
ghost use Rattle.lnfs_answers.specs.Grammar.{number_of};

use crate::types::Awaits;
use lnfs_arguments::Op;
use lnfs_arguments::numbers::{OP_GETATTR, OP_READDIR, OP_SETATTR};

impl Awaits {
    /// What is awaited of an operation, where GETATTR asks `sec_label` alone, and READDIR
    /// `rdattr_error` and `sec_label`.
    #[tactic(auto, using(crate::proofs::CanSucceed::can_succeed))]
    pub fn of(op: &Op<'_>) -> Awaits
        ensures value { result ≡ awaits_of op.now }
        // An operation of the table can succeed.
        ensures awaited { IsServed op.now → IsAwaited result }
    {
        match op.number() {
            OP_SETATTR => Awaits::Set,
            OP_GETATTR => Awaits::Label,
            OP_READDIR => Awaits::Names,
            number => Awaits::Fields { number },
        }
    }

    /// The number of the operation (RFC 8881 section 18).
    pub fn number(self) -> u32
        ensures { result ≡ number_of self }
    {
        match self {
            Awaits::Fields { number } => number,
            Awaits::Set => OP_SETATTR,
            Awaits::Label => OP_GETATTR,
            Awaits::Names => OP_READDIR,
        }
    }
}
