//! What an audit finds, and why it finds nothing.
ghost use Rattle.std.specs.Prelude.{◌≡◌};
ghost use Rattle.lnfs_audit.specs.declared.finding.AuditError.TheVariants.{Memory};

use std::alloc::AllocError;
use thiserror::Error;

/// What an audit finds.
#[derive(Clone, Copy, Debug, Drop, PartialEq, Eq)]
pub enum Finding {
    /// The replies to so many events are the records, and nothing is left.
    Faithful { events: u64 },
    /// The reply to this event, counted from 1, is not the next whole record. Those before it are.
    Differs { event: u64 },
    /// All replies are the first records, and from this byte on more is left.
    Surplus { at: u64 },
}

/// Why nothing is found.
#[derive(Clone, Copy, Debug, PartialEq, Eq, Error)]
pub enum AuditError {
    /// The clients enforce the labels, so nothing is purged.
    #[error("the policy is limited")]
    Limited,
    /// There is no memory.
    #[error("out of memory")]
    Memory,
}

impl From<AllocError> for AuditError {
    ghost from_gives = { λ _ e. e ≡ Memory };

    fn from(_error: AllocError) -> AuditError {
        AuditError::Memory
    }
}
