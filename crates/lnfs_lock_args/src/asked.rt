//! What is asked of a range.
ghost use Rattle.std.specs.Prelude.{◌≡◌, true, IfOk};
ghost use Rattle.lnfs_world.specs.Outcome.{Place, Outcome};
ghost use Rattle.lnfs_operations.specs.Chain.{Answer};
ghost use Rattle.lnfs_locks.specs.Effects.{Came};
ghost use Rattle.lnfs_locks.specs.Ranges.{is_kind, for_write, access_for, is_range, last_asked, where_range};
ghost use Rattle.lnfs_lock_args.specs.Values.{asked_of};
ghost use Rattle.lnfs_lock_args.specs.Tests.{unless};

use lnfs_arguments::statuses::NFS4ERR_INVAL;
use lnfs_locks::numbers::{LAST_OFFSET, READ_LT, WRITE_LT, WRITEW_LT};
use lnfs_operations::numbers::{OPEN4_SHARE_ACCESS_READ, OPEN4_SHARE_ACCESS_WRITE};
use lnfs_operations::{Gate, Refusal};

/// What is asked for, and from where on, how far (RFC 8881 section 18.10.1).
#[derive(Clone, Copy, Debug, PartialEq, Eq)]
pub struct Asked {
    /// An `nfs_lock_type4`, or no kind of lock.
    pub kind: u32,
    pub offset: u64,
    /// So many bytes, or all from the offset on where it is all ones.
    pub length: u64,
}

impl Asked {
    /// Whether its kind is an `nfs_lock_type4`.
    pub fn is_kind(&self) -> bool
        ensures { result ≡ is_kind self.now.kind }
    {
        self.kind >= READ_LT && self.kind <= WRITEW_LT
    }

    /// Whether it is for write. No lock waits, so that those for which a client would wait are as the others.
    pub fn for_write(&self) -> bool
        ensures { result ≡ for_write (asked_of self.now) }
    {
        self.kind == WRITE_LT || self.kind == WRITEW_LT
    }

    /// The access that its open has to have.
    pub fn access(&self) -> u32
        ensures { result ≡ access_for (asked_of self.now) }
    {
        if self.for_write() {
            OPEN4_SHARE_ACCESS_WRITE
        } else {
            OPEN4_SHARE_ACCESS_READ
        }
    }

    /// Whether it is a range: not empty, and not past the last offset. A length of all ones goes up to there (RFC 8881 section
    /// 18.10.3).
    pub fn is_range(&self) -> bool
        ensures { result ≡ is_range (asked_of self.now) }
    {
        let Asked { offset, length, .. } = *self;
        length != 0 && (length == LAST_OFFSET || length <= LAST_OFFSET - offset)
    }

    /// The first offset of the range.
    pub fn first(&self) -> u64
        ensures { result ≡ self.now.offset }
    {
        self.offset
    }

    /// The last offset of the range.
    pub fn last(&self) -> u64
        requires { is_range (asked_of self.now) ≡ true }
        ensures { result ≡ last_asked (asked_of self.now) }
    {
        if self.length == LAST_OFFSET {
            LAST_OFFSET
        } else {
            self.offset + (self.length - 1)
        }
    }
}

/// What refuses a lock by its kind and its range.
///
/// # Errors
///
/// NFS4ERR_INVAL of no kind of lock, of an empty range, and of one that goes past the last offset (RFC 8881 section 18.10.3).
pub fn check_range(asked: &Asked) -> Result<(), Refusal>
    ensures range { (p : Place) (next : Outcome (Answer Came)) →
        where_range p (asked_of asked.now) next ≡ unless p result next }
    ensures passes { IfOk result (λ it. (is_kind asked.now.kind ≡ true) × (is_range (asked_of asked.now) ≡ true)) }
{
    if asked.is_kind() && asked.is_range() {
        Ok(())
    } else {
        Err(Refusal {
            gate: Gate::Argument,
            status: NFS4ERR_INVAL,
        })
    }
}
