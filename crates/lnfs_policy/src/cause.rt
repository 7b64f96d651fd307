//! Why a policy is refused.

ghost use Rattle.std.specs.Prelude.{◌≡◌};
ghost use Rattle.lnfs_policy.specs.Policy.{cause_name};
ghost use Rattle.lnfs_policy.specs.Reading.{error_at};
ghost use Rattle.lnfs_policy.specs.declared.cause.Stop.TheVariants.{Broken, Memory as ShortOfMemory};

use std::alloc::{AllocError, AllocFailed};
use thiserror::Error;

/// The rule that a line breaks. Where it breaks several, the first in this order is told.
#[derive(Clone, Copy, Debug, PartialEq, Eq, Error)]
pub enum Cause {
    /// The first line that isn't skipped isn't the version line, or a later one is.
    #[error("the version line is missing, or stands twice")]
    Version,
    /// The line has none of the known forms, or its newline is missing.
    #[error("the line has none of the known forms, or its newline is missing")]
    Words,
    /// A number has another spelling than the plain decimal one, or doesn't fit.
    #[error("a number is not plain decimal, or does not fit")]
    Number,
    /// The line's kind stands after a later kind, or a mode stands twice.
    #[error("the line's kind stands after a later kind, or a mode stands twice")]
    Order,
    /// A level isn't the next one, its sensitivity or compartments are none, or its label is taken or doesn't
    /// dominate that of level 0.
    #[error("the level is not the next one, has no sensitivity or compartments, or its label is taken or does not dominate that of level 0")]
    Level,
    /// A format's kind is unknown, its pair of numbers is taken, or it is the ninth.
    #[error("the format's kind is unknown, its pair of numbers is taken, or it is the ninth")]
    Format,
    /// A name's format is none of names, its level is unknown or taken, or its bytes are none or taken.
    #[error("the name's format has no names, its level is unknown or taken, or its bytes are none or taken")]
    Name,
    /// A parent's number is taken, its secret isn't 32 bytes, or its level is unknown.
    #[error("the parent's number is taken, its secret is not 32 bytes, or its level is unknown")]
    Parent,
    /// A guest's class is above 7, or its level is unknown.
    #[error("the guest's class is above 7, or its level is unknown")]
    Guest,
    /// A quota's level is unknown or taken.
    #[error("the quota's level is unknown or taken")]
    Quota,
    /// A directory's path is none or taken, its parent isn't there, its level doesn't dominate the parent's, or it
    /// is the 257th.
    #[error("the directory's path is none or taken, its parent is not there, its level does not dominate the parent's, or it is the 257th")]
    Dir,
    /// Behind the last line: a line is lacking that every policy has, or the first format has no spelling of a level.
    #[error("a line that every policy has is missing, or the first format cannot spell a level")]
    Missing,
}

impl Cause {
    /// The name of the cause, as it is printed.
    pub fn as_str(&self) -> &'static str
        ensures { result.now ≡ cause_name self.now }
    {
        match self {
            Cause::Version => "Version",
            Cause::Words => "Words",
            Cause::Number => "Number",
            Cause::Order => "Order",
            Cause::Level => "Level",
            Cause::Format => "Format",
            Cause::Name => "Name",
            Cause::Parent => "Parent",
            Cause::Guest => "Guest",
            Cause::Quota => "Quota",
            Cause::Dir => "Dir",
            Cause::Missing => "Missing",
        }
    }
}

/// Why there is no policy.
#[derive(Clone, Copy, Debug, PartialEq, Eq, Error)]
pub enum PolicyError {
    /// The first line that breaks a rule, counted from 1, and the first rule that it breaks.
    #[error("line {line}: {cause}")]
    Refused { line: u64, cause: Cause },
    /// There was no memory for the tables.
    #[error("out of memory")]
    Memory,
}

/// Why reading stops at a line.
#[derive(Drop)]
pub(crate) enum Stop {
    Broken(Cause),
    Memory,
}

impl Stop {
    /// The error where reading stops at a line.
    pub(crate) fn at(self, line: u64) -> PolicyError
        ensures { result ≡ error_at line self }
    {
        match self {
            Stop::Broken(cause) => PolicyError::Refused { line, cause },
            Stop::Memory => PolicyError::Memory,
        }
    }
}

impl From<Cause> for Stop {
    ghost from_gives = { λ cause stop. stop ≡ Broken cause };

    fn from(cause: Cause) -> Stop {
        Stop::Broken(cause)
    }
}

impl From<AllocError> for Stop {
    ghost from_gives = { λ _ stop. stop ≡ ShortOfMemory };

    fn from(_error: AllocError) -> Stop {
        Stop::Memory
    }
}

impl<T: Drop> From<AllocFailed<T>> for Stop {
    ghost from_gives = { λ _ stop. stop ≡ ShortOfMemory };

    fn from(_failed: AllocFailed<T>) -> Stop {
        Stop::Memory
    }
}
