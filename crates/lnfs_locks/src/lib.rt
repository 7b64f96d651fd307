//! Byte-range locks: the definitions of LOCK, LOCKT and LOCKU (RFC 8881 sections 18.10 to 18.12) as further operations, with
//! the locks as their rows, and their laws.
//!
//! Locks are advisory: READ and WRITE don't look at them. `specs/Lock.antt`, `specs/LockT.antt` and `specs/LockU.antt` have each
//! operation's tests in order, `specs/Denial.antt` says which lock stands in whose way, and `specs/Facts.antt` what holds of all
//! locks that are kept.
#![tactic(auto)]

mod laws;
pub mod numbers;

pub use laws::{lock_grammar_is_lawful, locks_are_lawful, locks_leave_the_world};
