//! Whether recorded replies, from whatever server, are those of a server without flows from above.
//!
//! Events are served, and what is due of them is compared with records that were kept (RFC 5531 section 11). `audit` serves
//! all events in one vault. `audit_purged` serves each level's events in a vault of their own, with those alone that the level
//! dominates: so its replies are told by what each requester may know, whatever the vault does with the rest. Both have one
//! clause on what they find.
#![tactic(auto)]

mod by_levels;
mod by_one;
mod comparing;
mod filling;
mod finding;
mod fresh;
mod laws;
mod levels;
mod serving;

pub use by_levels::{audit_purged, audit_purged_with_extra};
pub use by_one::{audit, audit_with_extra};
pub use finding::{AuditError, Finding};
pub use fresh::Fresh;
pub use laws::{one_finding, some_finding};
