//! Opens of files and what they deny to others (RFC 8881 section 9): by identifier, by client, owner and file, by file, and
//! by client, each of which is found without a look at the others.
//!
//! `specs/Lists.antt` says what is kept, `specs/Opening.antt` what each call answers and changes, and `lnfs_world/specs/Opens.antt`
//! which opens stand in the way of what is asked. `specs/Makes.antt` says of what rows opens can be made.
#![tactic(auto)]

mod bits;
mod changing;
mod finder;
mod groups;
mod keys;
mod lasts;
mod leases;
mod making;
mod opens;
mod owners;
mod revoking;
mod rows;
mod shares;
mod tallies;
mod told;

pub use keys::{ClientKey, NodeKey, OpenError, OpenRef, OpenRow};
pub use opens::Opens;
