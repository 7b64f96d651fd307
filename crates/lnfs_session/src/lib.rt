//! Clients, their sessions, and the slots of these: which COMPOUND is new, and which came before and
//! gets its first answer again (RFC 8881 section 2.10.6).
//!
//! `Clients` tells its rows as values of `lnfs_rows`, and is made of such rows again. `specs/Makes.antt` says of which.
#![tactic(auto)]

mod arrival;
mod client_rows;
mod clients;
mod create;
mod destroy;
mod exchange;
mod filing;
mod keep;
mod leases;
mod levels;
mod making;
mod maps;
mod named;
mod next;
mod owners;
mod records;
mod rows;
mod sequence;
mod sessions;
mod telling;

pub use clients::{Clients, SessionError};
pub use create::Created;
pub use exchange::ClientInfo;
pub use named::client_named;
pub use rows::{ClientRef, SessionRef};
pub use sequence::{Seq, SlotRef};
