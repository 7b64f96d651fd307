//! The vault: serves one event at a time, and keeps the journal of all events.
//!
//! An event is served in three: its record is decoded, its step is made, and its reply is sealed. The step alone needs what
//! stands. A `Front` decodes and seals; `Books` make the step, and keep the journal. A `VaultOf` has both, for one caller;
//! several share its front, and lock its books. A `Core` makes steps with no journal.
#![tactic(auto)]

mod audit;
mod books;
mod cores;
mod decode;
mod front;
mod lines;
mod parts;
mod request;
mod resumed;
mod sealing;
mod stand;
mod step;
mod unsealed;
mod vault;

pub use audit::{AuditLine, write_line};
pub use books::Books;
pub use cores::Core;
pub use decode::Prepared;
pub use front::Front;
pub use parts::Parts;
pub use step::Said;
pub use unsealed::Unsealed;
pub use vault::{Served, Vault, VaultOf};
