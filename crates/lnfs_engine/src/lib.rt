//! One COMPOUND on clients with their sessions, on nodes with their names and on files with their opens: its operations in
//! order, up to the first that fails, under the slot rule (RFC 8881 sections 2.10.6 and 16.2.3). Operations beside those of
//! the table are served by an `Extra`.
#![tactic(auto)]

mod admission;
mod clients;
mod counted;
mod engine;
mod extra;
mod files;
mod first;
mod further;
mod going;
mod head;
mod keep;
mod leases;
mod names;
mod nodes;
mod parts;
mod perform;
mod place;
mod reply;
mod results;
mod room;
mod run;
mod sessions;
mod setting;
mod store;

pub use engine::{Engine, Ran};
pub use extra::{Extra, ExtraRan, NoExtra, ReadExtra, Spot};
pub use first::first_tree;
pub use leases::is_lease_over;
pub use room::room_of;
pub use run::Denial;
pub use store::Store;
