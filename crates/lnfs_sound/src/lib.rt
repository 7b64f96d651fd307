//! Whether rows of clients, sessions, contexts and opens, with those of nodes, are those of a world that a server may have.
#![tactic(auto)]

mod clients;
mod contexts;
mod nodes;
mod opens;
mod sessions;
mod whole;

pub use whole::are_sound;
