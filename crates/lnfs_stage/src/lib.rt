//! What every command of the program stands on: the outside of a run as one value, and what a run is due.
//!
//! A layer takes an `Outside`, which is files, standard output and the audit stream together, and promises
//! by `Does` what it did of what is due: all of it, with the ending that it tells, or a front. `tell` adds
//! the ending's line and `close` hands all on; both are proved once for all commands.
#![tactic(auto)]

mod calls;
mod ending;
mod finish;
mod outside;
mod status;
mod stop;
mod world;

pub use ending::{CheckpointCause, Ending, MapCause};
pub use finish::{close, tell};
pub use outside::Outside;
pub use status::Status;
pub use stop::Stop;
pub use world::{Borrowed, World};
