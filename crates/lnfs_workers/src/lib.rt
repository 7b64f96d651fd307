//! Links that worker threads serve, over one vault.
//!
//! Link i is served whole by worker i mod the number of workers, and each worker takes its links in
//! rising order. Records are read and decoded, and replies are sealed and written, side by side; the
//! step of each record alone is made under one lock. What each link gave and got is its part of the one journal: nothing is compared while
//! the program runs, and no answer stands for a difference.
#![tactic(auto)]

mod clock;
mod deal;
mod desk;
mod gate;
mod line;
mod link;
mod outcome;
mod pool;
mod settling;
mod shared;
mod writing;

pub use gate::{OpenGate, TurnGate};
pub use line::LinkEnd;
pub use lnfs_incoming::Ending;
pub use pool::{Ended, serve_all};
