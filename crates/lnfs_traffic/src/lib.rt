//! Recordings of traffic: the events that came over the links of a server, as a file.
//!
//! A recording is the 8 bytes `LNFSTRC1` and then events: class, link, seconds (8 bytes), nanoseconds,
//! the length of the record, and the record. All numbers are big-endian, of 4 bytes but for the
//! seconds, and nothing is padded.
#![tactic(auto)]

mod asking;
mod calls;
mod error;
mod events;
mod generator;
mod guests;
mod laws;
mod pieces;
mod reading;
mod turns;
mod writing;

pub use error::TrafficError;
pub use events::{BEGINNING, next_event};
pub use generator::generate;
pub use laws::recordings;
pub use pieces::TrafficReader;
pub use reading::read_traffic;
pub use writing::{put_traffic, write_traffic};
