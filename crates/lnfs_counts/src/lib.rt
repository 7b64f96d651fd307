//! What is kept of each level beside its rows: the last number that it was given, and how many rows it has.
//!
//! `specs/Levels.antt` says what is read of a level, `specs/Counters.antt` what counters tell, and `specs/Counted.antt` when
//! they tell of rows. `proofs/` has the laws of rows of any kind, each under its identifier, which the crates above share.
#![tactic(auto)]

mod counters;
mod dense;

pub use counters::{Counter, count, count_given, count_off, count_one, last_given, make_counter};
pub use dense::{counters_of, last_numbers};
