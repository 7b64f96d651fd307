//! Whether all ways up come to one place.
#![tactic(auto)]

mod climbs;
mod counting;
mod firsts;

pub use climbs::all_reach;
pub use counting::stand_at_most;
pub use firsts::first_places;
