//! The site's policy: the text of the policy file, and the levels, formats, guests and limits that it spells.
#![tactic(auto)]

mod cause;
mod fits;
mod formats;
mod guests;
pub mod laws;
mod line;
mod mode;
mod policy;
mod read;
mod reading;
mod rows;

pub use cause::{Cause, PolicyError};
pub use fits::MAX_CLASS;
pub use mode::Mode;
pub use policy::Policy;
pub use read::{migrate, read_policy, write_policy};
pub use rows::{DirLine, Guest, Limit, Parent, Quota};
