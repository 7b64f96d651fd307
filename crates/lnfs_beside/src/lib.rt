//! Further operations side by side, those of one kind and those of another: what they are together, and their laws. Each has
//! its own rows, and neither sees those of the other.
#![tactic(auto)]

mod laws;

pub use laws::beside_is_lawful;
