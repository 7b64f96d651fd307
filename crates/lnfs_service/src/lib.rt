//! The service of links: accepted from a net, served by worker threads under a policy, and told.
#![tactic(auto)]

mod links;
mod offer;
mod service;

pub use offer::run_served;
pub use service::{NewVault, serve};
