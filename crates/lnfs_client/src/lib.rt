//! A client that enforces the labels by itself (RFC 7204 section 3.3).
//!
//! `specs/Stages.antt` says with which request an action begins, `specs/Requests.antt` what each asks, `specs/Machine.antt` what
//! each reply leads to, and `specs/Enforcing.antt` what the client may take and put.
#![tactic(auto)]

mod answer;
mod client;
mod enforcing;
mod judging;
mod keeping;
mod known;
pub mod laws;
mod listing;
mod making;
mod paths;
mod requests;
mod stage;
mod stages;
mod told;
mod turning;

pub use answer::{Answer, Progress, Refusal, Shown};
pub use client::Client;
pub use enforcing::enforce;
pub use known::{Known, Running};
pub use listing::Listing;
pub use stage::Stage;
