//! What tests of whole runs share: runs over files, streams and links in memory, what is due of them, and
//! tables and stories that spell both in words.
//!
//! Nothing here ends a test: what isn't as it is due is answered as a `Flaw`, which the test hands on.
#![tactic(auto)]

pub mod clients;
pub mod flaw;
pub mod operations;
pub mod records;
pub mod rows;
pub mod runs;
pub mod services;
pub mod sessions;
pub mod site;
pub mod stories;
