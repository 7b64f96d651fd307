//! What tests of checkpoints share: servers that go on from one, recordings with what is due of them, and what becomes of
//! bytes as a checkpoint, in words.
//!
//! Nothing here ends a test: what isn't as it is due is answered as a `Flaw`, which the test hands on.
#![tactic(auto)]

pub mod judged;
pub mod recordings;
pub mod served;
pub mod site;
