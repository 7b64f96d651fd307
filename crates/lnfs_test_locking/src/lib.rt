//! Locks as they are kept: one comes, is found, stands in the way, gets another state, and goes.
#![tactic(auto)]

#[cfg(test)]
mod calls;
