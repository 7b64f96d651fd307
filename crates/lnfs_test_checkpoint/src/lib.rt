//! Checkpoints: what is served behind one, and what damage of one is told.
#![tactic(auto)]

#[cfg(test)]
mod breaks;
#[cfg(test)]
mod codecs;
#[cfg(test)]
mod damaged;
#[cfg(test)]
mod small;
