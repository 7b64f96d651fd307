//! The layout of a checkpoint, on bytes that are laid out by hand.
#![tactic(auto)]

#[cfg(test)]
mod both_ways;
#[cfg(test)]
mod compare;
#[cfg(test)]
mod damaged;
#[cfg(test)]
mod items;
#[cfg(test)]
mod locks;
#[cfg(test)]
mod rows;
