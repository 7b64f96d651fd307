//! The objects of the outside, recordings, and generated events.
#![tactic(auto)]

#[cfg(test)]
mod codecs;
#[cfg(test)]
mod generator;
#[cfg(test)]
mod outside;
#[cfg(test)]
mod recordings;
