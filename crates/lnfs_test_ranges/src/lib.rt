//! The ranges of a byte-range lock: what is left of them by unlocking, what joins, and how many there would be.
#![tactic(auto)]

#[cfg(test)]
mod calls;
#[cfg(test)]
mod lengths;
#[cfg(test)]
mod modes;
#[cfg(test)]
mod offsets;
