//! A client, driven by replies that are laid out by hand.
#![tactic(auto)]

#[cfg(test)]
mod codecs;
#[cfg(test)]
mod driven;
