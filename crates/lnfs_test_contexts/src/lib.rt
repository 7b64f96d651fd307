//! Contexts in recordings: how callers assert labels by RPCSEC_GSS version 3, and what their calls get.
#![tactic(auto)]

#[cfg(test)]
mod asserting;
#[cfg(test)]
mod codecs;
#[cfg(test)]
mod contexts;
#[cfg(test)]
mod keyed;
#[cfg(test)]
mod labels;
#[cfg(test)]
mod sessions;
