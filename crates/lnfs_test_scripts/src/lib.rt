//! Scripts of the client, laid out by hand.
#![tactic(auto)]

#[cfg(test)]
mod codecs;
#[cfg(test)]
mod listed;
#[cfg(test)]
mod paths;
#[cfg(test)]
mod refused;
#[cfg(test)]
mod site;
