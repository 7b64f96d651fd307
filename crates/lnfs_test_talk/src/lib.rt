//! Scripts that are talked through: over links whose replies are laid out by hand, and with a server.
#![tactic(auto)]

#[cfg(test)]
mod acting;
#[cfg(test)]
mod codecs;
#[cfg(test)]
mod laid_out;
#[cfg(test)]
mod recorded;
#[cfg(test)]
mod resent;
#[cfg(test)]
mod served;
#[cfg(test)]
mod server;
#[cfg(test)]
mod site;
#[cfg(test)]
mod talked;
#[cfg(test)]
mod visits;
