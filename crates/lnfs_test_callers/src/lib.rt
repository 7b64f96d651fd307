//! Who calls, and how callers are answered, on calls that are laid out by hand.
#![tactic(auto)]

#[cfg(test)]
mod callers;
#[cfg(test)]
mod codecs;
#[cfg(test)]
mod drafts;
#[cfg(test)]
mod replies;
#[cfg(test)]
mod written;
