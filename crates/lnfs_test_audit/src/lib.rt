//! Audits of recorded replies, in words.
#![tactic(auto)]

#[cfg(test)]
mod codecs;
#[cfg(test)]
mod findings;
#[cfg(test)]
mod further;
#[cfg(test)]
mod judged;
#[cfg(test)]
mod recorded;
