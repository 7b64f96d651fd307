//! Words, labels and their spellings, the rules of labels, and the policy of a site, each laid out by hand.
#![tactic(auto)]

#[cfg(test)]
mod codecs;
#[cfg(test)]
mod formats;
#[cfg(test)]
mod labels;
#[cfg(test)]
mod monitor;
#[cfg(test)]
mod policy;
#[cfg(test)]
mod rules;
#[cfg(test)]
mod site;
#[cfg(test)]
mod translation;
#[cfg(test)]
mod words;
