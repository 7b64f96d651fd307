//! Facts of a server's state: where one of them is broken in the rows of a checkpoint, it isn't taken.
#![tactic(auto)]

#[cfg(test)]
mod arranged;
#[cfg(test)]
mod codecs;
#[cfg(test)]
mod edited;
#[cfg(test)]
mod edits;
#[cfg(test)]
mod elsewhere;
#[cfg(test)]
mod facts;
#[cfg(test)]
mod files;
#[cfg(test)]
mod locks;
#[cfg(test)]
mod people;
#[cfg(test)]
mod words;
