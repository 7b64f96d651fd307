//! Rows of locks: whether they fit beside a world, and locks that are made of them and told again, with ample memory.
#![tactic(auto)]

#[cfg(test)]
mod again;
#[cfg(test)]
mod codecs;
#[cfg(test)]
mod fitting;
#[cfg(test)]
mod state;
