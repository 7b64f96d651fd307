//! What stands in a server: the data of files, nodes and names, opens, totals, clients, sessions and contexts.
//!
//! A test owns what it tries, and lends it to functions that call and compare.
#![tactic(auto)]

#[cfg(test)]
mod calls;
#[cfg(test)]
mod clients_again;
#[cfg(test)]
mod compare;
#[cfg(test)]
mod content;
#[cfg(test)]
mod contexts_again;
#[cfg(test)]
mod files;
#[cfg(test)]
mod first;
#[cfg(test)]
mod first_again;
#[cfg(test)]
mod many;
#[cfg(test)]
mod nodes;
#[cfg(test)]
mod opens;
#[cfg(test)]
mod opens_again;
#[cfg(test)]
mod quota;
#[cfg(test)]
mod restored;
#[cfg(test)]
mod sessions;
