//! Records, sessions, nodes and files in recordings, as runs over files in memory answer them.
#![tactic(auto)]

#[cfg(test)]
mod changing;
#[cfg(test)]
mod files;
#[cfg(test)]
mod leases;
#[cfg(test)]
mod limited;
#[cfg(test)]
mod locks;
#[cfg(test)]
mod pieces;
#[cfg(test)]
mod quotas;
#[cfg(test)]
mod reading;
#[cfg(test)]
mod records;
#[cfg(test)]
mod root;
#[cfg(test)]
mod sessions;
#[cfg(test)]
mod sharing;
#[cfg(test)]
mod sparse;
