//! Command lines: statuses, and what the streams get.
#![tactic(auto)]

#[cfg(test)]
mod cells;
#[cfg(test)]
mod checkpoints;
#[cfg(test)]
mod commands;
#[cfg(test)]
mod hostile;
#[cfg(test)]
mod streams;
