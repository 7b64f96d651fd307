//! Services of links in memory: statuses, what the streams get, and what the links take.
#![tactic(auto)]

#[cfg(test)]
mod beside;
#[cfg(test)]
mod callers;
#[cfg(test)]
mod closing;
#[cfg(test)]
mod codecs;
#[cfg(test)]
mod meeting;
#[cfg(test)]
mod moments;
#[cfg(test)]
mod order;
#[cfg(test)]
mod ordinary;
#[cfg(test)]
mod pool;
#[cfg(test)]
mod ruled;
#[cfg(test)]
mod served;
#[cfg(test)]
mod services;
