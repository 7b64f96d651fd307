//! The codecs, on bytes that are laid out by hand: items of XDR, records and calls of RPC, attributes, arguments and results.
#![tactic(auto)]

#[cfg(test)]
mod arguments;
#[cfg(test)]
mod attributes;
#[cfg(test)]
mod requests;
#[cfg(test)]
mod results;
#[cfg(test)]
mod rpc;
#[cfg(test)]
mod xdr;
