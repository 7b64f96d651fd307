//! What is known of a request when its reply comes, and what a record is to it.

use crate::numbers::HANDLE_SIZE;
use crate::types::{Awaits, Said};
use lnfs_policy::Parent;

/// What is awaited of a request.
#[derive(Clone, Copy, Debug)]
pub enum Wants<'a> {
    /// The answer to a COMPOUND.
    Results { awaited: &'a [Awaits] },
    /// The handle of a context, with the assertion as it was sent.
    Context { lfs: u32, pi: u32, label: &'a [u8] },
    /// That a context has ended.
    End,
}

/// What is known of a request when its reply comes.
#[derive(Clone, Copy, Debug)]
pub struct Request<'a> {
    /// Its transaction, which is its sequence number too where it is signed.
    pub xid: u32,
    /// Who signed it, if anybody.
    pub signer: Option<&'a Parent>,
    /// Its record from the start through the credential.
    pub header: &'a [u8],
    pub wants: Wants<'a>,
}

/// What a record is to a request.
#[derive(Debug, Drop)]
pub enum Heard {
    /// The record has another transaction.
    Other,
    /// The request was denied for who asks: the `auth_stat`.
    Denied { auth: u32 },
    /// No reply to the request has the item at this offset of the record, or a signature there is
    /// not good.
    Bad { at: usize },
    /// The request was answered.
    Said(Said),
    /// A context was made, which has this handle.
    Granted { handle: [u8; HANDLE_SIZE] },
    /// The context has ended.
    Ended,
}
