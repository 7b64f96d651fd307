use lnfs_answers::Awaits;
use lnfs_attrs::LabelValue;
use lnfs_types::{Items, Octets};

/// What is awaited of a request.
#[derive(Debug, Drop)]
pub enum Sought {
    /// The answer to a COMPOUND.
    Results(Items<Awaits>),
    /// The handle of a context that asserts this label.
    Context(LabelValue),
    /// That the context has ended.
    End,
}

/// A request that was made: what its reply is compared with, and its record.
#[derive(Debug, Drop)]
pub struct Sent {
    pub xid: u32,
    /// How many bytes of the record its header has, which goes from the start through the credential.
    pub header: usize,
    pub sought: Sought,
    /// The record.
    pub message: Octets,
}
