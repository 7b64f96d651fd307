use lnfs_attrs::LabelValue;
use lnfs_results::OpResult;
use lnfs_types::{Items, Octets};

/// What is awaited of one operation of a request (RFC 8881 section 18).
#[derive(Clone, Copy, Debug, PartialEq, Eq)]
pub enum Awaits {
    /// What the operation of this number answers, whatever its fields are.
    Fields { number: u32 },
    /// What SETATTR answers, which says which attributes were set after any status.
    Set,
    /// What GETATTR answers of which `sec_label` alone was asked.
    Label,
    /// What READDIR answers of which `rdattr_error` and `sec_label` were asked.
    Names,
}

/// An entry of a directory (`entry4`, RFC 8881 section 18.23.2), with the attributes that were
/// asked.
#[derive(Debug, Drop)]
pub struct Named {
    pub cookie: u64,
    pub name: Octets,
    /// `rdattr_error`: the status with which its attributes could not be read, else 0. Any word is
    /// taken.
    pub error: u32,
    pub label: LabelValue,
}

/// What one operation answers to such a request.
#[derive(Debug, Drop)]
pub enum Told {
    /// The label that was asked.
    Label(LabelValue),
    /// The entries that were asked, and whether they are the last.
    Names { entries: Items<Named>, eof: bool },
    /// Any other result, also that GETATTR or READDIR failed.
    Other(OpResult),
}

/// The answer to a list of operations: the status of the COMPOUND, and the results of those that
/// were done. The status of each but the last is 0, and that of the last is the COMPOUND's.
#[derive(Debug, Drop)]
pub struct Said {
    pub status: u32,
    pub results: Items<Told>,
}
