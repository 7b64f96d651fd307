//! How the service of a link ends.

/// The records of a link that are served.
pub const BUDGET: u32 = 65_536;

/// How the service of a link ended.
#[derive(Clone, Copy, Debug, Drop, PartialEq, Eq)]
pub enum Ending {
    /// The input ended outside a record.
    Closed,
    /// The input ended inside a record.
    Cut,
    /// A read failed.
    ReadFault,
    /// A write failed.
    WriteFault,
    /// A record is too long.
    TooLong,
    /// 65,536 records were served, and one more whole record was read.
    Budget,
    /// There was no memory. The last record is in the journal where only its reply found none.
    Memory,
}
