//! What comes of a record.
use lnfs_rpc::ReplyRecord;

/// What came of a record.
#[derive(Debug, Drop)]
pub enum Outcome {
    /// Its event is in the journal, and this is the reply, where one is due.
    Replied { reply: Option<ReplyRecord> },
    /// Its event is in the journal, and there was no memory to seal the reply.
    Lost,
    /// There was no memory, and the journal is as it was.
    NoMemory,
}
