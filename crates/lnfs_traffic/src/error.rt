use thiserror::Error;

/// Why bytes could not be read as a recording.
#[derive(Clone, Copy, Debug, Drop, PartialEq, Eq, Error)]
pub enum TrafficError {
    /// They are none. The length of their longest front that is one; 0 where none is.
    #[error("damaged behind byte {at}")]
    Damaged { at: u64 },
    /// There was no memory.
    #[error("out of memory")]
    Memory,
}
