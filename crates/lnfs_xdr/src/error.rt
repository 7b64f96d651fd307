use thiserror::Error;

/// Why an item could not be read.
#[derive(Clone, Copy, Debug, PartialEq, Eq, Error)]
pub enum XdrError {
    /// The item needs more bytes than are left.
    #[error("the item needs more bytes than are left")]
    Short,
    /// The word is none of the values that the item may have.
    #[error("the word is none of the values that the item may have")]
    BadBool,
    /// The length word is there and is above what is allowed.
    #[error("the length is above what is allowed")]
    TooLong,
}
