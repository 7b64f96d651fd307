//! What is read of a label that is given.
use lnfs_calipso::Level;

/// What is read of a label as it was given (RFC 7862 section 12.2.4).
#[derive(Clone, Copy, Debug, PartialEq, Eq)]
pub enum LabelRead {
    /// The label of a level.
    LevelOf(Level),
    /// There is no such format.
    WrongFormat,
    /// The bytes spell the label of no level in it.
    BadLabel,
}
