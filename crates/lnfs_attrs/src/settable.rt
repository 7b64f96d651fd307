use crate::view::LabelValue;
use thiserror::Error;

/// The attributes that can be set.
#[derive(Debug, Drop)]
pub struct AttrSet {
    pub size: Option<u64>,
    pub mode: Option<u32>,
    pub label: Option<LabelValue>,
}

/// Why attributes were not taken.
#[derive(Debug, Drop, Error)]
pub enum AttrError {
    /// One is outside of the table.
    #[error("an attribute is outside of the table")]
    AttrNotSupp,
    /// One can't be set.
    #[error("an attribute cannot be set")]
    Inval,
    /// The list isn't exactly the values.
    #[error("the list is not exactly the values")]
    BadXdr,
    #[error("out of memory")]
    Memory,
}
