//! The mode of a site.

/// Who enforces the labels.
#[derive(Clone, Copy, Debug, PartialEq, Eq)]
pub enum Mode {
    /// The server does: full mode and guest mode of RFC 7862 section 9.
    Enforcing,
    /// The clients do, and the server keeps the labels that they set: limited server mode of RFC 7862 section 9.
    Limited,
}
