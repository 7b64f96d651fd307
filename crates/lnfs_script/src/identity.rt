//! Who asks over a link.

/// Who the caller is.
#[derive(Clone, Copy, Debug, PartialEq, Eq)]
pub enum Identity {
    /// One who asserts no label, with the user id of AUTH_SYS (RFC 5531 appendix A).
    Guest { uid: u32 },
    /// One who asserts the label of a level under a parent of the site (RFC 7861 section 2).
    Full { parent: u32 },
}
