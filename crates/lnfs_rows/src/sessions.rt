//! Rows of clients, of their sessions, and of contexts.
use crate::numbers::Id;

/// The arguments of a request that was accepted, and the answer that it got, for when it comes again (RFC 8881 section
/// 2.10.6).
#[derive(Clone, Copy, Debug)]
pub struct Kept<'a> {
    pub arguments: &'a [u8],
    pub reply: &'a [u8],
}

/// A client's record (RFC 8881 section 18.35.4).
#[derive(Clone, Copy, Debug)]
pub struct ClientRow<'a> {
    pub id: Id,
    /// The opaque name of the client owner.
    pub owner: &'a [u8],
    /// Tells one boot of the client from the next.
    pub verifier: [u8; 8],
    /// Whether a CREATE_SESSION has confirmed it.
    pub confirmed: bool,
    /// The sequence that its next CREATE_SESSION has to bring, and the last that came.
    pub sequence: u32,
    pub kept: Option<Kept<'a>>,
    /// Whether it said that it reclaims no more (RFC 8881 section 18.51).
    pub reclaimed: bool,
    /// The seconds of the moment at which its lease was last renewed, if it was (RFC 8881 section 8.3).
    pub seen: Option<u64>,
}

/// What a session grants of a channel (RFC 8881 section 18.36).
#[derive(Clone, Copy, Debug, PartialEq, Eq)]
pub struct Channel {
    pub max_request: u32,
    pub max_response: u32,
    pub max_cached: u32,
    pub max_operations: u32,
    pub max_requests: u32,
}

/// A slot: its last sequence, and the COMPOUND that came under it.
#[derive(Clone, Copy, Debug)]
pub struct SlotRow<'a> {
    pub sequence: u32,
    pub kept: Option<Kept<'a>>,
}

#[derive(Debug, Drop)]
pub struct SessionRow<'a> {
    pub id: Id,
    /// The number of its client, which is of the same level.
    pub client: u64,
    pub channel: Channel,
    pub slots: Vec<SlotRow<'a>>,
}

/// A security context, made under a parent of the policy.
#[derive(Clone, Copy, Debug, PartialEq, Eq)]
pub struct ContextRow {
    pub id: Id,
    pub parent: u64,
}
