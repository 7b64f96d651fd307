//! The rows that are kept, each under its identifier.
ghost use Rattle.std.proofs.Common.{rules};
ghost use Rattle.std.specs.Cmp.Rules.{comparing};
ghost use Rattle.std.specs.Ordering.{nat_cmp, ordering_then};

use lnfs_arguments::Channel;
use lnfs_types::Octets;
use std::cmp::Ordering;

/// The identifier of a client's record: the level that it was given in, and its number there.
#[derive(Clone, Copy, Debug, PartialEq, Eq, PartialOrd)]
pub struct ClientRef {
    pub level: u32,
    pub number: u32,
}

// As a derive orders them, in one branch for each field: a look-up compares some ten keys.
impl Ord for ClientRef {
    ghost cmp = { λ a b. ordering_then (nat_cmp a.level b.level) (nat_cmp a.number b.number) };

    ghost total = { Prim.search (comparing, rules) };

    ghost matches_partial_cmp = { Prim.search (comparing, rules) };

    ghost matches_eq = { Prim.search (comparing, rules) };

    fn cmp(&self, other: &ClientRef) -> Ordering {
        if self.level == other.level {
            self.number.cmp(&other.number)
        } else {
            self.level.cmp(&other.level)
        }
    }
}

/// The identifier of a session: the level that it was given in, and its number there, which has eight
/// bytes where it is sent.
#[derive(Clone, Copy, Debug, PartialEq, Eq, PartialOrd)]
pub struct SessionRef {
    pub level: u32,
    pub number: u64,
}

// As a derive orders them, in one branch for each field.
impl Ord for SessionRef {
    ghost cmp = { λ a b. ordering_then (nat_cmp a.level b.level) (nat_cmp a.number b.number) };

    ghost total = { Prim.search (comparing, rules) };

    ghost matches_partial_cmp = { Prim.search (comparing, rules) };

    ghost matches_eq = { Prim.search (comparing, rules) };

    fn cmp(&self, other: &SessionRef) -> Ordering {
        if self.level == other.level {
            self.number.cmp(&other.number)
        } else {
            self.level.cmp(&other.level)
        }
    }
}

/// The arguments of a request that was accepted, and the answer that it got.
#[derive(Debug, Drop)]
pub struct Kept {
    pub arguments: Vec<u8>,
    pub reply: Vec<u8>,
}

/// A client's record (RFC 8881 section 18.35.4).
#[derive(Debug, Drop)]
pub struct Client {
    /// The client owner's opaque name.
    pub owner: Octets,
    /// The client owner's verifier, which tells one boot of the client from the next.
    pub verifier: [u8; 8],
    /// Whether a CREATE_SESSION has confirmed it.
    pub confirmed: bool,
    /// The sequence that its next CREATE_SESSION has to bring.
    pub sequence: u32,
    /// Its last CREATE_SESSION.
    pub kept: Option<Kept>,
    /// Whether it said that it reclaims no more (RFC 8881 section 18.51).
    pub reclaimed: bool,
    /// The seconds of the moment at which its lease was last renewed, if it was (RFC 8881 section 8.3).
    pub seen: Option<u64>,
}

/// A slot: its last sequence, and the COMPOUND that came under it.
#[derive(Debug, Drop)]
pub struct Slot {
    pub sequence: u32,
    pub kept: Option<Kept>,
}

/// A session (RFC 8881 section 18.36).
#[derive(Debug, Drop)]
pub struct Session {
    /// The number of its client, which is of the same level.
    pub client: u32,
    pub channel: Channel,
    pub slots: Vec<Slot>,
}
