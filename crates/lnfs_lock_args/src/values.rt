use crate::asked::Asked;
use lnfs_arguments::StateId;

/// Whose lock is asked for (`locker4`, RFC 8881 section 18.10.1).
#[derive(Clone, Copy, Debug)]
pub enum Locker<'a> {
    /// One of a lock owner, under an open.
    New { opening: StateId, owner: &'a [u8] },
    /// A lock that is there.
    Known { lock: StateId },
}

/// The arguments of LOCK (RFC 8881 section 18.10.1).
#[derive(Clone, Copy, Debug)]
pub struct LockArgs<'a> {
    pub asked: Asked,
    pub reclaim: bool,
    pub locker: Locker<'a>,
}

/// The arguments of LOCKT (RFC 8881 section 18.11.1).
#[derive(Clone, Copy, Debug)]
pub struct LockTArgs<'a> {
    pub asked: Asked,
    pub owner: &'a [u8],
}

/// The arguments of LOCKU (RFC 8881 section 18.12.1).
#[derive(Clone, Copy, Debug)]
pub struct LockUArgs {
    pub asked: Asked,
    pub lock: StateId,
}
