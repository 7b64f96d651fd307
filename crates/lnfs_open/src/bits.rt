//! The bits of what an open is for and of what it denies (RFC 8881 section 9.7).
ghost use Rattle.std.specs.Prelude.{◌≡◌};
ghost use Rattle.lnfs_world.specs.Opens.{has_any};
ghost use Rattle.lnfs_open.specs.Tallies.{one_if};

/// Reading, `OPEN4_SHARE_ACCESS_READ` and `OPEN4_SHARE_DENY_READ`.
pub const READING: u32 = 1;

/// Writing, `OPEN4_SHARE_ACCESS_WRITE` and `OPEN4_SHARE_DENY_WRITE`.
pub const WRITING: u32 = 2;

/// Both of them. No higher bit has a meaning.
pub const BOTH: u32 = 3;

/// Whether two words have a bit in common.
pub fn has_any(bits: u32, others: u32) -> bool
    ensures { result ≡ has_any bits others }
{
    bits & others != 0
}

/// One where two words have a bit in common, and otherwise none.
pub fn one_if_any(bits: u32, others: u32) -> u32
    ensures { result ≡ one_if (has_any bits others) }
{
    u32::from(has_any(bits, others))
}
