//! What SEEK tells.
ghost use Rattle.std.specs.Prelude.{◌≡◌, IfOk};
ghost use Rattle.lnfs_sparse_ops.specs.Seek.{seek_text};
ghost use Rattle.lnfs_sparse_args.specs.Values.{sought_of};

use lnfs_types::Octets;
use lnfs_xdr::XdrWriter;
use std::alloc::{AllocError, Global};

/// Where SEEK found what it looked for, or the size of the file (RFC 7862 section 15.11.2).
#[derive(Clone, Copy, Debug, PartialEq, Eq)]
pub struct Sought {
    /// Whether nothing of the sort was left.
    pub eof: bool,
    pub offset: u64,
}

/// The bytes of a flag and an offset.
const TOLD: usize = 12;

/// What SEEK tells, as bytes (`seek_res4`, RFC 7862 section 15.11.2).
///
/// # Errors
///
/// `AllocError` where there is no memory.
#[tactic(auto, unfolding(lnfs_sparse_ops::specs::Seek::seek_text))]
pub fn seek_text(alloc: Global, sought: Sought) -> Result<Octets, AllocError>
    ensures { IfOk result (λ bytes. bytes ≡ seek_text (sought_of sought)) }
{
    let mut out = XdrWriter::with_capacity(alloc, TOLD)?;
    out.boolean(sought.eof)?;
    out.u64(sought.offset)?;
    Ok(Octets::new(out.into_bytes()))
}
