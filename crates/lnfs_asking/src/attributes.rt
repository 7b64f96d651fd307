//! Attributes, as a client asks for them, compares and sets them.
ghost use Rattle.std.specs.Prelude.{◌≡◌, IfOk};
ghost use Rattle.lnfs_arguments.specs.SharedTexts.{AttrsFit};
ghost use Rattle.lnfs_asking.specs.Labels.{IsShort, as_attributes};

use lnfs_attrs::{Bitmap, LabelValue, RawAttrs};
use lnfs_types::Octets;
use lnfs_xdr::XdrWriter;
use std::alloc::{AllocError, Global};

/// `sec_label` alone, which is attribute 80.
pub const LABEL_ALONE: Bitmap = Bitmap {
    words: [0, 0, 65536, 0, 0, 0, 0, 0],
};

/// `rdattr_error`, which is attribute 11, and `sec_label`.
pub const ERROR_AND_LABEL: Bitmap = Bitmap {
    words: [2048, 0, 65536, 0, 0, 0, 0, 0],
};

/// A label as the one attribute that is compared or set (RFC 7862 section 12.2.4). Fails only for want of memory.
#[tactic(auto, using(crate::proofs::Sizes::attributes_fit))]
pub fn as_attributes(alloc: Global, label: &LabelValue) -> Result<RawAttrs, AllocError>
    requires { IsShort label.now }
    ensures attrs { IfOk result (λ attrs. attrs ≡ as_attributes label.now) }
    ensures fits { IfOk result AttrsFit }
{
    let mut out = XdrWriter::new(alloc);
    out.u32(label.lfs)?;
    out.u32(label.pi)?;
    out.opaque(label.bytes.as_slice())?;
    Ok(RawAttrs {
        mask: LABEL_ALONE,
        list: Octets::new(out.into_bytes()),
    })
}
