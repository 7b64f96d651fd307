ghost use Rattle.std.specs.Prelude.{◌≡◌, IfOk};
ghost use Rattle.lnfs_xdr.specs.Message.{Tells};
ghost use Rattle.lnfs_arguments.specs.Further.{Further, IsLawful};
ghost use Rattle.lnfs_arguments.specs.Whole.{compound};
ghost use Rattle.lnfs_requests.specs.Texts.{compound_text};
ghost use Rattle.lnfs_requests.specs.Fits.{CompoundFits};

use crate::write_table::put_op;
use lnfs_arguments::Compound;
use lnfs_xdr::XdrWriter;
use std::alloc::{AllocError, Global};

#[tactic(auto, unfolding(crate::specs::Texts::compound_text))]
fn text_of(alloc: Global, c: &Compound<'_>) -> Result<Vec<u8>, AllocError>
    requires { CompoundFits c.now }
    ensures { IfOk result (λ v. v.items ≡ compound_text c.now) }
{
    let mut out = XdrWriter::new(alloc);
    out.opaque(c.tag.as_slice())?;
    out.u32(c.minor)?;
    out.u32(c.count)?;
    for op in c.ops.as_slice() {
        put_op(&mut out, op)?;
    }
    Ok(out.into_bytes())
}

/// The one spelling of a COMPOUND, its pad bytes zero.
pub fn write_compound(alloc: Global, c: &Compound<'_>) -> Result<Vec<u8>, AllocError>
    requires { CompoundFits c.now }
    ensures text { IfOk result (λ v. v.items ≡ compound_text c.now) }
    // It is read again, whatever operations are read beside the table.
    ensures again { (x : Further) → IsLawful x →
        IfOk result (λ v. Tells (compound x) c.now v.items) }
{
    text_of(alloc, c)
}
