//! Attributes that are answered, as they are written (RFC 8881 section 5.8, RFC 7862 section 12.2.4).
ghost use Rattle.std.specs.Prelude.{◌≡◌, ◌≤◌, ◌++◌, ◌*◌, ◌%◌, true, length, OnOk, OnErr};
ghost use Rattle.lnfs_types.specs.declared.limits.TheConstants.{LABEL_LIMIT};
ghost use Rattle.lnfs_xdr.specs.Written.{Extends};
ghost use Rattle.lnfs_attrs.specs.Attributes.{label_text, list_text};
ghost use Rattle.lnfs_arguments.specs.SharedTexts.{attrs_text};
ghost use Rattle.lnfs_operations.specs.Shown.{label_value};
ghost use Rattle.lnfs_world.specs.Given.{stored_of};
ghost use Rattle.lnfs_nodes.specs.Shows.{label_asked, view_of, NodeViewFits};

use crate::masks::Answered;
use crate::showing::NodeView;
use crate::units::{UNIT, label_units};
use lnfs_attrs::numbers::SEC_LABEL;
use lnfs_attrs::{Bitmap, write_attrs, write_bitmap};
use lnfs_world::Stored;
use lnfs_xdr::XdrWriter;
use std::alloc::AllocError;

/// Appends the value of sec_label.
fn put_label(label: &Stored, out: &mut XdrWriter) -> Result<(), AllocError>
    requires { length label.now.bytes ≤ LABEL_LIMIT }
    ensures ok { OnOk result (out.new ≡ out.old ++ label_text (label_value (stored_of label.now))) }
    ensures err { OnErr result (Extends out.old out.new) }
{
    out.u32(label.lfs)?;
    out.u32(label.pi)?;
    out.opaque(label.bytes.as_slice())
}

/// Appends the value of sec_label, where it is answered.
fn put_label_asked(mask: &Bitmap, label: &Stored, out: &mut XdrWriter) -> Result<(), AllocError>
    requires { length label.now.bytes ≤ LABEL_LIMIT }
    ensures ok { OnOk result (out.new ≡ out.old ++ label_asked mask.now label.now) }
    ensures err { OnErr result (Extends out.old out.new) }
{
    if !mask.has(SEC_LABEL) {
        return Ok(());
    }
    put_label(label, out)
}

/// The size of the value of sec_label in units, where it is answered.
fn label_units_asked(mask: &Bitmap, label: &Stored) -> u32
    requires { length label.now.bytes ≤ LABEL_LIMIT }
    ensures units { length (label_asked mask.now label.now) ≡ 4 * result }
    ensures most { result ≤ 259 }
{
    if !mask.has(SEC_LABEL) {
        return 0;
    }
    label_units(label)
}

/// The bytes of the values that are answered of a node.
fn list_length(answered: &Answered, node: &NodeView<'_>) -> u32
    requires { NodeViewFits node.now }
    ensures bytes { length (list_text answered.now.mask (view_of node.now) true) ≡ result }
    ensures whole { result % 4 ≡ 0 }
{
    UNIT * (answered.units + label_units_asked(&answered.mask, node.label))
}

/// Appends the values that are answered of a node. sec_label has the greatest number, so it is the last. Without memory
/// something may have been appended.
pub fn put_list(
    answered: &Answered,
    node: &NodeView<'_>,
    out: &mut XdrWriter,
) -> Result<(), AllocError>
    requires { NodeViewFits node.now }
    ensures ok { OnOk result (out.new ≡ out.old ++ list_text answered.now.mask (view_of node.now)
        true) }
    ensures err { OnErr result (Extends out.old out.new) }
{
    write_attrs(&answered.sized, &node.view, true, out)?;
    put_label_asked(&answered.mask, node.label, out)
}

/// Appends what is answered of a node: the bitmap, and the list behind its length. Without memory something may have
/// been appended.
pub fn put_answer(
    answered: &Answered,
    node: &NodeView<'_>,
    out: &mut XdrWriter,
) -> Result<(), AllocError>
    requires { NodeViewFits node.now }
    ensures ok { OnOk result (out.new ≡ out.old ++ attrs_text
        (record { mask = answered.now.mask; list = list_text answered.now.mask (view_of node.now) true })) }
    ensures err { OnErr result (Extends out.old out.new) }
{
    write_bitmap(&answered.mask, out)?;
    out.u32(list_length(answered, node))?;
    put_list(answered, node, out)
}
