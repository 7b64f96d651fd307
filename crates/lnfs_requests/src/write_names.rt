//! The writers of the operations on names and their attributes.
ghost use Rattle.std.specs.Prelude.{◌≡◌, ◌++◌, OnOk};
ghost use Rattle.lnfs_requests.specs.Texts.{what_text, op_text};
ghost use Rattle.lnfs_requests.specs.Fits.{WhatFits, OpFits};

use lnfs_arguments::numbers::{
    OP_ACCESS, OP_CREATE, OP_GETATTR, OP_LINK, OP_LOOKUP, OP_NVERIFY, OP_PUTFH, OP_READDIR,
    OP_REMOVE, OP_RENAME, OP_SETATTR, OP_VERIFY, TYPE_DIR, TYPE_LINK,
};
use lnfs_arguments::{Op, StateId, What, put_attrs, put_state_id};
use lnfs_attrs::{Bitmap, RawAttrs, write_bitmap};
use lnfs_types::Octets;
use lnfs_xdr::XdrWriter;
use std::alloc::AllocError;

/// Appends ACCESS (RFC 8881 section 18.1). Fails only for want of memory.
#[tactic(auto, unfolding(crate::specs::Texts::op_text))]
pub fn put_access(out: &mut XdrWriter, bits: u32) -> Result<(), AllocError>
    ensures { OnOk result (out.new ≡ out.old ++ op_text (Op.Access bits)) }
{
    out.u32(OP_ACCESS)?;
    out.u32(bits)
}

#[tactic(auto, unfolding(crate::specs::Texts::what_text))]
fn put_what(out: &mut XdrWriter, what: &What) -> Result<(), AllocError>
    requires { WhatFits what.now }
    ensures { OnOk result (out.new ≡ out.old ++ what_text what.now) }
{
    match what {
        What::Symlink { text } => {
            out.u32(TYPE_LINK)?;
            out.opaque(text.as_slice())
        }
        What::Dir => out.u32(TYPE_DIR),
    }
}

/// Appends CREATE (RFC 8881 section 18.4). Fails only for want of memory.
#[tactic(auto, unfolding(crate::specs::Texts::op_text))]
pub fn put_create(
    out: &mut XdrWriter,
    what: &What,
    name: &Octets,
    attrs: &RawAttrs,
) -> Result<(), AllocError>
    requires { OpFits (Op.Create what.now name.now attrs.now) }
    ensures { OnOk result (out.new ≡ out.old ++ op_text (Op.Create what.now name.now attrs.now)) }
{
    out.u32(OP_CREATE)?;
    put_what(out, what)?;
    out.opaque(name.as_slice())?;
    put_attrs(out, attrs)
}

/// Appends GETATTR (RFC 8881 section 18.7). Fails only for want of memory.
#[tactic(auto, unfolding(crate::specs::Texts::op_text))]
pub fn put_getattr(out: &mut XdrWriter, asked: &Bitmap) -> Result<(), AllocError>
    ensures { OnOk result (out.new ≡ out.old ++ op_text (Op.GetAttr asked.now)) }
{
    out.u32(OP_GETATTR)?;
    write_bitmap(asked, out)
}

/// Appends LINK (RFC 8881 section 18.9). Fails only for want of memory.
#[tactic(auto, unfolding(crate::specs::Texts::op_text))]
pub fn put_link(out: &mut XdrWriter, name: &Octets) -> Result<(), AllocError>
    requires { OpFits (Op.Link name.now) }
    ensures { OnOk result (out.new ≡ out.old ++ op_text (Op.Link name.now)) }
{
    out.u32(OP_LINK)?;
    out.opaque(name.as_slice())
}

/// Appends LOOKUP (RFC 8881 section 18.13). Fails only for want of memory.
#[tactic(auto, unfolding(crate::specs::Texts::op_text))]
pub fn put_lookup(out: &mut XdrWriter, name: &Octets) -> Result<(), AllocError>
    requires { OpFits (Op.Lookup name.now) }
    ensures { OnOk result (out.new ≡ out.old ++ op_text (Op.Lookup name.now)) }
{
    out.u32(OP_LOOKUP)?;
    out.opaque(name.as_slice())
}

/// Appends REMOVE (RFC 8881 section 18.25). Fails only for want of memory.
#[tactic(auto, unfolding(crate::specs::Texts::op_text))]
pub fn put_remove(out: &mut XdrWriter, name: &Octets) -> Result<(), AllocError>
    requires { OpFits (Op.Remove name.now) }
    ensures { OnOk result (out.new ≡ out.old ++ op_text (Op.Remove name.now)) }
{
    out.u32(OP_REMOVE)?;
    out.opaque(name.as_slice())
}

/// Appends NVERIFY (RFC 8881 section 18.15). Fails only for want of memory.
#[tactic(auto, unfolding(crate::specs::Texts::op_text))]
pub fn put_nverify(out: &mut XdrWriter, attrs: &RawAttrs) -> Result<(), AllocError>
    requires { OpFits (Op.NVerify attrs.now) }
    ensures { OnOk result (out.new ≡ out.old ++ op_text (Op.NVerify attrs.now)) }
{
    out.u32(OP_NVERIFY)?;
    put_attrs(out, attrs)
}

/// Appends VERIFY (RFC 8881 section 18.31). Fails only for want of memory.
#[tactic(auto, unfolding(crate::specs::Texts::op_text))]
pub fn put_verify(out: &mut XdrWriter, attrs: &RawAttrs) -> Result<(), AllocError>
    requires { OpFits (Op.Verify attrs.now) }
    ensures { OnOk result (out.new ≡ out.old ++ op_text (Op.Verify attrs.now)) }
{
    out.u32(OP_VERIFY)?;
    put_attrs(out, attrs)
}

/// Appends SETATTR (RFC 8881 section 18.30). Fails only for want of memory.
#[tactic(auto, unfolding(crate::specs::Texts::op_text))]
pub fn put_setattr(out: &mut XdrWriter, id: &StateId, attrs: &RawAttrs) -> Result<(), AllocError>
    requires { OpFits (Op.SetAttr id.now attrs.now) }
    ensures { OnOk result (out.new ≡ out.old ++ op_text (Op.SetAttr id.now attrs.now)) }
{
    out.u32(OP_SETATTR)?;
    put_state_id(out, id)?;
    put_attrs(out, attrs)
}

/// Appends PUTFH (RFC 8881 section 18.19). Fails only for want of memory.
#[tactic(auto, unfolding(crate::specs::Texts::op_text))]
pub fn put_putfh(out: &mut XdrWriter, handle: &Octets) -> Result<(), AllocError>
    requires { OpFits (Op.PutFh handle.now) }
    ensures { OnOk result (out.new ≡ out.old ++ op_text (Op.PutFh handle.now)) }
{
    out.u32(OP_PUTFH)?;
    out.opaque(handle.as_slice())
}

/// Appends READDIR (RFC 8881 section 18.23). Fails only for want of memory.
#[tactic(auto, unfolding(crate::specs::Texts::op_text))]
pub fn put_readdir(
    out: &mut XdrWriter,
    cookie: u64,
    verifier: &[u8; 8],
    dircount: u32,
    maxcount: u32,
    asked: &Bitmap,
) -> Result<(), AllocError>
    ensures { OnOk result (out.new ≡ out.old ++ op_text
        (Op.ReadDir cookie verifier.now dircount maxcount asked.now)) }
{
    out.u32(OP_READDIR)?;
    out.u64(cookie)?;
    out.fixed(verifier)?;
    out.u32(dircount)?;
    out.u32(maxcount)?;
    write_bitmap(asked, out)
}

/// Appends RENAME (RFC 8881 section 18.26). Fails only for want of memory.
#[tactic(auto, unfolding(crate::specs::Texts::op_text))]
pub fn put_rename(out: &mut XdrWriter, old: &Octets, new: &Octets) -> Result<(), AllocError>
    requires { OpFits (Op.Rename old.now new.now) }
    ensures { OnOk result (out.new ≡ out.old ++ op_text (Op.Rename old.now new.now)) }
{
    out.u32(OP_RENAME)?;
    out.opaque(old.as_slice())?;
    out.opaque(new.as_slice())
}
