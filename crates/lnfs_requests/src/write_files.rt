//! The writers of the operations on the content of files, and of OPEN.
ghost use Rattle.std.specs.Prelude.{◌≡◌, ◌++◌, OnOk};
ghost use Rattle.lnfs_requests.specs.Texts.{making_text, claim_text, op_text};
ghost use Rattle.lnfs_requests.specs.Fits.{MakingFits, ClaimFits, OpFits};

use lnfs_arguments::numbers::{
    CLAIM_FH, CLAIM_NULL, EXCLUSIVE4_1, GUARDED, OP_CLOSE, OP_COMMIT, OP_OPEN, OP_READ, OP_WRITE,
    OPEN_CREATE, OPEN_NOCREATE, UNCHECKED,
};
use lnfs_arguments::{Claim, Making, Op, Span, StateId, put_attrs, put_state_id};
use lnfs_types::Octets;
use lnfs_xdr::XdrWriter;
use std::alloc::AllocError;

/// Appends CLOSE (RFC 8881 section 18.2). Fails only for want of memory.
#[tactic(auto, unfolding(crate::specs::Texts::op_text))]
pub fn put_close(out: &mut XdrWriter, seqid: u32, id: &StateId) -> Result<(), AllocError>
    ensures { OnOk result (out.new ≡ out.old ++ op_text (Op.Close seqid id.now)) }
{
    out.u32(OP_CLOSE)?;
    out.u32(seqid)?;
    put_state_id(out, id)
}

/// Appends COMMIT (RFC 8881 section 18.3). Fails only for want of memory.
#[tactic(auto, unfolding(crate::specs::Texts::op_text))]
pub fn put_commit(out: &mut XdrWriter, offset: u64, count: u32) -> Result<(), AllocError>
    ensures { OnOk result (out.new ≡ out.old ++ op_text (Op.Commit offset count)) }
{
    out.u32(OP_COMMIT)?;
    out.u64(offset)?;
    out.u32(count)
}

/// Appends READ (RFC 8881 section 18.22). Fails only for want of memory.
#[tactic(auto, unfolding(crate::specs::Texts::op_text))]
pub fn put_read(
    out: &mut XdrWriter,
    id: &StateId,
    offset: u64,
    count: u32,
) -> Result<(), AllocError>
    ensures { OnOk result (out.new ≡ out.old ++ op_text (Op.Read id.now offset count)) }
{
    out.u32(OP_READ)?;
    put_state_id(out, id)?;
    out.u64(offset)?;
    out.u32(count)
}

/// Appends WRITE (RFC 8881 section 18.32). Fails only for want of memory.
#[tactic(auto, unfolding(crate::specs::Texts::op_text))]
pub fn put_write(
    out: &mut XdrWriter,
    id: &StateId,
    offset: u64,
    stable: u32,
    content: &Span<'_>,
) -> Result<(), AllocError>
    requires { OpFits (Op.Write id.now offset stable content.now) }
    ensures { OnOk result (out.new ≡ out.old ++ op_text
        (Op.Write id.now offset stable content.now)) }
{
    out.u32(OP_WRITE)?;
    put_state_id(out, id)?;
    out.u64(offset)?;
    out.u32(stable)?;
    out.opaque(content.as_slice())
}

#[tactic(auto, unfolding(crate::specs::Texts::making_text))]
fn put_making(out: &mut XdrWriter, making: &Option<Making>) -> Result<(), AllocError>
    requires { MakingFits making.now }
    ensures { OnOk result (out.new ≡ out.old ++ making_text making.now) }
{
    match making {
        None => out.u32(OPEN_NOCREATE),
        Some(Making::Unchecked { attrs }) => {
            out.u32(OPEN_CREATE)?;
            out.u32(UNCHECKED)?;
            put_attrs(out, attrs)
        }
        Some(Making::Guarded { attrs }) => {
            out.u32(OPEN_CREATE)?;
            out.u32(GUARDED)?;
            put_attrs(out, attrs)
        }
        Some(Making::Exclusive { verifier, attrs }) => {
            out.u32(OPEN_CREATE)?;
            out.u32(EXCLUSIVE4_1)?;
            out.fixed(verifier)?;
            put_attrs(out, attrs)
        }
    }
}

#[tactic(auto, unfolding(crate::specs::Texts::claim_text))]
fn put_claim(out: &mut XdrWriter, claim: &Claim) -> Result<(), AllocError>
    requires { ClaimFits claim.now }
    ensures { OnOk result (out.new ≡ out.old ++ claim_text claim.now) }
{
    match claim {
        Claim::Name { name } => {
            out.u32(CLAIM_NULL)?;
            out.opaque(name.as_slice())
        }
        Claim::Handle => out.u32(CLAIM_FH),
    }
}

/// The words of OPEN before its owner.
#[derive(Clone, Copy)]
pub struct Opening {
    pub seqid: u32,
    pub access: u32,
    pub deny: u32,
    pub client: u64,
}

/// Appends OPEN (RFC 8881 section 18.16). Fails only for want of memory.
#[tactic(auto, unfolding(crate::specs::Texts::op_text))]
pub fn put_open(
    out: &mut XdrWriter,
    words: Opening,
    owner: &Octets,
    making: &Option<Making>,
    claim: &Claim,
) -> Result<(), AllocError>
    requires { OpFits (Op.Open words.seqid words.access words.deny words.client owner.now making.now
        claim.now) }
    ensures { OnOk result (out.new ≡ out.old ++ op_text
        (Op.Open words.seqid words.access words.deny words.client owner.now making.now claim.now)) }
{
    out.u32(OP_OPEN)?;
    out.u32(words.seqid)?;
    out.u32(words.access)?;
    out.u32(words.deny)?;
    out.u64(words.client)?;
    out.opaque(owner.as_slice())?;
    put_making(out, making)?;
    put_claim(out, claim)
}
