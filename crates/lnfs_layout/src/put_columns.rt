//! Writers of columns.
ghost use Rattle.std.specs.Prelude.{◌≡◌, ◌++◌, OnOk, length};
ghost use Rattle.std.specs.Option.{option_map};
ghost use Rattle.lnfs_xdr.specs.Canon.{long};
ghost use Rattle.lnfs_rows.specs.Told.{id_of, kept_of};
ghost use Rattle.lnfs_layout.specs.Texts.{run_text, flag_text, present_text, moment_text, id_text, kept_text};
ghost use Rattle.lnfs_layout.specs.Fits.{IsLong, IsRun, IfThere, IdFits, MomentFits, KeptFits};

use crate::numbers::{NO, VERIFIER, YES};
use lnfs_rows::{Id, Kept};
use lnfs_types::Moment;
use lnfs_xdr::XdrWriter;
use std::alloc::AllocError;

/// A length and so many bytes.
#[tactic(auto, unfolding(crate::specs::Texts::run_text))]
pub fn put_run(out: &mut XdrWriter, v: &[u8]) -> Result<(), AllocError>
    ensures text { OnOk result (out.new ≡ out.old ++ run_text v.now) }
    ensures fits { OnOk result (IsRun v.now) }
{
    out.u64(v.len() as u64)?;
    out.raw(v)
}

#[tactic(auto, unfolding(crate::specs::Texts::flag_text))]
pub fn put_flag(out: &mut XdrWriter, v: bool) -> Result<(), AllocError>
    ensures { OnOk result (out.new ≡ out.old ++ flag_text v) }
{
    out.byte(if v { YES } else { NO })
}

pub fn put_some_verifier(out: &mut XdrWriter, v: &Option<[u8; VERIFIER]>) -> Result<(), AllocError>
    ensures text { OnOk result (out.new ≡ out.old ++ present_text (λ b. b) v.now) }
    ensures fits { OnOk result (IfThere (λ b. length b ≡ VERIFIER) v.now) }
{
    match v {
        None => out.byte(NO),
        Some(verifier) => {
            out.byte(YES)?;
            out.raw(verifier)
        }
    }
}

pub fn put_some_long(out: &mut XdrWriter, v: Option<u64>) -> Result<(), AllocError>
    ensures text { OnOk result (out.new ≡ out.old ++ present_text long v) }
    ensures fits { OnOk result (IfThere IsLong v) }
{
    match v {
        None => out.byte(NO),
        Some(number) => {
            out.byte(YES)?;
            out.u64(number)
        }
    }
}

#[tactic(auto, unfolding(crate::specs::Texts::moment_text))]
pub fn put_moment(out: &mut XdrWriter, v: Moment) -> Result<(), AllocError>
    ensures text { OnOk result (out.new ≡ out.old ++ moment_text v) }
    ensures fits { OnOk result (MomentFits v) }
{
    out.u64(v.secs)?;
    out.u32(v.nanos)
}

#[tactic(auto, unfolding(crate::specs::Texts::id_text))]
pub fn put_id(out: &mut XdrWriter, v: Id) -> Result<(), AllocError>
    ensures text { OnOk result (out.new ≡ out.old ++ id_text (id_of v)) }
    ensures fits { OnOk result (IdFits (id_of v)) }
{
    out.u32(v.level)?;
    out.u64(v.number)
}

#[tactic(auto, unfolding(crate::specs::Texts::kept_text))]
fn put_kept(out: &mut XdrWriter, v: &Kept<'_>) -> Result<(), AllocError>
    ensures text { OnOk result (out.new ≡ out.old ++ kept_text (kept_of v.now)) }
    ensures fits { OnOk result (KeptFits (kept_of v.now)) }
{
    put_run(out, v.arguments)?;
    put_run(out, v.reply)
}

/// What is kept of a request, if anything is.
pub fn put_some_kept(out: &mut XdrWriter, v: &Option<Kept<'_>>) -> Result<(), AllocError>
    ensures text { OnOk result (out.new ≡ out.old
        ++ present_text kept_text (option_map kept_of v.now)) }
    ensures fits { OnOk result (IfThere KeptFits (option_map kept_of v.now)) }
{
    match v {
        None => out.byte(NO),
        Some(kept) => {
            out.byte(YES)?;
            put_kept(out, kept)
        }
    }
}
