//! Attributes that a request sets (RFC 8881 sections 5.8, 18.4 and 18.30, RFC 7862 section 12.2.4): the tests of the
//! arguments and the site alone.
ghost use Rattle.std.specs.Prelude.{◌≡◌, ◌<◌, ℕ, get_or, IfOk};
ghost use Rattle.std.specs.Option.{option_map};
ghost use Rattle.std.specs.Result.{result_map_both};
ghost use Rattle.lnfs_site.specs.Site.{site_of};
ghost use Rattle.lnfs_operations.specs.declared.Gate.TheVariants.{Argument};
ghost use Rattle.lnfs_operations.specs.Given.{is_mode, set_of};
ghost use Rattle.lnfs_nodes.specs.Trees.{refusal_of};
ghost use Rattle.lnfs_nodes.specs.GivenValues.{values_in, label_in, given_of, wanted_in, wanted_of, text_refusal, asked_in, asked_of};

use crate::masks::law_whole;
use crate::naming::name_refusal;
use lnfs_arguments::What;
use lnfs_arguments::statuses::{
    NFS4ERR_ATTRNOTSUPP, NFS4ERR_BADLABEL, NFS4ERR_BADXDR, NFS4ERR_INVAL, NFS4ERR_NAMETOOLONG,
    NFS4ERR_WRONG_LFS,
};
use lnfs_attrs::{AttrError, AttrSet, Bitmap, LabelValue, RawAttrs, read_settable};
use lnfs_calipso::Level;
use lnfs_operations::numbers::{MOST_MODE, MOST_TEXT};
use lnfs_operations::{Gate, Refusal};
use lnfs_site::{LabelRead, Site};
use lnfs_world::Stored;
use std::alloc::{AllocError, Global};

/// A label that was given: its level, and its spelling.
#[derive(Debug, Drop)]
pub struct GivenLabel {
    pub level: Level,
    pub spelled: Stored,
}

/// What SETATTR is to set.
#[derive(Debug, Drop)]
pub struct Wanted {
    pub size: Option<u64>,
    pub mode: Option<u32>,
    pub label: Option<GivenLabel>,
}

/// What CREATE is to give a new node.
#[derive(Debug, Drop)]
pub struct Asked {
    pub mode: Option<u32>,
    pub label: Option<GivenLabel>,
}

/// A refusal of the arguments.
pub fn argument(status: u32) -> Refusal
    ensures { result ≡ record { gate = Argument; status = status } }
{
    Refusal {
        gate: Gate::Argument,
        status,
    }
}

/// The attributes that were given (RFC 8881 section 3.3.7).
pub fn set_of(given: &RawAttrs) -> Bitmap
    ensures { result ≡ set_of given.now }
{
    law_whole(given.mask);
    given.mask
}

/// A byte is below 256.
fn law_bytes(_bytes: &[u8])
    ensures { (i : ℕ) → get_or _bytes.now i 0 < 256 }
{}

/// The values of the attributes that are given. Refused in this order: by NFS4ERR_ATTRNOTSUPP where the server hasn't
/// one of the attributes, NFS4ERR_INVAL where one can't be set, NFS4ERR_BADXDR where the list isn't exactly the values.
///
/// # Errors
///
/// `AllocError` where there is no memory.
pub fn values_of(alloc: Global, given: &RawAttrs) -> Result<Result<AttrSet, Refusal>, AllocError>
    ensures { IfOk result (λ told. result_map_both (λ values. values) refusal_of told
        ≡ values_in given.now) }
{
    law_whole(given.mask);
    law_bytes(given.list.as_slice());
    match read_settable(alloc, given) {
        Ok(values) => Ok(Ok(values)),
        Err(AttrError::AttrNotSupp) => Ok(Err(argument(NFS4ERR_ATTRNOTSUPP))),
        Err(AttrError::Inval) => Ok(Err(argument(NFS4ERR_INVAL))),
        Err(AttrError::BadXdr) => Ok(Err(argument(NFS4ERR_BADXDR))),
        Err(AttrError::Memory) => Err(AllocError),
    }
}

/// Whether a mode that is given is one (RFC 8881 section 6.2.4).
pub fn is_mode(mode: Option<u32>) -> bool
    ensures { result ≡ is_mode mode }
{
    match mode {
        Some(mode) => mode <= MOST_MODE,
        None => true,
    }
}

/// The level of a label that is given, and its spelling. Takes no memory.
///
/// # Errors
///
/// NFS4ERR_WRONG_LFS where there is no such format, and NFS4ERR_BADLABEL where it is the label of no level.
pub fn label_of(site: &Site<'_>, label: Option<LabelValue>) -> Result<Option<GivenLabel>, Refusal>
    ensures { result_map_both (option_map given_of) refusal_of result
        ≡ label_in (site_of site.now) label }
{
    let Some(value) = label else {
        return Ok(None);
    };
    match site.read_label(value.lfs, value.pi, value.bytes.as_slice()) {
        LabelRead::LevelOf(level) => Ok(Some(GivenLabel {
            level,
            spelled: Stored {
                lfs: value.lfs,
                pi: value.pi,
                bytes: value.bytes,
            },
        })),
        LabelRead::WrongFormat => Err(argument(NFS4ERR_WRONG_LFS)),
        LabelRead::BadLabel => Err(argument(NFS4ERR_BADLABEL)),
    }
}

/// What SETATTR is to set. Refused in this order: as the values are, by NFS4ERR_INVAL of a mode that isn't one, as the
/// label is, and by NFS4ERR_INVAL where a label isn't set alone.
///
/// # Errors
///
/// `AllocError` where there is no memory.
pub fn read_wanted(
    alloc: Global,
    site: &Site<'_>,
    given: &RawAttrs,
) -> Result<Result<Wanted, Refusal>, AllocError>
    ensures { IfOk result (λ told. result_map_both wanted_of refusal_of told
        ≡ wanted_in (site_of site.now) given.now) }
{
    let values = match values_of(alloc, given)? {
        Ok(values) => values,
        Err(why) => return Ok(Err(why)),
    };
    let AttrSet { size, mode, label } = values;
    if !is_mode(mode) {
        return Ok(Err(argument(NFS4ERR_INVAL)));
    }
    let is_label = label.is_some();
    let label = match label_of(site, label) {
        Ok(label) => label,
        Err(why) => return Ok(Err(why)),
    };
    if is_label && (size.is_some() || mode.is_some()) {
        return Ok(Err(argument(NFS4ERR_INVAL)));
    }
    Ok(Ok(Wanted { size, mode, label }))
}

/// The status that refuses what is to be made: NFS4ERR_INVAL of a link without a text, NFS4ERR_NAMETOOLONG of one whose
/// text is above 1,024 bytes.
fn text_refusal(what: &What) -> Option<u32>
    ensures { result ≡ text_refusal what.now }
{
    let What::Symlink { text } = what else {
        return None;
    };
    if text.is_empty() {
        return Some(NFS4ERR_INVAL);
    }
    if text.len() > MOST_TEXT as usize {
        return Some(NFS4ERR_NAMETOOLONG);
    }
    None
}

/// What CREATE is to give a new node. Refused in this order: as the name is, as the values are, by NFS4ERR_INVAL of a
/// size and of a mode that isn't one, as the label is, and as the text of a link is.
///
/// # Errors
///
/// `AllocError` where there is no memory.
pub fn read_asked(
    alloc: Global,
    site: &Site<'_>,
    what: &What,
    name: &[u8],
    given: &RawAttrs,
) -> Result<Result<Asked, Refusal>, AllocError>
    ensures { IfOk result (λ told. result_map_both asked_of refusal_of told
        ≡ asked_in (site_of site.now) what.now name.now given.now) }
{
    if let Some(status) = name_refusal(name) {
        return Ok(Err(argument(status)));
    }
    let values = match values_of(alloc, given)? {
        Ok(values) => values,
        Err(why) => return Ok(Err(why)),
    };
    let AttrSet { size, mode, label } = values;
    if size.is_some() || !is_mode(mode) {
        return Ok(Err(argument(NFS4ERR_INVAL)));
    }
    let label = match label_of(site, label) {
        Ok(label) => label,
        Err(why) => return Ok(Err(why)),
    };
    match text_refusal(what) {
        Some(status) => Ok(Err(argument(status))),
        None => Ok(Ok(Asked { mode, label })),
    }
}
