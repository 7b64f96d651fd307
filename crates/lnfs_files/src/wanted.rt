//! What is wanted of a file by the attributes that come with an OPEN (RFC 8881 section 18.16.3).
ghost use Rattle.std.specs.Prelude.{◌≡◌, IfOk, IfSome};
ghost use Rattle.std.specs.Option.{option_map};
ghost use Rattle.lnfs_world.specs.Outcome.{Place, Outcome};
ghost use Rattle.lnfs_site.specs.Site.{site_of};
ghost use Rattle.lnfs_operations.specs.Chain.{Answer};
ghost use Rattle.lnfs_operations.specs.Open as operation;
ghost use Rattle.lnfs_nodes.specs.Acts.{checked};
ghost use Rattle.lnfs_files.specs.Charges.{IsListed};
ghost use Rattle.lnfs_files.specs.Openings.{wanted_of, where_given};

use crate::asked::attrs_of;
use crate::listing::law_listed;
use crate::opened::law_words;
use lnfs_arguments::Making;
use lnfs_arguments::statuses::NFS4ERR_INVAL;
use lnfs_attrs::{AttrSet, Bitmap, RawAttrs};
use lnfs_nodes::{GivenLabel, argument, is_mode, label_of, set_of, values_of};
use lnfs_operations::Refusal;
use lnfs_site::Site;
use std::alloc::{AllocError, Global};

/// What is wanted of a file.
#[derive(Debug, Drop)]
pub struct Wanted {
    /// Whether a size of 0 was given.
    pub sized: bool,
    pub mode: Option<u32>,
    pub label: Option<GivenLabel>,
    /// All that were given.
    pub set: Bitmap,
}

/// Nothing.
fn nothing() -> Wanted
    ensures { wanted_of result ≡ operation.nothing_wanted }
{
    let set = Bitmap::empty();
    law_words(set);
    Wanted {
        sized: false,
        mode: None,
        label: None,
        set,
    }
}

/// Whether a size may be given: a file begins without bytes.
fn is_no_size(size: Option<u64>) -> bool
    ensures { result ≡ operation.is_no_size size }
{
    match size {
        Some(size) => size == 0,
        None => true,
    }
}

/// What is wanted by attributes. Refused in this order: as `values_of` does, by NFS4ERR_INVAL of a size above 0 and of a
/// mode that isn't one, and as `label_of` does.
///
/// # Errors
///
/// `AllocError` where there is no memory.
fn read_given(
    alloc: Global,
    site: &Site<'_>,
    given: &RawAttrs,
) -> Result<Result<Wanted, Refusal>, AllocError>
    ensures tests { IfOk result (λ told. (p : Place) (next : operation.Wanted →
        Outcome (Answer operation.Opened)) →
        where_given (site_of site.now) p given.now next
        ≡ checked p told (λ x. next (wanted_of x))) }
    ensures listed { IfOk result (λ told. IfOk told (λ wanted.
        IfSome wanted.label (λ given. IsListed given.level.0))) }
{
    // The call says that a label that is given is one of those that a policy may list.
    law_listed(site);
    let values = match values_of(alloc, given)? {
        Ok(values) => values,
        Err(why) => return Ok(Err(why)),
    };
    let AttrSet { size, mode, label } = values;
    if !is_no_size(size) || !is_mode(mode) {
        return Ok(Err(argument(NFS4ERR_INVAL)));
    }
    let label = match label_of(site, label) {
        Ok(label) => label,
        Err(why) => return Ok(Err(why)),
    };
    Ok(Ok(Wanted {
        sized: size.is_some(),
        mode,
        label,
        set: set_of(given),
    }))
}

/// What is wanted of a file, by how it is to be made. Refused as `read_given` does.
///
/// # Errors
///
/// `AllocError` where there is no memory.
pub fn read_wanted(
    alloc: Global,
    site: &Site<'_>,
    making: &Option<Making>,
) -> Result<Result<Wanted, Refusal>, AllocError>
    ensures tests { IfOk result (λ told. (p : Place) (next : operation.Wanted →
        Outcome (Answer operation.Opened)) →
        operation.where_wanted (site_of site.now) p making.now next
        ≡ checked p told (λ x. next (wanted_of x))) }
    ensures listed { IfOk result (λ told. IfOk told (λ wanted.
        IfSome wanted.label (λ given. IsListed given.level.0))) }
{
    match making {
        Some(making) => read_given(alloc, site, attrs_of(making)),
        None => Ok(Ok(nothing())),
    }
}
