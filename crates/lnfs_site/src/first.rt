//! What stands before all events.
ghost use Rattle.std.specs.Prelude.{◌≡◌, map, option_map, IfOk};
ghost use Rattle.lnfs_world.specs.Given.{stored_of, dir_of};
ghost use Rattle.lnfs_site.specs.Site.{first_label, first_dir};

use crate::site::Site;
use lnfs_calipso::Level;
use lnfs_policy::DirLine;
use lnfs_types::Octets;
use lnfs_world::{DirSpec, Stored};
use std::alloc::{AllocError, Global};

/// The label that a directory of a level bears as bytes, under a limited policy.
fn first_label(alloc: Global, site: &Site<'_>, level: Level) -> Result<Option<Stored>, AllocError>
    ensures { IfOk result (λ label. option_map stored_of label ≡ first_label site.now level.0) }
{
    if !site.is_limited() {
        return Ok(None);
    }
    let label = site.label(level);
    Ok(Some(Stored {
        lfs: label.lfs,
        pi: label.pi,
        bytes: Octets::from_slice(alloc, label.bytes.as_slice())?,
    }))
}

/// The directory of a line.
fn first_dir(alloc: Global, site: &Site<'_>, line: &DirLine) -> Result<DirSpec, AllocError>
    ensures { IfOk result (λ dir. dir_of dir ≡ first_dir site.now line.now) }
{
    let level = if site.is_limited() {
        Level(0)
    } else {
        line.level
    };
    Ok(DirSpec {
        path: Octets::from_slice(alloc, line.path.as_slice())?,
        level,
        stored: first_label(alloc, site, line.level)?,
    })
}

/// The directories that stand from the beginning, in the order of the policy.
///
/// # Errors
///
/// `AllocError` where there is no memory.
pub fn first_dirs(alloc: Global, site: &Site<'_>) -> Result<Vec<DirSpec>, AllocError>
    ensures { IfOk result (λ dirs. map dir_of dirs.items ≡ map (first_dir site.now) site.now.dirs) }
{
    let mut dirs = Vec::new(alloc);
    for line in site.policy().dirs() {
        dirs.push(first_dir(alloc, site, line)?)?;
    }
    Ok(dirs)
}

/// The label that the root bears as bytes: under a limited policy that of level 0, and otherwise none.
///
/// # Errors
///
/// `AllocError` where there is no memory.
pub fn root_label(alloc: Global, site: &Site<'_>) -> Result<Option<Stored>, AllocError>
    ensures { IfOk result (λ label. option_map stored_of label ≡ first_label site.now 0) }
{
    first_label(alloc, site, Level(0))
}
