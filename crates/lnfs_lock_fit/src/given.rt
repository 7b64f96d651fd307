//! Identifiers and last numbers.
ghost use Rattle.std.specs.Prelude.{◌≡◌, ◌↔◌, true};
ghost use Rattle.lnfs_world.specs.World.{is_given};
ghost use Rattle.lnfs_site.specs.Site.{site_of};
ghost use Rattle.lnfs_operations.specs.Sizes.{is_level};
ghost use Rattle.lnfs_operations.specs.Bounds.{IsGivenBy};
ghost use Rattle.lnfs_rows.specs.Told.{id_of};
ghost use Rattle.lnfs_rows.specs.Lasts.{given_of};

use lnfs_rows::Id;
use lnfs_site::Site;
use lnfs_world::numbers::LAST_NUMBER;

/// Whether a level is one of the site.
fn is_level(site: &Site<'_>, level: u32) -> bool
    ensures { result ≡ is_level (site_of site.now) level }
{
    if site.is_limited() {
        level == 0
    } else {
        level < site.levels()
    }
}

/// Whether an identifier is of a level of the site, under a number that can be given.
pub(crate) fn is_of_site(site: &Site<'_>, id: Id) -> bool
    ensures { (result ≡ true) ↔ IsGivenBy (site_of site.now) (id_of id) }
{
    is_level(site, id.level) && 1 <= id.number && id.number <= LAST_NUMBER as u64
}

/// Whether an identifier isn't above the last number of its level.
pub(crate) fn was_given(last: &[u64], id: Id) -> bool
    ensures { result ≡ is_given (given_of last.now) (id_of id) }
{
    let level = id.level as usize;
    if level < last.len() {
        id.number <= last[level]
    } else {
        id.number == 0
    }
}
