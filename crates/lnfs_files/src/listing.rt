//! The levels of labels that are given.
ghost use Rattle.std.specs.Prelude.{◌≡◌, ℕ};
ghost use Rattle.lnfs_world.specs.World.{Stored};
ghost use Rattle.lnfs_world.specs.Outcome.{LevelOf};
ghost use Rattle.lnfs_site.specs.Site.{site_of};
ghost use Rattle.lnfs_files.specs.Charges.{IsListed};

use lnfs_site::Site;

/// A label that is read is that of a level that a policy may list.
pub fn law_listed(site: &Site<'_>)
    ensures { (spelled : Stored) (level : ℕ) → (site_of site.now).reading spelled ≡ LevelOf level →
        IsListed level }
{
    // The call says how many levels there are at most.
    let _levels = site.policy().lattice().len();
}
