//! The last number that each level was given, and the order of opens.
ghost use Rattle.std.specs.Prelude.{◌≡◌, ◌<◌, None, find};
ghost use Rattle.lnfs_world.specs.Rows.{Rising};
ghost use Rattle.lnfs_world.specs.World.{Id, last_of, open_order, same_id};

use crate::opens::Opens;
use lnfs_calipso::Level;
use lnfs_counts::last_given;

impl Opens {
    /// The last number that a level was given: before the first, 0. No open of the level has one above it.
    pub fn last_number(&self, level: Level) -> u32
        ensures value { result ≡ last_of level.0 self.now.lasts }
        ensures most { (i : Id) → i.level ≡ level.0 → result < i.number →
            find (λ o. same_id i o.id) self.now.opens ≡ None }
    {
        last_given(&self.counters, level.0)
    }

    /// Opens are in the order of their identifiers, so that no two have the same.
    pub fn law_order(&self)
        ensures { Rising open_order self.now.opens }
    {
        let _ = &self.rows;
    }
}
