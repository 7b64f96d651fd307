//! Locks in groups, those of a node in each, found by the group.
ghost use Rattle.std.specs.Prelude.{◌≡◌, ◌&&◌, ◌||◌, not, true, false, OnOk, OnErr};
ghost use Rattle.lnfs_world.specs.World.{Id, same_id};
ghost use Rattle.lnfs_locking.specs.Keys.{id_of};
ghost use Rattle.lnfs_locking.specs.Groups.{holds};

use crate::keys::Key;
use std::alloc::{AllocError, Global};
use std::collections::BTreeMap;

/// A lock in its group.
#[derive(Clone, Copy, Debug, PartialEq, Eq, PartialOrd, Ord)]
pub struct Place {
    pub group: Key,
    pub id: Key,
}

/// Locks in groups. Those of a group lie beside each other.
#[derive(Drop)]
pub struct Groups {
    pub places: BTreeMap<Place, ()>,
}

/// The place before all of a group.
pub fn front(group: Key) -> Place
    ensures { result ≡ record { group = group; id = record { level = 0; number = 0 } } }
{
    Place {
        group,
        id: Key {
            level: 0,
            number: 0,
        },
    }
}

impl Groups {
    /// No lock in any group. Takes no memory.
    pub fn new(alloc: Global) -> Groups
        ensures { (group i : Id) → holds result group i ≡ false }
    {
        Groups {
            places: BTreeMap::new(alloc),
        }
    }

    /// Puts a lock in a group.
    pub fn enter(&mut self, group: Key, id: Key) -> Result<(), AllocError>
        ensures entered { OnOk result ((g i : Id) → holds self.new g i ≡ (same_id (id_of group) g && same_id (id_of id) i || holds self.old g i)) }
        ensures kept { OnErr result ((g i : Id) → holds self.new g i ≡ holds self.old g i) }
    {
        self.places.insert(Place { group, id }, ())?;
        Ok(())
    }

    /// Takes a lock out of a group.
    pub fn leave(&mut self, group: Key, id: Key)
        ensures { (g i : Id) → holds self.new g i ≡ (not (same_id (id_of group) g && same_id (id_of id) i) && holds self.old g i) }
    {
        self.places.remove(&Place { group, id });
    }
}
