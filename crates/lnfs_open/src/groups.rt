//! Opens in groups, as those of a node, found by the group.
ghost use Rattle.std.specs.Prelude.{◌≡◌, ◌&&◌, ◌||◌, not, true, false, IfSome, IfNone, OnOk, OnErr};
ghost use Rattle.lnfs_world.specs.World.{Id, same_id};
ghost use Rattle.lnfs_open.specs.Listed.{id_of};
ghost use Rattle.lnfs_open.specs.Groups.{holds};

use crate::keys::Key;
use std::alloc::{AllocError, Global};
use std::collections::BTreeMap;

/// An open in its group.
#[derive(Clone, Copy, Debug, PartialEq, Eq, PartialOrd, Ord)]
pub struct Member {
    pub group: Key,
    pub id: Key,
}

/// Opens in groups. Those of a group lie beside each other.
#[derive(Drop)]
pub struct Groups {
    pub places: BTreeMap<Member, ()>,
}

/// The place before all of a group.
pub fn front(group: Key) -> Member
    ensures { result ≡ record { group = group; id = record { level = 0; number = 0 } } }
{
    Member {
        group,
        id: Key {
            level: 0,
            number: 0,
        },
    }
}

impl Groups {
    /// No open in any group. Takes no memory.
    pub fn new(alloc: Global) -> Groups
        ensures { (group i : Id) → holds result group i ≡ false }
    {
        Groups {
            places: BTreeMap::new(alloc),
        }
    }

    /// Puts an open in a group.
    pub fn enter(&mut self, group: Key, id: Key) -> Result<(), AllocError>
        ensures entered { OnOk result ((g i : Id) →
            holds self.new g i ≡ (same_id (id_of group) g && same_id (id_of id) i
            || holds self.old g i)) }
        ensures kept { OnErr result ((g i : Id) → holds self.new g i ≡ holds self.old g i) }
    {
        self.places.insert(Member { group, id }, ())?;
        Ok(())
    }

    /// Takes an open out of a group.
    pub fn leave(&mut self, group: Key, id: Key)
        ensures { (g i : Id) → holds self.new g i
            ≡ (not (same_id (id_of group) g && same_id (id_of id) i) && holds self.old g i) }
    {
        self.places.remove(&Member { group, id });
    }

    /// The first open of a group.
    pub fn first(&self, group: Key) -> Option<Key>
        ensures some { IfSome result (λ id. holds self.now (id_of group) (id_of id) ≡ true) }
        ensures none { IfNone result ((i : Id) → holds self.now (id_of group) i ≡ false) }
    {
        let (place, ()) = self.places.range(front(group)..).next()?;
        if place.group != group {
            return None;
        }
        Some(place.id)
    }
}
