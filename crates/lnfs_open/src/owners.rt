//! The numbers of opens, by the client, the node and the name of the owner. A name has its own ordered map of clients and
//! nodes, so that it is read as it comes.
ghost use Rattle.std.specs.Prelude.{◌≡◌, ◌&&◌, ℕ, List, None, Some, OnOk, OnErr, IsSome, cond};
ghost use Rattle.std.specs.Str.{bytes_eq};
ghost use Rattle.lnfs_world.specs.World.{Id, same_id};
ghost use Rattle.lnfs_open.specs.Listed.{id_of};
ghost use Rattle.lnfs_open.specs.Owners.{number_at, numbers_of};

use crate::keys::Key;
use std::alloc::{AllocError, Global};
use std::collections::BTreeMap;

/// What an owner has open: a client, and a node.
#[derive(Clone, Copy, Debug, PartialEq, Eq, PartialOrd, Ord)]
pub struct Matter {
    pub client: Key,
    pub node: Key,
}

/// The numbers of opens. Those of one name are kept together.
#[derive(Drop)]
pub struct Owners {
    numbers: BTreeMap<Vec<u8>, BTreeMap<Matter, u32>>,
}

impl Owners {
    /// No number. Takes no memory.
    pub fn new(alloc: Global) -> Owners
        ensures { (client node : Id) (name : List ℕ) → number_at result client node name ≡ None }
    {
        Owners {
            numbers: BTreeMap::new(alloc),
        }
    }

    /// The number of a client's open of a node under a name.
    pub fn number(&self, matter: Matter, name: &[u8]) -> Option<u32>
        ensures { result ≡ number_at self.now (id_of matter.client) (id_of matter.node) name.now }
    {
        match self.numbers.get(name) {
            Some(numbers) => numbers.get(&matter).copied(),
            None => None,
        }
    }

    /// Makes the map of a name, where there is none.
    fn make_place(&mut self, alloc: Global, name: &[u8]) -> Result<(), AllocError>
        ensures same { (c n : Id) (o : List ℕ) → number_at self.new c n o
            ≡ number_at self.old c n o }
        ensures place { OnOk result (IsSome (numbers_of self.new name.now)) }
    {
        if self.numbers.contains_key(name) {
            return Ok(());
        }
        self.numbers
            .insert(Vec::from_slice(alloc, name)?, BTreeMap::new(alloc))?;
        Ok(())
    }

    /// Takes back the map of a name, where it has no number.
    fn free_place(&mut self, name: &[u8])
        ensures { (c n : Id) (o : List ℕ) → number_at self.new c n o ≡ number_at self.old c n o }
    {
        let Some(numbers) = self.numbers.get(name) else {
            return;
        };
        if numbers.is_empty() {
            self.numbers.remove(name);
        }
    }

    /// Sets a number in the map of a name.
    fn put(&mut self, matter: Matter, name: &[u8], number: u32) -> Result<(), AllocError>
        requires { IsSome (numbers_of self.old name.now) }
        ensures put { OnOk result ((c n : Id) (o : List ℕ) →
            number_at self.new c n o
            ≡ cond ((same_id (id_of matter.client) c && same_id (id_of matter.node) n)
            && bytes_eq name.now o) (Some number) (number_at self.old c n o)) }
        ensures kept { OnErr result ((c n : Id) (o : List ℕ) →
            number_at self.new c n o ≡ number_at self.old c n o) }
    {
        let Some(numbers) = self.numbers.get_mut(name) else {
            return Ok(());
        };
        numbers.insert(matter, number)?;
        Ok(())
    }

    /// Takes a number out of the map of a name.
    fn take(&mut self, matter: Matter, name: &[u8])
        ensures { (c n : Id) (o : List ℕ) → number_at self.new c n o
            ≡ cond ((same_id (id_of matter.client) c && same_id (id_of matter.node) n)
            && bytes_eq name.now o) None (number_at self.old c n o) }
    {
        let Some(numbers) = self.numbers.get_mut(name) else {
            return;
        };
        numbers.remove(&matter);
    }

    /// Enters the number of a client's open of a node under a name.
    pub fn enter(
        &mut self,
        alloc: Global,
        matter: Matter,
        name: &[u8],
        number: u32,
    ) -> Result<(), AllocError>
        ensures entered { OnOk result ((c n : Id) (o : List ℕ) →
            number_at self.new c n o
            ≡ cond ((same_id (id_of matter.client) c && same_id (id_of matter.node) n)
            && bytes_eq name.now o) (Some number) (number_at self.old c n o)) }
        ensures kept { OnErr result ((c n : Id) (o : List ℕ) →
            number_at self.new c n o ≡ number_at self.old c n o) }
    {
        self.make_place(alloc, name)?;
        let put = self.put(matter, name, number);
        if put.is_err() {
            self.free_place(name);
        }
        put
    }

    /// Takes out the number of a client's open of a node under a name.
    pub fn leave(&mut self, matter: Matter, name: &[u8])
        ensures { (c n : Id) (o : List ℕ) → number_at self.new c n o
            ≡ cond ((same_id (id_of matter.client) c && same_id (id_of matter.node) n)
            && bytes_eq name.now o) None (number_at self.old c n o) }
    {
        self.take(matter, name);
        self.free_place(name);
    }
}
