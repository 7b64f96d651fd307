//! What opens are found by: their nodes, their clients, and both with the name of the owner.
ghost use Rattle.std.specs.Prelude.{◌≡◌, ℕ, false, None, List, OnOk, OnErr};
ghost use Rattle.lnfs_world.specs.World.{Id};
ghost use Rattle.lnfs_open.specs.Listed.{id_of};
ghost use Rattle.lnfs_open.specs.Groups.{holds};
ghost use Rattle.lnfs_open.specs.Owners.{number_at};
ghost use Rattle.lnfs_open.specs.Finding.{IsEntered, IsLeft, FindSame, Filed, filed_of};

use crate::groups::Groups;
use crate::keys::Key;
use crate::owners::{Matter, Owners};
use std::alloc::{AllocError, Global};

/// What an open is found by.
#[derive(Clone, Copy)]
pub struct Filing<'a> {
    pub id: Key,
    pub client: Key,
    pub node: Key,
    pub owner: &'a [u8],
}

/// The opens of each node, those of each client, and the number of each by all that it is found by.
#[derive(Drop)]
pub struct Finder {
    pub nodes: Groups,
    pub clients: Groups,
    pub owners: Owners,
}

/// The client and the node of an open.
fn matter_of(filing: &Filing<'_>) -> Matter
    ensures client { result.client ≡ filing.now.client }
    ensures node { result.node ≡ filing.now.node }
{
    Matter {
        client: filing.client,
        node: filing.node,
    }
}

impl Finder {
    /// No open is found. Takes no memory.
    pub fn new(alloc: Global) -> Finder
        ensures nodes { (node i : Id) → holds result.nodes node i ≡ false }
        ensures clients { (client i : Id) → holds result.clients client i ≡ false }
        ensures numbers { (client node : Id) (name : List ℕ) →
            number_at result.owners client node name ≡ None }
    {
        Finder {
            nodes: Groups::new(alloc),
            clients: Groups::new(alloc),
            owners: Owners::new(alloc),
        }
    }

    /// Enters a new open. Where memory is wanting, what was begun is taken back.
    pub fn enter(&mut self, alloc: Global, filing: &Filing<'_>) -> Result<(), AllocError>
        requires node { holds self.old.nodes (id_of filing.now.node) (id_of filing.now.id) ≡ false }
        requires client { holds self.old.clients (id_of filing.now.client) (id_of filing.now.id)
            ≡ false }
        ensures entered { OnOk result (IsEntered (filed_of filing.now) self.old self.new) }
        ensures kept { OnErr result (FindSame self.old self.new) }
    {
        self.nodes.enter(filing.node, filing.id)?;
        if let Err(wanting) = self.clients.enter(filing.client, filing.id) {
            self.nodes.leave(filing.node, filing.id);
            return Err(wanting);
        }
        let entered = self
            .owners
            .enter(alloc, matter_of(filing), filing.owner, filing.id.number);
        if let Err(wanting) = entered {
            self.clients.leave(filing.client, filing.id);
            self.nodes.leave(filing.node, filing.id);
            return Err(wanting);
        }
        Ok(())
    }

    /// Takes out an open.
    pub fn leave(&mut self, filing: &Filing<'_>)
        ensures { IsLeft (filed_of filing.now) self.old self.new }
    {
        self.owners.leave(matter_of(filing), filing.owner);
        self.clients.leave(filing.client, filing.id);
        self.nodes.leave(filing.node, filing.id);
    }
}
