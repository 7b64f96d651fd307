//! A state of parts that are made already.
ghost use Rattle.std.specs.Prelude.{◌≡◌, map, IfOk};
ghost use Rattle.std.specs.List.{AllByRecursion};
ghost use Rattle.lnfs_world.specs.Rows.{Rising};
ghost use Rattle.lnfs_world.specs.World.{node_order};
ghost use Rattle.lnfs_rows.specs.Told.{node_of};
ghost use Rattle.lnfs_gss3.specs.Contexts as contexts;
ghost use Rattle.lnfs_quota.specs.Totals.{IsInBounds, AreTotals};
ghost use Rattle.lnfs_engine.specs.Stores.{stored};

use crate::engine::Engine;
use crate::extra::Extra;
use crate::store::Store;
use lnfs_gss3::Contexts;
use lnfs_open::Opens;
use lnfs_quota::Quota;
use lnfs_rows::NodeRow;
use lnfs_session::Clients;
use lnfs_tree::Tree;
use std::alloc::{AllocError, Global};

/// What each level uses of a tree whose nodes are given.
fn counted_rows(alloc: Global, tree: &Tree, nodes: &[NodeRow<'_>]) -> Result<Quota, AllocError>
    requires rows { map node_of nodes.now ≡ tree.now.nodes }
    requires rising { Rising node_order tree.now.nodes }
    requires bounds { AllByRecursion IsInBounds tree.now.nodes }
    ensures { IfOk result (λ quota. AreTotals quota tree.now.nodes) }
{
    Quota::counted(alloc, nodes)
}

impl Store {
    /// A store of parts that are made already. What each level uses is counted of the nodes of the tree, which are given.
    ///
    /// # Errors
    ///
    /// `AllocError` where there is no memory.
    pub fn from_parts(
        alloc: Global,
        clients: Clients,
        tree: Tree,
        opens: Opens,
        contexts: Contexts,
        nodes: &[NodeRow<'_>],
    ) -> Result<Store, AllocError>
        requires rows { map node_of nodes.now ≡ tree.nodes }
        requires rising { Rising node_order tree.nodes }
        requires bounds { AllByRecursion IsInBounds tree.nodes }
        ensures { IfOk result (λ store. store ≡ stored clients tree opens contexts) }
    {
        let quota = counted_rows(alloc, &tree, nodes)?;
        Ok(Store {
            clients,
            tree,
            opens,
            contexts,
            quota,
        })
    }

    /// The contexts.
    pub fn contexts(&self) -> &Contexts
        ensures { result.now ≡ contexts.lists_of self.now }
    {
        &self.contexts
    }
}

impl<X: Extra> Engine<X> {
    /// The state of parts that are made already. Takes no memory.
    pub fn from_parts(alloc: Global, store: Store, extra: X) -> Engine<X>
        ensures store { result.store ≡ store }
        ensures extra { result.extra ≡ extra }
    {
        Engine {
            alloc,
            store,
            extra,
        }
    }
}
