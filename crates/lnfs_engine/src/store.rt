//! The rows of the world.
ghost use Rattle.std.specs.Prelude.{◌≡◌, IfOk};
ghost use Rattle.std.specs.List.{AllByRecursion};
ghost use Rattle.lnfs_world.specs.Usage.{nodes_used, bytes_used, bytes_of};
ghost use Rattle.lnfs_quota.specs.Totals.{IsInBounds, AreTotals};
ghost use Rattle.lnfs_session.specs.Standing as sessions;
ghost use Rattle.lnfs_tree.specs.Rows.{rows_of};
ghost use Rattle.lnfs_open.specs.Lists as opens;
ghost use Rattle.lnfs_gss3.specs.Contexts.{has_context, ended};
ghost use Rattle.lnfs_engine.specs.Stores.{only_tree};
ghost use Rattle.lnfs_engine.specs.Contexts.{MakesContext, without_context};

use crate::counted::counted;
use lnfs_calipso::Level;
use lnfs_gss3::{ContextError, Contexts};
use lnfs_open::Opens;
use lnfs_quota::Quota;
use lnfs_session::Clients;
use lnfs_tree::Tree;
use std::alloc::{AllocError, Global};
use std::marker::Model;

/// Clients with their sessions, nodes with their names, opens, contexts, and what each level uses. Its value is the world of
/// their rows.
#[derive(Drop)]
pub struct Store {
    pub(crate) clients: Clients,
    pub(crate) tree: Tree,
    pub(crate) opens: Opens,
    pub(crate) contexts: Contexts,
    pub(crate) quota: Quota,
}

impl Model for Store {
    ghost use Rattle.lnfs_world.specs.World.{World};
    ghost use Rattle.lnfs_quota.specs.Totals.{AreTotals};
    ghost use Rattle.lnfs_engine.specs.Stores.{stored};

    ghost Value = { World };

    ghost view = { λ s. stored s.clients s.tree s.opens s.contexts };

    ghost invariant = { λ s. AreTotals s.quota s.tree.nodes };
}

impl Store {
    /// The nodes of a tree without bytes, no client, no open and no context. What each level uses is counted. The homes and
    /// the labels are levels that a policy may list.
    ///
    /// # Errors
    ///
    /// `AllocError` where there is no memory.
    pub fn new(alloc: Global, tree: Tree) -> Result<Store, AllocError>
        requires empty { AllByRecursion (λ n. bytes_of n n.kind ≡ 0) tree.nodes }
        requires bounds { AllByRecursion IsInBounds tree.nodes }
        ensures { IfOk result (λ store. store ≡ only_tree tree) }
    {
        let quota = counted(alloc, &tree)?;
        Ok(Store {
            clients: Clients::new(alloc),
            tree,
            opens: Opens::new(alloc),
            contexts: Contexts::new(alloc),
            quota,
        })
    }

    /// The clients with their sessions.
    pub fn clients(&self) -> &Clients
        ensures { result.now ≡ sessions.lists_of self.now }
    {
        &self.clients
    }

    /// The nodes with their names.
    pub fn tree(&self) -> &Tree
        ensures { result.now ≡ rows_of self.now }
    {
        &self.tree
    }

    /// The opens.
    pub fn opens(&self) -> &Opens
        ensures { result.now ≡ opens.lists_of self.now }
    {
        &self.opens
    }

    /// What each level uses.
    pub fn quota(&self) -> &Quota
        ensures { AreTotals result.now self.now.nodes }
    {
        &self.quota
    }

    /// What a level uses: the nodes whose home it is, then the bytes of the files whose label it is.
    pub fn used(&self, level: Level) -> (u64, u64)
        ensures nodes { result.0 ≡ nodes_used self.now.nodes level.0 }
        ensures bytes { result.1 ≡ bytes_used self.now.nodes level.0 }
    {
        self.quota.used(level)
    }

    /// Whether a level has a context of a number under a parent.
    pub fn has_context(&self, level: Level, parent: u32, number: u64) -> bool
        ensures { result ≡ has_context self.now.contexts level.0 parent number }
    {
        self.contexts.find(level, parent, number)
    }

    /// Makes a context of a level under a parent, and answers its number, the next of the level.
    ///
    /// # Errors
    ///
    /// `Full` where the level has 1,024 contexts or was given its last number. `Memory` where there is no memory. Either
    /// leaves all as it was.
    pub fn make_context(&mut self, level: Level, parent: u32) -> Result<u64, ContextError>
        ensures { MakesContext level.0 parent self.old self.new result }
    {
        self.contexts.create(level, parent)
    }

    /// Ends a context of a level and a parent. Takes no memory.
    ///
    /// # Errors
    ///
    /// `Unknown` where `has_context` tells that it isn't there. Nothing has changed then.
    pub fn end_context(
        &mut self,
        level: Level,
        parent: u32,
        number: u64,
    ) -> Result<(), ContextError>
        ensures answer { result ≡ ended (has_context self.old.contexts level.0 parent number) }
        ensures world { self.new ≡ without_context
            (has_context self.old.contexts level.0 parent number) level.0 number self.old }
    {
        self.contexts.destroy(level, parent, number)
    }
}
