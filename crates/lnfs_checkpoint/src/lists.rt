//! The lists of a server and its locks, made of rows.
ghost use Rattle.std.specs.Prelude.{◌≡◌, map, IfOk};
ghost use Rattle.lnfs_rows.specs.World.{world_of};
ghost use Rattle.lnfs_session.specs.Makes.{MakesClients};
ghost use Rattle.lnfs_session.specs.Standing as sessions;
ghost use Rattle.lnfs_tree.specs.Makes.{MakesTree};
ghost use Rattle.lnfs_tree.specs.Rows.{rows_of};
ghost use Rattle.lnfs_open.specs.Makes.{MakesOpens};
ghost use Rattle.lnfs_open.specs.Lists as opens;
ghost use Rattle.lnfs_gss3.specs.Makes.{MakesContexts};
ghost use Rattle.lnfs_gss3.specs.Contexts as contexts;
ghost use Rattle.lnfs_locking.specs.Makes.{MakesLocks};
ghost use Rattle.lnfs_lock_rows.specs.Told.{locks_told};
ghost use Rattle.lnfs_checkpoint.specs.Checkpoint.{IsFit};
ghost use Rattle.lnfs_checkpoint.specs.Made.{CanBeMade};

use lnfs_engine::Store;
use lnfs_further::{Further, with_locks};
use lnfs_gss3::Contexts;
use lnfs_lock_rows::LockRows;
use lnfs_locking::Locks;
use lnfs_open::Opens;
use lnfs_policy::Policy;
use lnfs_rows::Lists;
use lnfs_session::Clients;
use lnfs_tree::Tree;
use std::alloc::{AllocError, Global};

fn clients_of(alloc: Global, lists: &Lists<'_>) -> Result<Clients, AllocError>
    requires { MakesClients (sessions.lists_of (world_of lists.now)) }
    ensures { IfOk result (λ made. made ≡ sessions.lists_of (world_of lists.now)) }
{
    let lasts = &lists.lasts;
    Clients::from_rows(
        alloc,
        &lists.clients,
        &lists.sessions,
        &lasts.clients,
        &lasts.sessions,
    )
}

fn contexts_of(alloc: Global, lists: &Lists<'_>) -> Result<Contexts, AllocError>
    requires { MakesContexts (world_of lists.now).contexts (world_of lists.now).lasts.contexts }
    ensures { IfOk result (λ made. made ≡ contexts.lists_of (world_of lists.now)) }
{
    Contexts::from_rows(alloc, &lists.contexts, &lists.lasts.contexts)
}

fn tree_of(alloc: Global, lists: &Lists<'_>) -> Result<Tree, AllocError>
    requires { MakesTree (rows_of (world_of lists.now)) }
    ensures { IfOk result (λ made. made ≡ rows_of (world_of lists.now)) }
{
    Tree::from_rows(alloc, &lists.nodes, &lists.entries, &lists.lasts.nodes)
}

fn opens_of(alloc: Global, lists: &Lists<'_>) -> Result<Opens, AllocError>
    requires { MakesOpens (world_of lists.now).opens (world_of lists.now).lasts.opens }
    ensures { IfOk result (λ made. made ≡ opens.lists_of (world_of lists.now)) }
{
    Opens::from_rows(alloc, &lists.opens, &lists.lasts.opens)
}

/// A store of rows of which it can be made.
fn made_of(alloc: Global, lists: &Lists<'_>) -> Result<Store, AllocError>
    requires { CanBeMade (world_of lists.now) }
    ensures { IfOk result (λ made. made ≡ world_of lists.now) }
{
    let clients = clients_of(alloc, lists)?;
    let contexts = contexts_of(alloc, lists)?;
    let tree = tree_of(alloc, lists)?;
    let opens = opens_of(alloc, lists)?;
    Store::from_parts(alloc, clients, tree, opens, contexts, &lists.nodes)
}

/// Further operations with the locks of rows of which they can be made.
fn further_of(alloc: Global, rows: &LockRows<'_>) -> Result<Further, AllocError>
    requires { MakesLocks (locks_told rows.now) }
    ensures { IfOk result (λ made. made.first ≡ locks_told rows.now) }
{
    Ok(with_locks(Locks::from_rows(alloc, rows)?))
}

/// The store of a world, and further operations with the locks, that a server of a policy may have.
pub(crate) fn parts_of(
    alloc: Global,
    policy: &Policy,
    lists: &Lists<'_>,
    rows: &LockRows<'_>,
) -> Result<(Store, Further), AllocError>
    requires { IsFit policy.now (world_of lists.now) (locks_told rows.now) }
    ensures world { IfOk result (λ made. made.0 ≡ world_of lists.now) }
    ensures locks { IfOk result (λ made. made.1.first ≡ locks_told rows.now) }
{
    // A policy has few levels, and the numbers of its parents have 32 bits.
    policy.law_policy();
    let _levels = policy.lattice().len();
    Ok((made_of(alloc, lists)?, further_of(alloc, rows)?))
}
