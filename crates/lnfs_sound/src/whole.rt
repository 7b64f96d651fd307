//! Whether lists are the rows of a world that a server of a site may have.
ghost use Rattle.std.specs.Prelude.{◌≡◌, ◌↔◌, true, IfOk};
ghost use Rattle.lnfs_world.specs.Rows.{Rising};
ghost use Rattle.lnfs_world.specs.World.{id_order};
ghost use Rattle.lnfs_operations.specs.Bounds.{IsSound};
ghost use Rattle.lnfs_site.specs.Site.{site_of};
ghost use Rattle.lnfs_rows.specs.World.{world_of, AreOf};
ghost use Rattle.lnfs_fit.specs.Fits.{AreFit};
ghost use Rattle.lnfs_fit.specs.RowsOf.{ids_of, AreIdsOf};
ghost use Rattle.lnfs_sound.specs.Parts.{AreClients, AreSessions, AreContexts, AreOpens};

use crate::clients::{are_clients, ids_of_clients};
use crate::contexts::are_contexts;
use crate::nodes::ids_of_nodes;
use crate::opens::are_opens;
use crate::sessions::are_sessions;
use lnfs_fit::are_fit;
use lnfs_rows::{Id, Lasts, Lists};
use lnfs_site::Site;
use std::alloc::{AllocError, Global};

/// Whether there is a last number of each kind for each of so many levels.
fn lasts_are_of(levels: usize, lasts: &Lasts) -> bool
    ensures { (result ≡ true) ↔ AreOf levels lasts.now }
{
    lasts.clients.len() == levels
        && lasts.sessions.len() == levels
        && lasts.contexts.len() == levels
        && lasts.nodes.len() == levels
        && lasts.opens.len() == levels
}

fn clients_are(
    alloc: Global,
    site: &Site<'_>,
    lists: &Lists<'_>,
    ids: &[Id],
) -> Result<bool, AllocError>
    requires { AreIdsOf (λ c. c.id) (world_of lists.now).clients ids.now }
    ensures { IfOk result (λ sound. (sound ≡ true) ↔ AreClients (site_of site.now) lists.now.lasts.clients.items (world_of lists.now).clients) }
{
    are_clients(alloc, site, &lists.lasts.clients, ids, &lists.clients)
}

fn sessions_are(
    alloc: Global,
    site: &Site<'_>,
    lists: &Lists<'_>,
    ids: &[Id],
) -> Result<bool, AllocError>
    requires ids { AreIdsOf (λ c. c.id) (world_of lists.now).clients ids.now }
    requires rise { Rising id_order (ids_of ids.now) }
    ensures { IfOk result (λ sound. (sound ≡ true) ↔ AreSessions (site_of site.now) (world_of lists.now).clients lists.now.lasts.sessions.items (world_of lists.now).sessions) }
{
    are_sessions(
        alloc,
        site,
        &lists.lasts.sessions,
        ids,
        &lists.clients,
        &lists.sessions,
    )
}

fn contexts_are(alloc: Global, site: &Site<'_>, lists: &Lists<'_>) -> Result<bool, AllocError>
    ensures { IfOk result (λ sound. (sound ≡ true) ↔ AreContexts (site_of site.now) lists.now.lasts.contexts.items (world_of lists.now).contexts) }
{
    are_contexts(alloc, site, &lists.lasts.contexts, &lists.contexts)
}

fn nodes_are(
    alloc: Global,
    site: &Site<'_>,
    lists: &Lists<'_>,
    ids: &[Id],
) -> Result<bool, AllocError>
    requires { AreIdsOf (λ n. n.id) (world_of lists.now).nodes ids.now }
    ensures { IfOk result (λ sound. (sound ≡ true) ↔ AreFit (site_of site.now) lists.now.lasts.nodes.items (world_of lists.now).nodes (world_of lists.now).entries) }
{
    are_fit(
        alloc,
        site,
        &lists.lasts.nodes,
        ids,
        &lists.nodes,
        &lists.entries,
    )
}

fn opens_are(
    alloc: Global,
    site: &Site<'_>,
    lists: &Lists<'_>,
    ids: &[Id],
    node_ids: &[Id],
) -> Result<bool, AllocError>
    requires ids { AreIdsOf (λ c. c.id) (world_of lists.now).clients ids.now }
    requires rise { Rising id_order (ids_of ids.now) }
    requires nodes_rise { Rising id_order (ids_of node_ids.now) }
    ensures { IfOk result (λ sound. (sound ≡ true) ↔ AreOpens (site_of site.now) (world_of lists.now).clients (ids_of node_ids.now) lists.now.lasts.opens.items (world_of lists.now).opens) }
{
    are_opens(
        alloc,
        site,
        &lists.lasts.opens,
        ids,
        &lists.clients,
        node_ids,
        &lists.opens,
    )
}

/// The rest of what has to hold, with the identifiers of clients and nodes.
fn fit_by_ids(
    alloc: Global,
    site: &Site<'_>,
    lists: &Lists<'_>,
    ids: &[Id],
    node_ids: &[Id],
) -> Result<bool, AllocError>
    requires ids { AreIdsOf (λ c. c.id) (world_of lists.now).clients ids.now }
    requires node_ids { AreIdsOf (λ n. n.id) (world_of lists.now).nodes node_ids.now }
    ensures { IfOk result (λ sound. (sound ≡ true) ↔ IsSound (site_of site.now) (world_of lists.now)) }
{
    let clients = clients_are(alloc, site, lists, ids)?;
    if !clients {
        return Ok(false);
    }
    let sessions = sessions_are(alloc, site, lists, ids)?;
    if !sessions {
        return Ok(false);
    }
    let contexts = contexts_are(alloc, site, lists)?;
    if !contexts {
        return Ok(false);
    }
    let nodes = nodes_are(alloc, site, lists, node_ids)?;
    if !nodes {
        return Ok(false);
    }
    opens_are(alloc, site, lists, ids, node_ids)
}

fn sound_by_ids(alloc: Global, site: &Site<'_>, lists: &Lists<'_>) -> Result<bool, AllocError>
    ensures { IfOk result (λ sound. (sound ≡ true) ↔ IsSound (site_of site.now) (world_of lists.now)) }
{
    let ids = ids_of_clients(alloc, &lists.clients)?;
    let node_ids = ids_of_nodes(alloc, &lists.nodes)?;
    fit_by_ids(alloc, site, lists, &ids, &node_ids)
}

/// Whether lists are the rows of a world that a server of this site may have.
pub fn are_sound(alloc: Global, site: &Site<'_>, lists: &Lists<'_>) -> Result<bool, AllocError>
    ensures { IfOk result (λ sound. (sound ≡ true) ↔ AreOf (site_of site.now).levels lists.now.lasts × IsSound (site_of site.now) (world_of lists.now)) }
{
    if !lasts_are_of(site.levels() as usize, &lists.lasts) {
        return Ok(false);
    }
    sound_by_ids(alloc, site, lists)
}
