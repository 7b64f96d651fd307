//! Identifiers of nodes.
ghost use Rattle.std.specs.Prelude.{◌≡◌, ◌<◌, length, IfOk};
ghost use Rattle.lnfs_rows.specs.Told.{id_of};
ghost use Rattle.lnfs_fit.specs.Places.{nth_node};
ghost use Rattle.lnfs_fit.specs.RowsOf.{nodes_of, AreIdsOf};

use lnfs_rows::{Id, NodeRow};
use std::alloc::{AllocError, Global};

fn id_at(rows: &[NodeRow<'_>], place: usize) -> Id
    requires { place < length rows.now }
    ensures { id_of result ≡ (nth_node (nodes_of rows.now) place).id }
{
    rows[place].id
}

/// The identifiers of nodes, in their order.
pub(crate) fn ids_of_nodes(alloc: Global, rows: &[NodeRow<'_>]) -> Result<Vec<Id>, AllocError>
    ensures { IfOk result (λ ids. AreIdsOf (λ n. n.id) (nodes_of rows.now) ids.items) }
{
    let mut ids = Vec::with_capacity(alloc, rows.len())?;
    for place in 0..rows.len() {
        ids.push(id_at(rows, place))?;
    }
    Ok(ids)
}
