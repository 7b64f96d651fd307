//! CLOSE (RFC 8881 section 18.2).
ghost use Rattle.std.specs.Prelude.{◌≡◌, [], ◌∷◌};
ghost use Rattle.lnfs_world.specs.World.{Node, World};
ghost use Rattle.lnfs_world.specs.Change.{EndOpen};
ghost use Rattle.lnfs_world.specs.Outcome.{Place};
ghost use Rattle.lnfs_operations.specs.Chain.{done};
ghost use Rattle.lnfs_operations.specs.StateIds.{where_open};
ghost use Rattle.lnfs_operations.specs.Close as operation;
ghost use Rattle.lnfs_tree.specs.Rows.{Rows, id_of};
ghost use Rattle.lnfs_nodes.specs.Acts.{placed};
ghost use Rattle.lnfs_files.specs.Worlds.{with_files};
ghost use Rattle.lnfs_files.specs.Acts.{Acts};

use crate::references::{node_key, refer, refused_by};
use crate::state_ids::meaning;
use lnfs_arguments::StateId;
use lnfs_nodes::{Caller, node_held};
use lnfs_open::{OpenError, Opens};
use lnfs_operations::Refusal;
use lnfs_tree::{NodeId, Tree};

/// Ends the open of a node that a state id names.
///
/// # Errors
///
/// NFS4ERR_BAD_STATEID and NFS4ERR_OLD_STATEID where it doesn't name one of the client and the node in its present state.
fn end_open(
    opens: &mut Opens,
    caller: &Caller,
    client: Option<u32>,
    node: NodeId,
    id: &StateId,
) -> Result<(), Refusal>
    ensures { (p : Place) (rest : World) (t : Rows) (n : Node) → p.client ≡ client →
        id_of node ≡ n.id →
        let at = placed p caller.now in
        Acts (λ it. it) at rest t t opens.old opens.new
        (where_open at (with_files rest t opens.old) n id.now (λ o.
        done at tt (EndOpen o.id ∷ []))) result }
{
    let open = refer(opens, caller.subject, client, id)?;
    match opens.close(open.client, node_key(node), open.id) {
        Ok(()) => Ok(()),
        Err(error) => Err(refused_by(error)),
    }
}

/// Ends the open of the current file that a state id names.
///
/// # Errors
///
/// In this order: NFS4ERR_NOFILEHANDLE and NFS4ERR_STALE of the current file handle; NFS4ERR_BAD_STATEID of a state id with
/// a meaning of its own, and of one that names no open of the client and the file; NFS4ERR_OLD_STATEID of one of an
/// earlier state.
pub fn close(
    tree: &Tree,
    opens: &mut Opens,
    caller: &Caller,
    client: Option<u32>,
    id: &StateId,
) -> Result<(), Refusal>
    ensures acts { (p : Place) (rest : World) → p.client ≡ client →
        let at = placed p caller.now in
        Acts (λ it. it) at rest tree.now tree.now opens.old opens.new
        (operation.close id.now at (with_files rest tree.now opens.old)) result }
{
    let held = node_held(tree, caller.current)?;
    if meaning(id).is_some() {
        return Err(refused_by(OpenError::Bad));
    }
    end_open(opens, caller, client, held.id, id)
}
