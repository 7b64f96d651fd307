//! The open under which a new lock owner asks for a lock (RFC 8881 section 18.10.3).
ghost use Rattle.std.specs.Prelude.{◌≡◌};
ghost use Rattle.lnfs_world.specs.World.{Node};
ghost use Rattle.lnfs_operations.specs.Extra.{place_at};
ghost use Rattle.lnfs_tree.specs.Rows.{id_of};
ghost use Rattle.lnfs_engine.specs.Further.{spot_of};
ghost use Rattle.lnfs_byte_locks.specs.Openings.{FindsOpen};

use lnfs_arguments::StateId;
use lnfs_engine::{Spot, Store};
use lnfs_files::{meaning, node_key, refer, refused_by};
use lnfs_open::{OpenError, OpenRow};
use lnfs_operations::Refusal;
use lnfs_tree::NodeId;

/// An open that is there, and its number in the subject's level.
#[derive(Clone, Copy)]
pub struct Opened<'a> {
    pub number: u32,
    pub row: &'a OpenRow,
}

/// The open that a state id names, of the client under which the operation came and of a node.
///
/// # Errors
///
/// In this order: NFS4ERR_BAD_STATEID of a state id with a meaning of its own, where it was given in another level than the
/// subject's, where there is no open of its number, the client and the node, and of a sequence that wasn't given yet;
/// NFS4ERR_OLD_STATEID of one of an earlier state.
pub fn opening_named<'a>(
    store: &'a Store,
    at: &Spot<'_>,
    node: NodeId,
    id: &StateId,
) -> Result<Opened<'a>, Refusal>
    ensures { (n : Node) → id_of node ≡ n.id →
        FindsOpen (place_at (spot_of at.now)) store.now n id.now result }
{
    if meaning(id).is_some() {
        return Err(refused_by(OpenError::Bad));
    }
    let opens = store.opens();
    let named = refer(opens, at.subject, at.client, id)?;
    match opens.find(named.client, node_key(node), named.id) {
        Ok(row) => Ok(Opened {
            number: named.id.number,
            row,
        }),
        Err(error) => Err(refused_by(error)),
    }
}
