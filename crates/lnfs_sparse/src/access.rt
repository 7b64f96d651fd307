//! The time of access of a file that is read.
ghost use Rattle.std.specs.Prelude.{◌≡◌, Some};
ghost use Rattle.lnfs_world.specs.World.{Node, node_at};
ghost use Rattle.lnfs_world.specs.Change.{apply_all};
ghost use Rattle.lnfs_operations.specs.Accessed.{accessed};
ghost use Rattle.lnfs_operations.specs.Extra.{place_at};
ghost use Rattle.lnfs_tree.specs.Rows.{id_of};
ghost use Rattle.lnfs_engine.specs.Further.{spot_of};

use lnfs_calipso::Level;
use lnfs_engine::{Spot, Store};
use lnfs_tree::NodeId;

/// Sets it where the subject's level is the label: whoever reads from above leaves no trace.
pub fn set_read(store: &mut Store, at: &Spot<'_>, id: NodeId, label: Level)
    ensures { (n : Node) → id_of id ≡ n.id → label.0 ≡ n.label → node_at store.old.nodes n.id ≡ Some n →
        store.new ≡ apply_all (accessed (place_at (spot_of at.now)) n) store.old }
{
    if at.subject == label {
        store.touch(id, at.moment);
    }
}
