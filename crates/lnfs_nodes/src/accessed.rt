//! The time of access.
ghost use Rattle.std.specs.Prelude.{◌≡◌};
ghost use Rattle.lnfs_world.specs.World.{Node, World};
ghost use Rattle.lnfs_world.specs.Change.{apply_all};
ghost use Rattle.lnfs_world.specs.Outcome.{Place};
ghost use Rattle.lnfs_operations.specs.Accessed.{accessed};
ghost use Rattle.lnfs_nodes.specs.Trees.{with_tree, Holds};

use crate::held::Held;
use lnfs_calipso::Level;
use lnfs_tree::Tree;
use lnfs_types::Moment;

/// Sets the time of access of a node that was read, where the subject is at its label: whoever reads from above leaves
/// no trace.
pub fn set_accessed(tree: &mut Tree, subject: Level, moment: Moment, held: &Held)
    ensures { (n : Node) (p : Place) (rest : World) → Holds tree.old n held.now →
        with_tree rest tree.new
        ≡ apply_all (accessed (record p { subject = subject.0; moment = moment }) n)
        (with_tree rest tree.old) }
{
    if subject == held.facts.label {
        // The node is there, so that there is no error.
        let _done = tree.touch(held.id, moment);
    }
}
