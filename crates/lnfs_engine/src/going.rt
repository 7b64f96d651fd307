//! What goes with a node: its opens, and what its level is charged for it.
ghost use Rattle.std.specs.Prelude.{◌≡◌, List};
ghost use Rattle.std.specs.Option.{option_map};
ghost use Rattle.lnfs_world.specs.World.{Node};
ghost use Rattle.lnfs_tree.specs.Rows.{id_of};
ghost use Rattle.lnfs_tree.specs.Changed.{gone_of};
ghost use Rattle.lnfs_open.specs.Listed.{node_id};
ghost use Rattle.lnfs_quota.specs.Totals.{AreTotals};
ghost use Rattle.lnfs_engine.specs.Counts.{IsHeld, WentFrom};
ghost use Rattle.lnfs_engine.specs.Stores.{opens_without};

use lnfs_files::credit;
use lnfs_nodes::gone_bytes;
use lnfs_open::{NodeKey, Opens};
use lnfs_quota::Quota;
use lnfs_tree::{Dropped, NodeId};

/// A node, as the opens name it.
fn key_of(node: NodeId) -> NodeKey
    ensures { node_id result ≡ id_of node }
{
    NodeKey {
        level: node.home,
        number: node.number,
    }
}

/// The opens of the node that went, if one did, go with it, and it is taken from the totals of its home and of its label.
pub fn take_gone(opens: &mut Opens, quota: &mut Quota, gone: Option<Dropped>)
    requires held { IsHeld quota.old (option_map gone_of gone) }
    ensures opens { opens.new ≡ opens_without (option_map gone_of gone) opens.old }
    ensures counts { (before after : List Node) → AreTotals quota.old before →
        WentFrom (option_map gone_of gone) before after → AreTotals quota.new after }
{
    let Some(dropped) = gone else {
        return;
    };
    opens.drop_node(key_of(dropped.node));
    let bytes = gone_bytes(&dropped);
    credit(quota, dropped.node.home, dropped.label, bytes);
}
