//! What operations on files, and those that make and take out nodes, do to the totals of levels. Whether a total may rise is
//! tested before anything else is done, so that a change of the tree and that of the totals come together.
ghost use Rattle.std.specs.Prelude.{◌≡◌, ◌≤◌, true, List, length, not, nat_lt};
ghost use Rattle.lnfs_world.specs.declared.numbers.TheConstants.{LAST_NUMBER};
ghost use Rattle.lnfs_world.specs.World.{Node, World};
ghost use Rattle.lnfs_world.specs.Usage.{nodes_used};
ghost use Rattle.lnfs_site.specs.Site.{site_of};
ghost use Rattle.lnfs_tree.specs.Rows.{id_of};
ghost use Rattle.lnfs_operations.specs.Files.{passes_quota};
ghost use Rattle.lnfs_quota.specs.Totals.{AreTotals};
ghost use Rattle.lnfs_files.specs.Charges.{MayRise, MayResize, IsNodeHeld, AreBytesHeld, IsLess, released};

use lnfs_calipso::Level;
use lnfs_quota::Quota;
use lnfs_site::Site;
use lnfs_tree::NodeId;

/// The number of a node is one that a level can give.
pub(crate) fn law_numbered(_node: NodeId)
    ensures { (id_of _node).number ≤ LAST_NUMBER }
{}

/// Whether a level may have one more node.
pub fn room_for(site: &Site<'_>, quota: &Quota, level: Level) -> bool
    ensures room { (nodes : List Node) → AreTotals quota.now nodes →
        result ≡ nat_lt (nodes_used nodes level.0) ((site_of site.now).nodes level.0) }
    ensures rises { result ≡ true → MayRise quota.now level.0 }
{
    let (nodes, _) = quota.used(level);
    nodes < site.nodes_limit(level)
}

/// Whether a level's bytes stay within its limit where a file of it goes from `old` bytes to `new`. They do where it doesn't
/// grow, above the limit too.
pub fn byte_room(site: &Site<'_>, quota: &Quota, level: Level, old: u64, new: u64) -> bool
    requires held { AreBytesHeld quota.now level.0 old }
    ensures room { (w : World) (n : Node) → AreTotals quota.now w.nodes → n.label ≡ level.0 →
        length n.inner.content ≡ old →
        result ≡ not (passes_quota (site_of site.now) w n new) }
    ensures resizes { result ≡ true → MayResize quota.now level.0 old new }
{
    let (_, bytes) = quota.used(level);
    let others = bytes - old;
    let limit = site.bytes_limit(level);
    new <= old || (others <= limit && new <= limit - others)
}

/// Takes a node that goes with its last name from the totals: from that of its home, and where it is a file its bytes from
/// that of its label. Other nodes have none.
pub fn credit(quota: &mut Quota, home: Level, label: Level, bytes: u64)
    requires node { IsNodeHeld quota.old home.0 }
    requires bytes { AreBytesHeld quota.old label.0 bytes }
    ensures value { quota.new ≡ released quota.old home.0 label.0 bytes }
    ensures levels { length quota.new ≡ length quota.old }
    ensures counts { (before after : List Node) → AreTotals quota.old before →
        IsLess home.0 label.0 bytes before after → AreTotals quota.new after }
{
    quota.credit_node(home);
    quota.credit_bytes(label, bytes);
}
