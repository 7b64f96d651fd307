//! What a level uses of a file, before and after its data is set.
ghost use Rattle.std.specs.Prelude.{◌≡◌, ◌≤◌, option_map, IfSome};
ghost use Rattle.lnfs_world.specs.declared.numbers.TheConstants.{LAST_NUMBER, MOST_FILE};
ghost use Rattle.lnfs_quota.specs.Totals.{AreTotals};
ghost use Rattle.lnfs_tree.specs.Rows.{id_of};
ghost use Rattle.lnfs_data.specs.Charges.{charge_at, WereTotals};

use lnfs_calipso::Level;
use lnfs_quota::{Quota, law_fitting, law_totals};
use lnfs_tree::{NodeId, Tree};

/// The number of a node is one that a level can give.
fn law_numbered(_node: NodeId)
    ensures { (id_of _node).number ≤ LAST_NUMBER }
{}

/// The label of a file, and how many bytes it has. None of another node.
pub(crate) fn charge_of(tree: &Tree, id: NodeId) -> Option<(Level, u64)>
    ensures value { option_map (λ c. (c.0.0, c.1)) result ≡ charge_at tree.now (id_of id) }
    ensures few { IfSome result (λ c. c.1 ≤ MOST_FILE) }
{
    let Ok(content) = tree.file(id) else {
        return None;
    };
    let Some(facts) = tree.node(id) else {
        return None;
    };
    Some((facts.label, content.len()))
}

/// Counts what a file has become, of which it is told what it was.
pub(crate) fn settle(tree: &Tree, quota: &mut Quota, id: NodeId, before: Option<(Level, u64)>)
    requires { WereTotals quota.old tree.now (id_of id) (option_map (λ c. (c.0.0, c.1)) before) }
    ensures { AreTotals quota.new tree.now.nodes }
{
    // The calls say what a change of a file's bytes does to the totals, and that none overflows.
    law_totals();
    law_fitting();
    law_numbered(id);
    let Some((label, old)) = before else {
        return;
    };
    let Some((_, new)) = charge_of(tree, id) else {
        return;
    };
    if old == new {
        return;
    }
    quota.resize(label, old, new);
}
