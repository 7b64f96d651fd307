//! The totals of nodes that are there.
ghost use Rattle.std.specs.Prelude.{◌≡◌, ◌+◌, ◌^◌, ◌<◌, List, map, IfOk};
ghost use Rattle.std.specs.List.{AllByRecursion};
ghost use Rattle.lnfs_world.specs.declared.numbers.TheConstants.{MOST_FILE};
ghost use Rattle.lnfs_world.specs.Rows.{Rising};
ghost use Rattle.lnfs_world.specs.World.{Node, node_order};
ghost use Rattle.lnfs_world.specs.Usage.{bytes_of};
ghost use Rattle.lnfs_rows.specs.Told.{node_of};
ghost use Rattle.lnfs_quota.specs.Quota.{row_at};
ghost use Rattle.lnfs_quota.specs.Totals.{IsInBounds, AreTotals, node_counted};

use crate::laws::{law_fitting, law_totals, usage};
use crate::quota::Quota;
use lnfs_calipso::Level;
use lnfs_rows::{Kind, NodeRow};
use std::alloc::{AllocError, Global};

/// The bytes that a node is charged: a file's.
fn charged_bytes(node: &NodeRow<'_>) -> u64
    ensures { result ≡ bytes_of (node_of node.now) (node_of node.now).kind }
{
    match node.kind {
        Kind::File => node.content.len(),
        Kind::Directory | Kind::SymbolicLink => 0,
    }
}

impl Quota {
    /// One more node, with its bytes.
    fn count(&mut self, node: &NodeRow<'_>)
        requires bounds { IsInBounds (node_of node.now) }
        requires node_fits { (row_at self.old node.now.id.level).nodes + 1 < 2 ^ 64 }
        requires bytes_fit { (row_at self.old node.now.label).bytes + MOST_FILE < 2 ^ 64 }
        ensures { self.new ≡ node_counted self.old (node_of node.now) }
    {
        // The call says that each level of a policy is counted.
        let _levels = self.levels();
        self.resize(Level(node.label), 0, charged_bytes(node));
        self.charge_node(Level(node.id.level));
    }

    /// The totals of nodes: of each one in its home, and a file's bytes in its label.
    ///
    /// # Errors
    ///
    /// `AllocError` where there is no memory.
    pub fn counted(alloc: Global, nodes: &[NodeRow<'_>]) -> Result<Quota, AllocError>
        requires rising { Rising node_order (map node_of nodes.now) }
        requires bounds { AllByRecursion IsInBounds (map node_of nodes.now) }
        ensures { IfOk result (λ quota. AreTotals quota (map node_of nodes.now)) }
    {
        // No total overflows, and what is counted are totals.
        law_fitting();
        law_totals();
        usage();
        let mut quota = Quota::new(alloc)?;
        for node in nodes {
            quota.count(node);
        }
        Ok(quota)
    }

    /// The totals of nodes without bytes, by the home of each. A home that no policy may list is passed over.
    ///
    /// # Errors
    ///
    /// `AllocError` where there is no memory.
    pub fn counted_homes(alloc: Global, homes: &[Level]) -> Result<Quota, AllocError>
        ensures { IfOk result (λ quota. (nodes : List Node) →
            map (λ n. n.id.level) nodes ≡ map (λ l. l.0) homes.now →
            AllByRecursion (λ n. bytes_of n n.kind ≡ 0) nodes → AllByRecursion IsInBounds nodes →
            AreTotals quota nodes) }
    {
        let mut quota = Quota::new(alloc)?;
        for home in homes {
            if quota.knows(*home) {
                quota.charge_node(*home);
            }
        }
        Ok(quota)
    }
}
