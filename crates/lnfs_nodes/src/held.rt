//! The node of a file handle.
ghost use Rattle.std.specs.Prelude.{◌≡◌};
ghost use Rattle.std.specs.Option.{option_map};
ghost use Rattle.lnfs_monitor.specs.Questions.{asked};
ghost use Rattle.lnfs_site.specs.Site.{site_of};
ghost use Rattle.lnfs_operations.specs.Judged.{denied_with};
ghost use Rattle.lnfs_operations.specs.declared.Gate.TheVariants.{Namespace};
ghost use Rattle.lnfs_tree.specs.Rows.{id_of};
ghost use Rattle.lnfs_nodes.specs.Trees.{held_in, IsHeld, refusal_of, denial};

use lnfs_arguments::statuses::{NFS4ERR_ACCESS, NFS4ERR_NOFILEHANDLE, NFS4ERR_STALE};
use lnfs_calipso::Level;
use lnfs_monitor::{Question, Rule, Verdict};
use lnfs_operations::{Gate, Refusal};
use lnfs_site::Site;
use lnfs_tree::{Facts, NodeId, Tree};

/// A node, and what it tells of itself.
#[derive(Clone, Copy, Debug)]
pub struct Held {
    pub id: NodeId,
    pub facts: Facts,
}

/// A refusal of the namespace.
pub fn namespace(status: u32) -> Refusal
    ensures { result ≡ record { gate = Namespace; status = status } }
{
    Refusal {
        gate: Gate::Namespace,
        status,
    }
}

/// The node of a file handle, which has to be set, and the node there.
pub fn node_held(tree: &Tree, handle: Option<NodeId>) -> Result<Held, Refusal>
    ensures { IsHeld tree.now (held_in tree.now.nodes (option_map id_of handle)) result }
{
    let Some(id) = handle else {
        return Err(namespace(NFS4ERR_NOFILEHANDLE));
    };
    match tree.node(id) {
        Some(facts) => Ok(Held { id, facts }),
        None => Err(namespace(NFS4ERR_STALE)),
    }
}

/// The status of a denial: a node that the subject may not name is stale to it.
fn denied_with(rule: Rule) -> u32
    ensures { result ≡ denied_with rule }
{
    match rule {
        Rule::M8 => NFS4ERR_STALE,
        _ => NFS4ERR_ACCESS,
    }
}

/// What the rules of labels refuse of a question.
pub fn denied(site: &Site<'_>, subject: Level, question: &Question<'_>) -> Option<Refusal>
    ensures { option_map refusal_of result ≡ denial (site_of site.now) subject.0
        (asked question.now) }
{
    match site.judge(subject, question) {
        Verdict::Allow => None,
        Verdict::Deny(rule) => Some(Refusal {
            gate: Gate::Monitor(rule),
            status: denied_with(rule),
        }),
    }
}
