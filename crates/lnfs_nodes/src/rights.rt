//! ACCESS (RFC 8881 section 18.1).
ghost use Rattle.std.specs.Prelude.{◌≡◌, cond};
ghost use Rattle.std.specs.Option.{option_map};
ghost use Rattle.lnfs_world.specs.World.{World};
ghost use Rattle.lnfs_world.specs.Outcome.{Place};
ghost use Rattle.lnfs_site.specs.Site.{site_of};
ghost use Rattle.lnfs_monitor.specs.Rules.{allows};
ghost use Rattle.lnfs_monitor.specs.Questions.{asked};
ghost use Rattle.lnfs_operations.specs.Access as operation;
ghost use Rattle.lnfs_tree.specs.Rows.{id_of};
ghost use Rattle.lnfs_nodes.specs.Trees.{with_tree, answered, stays};
ghost use Rattle.lnfs_nodes.specs.Accesses.{granted_of};

use crate::held::node_held;
use lnfs_calipso::Level;
use lnfs_monitor::{Question, Verdict};
use lnfs_operations::Refusal;
use lnfs_operations::numbers::{ACCESS_READING, ACCESS_WRITING};
use lnfs_site::Site;
use lnfs_tree::{NodeId, Tree};

/// Which of the bits that are asked are told of, and which of them are allowed.
#[derive(Clone, Copy, Debug, PartialEq, Eq)]
pub struct AccessBits {
    pub supported: u32,
    pub granted: u32,
}

/// The bits where the rules allow what is asked, and none where they don't.
fn bits_of(site: &Site<'_>, subject: Level, question: &Question<'_>, bits: u32) -> u32
    ensures { result ≡ cond (allows (site_of site.now).dom subject.0 (asked question.now)) bits 0 }
{
    match site.judge(subject, question) {
        Verdict::Allow => bits,
        Verdict::Deny(_) => 0,
    }
}

/// What the rules of labels allow at the current file handle.
///
/// # Errors
///
/// NFS4ERR_NOFILEHANDLE where none is set, NFS4ERR_STALE where its node is gone.
pub fn access(
    site: &Site<'_>,
    tree: &Tree,
    subject: Level,
    current: Option<NodeId>,
    bits: u32,
) -> Result<AccessBits, Refusal>
    ensures { (p : Place) (rest : World) →
        let at = record p { subject = subject.0; current = option_map id_of current } in
        operation.access (site_of site.now) bits at (with_tree rest tree.now)
        ≡ stays at (answered granted_of result) }
{
    let held = node_held(tree, current)?;
    let label = held.facts.label;
    let reading = bits_of(site, subject, &Question::Read { label }, ACCESS_READING);
    let writing = bits_of(site, subject, &Question::Write { label }, ACCESS_WRITING);
    Ok(AccessBits {
        supported: bits & (ACCESS_READING | ACCESS_WRITING),
        granted: bits & (reading | writing),
    })
}
