//! Who calls, and the tests that operations share.
ghost use Rattle.std.specs.Prelude.{◌≡◌, ◌↔◌, true, IfOk, IsErr};
ghost use Rattle.lnfs_tree.specs.declared.node.TreeError.TheVariants.{Memory};
ghost use Rattle.lnfs_monitor.specs.Questions.{asked};
ghost use Rattle.lnfs_site.specs.Site.{site_of};
ghost use Rattle.lnfs_world.specs.World.{Node, is_directory};
ghost use Rattle.lnfs_tree.specs.Rows.{id_of};
ghost use Rattle.lnfs_nodes.specs.Trees.{denial, Holds, IsHeld, refusal_of};
ghost use Rattle.lnfs_nodes.specs.Acts.{failed};
ghost use Rattle.lnfs_nodes.specs.Told.{naming, no_directory, named, refusal_by};

use crate::held::{Held, denied, namespace};
use crate::naming::name_refusal;
use lnfs_arguments::statuses::{
    NFS4ERR_EXIST, NFS4ERR_FBIG, NFS4ERR_INVAL, NFS4ERR_ISDIR, NFS4ERR_MLINK, NFS4ERR_NOENT,
    NFS4ERR_NOSPC, NFS4ERR_NOTDIR, NFS4ERR_NOTEMPTY, NFS4ERR_STALE,
};
use lnfs_calipso::Level;
use lnfs_monitor::Question;
use lnfs_operations::{Gate, Refusal};
use lnfs_site::Site;
use lnfs_tree::{NodeId, Tree, TreeError};
use lnfs_types::Moment;
use std::alloc::AllocError;

/// Who asks, when, and with which file handles.
#[derive(Clone, Copy, Debug)]
pub struct Caller {
    pub subject: Level,
    pub moment: Moment,
    pub current: Option<NodeId>,
    pub saved: Option<NodeId>,
}

/// What refuses a name by its form.
pub fn check_name(name: &[u8]) -> Result<(), Refusal>
    ensures { failed result ≡ naming name.now }
{
    match name_refusal(name) {
        Some(status) => Err(Refusal {
            gate: Gate::Argument,
            status,
        }),
        None => Ok(()),
    }
}

/// What refuses a node that has to be a directory.
pub fn check_directory(held: &Held) -> Result<(), Refusal>
    ensures { failed result ≡ no_directory held.now.facts.kind }
{
    if held.facts.kind.is_dir() {
        Ok(())
    } else {
        Err(namespace(NFS4ERR_NOTDIR))
    }
}

/// What the rules of labels refuse of a question.
pub fn check_allowed(
    site: &Site<'_>,
    subject: Level,
    question: &Question<'_>,
) -> Result<(), Refusal>
    ensures { failed result ≡ denial (site_of site.now) subject.0 (asked question.now) }
{
    match denied(site, subject, question) {
        Some(why) => Err(why),
        None => Ok(()),
    }
}

/// The node of a name in a directory.
pub(crate) fn node_named(tree: &Tree, dir: &Held, name: &[u8]) -> Result<Held, Refusal>
    ensures { (d : Node) → Holds tree.now d dir.now → is_directory d.kind ≡ true →
        IsHeld tree.now (named tree.now d.id name.now) result }
{
    let Ok(id) = tree.lookup(dir.id, name) else {
        return Err(namespace(NFS4ERR_NOENT));
    };
    match tree.node(id) {
        Some(facts) => Ok(Held { id, facts }),
        None => Err(namespace(NFS4ERR_NOENT)),
    }
}

/// What a tree's error refuses. Want of memory is told otherwise.
pub fn refused_by(error: TreeError) -> Refusal
    ensures { refusal_of result ≡ refusal_by error }
{
    match error {
        TreeError::Stale => namespace(NFS4ERR_STALE),
        TreeError::NotDir => namespace(NFS4ERR_NOTDIR),
        TreeError::NoEnt => namespace(NFS4ERR_NOENT),
        TreeError::IsDir => namespace(NFS4ERR_ISDIR),
        TreeError::Exist => namespace(NFS4ERR_EXIST),
        TreeError::NotEmpty => namespace(NFS4ERR_NOTEMPTY),
        TreeError::Inval => namespace(NFS4ERR_INVAL),
        TreeError::MLink => namespace(NFS4ERR_MLINK),
        TreeError::FBig => namespace(NFS4ERR_FBIG),
        TreeError::Spent | TreeError::Memory => Refusal {
            gate: Gate::Quota,
            status: NFS4ERR_NOSPC,
        },
    }
}

/// The same, where the call takes memory.
///
/// # Errors
///
/// `AllocError` of want of memory.
pub(crate) fn settled_by(error: TreeError) -> Result<Refusal, AllocError>
    ensures refusal { IfOk result (λ why. refusal_of why ≡ refusal_by error) }
    ensures memory { IsErr result ↔ (error ≡ Memory) }
{
    match error {
        TreeError::Memory => Err(AllocError),
        TreeError::Stale
        | TreeError::NotDir
        | TreeError::NoEnt
        | TreeError::IsDir
        | TreeError::Exist
        | TreeError::NotEmpty
        | TreeError::Inval
        | TreeError::MLink
        | TreeError::FBig
        | TreeError::Spent => Ok(refused_by(error)),
    }
}
