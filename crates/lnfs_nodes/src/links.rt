//! READLINK (RFC 8881 section 18.24).
ghost use Rattle.std.specs.Prelude.{◌≡◌, ◌++◌, IfOk, OnOk, OnErr};
ghost use Rattle.std.specs.Option.{option_map};
ghost use Rattle.lnfs_results.specs.declared.types.OpResult.TheVariants as results;
ghost use Rattle.lnfs_results.specs.Texts.{result_text};
ghost use Rattle.lnfs_world.specs.World.{World};
ghost use Rattle.lnfs_world.specs.Outcome.{Place};
ghost use Rattle.lnfs_site.specs.Site.{site_of};
ghost use Rattle.lnfs_operations.specs.ReadLink as operation;
ghost use Rattle.lnfs_tree.specs.Rows.{id_of};
ghost use Rattle.lnfs_nodes.specs.Trees.{with_tree};
ghost use Rattle.lnfs_nodes.specs.Writes.{Writes};

use crate::accessed::set_accessed;
use crate::held::{denied, namespace, node_held};
use lnfs_arguments::numbers::OP_READLINK;
use lnfs_arguments::statuses::{NFS4_OK, NFS4ERR_WRONG_TYPE};
use lnfs_calipso::Level;
use lnfs_monitor::Question;
use lnfs_operations::Refusal;
use lnfs_site::Site;
use lnfs_tree::{NodeId, Tree};
use lnfs_types::Moment;
use lnfs_xdr::XdrWriter;
use std::alloc::AllocError;

/// Appends the result of a success. Without memory something may have been appended.
#[tactic(auto, unfolding(lnfs_results::specs::Texts::result_text, lnfs_results::specs::Texts::fields_text))]
fn put_text(out: &mut XdrWriter, text: &[u8]) -> Result<(), AllocError>
    ensures { OnOk result (out.new ≡ out.old ++ result_text (results.ReadLink text.now)) }
{
    // A text whose length no word holds doesn't stand in memory either.
    if u32::try_from(text.len()).is_err() {
        return Err(AllocError);
    }
    out.u32(OP_READLINK)?;
    out.u32(NFS4_OK)?;
    out.opaque(text)
}

/// Appends the result with the text of the symbolic link that the current file handle names, and sets its time of
/// access. It is refused in this order: by NFS4ERR_NOFILEHANDLE and NFS4ERR_STALE of the current file handle,
/// NFS4ERR_WRONG_TYPE where it is no symbolic link, and NFS4ERR_ACCESS where the subject may not read it. Then nothing
/// is appended.
///
/// # Errors
///
/// `AllocError` where there is no memory. Then something may have been appended.
pub fn read_link(
    site: &Site<'_>,
    tree: &mut Tree,
    subject: Level,
    moment: Moment,
    current: Option<NodeId>,
    out: &mut XdrWriter,
) -> Result<Result<(), Refusal>, AllocError>
    ensures writes { IfOk result (λ answer. (p : Place) (rest : World) →
        let at = record p { subject = subject.0; moment = moment; current = option_map id_of current } in
        Writes out.old out.new (λ text. results.ReadLink text) at (with_tree rest tree.old)
        (with_tree rest tree.new) (operation.read_link (site_of site.now) at
        (with_tree rest tree.old)) answer) }
    ensures kept { OnErr result (tree.new ≡ tree.old) }
{
    let link = match node_held(tree, current) {
        Ok(link) => link,
        Err(why) => return Ok(Err(why)),
    };
    let Some(text) = tree.text(link.id) else {
        return Ok(Err(namespace(NFS4ERR_WRONG_TYPE)));
    };
    let label = link.facts.label;
    if let Some(why) = denied(site, subject, &Question::Read { label }) {
        return Ok(Err(why));
    }
    put_text(out, text)?;
    set_accessed(tree, subject, moment, &link);
    Ok(Ok(()))
}
