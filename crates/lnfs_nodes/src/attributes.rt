//! GETATTR (RFC 8881 section 18.7).
ghost use Rattle.std.specs.Prelude.{◌≡◌, cond, None, IfOk};
ghost use Rattle.std.specs.Option.{option_map};
ghost use Rattle.lnfs_results.specs.declared.types.OpResult.TheVariants as results;
ghost use Rattle.lnfs_monitor.specs.Rules.{Read};
ghost use Rattle.lnfs_world.specs.World.{World};
ghost use Rattle.lnfs_world.specs.Usage.{bytes_used};
ghost use Rattle.lnfs_world.specs.Outcome.{Place};
ghost use Rattle.lnfs_site.specs.Site.{site_of};
ghost use Rattle.lnfs_operations.specs.Shown.{asks_inner};
ghost use Rattle.lnfs_operations.specs.GetAttr.{get_attr};
ghost use Rattle.lnfs_tree.specs.Rows.{id_of};
ghost use Rattle.lnfs_nodes.specs.Trees.{with_tree, refusal_of, denial};
ghost use Rattle.lnfs_nodes.specs.Writes.{Writes};

use crate::answers::put_answer;
use crate::held::{denied, node_held};
use crate::masks::answered_to;
use crate::showing::{Viewer, shown};
use lnfs_arguments::numbers::OP_GETATTR;
use lnfs_arguments::statuses::NFS4_OK;
use lnfs_attrs::{Bitmap, asks_inner};
use lnfs_calipso::Level;
use lnfs_monitor::Question;
use lnfs_operations::Refusal;
use lnfs_site::Site;
use lnfs_tree::{NodeId, Tree};
use lnfs_xdr::XdrWriter;
use std::alloc::{AllocError, Global};

/// What refuses attributes that are asked of a node with a label.
pub(crate) fn inner_denied(
    site: &Site<'_>,
    subject: Level,
    label: Level,
    asked: &Bitmap,
) -> Option<Refusal>
    ensures { option_map refusal_of result ≡ cond (asks_inner asked.now)
        (denial (site_of site.now) subject.0 (Read label.0)) None }
{
    if asks_inner(asked) {
        denied(site, subject, &Question::Read { label })
    } else {
        None
    }
}

/// The attributes of the current file handle: the whole result is appended.
///
/// # Errors
///
/// `AllocError` where there is no memory. Then something may have been appended.
pub fn get_attr(
    alloc: Global,
    site: &Site<'_>,
    tree: &Tree,
    viewer: Viewer,
    current: Option<NodeId>,
    asked: &Bitmap,
    out: &mut XdrWriter,
) -> Result<Result<(), Refusal>, AllocError>
    requires used { viewer.used ≡ bytes_used tree.now.nodes viewer.subject.0 }
    ensures { IfOk result (λ answer. (p : Place) (rest : World) →
        let at = record p { subject = viewer.subject.0; current = option_map id_of current } in
        let w = with_tree rest tree.now in
        Writes out.old out.new results.GetAttr at w w (get_attr (site_of site.now) asked.now at w)
        answer) }
{
    let held = match node_held(tree, current) {
        Ok(held) => held,
        Err(why) => return Ok(Err(why)),
    };
    if let Some(why) = inner_denied(site, viewer.subject, held.facts.label, asked) {
        return Ok(Err(why));
    }
    let node = shown(alloc, site, tree, viewer, &held, NFS4_OK)?;
    out.u32(OP_GETATTR)?;
    out.u32(NFS4_OK)?;
    put_answer(&answered_to(asked, true), &node, out)?;
    Ok(Ok(()))
}
