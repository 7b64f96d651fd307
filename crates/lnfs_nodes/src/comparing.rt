//! VERIFY and NVERIFY (RFC 8881 sections 18.30 and 18.15).
ghost use Rattle.std.specs.Prelude.{◌≡◌, Bool, IfOk};
ghost use Rattle.std.specs.Option.{option_map};
ghost use Rattle.lnfs_world.specs.World.{World};
ghost use Rattle.lnfs_world.specs.Usage.{bytes_used};
ghost use Rattle.lnfs_world.specs.Outcome.{Place, Outcome};
ghost use Rattle.lnfs_site.specs.Site.{site_of};
ghost use Rattle.lnfs_operations.specs.Chain.{Answer};
ghost use Rattle.lnfs_operations.specs.GetAttr.{is_supported, compared, verify, nverify};
ghost use Rattle.lnfs_tree.specs.Rows.{id_of};
ghost use Rattle.lnfs_nodes.specs.Trees.{with_tree, refusal_of, answered, stays};
ghost use Rattle.lnfs_nodes.specs.Comparing.{given_refusal, where_compared};

use crate::answers::put_list;
use crate::attributes::inner_denied;
use crate::held::{namespace, node_held};
use crate::masks::{answered_to, law_whole};
use crate::showing::{Viewer, shown};
use lnfs_arguments::statuses::{
    NFS4_OK, NFS4ERR_ATTRNOTSUPP, NFS4ERR_INVAL, NFS4ERR_NOT_SAME, NFS4ERR_SAME,
};
use lnfs_attrs::numbers::RDATTR_ERROR;
use lnfs_attrs::{Bitmap, RawAttrs, supported};
use lnfs_operations::{Gate, Refusal};
use lnfs_site::Site;
use lnfs_tree::{NodeId, Tree};
use lnfs_xdr::XdrWriter;
use std::alloc::{AllocError, Global};

/// Whether the server has each attribute of a set.
fn is_supported(mask: &Bitmap) -> bool
    ensures { result ≡ is_supported mask.now }
{
    law_whole(*mask);
    supported(mask)
}

/// What refuses a comparison by its arguments.
fn given_refused(given: &RawAttrs) -> Option<Refusal>
    ensures { option_map refusal_of result ≡ given_refusal given.now }
{
    let gate = Gate::Argument;
    if !is_supported(&given.mask) {
        return Some(Refusal {
            gate,
            status: NFS4ERR_ATTRNOTSUPP,
        });
    }
    if given.mask.has(RDATTR_ERROR) {
        return Some(Refusal {
            gate,
            status: NFS4ERR_INVAL,
        });
    }
    None
}

/// Whether the attributes of the current file handle are those given, by the bytes of their list.
fn is_same(
    alloc: Global,
    site: &Site<'_>,
    tree: &Tree,
    viewer: Viewer,
    current: Option<NodeId>,
    given: &RawAttrs,
) -> Result<Result<bool, Refusal>, AllocError>
    requires used { viewer.used ≡ bytes_used tree.now.nodes viewer.subject.0 }
    ensures { IfOk result (λ answer. (p : Place) (rest : World) (same : Bool →
        Outcome (Answer (Unit {0}))) →
        let at = record p { subject = viewer.subject.0; current = option_map id_of current } in
        compared (site_of site.now) given.now at (with_tree rest tree.now) same
        ≡ where_compared at same answer) }
{
    if let Some(why) = given_refused(given) {
        return Ok(Err(why));
    }
    let held = match node_held(tree, current) {
        Ok(held) => held,
        Err(why) => return Ok(Err(why)),
    };
    if let Some(why) = inner_denied(site, viewer.subject, held.facts.label, &given.mask) {
        return Ok(Err(why));
    }
    let node = shown(alloc, site, tree, viewer, &held, NFS4_OK)?;
    let mut list = XdrWriter::new(alloc);
    put_list(&answered_to(&given.mask, true), &node, &mut list)?;
    let list = list.into_bytes();
    Ok(Ok(given.list.as_slice() == list.as_slice()))
}

/// Whether the attributes of the current file handle are those given.
///
/// # Errors
///
/// `AllocError` where there is no memory.
pub fn verify(
    alloc: Global,
    site: &Site<'_>,
    tree: &Tree,
    viewer: Viewer,
    current: Option<NodeId>,
    given: &RawAttrs,
) -> Result<Result<(), Refusal>, AllocError>
    requires used { viewer.used ≡ bytes_used tree.now.nodes viewer.subject.0 }
    ensures { IfOk result (λ answer. (p : Place) (rest : World) →
        let at = record p { subject = viewer.subject.0; current = option_map id_of current } in
        verify (site_of site.now) given.now at (with_tree rest tree.now)
        ≡ stays at (answered (λ it. it) answer)) }
{
    let same = match is_same(alloc, site, tree, viewer, current, given)? {
        Ok(same) => same,
        Err(why) => return Ok(Err(why)),
    };
    if !same {
        return Ok(Err(namespace(NFS4ERR_NOT_SAME)));
    }
    Ok(Ok(()))
}

/// Whether they differ from those given.
///
/// # Errors
///
/// `AllocError` where there is no memory.
pub fn nverify(
    alloc: Global,
    site: &Site<'_>,
    tree: &Tree,
    viewer: Viewer,
    current: Option<NodeId>,
    given: &RawAttrs,
) -> Result<Result<(), Refusal>, AllocError>
    requires used { viewer.used ≡ bytes_used tree.now.nodes viewer.subject.0 }
    ensures { IfOk result (λ answer. (p : Place) (rest : World) →
        let at = record p { subject = viewer.subject.0; current = option_map id_of current } in
        nverify (site_of site.now) given.now at (with_tree rest tree.now)
        ≡ stays at (answered (λ it. it) answer)) }
{
    let same = match is_same(alloc, site, tree, viewer, current, given)? {
        Ok(same) => same,
        Err(why) => return Ok(Err(why)),
    };
    if same {
        return Ok(Err(namespace(NFS4ERR_SAME)));
    }
    Ok(Ok(()))
}
