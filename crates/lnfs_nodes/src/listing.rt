//! READDIR (RFC 8881 section 18.23).
ghost use Rattle.std.specs.Prelude.{◌≡◌, ◌-◌, ◌++◌, ◌&&◌, Bool, false, not, nat_le, IfOk, OnOk, OnErr};
ghost use Rattle.std.specs.Option.{option_map};
ghost use Rattle.lnfs_xdr.specs.Canon.{flag};
ghost use Rattle.lnfs_xdr.specs.Written.{Extends};
ghost use Rattle.lnfs_monitor.specs.declared.rule.Rule.TheVariants.{M1};
ghost use Rattle.lnfs_world.specs.World.{Node, World, entry_order};
ghost use Rattle.lnfs_world.specs.Usage.{bytes_used};
ghost use Rattle.lnfs_world.specs.Outcome.{Place};
ghost use Rattle.lnfs_world.specs.Rows.{Rising};
ghost use Rattle.lnfs_site.specs.Site.{site_of};
ghost use Rattle.lnfs_operations.specs.ReadDir.{finished};
ghost use Rattle.lnfs_operations.specs.ReadDir as operation;
ghost use Rattle.lnfs_operations.specs.declared.Gate.TheVariants.{Monitor};
ghost use Rattle.lnfs_tree.specs.Rows.{id_of};
ghost use Rattle.lnfs_nodes.specs.Trees.{with_tree};
ghost use Rattle.lnfs_nodes.specs.Walks.{IsListable, listed_in, listing_head, listing_result, Lists};
ghost use Rattle.lnfs_nodes.specs.Writes.{Writes};

use crate::accessed::set_accessed;
use crate::entries::{Lister, Walked, put_entries};
use crate::held::{denied, namespace, node_held};
use crate::masks::Asking;
use crate::showing::Viewer;
use lnfs_arguments::numbers::OP_READDIR;
use lnfs_arguments::statuses::{NFS4_OK, NFS4ERR_ACCESS, NFS4ERR_NOTDIR, NFS4ERR_TOOSMALL};
use lnfs_attrs::Bitmap;
use lnfs_monitor::{Question, Rule};
use lnfs_operations::numbers::EMPTY_LISTING;
use lnfs_operations::{Gate, Refusal};
use lnfs_results::MOST_DATA;
use lnfs_site::Site;
use lnfs_tree::{NodeId, NodeKind, Tree};
use lnfs_types::Moment;
use lnfs_xdr::XdrWriter;
use std::alloc::{AllocError, Global};

/// What READDIR looks at of its arguments: neither the verifier nor dircount.
#[derive(Clone, Copy, Debug)]
pub struct Listing<'a> {
    pub cookie: u64,
    pub maxcount: u32,
    pub asked: &'a Bitmap,
}

/// What refuses a listing with an entry that may not be shown.
fn entry_denied() -> Refusal
    ensures { result ≡ record { gate = Monitor M1; status = NFS4ERR_ACCESS } }
{
    Refusal {
        gate: Gate::Monitor(Rule::M1),
        status: NFS4ERR_ACCESS,
    }
}

/// Whether a listing of so many bytes is too small: for what stands around its entries, or, where entries are left, for
/// the first of them.
fn is_too_small(size: u32, any: bool, eof: bool) -> bool
    ensures { result ≡ not (nat_le EMPTY_LISTING size && not (not any && not eof)) }
{
    size < EMPTY_LISTING || !any && !eof
}

/// Appends what stands before the entries: the number, the status, and a verifier, which is 0.
fn put_head(out: &mut XdrWriter) -> Result<(), AllocError>
    ensures { OnOk result (out.new ≡ out.old ++ listing_head) }
{
    out.u32(OP_READDIR)?;
    out.u32(NFS4_OK)?;
    out.fixed(&[0; 8])
}

/// Appends what stands behind the entries: that there is no further one, and whether none is left.
fn put_end(eof: bool, out: &mut XdrWriter) -> Result<(), AllocError>
    ensures { OnOk result (out.new ≡ out.old ++ (flag false ++ flag eof)) }
{
    out.boolean(false)?;
    out.boolean(eof)
}

/// Appends the result with the entries of a directory behind a cookie, up to the first that doesn't fit. It is refused
/// where an entry may not be shown, and where it is too small; then something may have been appended.
fn put_listing(
    lister: &Lister<'_>,
    tree: &Tree,
    dir: NodeId,
    cookie: u64,
    size: u32,
    out: &mut XdrWriter,
) -> Result<Result<(), Refusal>, AllocError>
    requires used { lister.now.viewer.used ≡ bytes_used tree.now.nodes lister.now.viewer.subject.0 }
    ensures lists { IfOk result (λ answer. (p : Place) (rest : World) (d : Node) →
        IsListable tree.now (id_of dir) →
        let at = record p { subject = lister.now.viewer.subject.0 } in
        let found = listed_in (site_of lister.now.site.now) at (with_tree rest tree.now)
        lister.now.asking.asked.now (id_of dir) cookie (size - EMPTY_LISTING) in
        Lists out.old out.new (finished (site_of lister.now.site.now) at d size found).answer
        answer) }
    ensures extends { IfOk result (λ answer. Extends out.old out.new) }
{
    put_head(out)?;
    let room = size.saturating_sub(EMPTY_LISTING) as usize;
    match put_entries(lister, tree, dir, cookie, room, out)? {
        Walked::Refused => Ok(Err(entry_denied())),
        Walked::Ended { any, eof } => {
            if is_too_small(size, any, eof) {
                return Ok(Err(namespace(NFS4ERR_TOOSMALL)));
            }
            put_end(eof, out)?;
            Ok(Ok(()))
        }
    }
}

/// The entries of the current directory behind a cookie: the whole result is appended, and the time of access set where
/// the subject is at the label of the directory. It is refused in this order: by NFS4ERR_NOFILEHANDLE and NFS4ERR_STALE
/// of the current file handle, NFS4ERR_NOTDIR where it is no directory, NFS4ERR_ACCESS where the subject may not read
/// the directory or see an entry with what is asked, and NFS4ERR_TOOSMALL where not even the first entry fits. Then
/// nothing is appended.
///
/// # Errors
///
/// `AllocError` where there is no memory. Then something may have been appended.
pub fn read_dir(
    alloc: Global,
    site: &Site<'_>,
    tree: &mut Tree,
    viewer: Viewer,
    moment: Moment,
    current: Option<NodeId>,
    args: &Listing<'_>,
    out: &mut XdrWriter,
) -> Result<Result<(), Refusal>, AllocError>
    requires used { viewer.used ≡ bytes_used tree.old.nodes viewer.subject.0 }
    ensures writes { IfOk result (λ answer. (p : Place) (rest : World) →
        Rising entry_order tree.old.entries →
        let at = record p { subject = viewer.subject.0; moment = moment; current = option_map id_of current } in
        let arguments : operation.Arguments = record
        { cookie = args.now.cookie; maxcount = args.now.maxcount; asked = args.now.asked.now } in
        Writes out.old out.new listing_result at (with_tree rest tree.old) (with_tree rest tree.new)
        (operation.read_dir (site_of site.now) arguments at (with_tree rest tree.old)) answer) }
    ensures kept { OnErr result (tree.new ≡ tree.old) }
{
    let dir = match node_held(tree, current) {
        Ok(dir) => dir,
        Err(why) => return Ok(Err(why)),
    };
    if dir.facts.kind != NodeKind::Dir {
        return Ok(Err(namespace(NFS4ERR_NOTDIR)));
    }
    let label = dir.facts.label;
    if let Some(why) = denied(site, viewer.subject, &Question::Read { label }) {
        return Ok(Err(why));
    }
    let asking = Asking::new(args.asked);
    let lister = Lister {
        alloc,
        site,
        viewer,
        asking,
    };
    let begin = out.mark();
    match put_listing(
        &lister,
        tree,
        dir.id,
        args.cookie,
        args.maxcount.min(MOST_DATA),
        out,
    )? {
        Ok(()) => {
            set_accessed(tree, viewer.subject, moment, &dir);
            Ok(Ok(()))
        }
        Err(why) => {
            out.truncate(begin);
            Ok(Err(why))
        }
    }
}
