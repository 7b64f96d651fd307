//! The operations on nodes: file handles, names, attributes and listings (RFC 8881 section 18).
ghost use Rattle.std.specs.Prelude.{◌≡◌, List, IfOk};
ghost use Rattle.lnfs_world.specs.World.{Node, World};
ghost use Rattle.lnfs_world.specs.Usage.{bytes_used};
ghost use Rattle.lnfs_world.specs.Facts.{NodeFacts};
ghost use Rattle.lnfs_results.specs.declared.types.OpResult.TheVariants as results;
ghost use Rattle.lnfs_results.specs.Numbered.{status_of};
ghost use Rattle.lnfs_results.specs.Fits.{ResultSized};
ghost use Rattle.lnfs_nodes.specs.Trees.{with_tree};
ghost use Rattle.lnfs_quota.specs.Totals.{AreTotals};
ghost use Rattle.lnfs_engine.specs.declared.place.Keeper as code;
ghost use Rattle.lnfs_engine.specs.Places.{place_of, IsOnNodes, IsMoved};
ghost use Rattle.lnfs_engine.specs.Replies.{IsPlain, SaysWritten};
ghost use Rattle.lnfs_engine.specs.Nodes.{told_as, bare_of, goes_to, saves_as};
ghost use Rattle.lnfs_engine.specs.Performs.{site_in, sent_of, turn, Performs};

use crate::place::{Place, Request};
use crate::reply::{Answer, Came, refuse, say, say_bare};
use lnfs_arguments::Op;
use lnfs_calipso::Level;
use lnfs_nodes::{
    AccessBits, Listing, Viewer, access, get_attr, get_fh, lookup, lookup_parent, nverify, put_fh,
    put_root_fh, read_dir, read_link, restore_fh, save_fh, verify,
};
use lnfs_operations::Refusal;
use lnfs_quota::Quota;
use lnfs_results::OpResult;
use lnfs_tree::{NodeId, Tree};
use lnfs_types::Octets;
use lnfs_xdr::XdrWriter;
use std::alloc::{AllocError, Global};

/// What was found becomes the current file handle.
fn go(place: &mut Place, found: Result<NodeId, Refusal>) -> Result<(), Refusal>
    ensures ended { result ≡ bare_of found }
    ensures place { place.new ≡ goes_to place.old found }
{
    match found {
        Ok(id) => {
            place.current = Some(id);
            Ok(())
        }
        Err(why) => Err(why),
    }
}

/// What was found becomes the saved file handle.
fn save(place: &mut Place, found: Result<NodeId, Refusal>) -> Result<(), Refusal>
    ensures ended { result ≡ bare_of found }
    ensures place { place.new ≡ saves_as place.old found }
{
    match found {
        Ok(id) => {
            place.saved = Some(id);
            Ok(())
        }
        Err(why) => Err(why),
    }
}

/// The bytes of a file handle.
fn tell_handle(alloc: Global, handle: Result<[u8; 12], Refusal>) -> Result<Answer, AllocError>
    ensures answer { IfOk result (λ answer. answer
        ≡ told_as (λ bytes. results.GetFh bytes) handle) }
    ensures plain { IfOk result IsPlain }
{
    match handle {
        Ok(bytes) => Ok(Ok(OpResult::GetFh {
            handle: Octets::from_slice(alloc, &bytes)?,
        })),
        Err(why) => Ok(Err(why)),
    }
}

/// What ACCESS tells of.
fn tell_access(bits: Result<AccessBits, Refusal>) -> Answer
    ensures answer { result ≡ told_as (λ bits. results.Access bits.supported bits.granted) bits }
    ensures plain { IsPlain result }
{
    match bits {
        Ok(AccessBits { supported, granted }) => Ok(OpResult::Access { supported, granted }),
        Err(why) => Err(why),
    }
}

/// How many bytes the files of a level have.
fn used_by(quota: &Quota, level: Level) -> u64
    ensures { (nodes : List Node) → AreTotals quota.now nodes → result ≡ bytes_used nodes level.0 }
{
    let (_, used) = quota.used(level);
    used
}

/// A result without anything behind its status, or what refused the operation.
pub fn plain(ended: Result<(), Refusal>, done: OpResult) -> Answer
    requires sized { ResultSized done }
    requires success { status_of done ≡ 0 }
    ensures answer { result ≡ told_as (λ it. done) ended }
    ensures plain { IsPlain result }
{
    match ended {
        Ok(()) => Ok(done),
        Err(why) => Err(why),
    }
}

/// The end of an operation that wrote its result, or was refused.
pub fn wrote(
    out: &mut XdrWriter,
    op: &Op<'_>,
    answer: Result<(), Refusal>,
) -> Result<Came, AllocError>
    ensures { IfOk result (λ came. SaysWritten out.old out.new op.now answer came) }
{
    match answer {
        Ok(()) => Ok(Came::Done),
        Err(why) => refuse(out, op, why),
    }
}

/// Serves an operation on nodes, and appends its result.
pub fn on_nodes(
    request: &Request<'_>,
    tree: &mut Tree,
    quota: &Quota,
    place: &mut Place,
    op: &Op<'_>,
    out: &mut XdrWriter,
) -> Result<Came, AllocError>
    requires own { IsOnNodes op.now }
    requires facts { NodeFacts (site_in request.now).dom tree.old.nodes tree.old.entries
        tree.old.lasts }
    requires counts { AreTotals quota.now tree.old.nodes }
    ensures performs { IfOk result (λ came. (keeper : code.Keeper) (rest : World) →
        Performs request.now.begin out.old out.new keeper keeper (place_of place.new)
        (with_tree rest tree.new) (turn (site_in request.now) (sent_of request.now) op.now
        (place_of place.old) (with_tree rest tree.old)) came) }
    ensures moved { IfOk result (λ came. IsMoved (place_of place.old) (place_of place.new)) }
    ensures counts { AreTotals quota.now tree.new.nodes }
{
    let site = request.site;
    let subject = place.subject;
    let current = place.current;
    match op {
        Op::PutFh { handle } => {
            let found = put_fh(site, tree, subject, handle.as_slice());
            say_bare(out, op, go(place, found))
        }
        Op::PutRootFh => {
            let root = put_root_fh(tree);
            say_bare(out, op, go(place, Ok(root)))
        }
        Op::GetFh => {
            let answer = tell_handle(request.alloc, get_fh(tree, current))?;
            say(out, op, answer)
        }
        Op::SaveFh => {
            let found = save_fh(tree, current);
            say_bare(out, op, save(place, found))
        }
        Op::RestoreFh => {
            let found = restore_fh(place.saved);
            say_bare(out, op, go(place, found))
        }
        Op::Lookup { name } => {
            let found = lookup(site, tree, subject, current, name.as_slice());
            say_bare(out, op, go(place, found))
        }
        Op::LookupP => {
            let found = lookup_parent(site, tree, subject, current);
            say_bare(out, op, go(place, found))
        }
        Op::Access { bits } => {
            let told = access(site, tree, subject, current, *bits);
            say(out, op, tell_access(told))
        }
        Op::ReadLink => {
            let answer = read_link(site, tree, subject, place.moment, current, out)?;
            wrote(out, op, answer)
        }
        Op::GetAttr { asked } => {
            let used = used_by(quota, subject);
            let viewer = Viewer { subject, used };
            let answer = get_attr(request.alloc, site, tree, viewer, current, asked, out)?;
            wrote(out, op, answer)
        }
        Op::ReadDir {
            cookie,
            maxcount,
            asked,
            ..
        } => {
            let listing = Listing {
                cookie: *cookie,
                maxcount: *maxcount,
                asked,
            };
            let used = used_by(quota, subject);
            let viewer = Viewer { subject, used };
            let alloc = request.alloc;
            let moment = place.moment;
            let answer = read_dir(alloc, site, tree, viewer, moment, current, &listing, out)?;
            wrote(out, op, answer)
        }
        Op::Verify { attrs } => {
            let used = used_by(quota, subject);
            let viewer = Viewer { subject, used };
            let answer = verify(request.alloc, site, tree, viewer, current, attrs)?;
            say_bare(out, op, answer)
        }
        Op::NVerify { attrs } => {
            let used = used_by(quota, subject);
            let viewer = Viewer { subject, used };
            let answer = nverify(request.alloc, site, tree, viewer, current, attrs)?;
            say_bare(out, op, answer)
        }
        _ => unreachable!(),
    }
}
