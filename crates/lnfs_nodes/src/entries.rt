//! The entries of a directory in a result.
ghost use Rattle.std.specs.Prelude.{◌≡◌, ◌<◌, ◌&&◌, ◌++◌, length, not, cond, IfOk, IfSome, OnOk};
ghost use Rattle.std.specs.Option.{option_map};
ghost use Rattle.lnfs_xdr.specs.Written.{Extends};
ghost use Rattle.lnfs_world.specs.World as world;
ghost use Rattle.lnfs_world.specs.World.{Id, World, node_at};
ghost use Rattle.lnfs_world.specs.Usage.{bytes_used};
ghost use Rattle.lnfs_world.specs.Names.{entry_above, entries_above};
ghost use Rattle.lnfs_world.specs.Outcome.{Place};
ghost use Rattle.lnfs_monitor.specs.Rules.{Read, allows};
ghost use Rattle.lnfs_site.specs.Site.{site_of};
ghost use Rattle.lnfs_operations.specs.Shown.{asks_inner};
ghost use Rattle.lnfs_operations.specs.ReadDir.{shown_entry};
ghost use Rattle.lnfs_tree.specs.Rows.{id_of, row_of_entry};
ghost use Rattle.lnfs_nodes.specs.Trees.{with_tree};
ghost use Rattle.lnfs_nodes.specs.Shows.{view_of, NodeViewFits};
ghost use Rattle.lnfs_nodes.specs.Walks.{entry_as, entry_written, Enters, Grows, Walks, IsListable, listed_in};

use crate::answers::put_answer;
use crate::held::Held;
use crate::masks::Asking;
use crate::showing::{NodeView, Viewer, shown};
use lnfs_arguments::statuses::{NFS4_OK, NFS4ERR_ACCESS};
use lnfs_attrs::numbers::RDATTR_ERROR;
use lnfs_calipso::Level;
use lnfs_monitor::{Question, Verdict};
use lnfs_site::Site;
use lnfs_tree::{Entry, NodeId, Tree};
use lnfs_xdr::XdrWriter;
use std::alloc::{AllocError, Global};

/// Who lists, and what of each entry.
#[derive(Drop)]
pub struct Lister<'a> {
    pub alloc: Global,
    pub site: &'a Site<'a>,
    pub viewer: Viewer,
    pub asking: Asking<'a>,
}

/// What came of an entry.
#[derive(Clone, Copy, Debug)]
enum Entered {
    /// It was appended.
    Taken,
    /// It doesn't fit, and nothing was appended.
    Left,
    /// It may not be shown.
    Denied,
}

/// How a walk over entries ended.
#[derive(Clone, Copy, Debug)]
pub enum Walked {
    /// Whether entries were appended, and whether none is left.
    Ended { any: bool, eof: bool },
    /// An entry may not be shown.
    Refused,
}

/// What a node shows to a subject with the inner attributes or without them.
#[derive(Drop)]
struct Seen<'a> {
    inner: bool,
    view: NodeView<'a>,
}

/// Whether a subject may read what is at a label.
fn may_read(site: &Site<'_>, subject: Level, label: Level) -> bool
    ensures { result ≡ allows (site_of site.now).dom subject.0 (Read label.0) }
{
    match site.judge(subject, &Question::Read { label }) {
        Verdict::Allow => true,
        Verdict::Deny(_) => false,
    }
}

/// Whether inner attributes are asked that aren't shown.
fn is_hidden(asking: &Asking<'_>, inner: bool) -> bool
    ensures { result ≡ (asks_inner asking.now.asked.now && not inner) }
{
    asking.inner && !inner
}

/// The status of an entry.
fn error_of(is_hidden: bool) -> u32
    ensures { result ≡ cond is_hidden NFS4ERR_ACCESS NFS4_OK }
{
    if is_hidden { NFS4ERR_ACCESS } else { NFS4_OK }
}

/// What a node in a directory shows. Where its label isn't dominated, inner attributes are left out and rdattr_error
/// tells why, if it is asked; if it isn't and they are, the node may not be shown.
fn node_seen<'a>(
    lister: &Lister<'a>,
    tree: &'a Tree,
    node: NodeId,
) -> Result<Option<Seen<'a>>, AllocError>
    requires used { lister.now.viewer.used ≡ bytes_used tree.now.nodes lister.now.viewer.subject.0 }
    ensures shown { IfOk result (λ seen. (p : Place) (rest : World) (e : world.Entry) →
        shown_entry (site_of lister.now.site.now) (record p
        { subject = lister.now.viewer.subject.0 }) (with_tree rest tree.now)
        lister.now.asking.asked.now e (node_at tree.now.nodes (id_of node))
        ≡ option_map (λ s. entry_as lister.now.asking.asked.now e.cookie e.name s.inner
        (view_of s.view)) seen) }
    ensures fits { IfOk result (λ seen. IfSome seen (λ s. NodeViewFits s.view)) }
{
    let Some(facts) = tree.node(node) else {
        return Ok(None);
    };
    let inner = may_read(lister.site, lister.viewer.subject, facts.label);
    let hidden = is_hidden(&lister.asking, inner);
    if hidden && !lister.asking.asked.has(RDATTR_ERROR) {
        return Ok(None);
    }
    let held = Held { id: node, facts };
    let error = error_of(hidden);
    let view = shown(lister.alloc, lister.site, tree, lister.viewer, &held, error)?;
    Ok(Some(Seen { inner, view }))
}

/// Appends an entry with the word before it.
fn put_seen(
    lister: &Lister<'_>,
    entry: &Entry,
    seen: &Seen<'_>,
    out: &mut XdrWriter,
) -> Result<(), AllocError>
    requires { NodeViewFits seen.now.view }
    ensures { OnOk result (out.new ≡ out.old ++ entry_written
        (entry_as lister.now.asking.asked.now entry.now.cookie entry.now.name seen.now.inner
        (view_of seen.now.view))) }
{
    // A name whose length no word holds doesn't stand in memory either.
    if u32::try_from(entry.name.len()).is_err() {
        return Err(AllocError);
    }
    out.boolean(true)?;
    out.u64(entry.cookie)?;
    out.opaque(entry.name.as_slice())?;
    put_answer(lister.asking.answered(seen.inner), &seen.view, out)
}

/// Appends an entry with the word before it, where it fits into so many bytes.
fn put_entry(
    lister: &Lister<'_>,
    tree: &Tree,
    entry: &Entry,
    room: usize,
    out: &mut XdrWriter,
) -> Result<Entered, AllocError>
    requires used { lister.now.viewer.used ≡ bytes_used tree.now.nodes lister.now.viewer.subject.0 }
    ensures entered { IfOk result (λ entered. (p : Place) (rest : World) (directory : Id) →
        let e = row_of_entry directory entry.now in
        Enters out.old out.new room (shown_entry (site_of lister.now.site.now)
        (record p { subject = lister.now.viewer.subject.0 }) (with_tree rest tree.now)
        lister.now.asking.asked.now e (node_at tree.now.nodes e.node)) entered) }
    ensures grows { IfOk result (λ entered. Grows out.old out.new room entered) }
    ensures extends { IfOk result (λ entered. Extends out.old out.new) }
{
    let Some(seen) = node_seen(lister, tree, entry.node)? else {
        return Ok(Entered::Denied);
    };
    let mark = out.mark();
    put_seen(lister, entry, &seen, out)?;
    if out.mark() - mark <= room {
        Ok(Entered::Taken)
    } else {
        out.truncate(mark);
        Ok(Entered::Left)
    }
}

/// The first entry of a directory behind a cookie.
fn entry_above(tree: &Tree, dir: NodeId, cookie: u64) -> Option<&Entry>
    ensures entry { IsListable tree.now (id_of dir) →
        option_map (λ e. row_of_entry (id_of dir) e.now) result
        ≡ entry_above tree.now.entries (id_of dir) cookie }
    ensures fewer { IfSome result (λ e.
        length (entries_above tree.now.entries (id_of dir) e.now.cookie)
        < length (entries_above tree.now.entries (id_of dir) cookie)) }
{
    match tree.next_entry(dir, cookie) {
        Ok(entry) => entry,
        Err(_) => None,
    }
}

/// Appends the entries of a directory behind a cookie, up to the first that doesn't fit into so many bytes.
///
/// # Errors
///
/// `AllocError` where there is no memory. Then something may have been appended.
pub fn put_entries(
    lister: &Lister<'_>,
    tree: &Tree,
    dir: NodeId,
    cookie: u64,
    room: usize,
    out: &mut XdrWriter,
) -> Result<Walked, AllocError>
    requires used { lister.now.viewer.used ≡ bytes_used tree.now.nodes lister.now.viewer.subject.0 }
    ensures walked { IfOk result (λ walked. (p : Place) (rest : World) →
        IsListable tree.now (id_of dir) →
        Walks out.old out.new (listed_in (site_of lister.now.site.now)
        (record p { subject = lister.now.viewer.subject.0 }) (with_tree rest tree.now)
        lister.now.asking.asked.now (id_of dir) cookie room) walked) }
    ensures extends { IfOk result (λ walked. Extends out.old out.new) }
{
    let begin = out.mark();
    let mut cookie = cookie;
    while let Some(entry) = entry_above(tree, dir, cookie) {
        let taken = out.mark() - begin;
        match put_entry(lister, tree, entry, room - taken, out)? {
            Entered::Taken => cookie = entry.cookie,
            Entered::Left => {
                return Ok(Walked::Ended {
                    any: taken > 0,
                    eof: false,
                });
            }
            Entered::Denied => return Ok(Walked::Refused),
        }
    }
    Ok(Walked::Ended {
        any: out.mark() > begin,
        eof: true,
    })
}
