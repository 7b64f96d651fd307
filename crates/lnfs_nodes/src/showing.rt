//! What a node shows of itself in its attributes (RFC 8881 section 5, RFC 7862 section 12.2).
ghost use Rattle.std.specs.Prelude.{◌≡◌, ◌≤◌, [], length, IfOk};
ghost use Rattle.lnfs_format.specs.declared.formats.TheConstants.{MAX_SPELLING};
ghost use Rattle.lnfs_world.specs.World.{Node, World};
ghost use Rattle.lnfs_world.specs.Usage.{bytes_used};
ghost use Rattle.lnfs_world.specs.Outcome.{Place};
ghost use Rattle.lnfs_site.specs.Site.{site_of};
ghost use Rattle.lnfs_operations.specs.Handles.{file_id};
ghost use Rattle.lnfs_operations.specs.Shown.{type_of, time_of, label_shown, shown};
ghost use Rattle.lnfs_tree.specs.Rows.{id_of, kind_of};
ghost use Rattle.lnfs_world.specs.Given.{stored_of};
ghost use Rattle.lnfs_nodes.specs.Trees.{with_tree, Holds};
ghost use Rattle.lnfs_nodes.specs.Shows.{view_of, NodeViewFits};

use crate::handles::handle_of;
use crate::held::{Held, denied};
use lnfs_arguments::numbers::{TYPE_DIR, TYPE_LINK};
use lnfs_attrs::{LabelValue, Moment as Time, View};
use lnfs_calipso::Level;
use lnfs_format::MAX_SPELLING;
use lnfs_monitor::Question;
use lnfs_site::Site;
use lnfs_tree::{NodeId, NodeKind, Tree};
use lnfs_types::{Moment, Octets};
use lnfs_world::Stored;
use std::alloc::{AllocError, Global};

/// `nfs_ftype4` of a file (RFC 8881 section 3.2). No argument has it.
const TYPE_FILE: u32 = 1;

/// Who looks, and how many bytes the files at the level of who looks have.
#[derive(Clone, Copy, Debug)]
pub struct Viewer {
    pub subject: Level,
    pub used: u64,
}

/// What a node shows of itself, and its label, which is lent: that of the view is empty.
#[derive(Debug, Drop)]
pub struct NodeView<'a> {
    pub view: View,
    pub label: &'a Stored,
}

fn type_of(kind: NodeKind) -> u32
    ensures { result ≡ type_of (kind_of kind) }
{
    match kind {
        NodeKind::File => TYPE_FILE,
        NodeKind::Dir => TYPE_DIR,
        NodeKind::Link => TYPE_LINK,
    }
}

/// The fileid of a node: its home and its number are the upper and the lower half.
fn file_id(id: NodeId) -> u64
    ensures { result ≡ file_id (id_of id) }
{
    (id.home.0 as u64) * 0x1_0000_0000 + id.number as u64
}

fn time_of(moment: Moment) -> Time
    ensures { result ≡ time_of moment }
{
    Time {
        secs: moment.secs,
        nanos: moment.nanos,
    }
}

/// The label of a node: where labels are carried alone as it was stored, to who may read the node, and otherwise
/// as the site writes it.
pub fn label_shown<'a>(site: &Site<'a>, tree: &'a Tree, subject: Level, held: &Held) -> &'a Stored
    ensures { (n : Node) (p : Place) → Holds tree.now n held.now →
        stored_of result.now ≡ label_shown (site_of site.now) (record p { subject = subject.0 }) n }
{
    let label = held.facts.label;
    if site.is_limited() && denied(site, subject, &Question::Read { label }).is_none() {
        if let Some(stored) = tree.stored(held.id) {
            return stored;
        }
    }
    site.label(label)
}

/// A label that is no longer than a label may be.
fn short_label(label: &Stored) -> Result<&Stored, AllocError>
    ensures same { IfOk result (λ found. found.now ≡ label.now) }
    ensures short { IfOk result (λ found. length found.now.bytes ≤ MAX_SPELLING) }
{
    // No label that is kept is longer.
    if label.bytes.len() > MAX_SPELLING {
        return Err(AllocError);
    }
    Ok(label)
}

/// The value of sec_label in a view beside which the label is lent. Takes no memory.
fn no_label(alloc: Global) -> LabelValue
    ensures { result.bytes ≡ [] }
{
    LabelValue {
        lfs: 0,
        pi: 0,
        bytes: Octets::new(Vec::new(alloc)),
    }
}

/// What a node shows of itself to who looks, with the status of an entry that can't be read. Takes no memory.
pub fn shown<'a>(
    alloc: Global,
    site: &Site<'a>,
    tree: &'a Tree,
    viewer: Viewer,
    held: &Held,
    error: u32,
) -> Result<NodeView<'a>, AllocError>
    requires used { viewer.used ≡ bytes_used tree.now.nodes viewer.subject.0 }
    ensures view { IfOk result (λ view. (n : Node) (p : Place) (rest : World) →
        Holds tree.now n held.now →
        view_of view ≡ shown (site_of site.now) (record p { subject = viewer.subject.0 })
        (with_tree rest tree.now) n error) }
    ensures fits { IfOk result NodeViewFits }
{
    let Viewer { subject, used } = viewer;
    let facts = &held.facts;
    let label = short_label(label_shown(site, tree, subject, held))?;
    let view = View {
        kind: type_of(facts.kind),
        change: facts.change,
        size: facts.size,
        handle: handle_of(held.id),
        fileid: file_id(held.id),
        mode: facts.mode,
        links: facts.links,
        avail: site.bytes_limit(subject).saturating_sub(used),
        used,
        access: time_of(facts.access),
        metadata: time_of(facts.metadata),
        modify: time_of(facts.modify),
        label: no_label(alloc),
        error,
    };
    Ok(NodeView { view, label })
}
