//! CREATE (RFC 8881 section 18.4).
ghost use Rattle.std.specs.Prelude.{◌≡◌, true, None, Some, IfOk, OnErr, nat_lt};
ghost use Rattle.std.specs.Option.{option_map};
ghost use Rattle.lnfs_world.specs.World.{Node, World, is_directory};
ghost use Rattle.lnfs_world.specs.Facts.{NodeFacts};
ghost use Rattle.lnfs_world.specs.Usage.{nodes_used};
ghost use Rattle.lnfs_world.specs.Effects.{next_id};
ghost use Rattle.lnfs_world.specs.Outcome.{Place};
ghost use Rattle.lnfs_site.specs.Site.{site_of};
ghost use Rattle.lnfs_arguments.specs.declared.statuses.TheConstants.{NFS4ERR_NOSPC};
ghost use Rattle.lnfs_operations.specs.declared.Gate.TheVariants.{Quota};
ghost use Rattle.lnfs_operations.specs.Given.{level_or, kept_label};
ghost use Rattle.lnfs_operations.specs.Shown.{label_shown};
ghost use Rattle.lnfs_operations.specs.Create as operation;
ghost use Rattle.lnfs_tree.specs.Rows.{Rows, id_of, kind_of};
ghost use Rattle.lnfs_world.specs.Given.{stored_of};
ghost use Rattle.lnfs_tree.specs.Changed as tree_changed;
ghost use Rattle.lnfs_nodes.specs.Trees.{with_tree, Holds, refusal_of};
ghost use Rattle.lnfs_nodes.specs.Acts.{ActsTo, placed};
ghost use Rattle.lnfs_nodes.specs.GivenValues.{given_of};
ghost use Rattle.lnfs_nodes.specs.Creating.{child_refusal, full_refusal, created_of};

use crate::calls::Caller;
use crate::given::{Asked, GivenLabel, read_asked, set_of};
use crate::held::{Held, denied, namespace, node_held};
use crate::showing::label_shown;
use lnfs_arguments::What;
use lnfs_arguments::statuses::{NFS4ERR_EXIST, NFS4ERR_NOSPC, NFS4ERR_NOTDIR};
use lnfs_attrs::{Bitmap, RawAttrs};
use lnfs_calipso::Level;
use lnfs_monitor::Question;
use lnfs_operations::numbers::{DIRECTORY_MODE, LINK_MODE};
use lnfs_operations::{Gate, Refusal};
use lnfs_site::Site;
use lnfs_tree::{Fresh, Info, NodeId, NodeKind, Tree, TreeError};
use lnfs_types::Octets;
use lnfs_world::Stored;
use std::alloc::{AllocError, Global};

/// What was made.
#[derive(Clone, Copy, Debug)]
pub struct Created {
    /// The new node, which becomes the current file handle.
    pub node: NodeId,
    /// The change numbers of its directory.
    pub info: Info,
    /// The attributes that were set.
    pub set: Bitmap,
}

/// A refusal where a level has no room.
pub fn no_space() -> Refusal
    ensures { refusal_of result ≡ record { gate = Quota; status = NFS4ERR_NOSPC } }
{
    Refusal {
        gate: Gate::Quota,
        status: NFS4ERR_NOSPC,
    }
}

/// The level of the label that was given, or else another one.
pub fn level_or(level: Level, given: &Option<GivenLabel>) -> Level
    ensures { result.0 ≡ level_or level.0 (option_map given_of given.now) }
{
    match given {
        Some(given) => given.level,
        None => level,
    }
}

/// A label once more.
pub fn copied(alloc: Global, label: &Stored) -> Result<Stored, AllocError>
    ensures { IfOk result (λ copy. stored_of copy ≡ stored_of label.now) }
{
    Ok(Stored {
        lfs: label.lfs,
        pi: label.pi,
        bytes: Octets::from_slice(alloc, label.bytes.as_slice())?,
    })
}

/// The label of a directory once more, as it shows it.
pub(crate) fn copied_of(
    alloc: Global,
    site: &Site<'_>,
    tree: &Tree,
    subject: Level,
    dir: &Held,
) -> Result<Stored, AllocError>
    ensures { IfOk result (λ copy. (d : Node) (p : Place) → Holds tree.now d dir.now →
        stored_of copy ≡ label_shown (site_of site.now) (record p { subject = subject.0 }) d) }
{
    copied(alloc, label_shown(site, tree, subject, dir))
}

/// How the label of a new node is kept: where labels are carried alone, as it was given, or else as its directory shows
/// its own.
pub fn kept_label(
    alloc: Global,
    site: &Site<'_>,
    tree: &Tree,
    subject: Level,
    dir: &Held,
    given: Option<GivenLabel>,
) -> Result<Option<Stored>, AllocError>
    ensures { IfOk result (λ kept. (d : Node) (p : Place) → Holds tree.now d dir.now →
        option_map stored_of kept ≡ kept_label (site_of site.now) (record p { subject = subject.0 })
        d (option_map given_of given)) }
{
    if !site.is_limited() {
        return Ok(None);
    }
    match given {
        Some(given) => Ok(Some(given.spelled)),
        None => Ok(Some(copied_of(alloc, site, tree, subject, dir)?)),
    }
}

fn kind_of(what: &What) -> NodeKind
    ensures { kind_of result ≡ operation.kind_of what.now }
{
    match what {
        What::Dir => NodeKind::Dir,
        What::Symlink { .. } => NodeKind::Link,
    }
}

fn mode_of(what: &What, mode: Option<u32>) -> u32
    ensures { result ≡ operation.mode_of what.now mode }
{
    match (mode, what) {
        (Some(mode), _) => mode,
        (None, What::Dir) => DIRECTORY_MODE,
        (None, What::Symlink { .. }) => LINK_MODE,
    }
}

fn text_of(alloc: Global, what: &What) -> Result<Octets, AllocError>
    ensures { IfOk result (λ text. text ≡ operation.text_of what.now) }
{
    match what {
        What::Dir => Ok(Octets::new(Vec::new(alloc))),
        What::Symlink { text } => Octets::from_slice(alloc, text.as_slice()),
    }
}

/// What refuses a new name in a directory before the directory's names are looked at, of a node with a label.
fn child_refused(site: &Site<'_>, subject: Level, dir: &Held, child: Level) -> Option<Refusal>
    ensures { (t : Rows) (d : Node) → Holds t d dir.now →
        option_map refusal_of result ≡ child_refusal (site_of site.now) subject.0 d child.0 }
{
    if !dir.facts.kind.is_dir() {
        return Some(namespace(NFS4ERR_NOTDIR));
    }
    let label = dir.facts.label;
    if let Some(why) = denied(site, subject, &Question::Change { dir: label }) {
        return Some(why);
    }
    denied(site, subject, &Question::Child { dir: label, child })
}

/// What refuses a new name in a directory where its level has no room.
fn full(tree: &Tree, dir: &Held, name: &[u8]) -> Refusal
    ensures { (d : Node) → Holds tree.now d dir.now → is_directory d.kind ≡ true →
        refusal_of result ≡ full_refusal tree.now.entries d name.now }
{
    match tree.lookup(dir.id, name) {
        Ok(_) => namespace(NFS4ERR_EXIST),
        Err(_) => no_space(),
    }
}

/// What a new node in a directory is made with. Its home is the directory's label.
fn fresh(
    alloc: Global,
    site: &Site<'_>,
    tree: &Tree,
    subject: Level,
    dir: &Held,
    what: &What,
    asked: Asked,
) -> Result<Fresh, AllocError>
    ensures home { IfOk result (λ fresh. fresh.home ≡ dir.now.facts.label) }
    ensures node { IfOk result (λ fresh. (d : Node) (p : Place) (w : World) →
        Holds tree.now d dir.now →
        tree_changed.new_node p.moment fresh (next_id w.lasts.nodes d.label)
        ≡ operation.new_node (site_of site.now) (record p { subject = subject.0 }) w what.now
        asked.mode (option_map given_of asked.label) d) }
{
    let Asked { mode, label: given } = asked;
    let home = dir.facts.label;
    let label = level_or(home, &given);
    let stored = kept_label(alloc, site, tree, subject, dir, given)?;
    let text = text_of(alloc, what)?;
    Ok(Fresh {
        kind: kind_of(what),
        home,
        label,
        stored,
        mode: mode_of(what, mode),
        text,
        verifier: None,
    })
}

/// Makes a directory or a symbolic link in the current directory. `room` tells whether the subject's level may have one
/// more node.
///
/// Refused in this order: as the name is; by NFS4ERR_ATTRNOTSUPP, NFS4ERR_INVAL and NFS4ERR_BADXDR of the attributes that
/// are given, NFS4ERR_INVAL of a size and of a mode, NFS4ERR_WRONG_LFS and NFS4ERR_BADLABEL of a label; NFS4ERR_INVAL and
/// NFS4ERR_NAMETOOLONG of the text of a link; NFS4ERR_NOFILEHANDLE and NFS4ERR_STALE of the current file handle;
/// NFS4ERR_NOTDIR where it is no directory; NFS4ERR_ACCESS by the rules of labels; NFS4ERR_EXIST where it has the name;
/// NFS4ERR_NOSPC where there is no room.
///
/// # Errors
///
/// `AllocError` where there is no memory. Then nothing has changed.
pub fn create(
    alloc: Global,
    site: &Site<'_>,
    tree: &mut Tree,
    caller: &Caller,
    room: bool,
    what: &What,
    name: &[u8],
    given: &RawAttrs,
) -> Result<Result<Created, Refusal>, AllocError>
    requires facts { NodeFacts (site_of site.now).dom tree.old.nodes tree.old.entries
        tree.old.lasts }
    requires room { room ≡ nat_lt (nodes_used tree.old.nodes caller.now.subject.0)
        ((site_of site.now).nodes caller.now.subject.0) }
    ensures acts { IfOk result (λ told. (p : Place) (rest : World) →
        ActsTo created_of (λ c. record (placed p caller.now) { current = Some (id_of c.node) })
        (placed p caller.now) rest tree.old tree.new
        (operation.create (site_of site.now) what.now name.now given.now (placed p caller.now)
        (with_tree rest tree.old)) told) }
    ensures kept { OnErr result (tree.new ≡ tree.old) }
{
    let asked = match read_asked(alloc, site, what, name, given)? {
        Ok(asked) => asked,
        Err(why) => return Ok(Err(why)),
    };
    let dir = match node_held(tree, caller.current) {
        Ok(dir) => dir,
        Err(why) => return Ok(Err(why)),
    };
    let child = level_or(dir.facts.label, &asked.label);
    if let Some(why) = child_refused(site, caller.subject, &dir, child) {
        return Ok(Err(why));
    }
    if !room {
        return Ok(Err(full(tree, &dir, name)));
    }
    let fresh = fresh(alloc, site, tree, caller.subject, &dir, what, asked)?;
    match tree.insert(alloc, dir.id, name, fresh, caller.moment) {
        Ok(made) => Ok(Ok(Created {
            node: made.0,
            info: made.1,
            set: set_of(given),
        })),
        Err(error) => match error {
            TreeError::Exist => Ok(Err(namespace(NFS4ERR_EXIST))),
            TreeError::Spent => Ok(Err(no_space())),
            TreeError::Memory => Err(AllocError),
            // The directory is there.
            _ => unreachable!(),
        },
    }
}
