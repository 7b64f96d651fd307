//! PUTFH, PUTROOTFH, GETFH, SAVEFH and RESTOREFH (RFC 8881 sections 18.19, 18.21, 18.8, 18.28 and 18.27).
ghost use Rattle.std.specs.Prelude.{◌≡◌, Some, None, Ok, if◌then◌else◌};
ghost use Rattle.std.specs.Option.{option_map};
ghost use Rattle.lnfs_world.specs.World.{World};
ghost use Rattle.lnfs_world.specs.Outcome.{Place};
ghost use Rattle.lnfs_site.specs.Site.{site_of};
ghost use Rattle.lnfs_operations.specs.Handles.{handle_of, handle_named, is_handle};
ghost use Rattle.lnfs_operations.specs.FileHandles.{put_fh, put_root_fh, get_fh, save_fh, restore_fh};
ghost use Rattle.lnfs_tree.specs.Rows.{id_of};
ghost use Rattle.lnfs_nodes.specs.Trees.{with_tree, refusal_of, home_denial, answered, stays, goes, saves};

use crate::held::{denied, namespace, node_held};
use lnfs_arguments::statuses::{NFS4ERR_BADHANDLE, NFS4ERR_NOFILEHANDLE, NFS4ERR_STALE};
use lnfs_calipso::Level;
use lnfs_monitor::Question;
use lnfs_operations::{Gate, Refusal};
use lnfs_site::Site;
use lnfs_tree::{NodeId, Tree};

/// The bytes of a file handle.
pub const HANDLE_SIZE: usize = 12;

/// The bytes of a node's file handle: its home in four, and its number there in eight.
pub fn handle_of(id: NodeId) -> [u8; HANDLE_SIZE]
    ensures { result ≡ handle_of (id_of id) }
{
    let mut handle = [0; HANDLE_SIZE];
    handle[..4].copy_from_slice(&id.home.0.to_be_bytes());
    handle[4..].copy_from_slice(&u64::from(id.number).to_be_bytes());
    handle
}

/// The node that a file handle names; None where it is no handle: twelve bytes of which the home is one of the site's
/// levels, and the number one that a level can give.
fn named(site: &Site<'_>, handle: &[u8]) -> Option<NodeId>
    ensures { option_map id_of result
        ≡ (if is_handle (site_of site.now) handle.now then Some (handle_named handle.now) else
        None) }
{
    let bytes = <&[u8; HANDLE_SIZE]>::try_from(handle).ok()?;
    let home = u32::from_be_bytes([bytes[0], bytes[1], bytes[2], bytes[3]]);
    let number = u64::from_be_bytes([
        bytes[4], bytes[5], bytes[6], bytes[7], bytes[8], bytes[9], bytes[10], bytes[11],
    ]);
    let number = u32::try_from(number).ok()?;
    if home < site.levels() {
        let home = Level(home);
        Some(NodeId { home, number })
    } else {
        None
    }
}

/// What refuses that a subject names a node of a home: a rule of labels, or where these are carried alone none of them,
/// since there is no node of another home.
fn home_denied(site: &Site<'_>, subject: Level, home: Level) -> Option<Refusal>
    ensures { option_map refusal_of result ≡ home_denial (site_of site.now) subject.0 home.0 }
{
    let why = denied(site, subject, &Question::Home { home })?;
    if site.is_limited() {
        Some(namespace(NFS4ERR_STALE))
    } else {
        Some(why)
    }
}

/// The node that a file handle names, which becomes the current one.
///
/// # Errors
///
/// In this order: NFS4ERR_BADHANDLE where it is no handle of the site, and NFS4ERR_STALE where the subject may not name
/// a node of its home, whether there is one or not, or where there is none.
pub fn put_fh(
    site: &Site<'_>,
    tree: &Tree,
    subject: Level,
    handle: &[u8],
) -> Result<NodeId, Refusal>
    ensures { (p : Place) (rest : World) →
        let at = record p { subject = subject.0 } in
        put_fh (site_of site.now) handle.now at (with_tree rest tree.now) ≡ goes at result }
{
    let Some(id) = named(site, handle) else {
        return Err(Refusal {
            gate: Gate::Argument,
            status: NFS4ERR_BADHANDLE,
        });
    };
    if let Some(why) = home_denied(site, subject, id.home) {
        return Err(why);
    }
    match tree.node(id) {
        Some(_) => Ok(id),
        None => Err(namespace(NFS4ERR_STALE)),
    }
}

/// The root, which becomes the current file handle.
pub fn put_root_fh(tree: &Tree) -> NodeId
    ensures { (p : Place) (w : World) → put_root_fh p w ≡ goes p (Ok result) }
{
    tree.root()
}

/// The bytes of the current file handle.
///
/// # Errors
///
/// NFS4ERR_NOFILEHANDLE where none is set, NFS4ERR_STALE where its node is gone.
pub fn get_fh(tree: &Tree, current: Option<NodeId>) -> Result<[u8; HANDLE_SIZE], Refusal>
    ensures { (p : Place) (rest : World) →
        let at = record p { current = option_map id_of current } in
        get_fh at (with_tree rest tree.now) ≡ stays at (answered (λ handle. handle) result) }
{
    let held = node_held(tree, current)?;
    Ok(handle_of(held.id))
}

/// The node of the current file handle, which is saved.
///
/// # Errors
///
/// NFS4ERR_NOFILEHANDLE where none is set, NFS4ERR_STALE where its node is gone.
pub fn save_fh(tree: &Tree, current: Option<NodeId>) -> Result<NodeId, Refusal>
    ensures { (p : Place) (rest : World) →
        let at = record p { current = option_map id_of current } in
        save_fh at (with_tree rest tree.now) ≡ saves at result }
{
    let held = node_held(tree, current)?;
    Ok(held.id)
}

/// The saved file handle, which becomes the current one. Its node isn't looked at.
///
/// # Errors
///
/// NFS4ERR_NOFILEHANDLE where none is saved.
pub fn restore_fh(saved: Option<NodeId>) -> Result<NodeId, Refusal>
    ensures { (p : Place) (w : World) →
        let at = record p { saved = option_map id_of saved } in
        restore_fh at w ≡ goes at result }
{
    match saved {
        Some(id) => Ok(id),
        None => Err(namespace(NFS4ERR_NOFILEHANDLE)),
    }
}
