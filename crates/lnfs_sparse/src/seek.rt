//! SEEK (RFC 7862 section 15.11).
ghost use Rattle.std.specs.Prelude.{◌≡◌, IfOk};
ghost use Rattle.lnfs_world.specs.World.{Node};
ghost use Rattle.lnfs_site.specs.Site.{site_of};
ghost use Rattle.lnfs_operations.specs.Extra.{place_at};
ghost use Rattle.lnfs_operations.specs.Accessed.{accessed};
ghost use Rattle.lnfs_tree.specs.Rows.{rows_of};
ghost use Rattle.lnfs_nodes.specs.Trees.{Holds};
ghost use Rattle.lnfs_engine.specs.Further.{spot_of};
ghost use Rattle.lnfs_sparse_ops.specs.Seek as operation;
ghost use Rattle.lnfs_sparse_ops.specs.Outcome.{told};
ghost use Rattle.lnfs_sparse_args.specs.Values.{seek_args_of, sought_of};
ghost use Rattle.lnfs_sparse.specs.Answers.{Ends};
ghost use Rattle.lnfs_sparse.specs.Deciding.{Leads, IsFileHeld};

use crate::access::set_read;
use crate::answers::refused;
use crate::files::ready_file;
use lnfs_content::Content;
use lnfs_engine::{ExtraRan, Spot, Store};
use lnfs_files::Way;
use lnfs_nodes::{Held, namespace};
use lnfs_operations::Refusal;
use lnfs_sparse_args::{SeekArgs, Sought, check_sort, seek_text};
use lnfs_sparse_ops::numbers::NFS4ERR_NXIO;
use std::alloc::{AllocError, Global};

/// The file in which something may be looked for.
///
/// # Errors
///
/// In this order: NFS4ERR_UNION_NOTSUPP of the sort, the errors of `ready_file`, and NFS4ERR_NXIO where there is no byte at the
/// offset.
fn find_file(store: &Store, at: &Spot<'_>, args: &SeekArgs) -> Result<Held, Refusal>
    ensures { Leads (operation.seek (site_of at.now.site.now) (seek_args_of args.now)
        (place_at (spot_of at.now)) store.now) (place_at (spot_of at.now)) store.now
        (operation.sought (seek_args_of args.now)) (accessed (place_at (spot_of at.now))) result }
{
    check_sort(args)?;
    let held = ready_file(store, at, &args.id, Way::Reading)?;
    if args.offset >= held.facts.size {
        return Err(namespace(NFS4ERR_NXIO));
    }
    Ok(held)
}

/// The next data or the next hole of a content, or its size.
fn look_for(content: &Content, args: &SeekArgs) -> Sought
    ensures { (n : Node) → n.inner.content ≡ content.now →
        sought_of result ≡ operation.sought (seek_args_of args.now) n }
{
    let offset = if args.is_for_hole() {
        content.next_hole(args.offset)
    } else {
        content.next_data(args.offset)
    };
    Sought {
        eof: offset == content.len(),
        offset,
    }
}

/// What is found in a file that is there.
fn look(store: &Store, held: &Held, args: &SeekArgs) -> Sought
    requires { IsFileHeld store.now held.now }
    ensures { (n : Node) → Holds (rows_of store.now) n held.now →
        sought_of result ≡ operation.sought (seek_args_of args.now) n }
{
    match store.tree().file(held.id) {
        Ok(content) => look_for(content, args),
        // The file is there.
        Err(_) => unreachable!(),
    }
}

/// Tells where the next data or the next hole of a file is.
///
/// # Errors
///
/// `AllocError` where there is no memory.
pub fn seek(
    alloc: Global,
    store: &mut Store,
    at: &Spot<'_>,
    args: &SeekArgs,
) -> Result<ExtraRan, AllocError>
    ensures { IfOk result (λ ran. Ends (told operation.seek_text (operation.seek (site_of at.now.site.now)
        (seek_args_of args.now) (place_at (spot_of at.now)) store.old)) ran store.old store.new) }
{
    let held = match find_file(store, at, args) {
        Ok(held) => held,
        Err(why) => return Ok(refused(alloc, why)),
    };
    let bytes = seek_text(alloc, look(store, &held, args))?;
    set_read(store, at, held.id, held.facts.label);
    Ok(ExtraRan {
        refusal: None,
        bytes,
    })
}
