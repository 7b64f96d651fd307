//! WRITE (RFC 8881 section 18.32).
ghost use Rattle.std.specs.Prelude.{◌≡◌, ℕ, Ok, IfOk, OnErr, length};
ghost use Rattle.std.specs.Option.{option_map};
ghost use Rattle.lnfs_world.specs.World.{File, Node, World};
ghost use Rattle.lnfs_world.specs.Effects.{size_written};
ghost use Rattle.lnfs_world.specs.Outcome.{Place};
ghost use Rattle.lnfs_arguments.specs.declared.stateid.StateId.{StateId};
ghost use Rattle.lnfs_site.specs.Site.{site_of};
ghost use Rattle.lnfs_operations.specs.declared.Gate.TheVariants as gates;
ghost use Rattle.lnfs_arguments.specs.declared.statuses.TheConstants.{NFS4ERR_DQUOT};
ghost use Rattle.lnfs_operations.specs.Write as operation;
ghost use Rattle.lnfs_quota.specs.Totals.{AreTotals};
ghost use Rattle.lnfs_tree.specs.Rows.{id_of, kind_of};
ghost use Rattle.lnfs_open.specs.Lists.{Lists};
ghost use Rattle.lnfs_nodes.specs.Trees.{held_in, IsHeld, Holds};
ghost use Rattle.lnfs_nodes.specs.Acts.{placed};
ghost use Rattle.lnfs_files.specs.Worlds.{with_files};
ghost use Rattle.lnfs_files.specs.Leases.{Leases};
ghost use Rattle.lnfs_files.specs.Acts.{Acts};
ghost use Rattle.lnfs_files.specs.Writing.{write_on, fitting_size};

use crate::charging::{byte_room, law_numbered};
use crate::files::usable_file;
use crate::state_ids::Way;
use lnfs_arguments::StateId;
use lnfs_arguments::statuses::{NFS4ERR_DQUOT, NFS4ERR_FBIG, NFS4ERR_INVAL};
use lnfs_content::Content;
use lnfs_nodes::{Caller, Held, argument, namespace};
use lnfs_open::{ClientKey, Opens};
use lnfs_operations::numbers::FILE_SYNC4;
use lnfs_operations::{Gate, Refusal};
use lnfs_quota::{Quota, law_totals};
use lnfs_site::Site;
use lnfs_tree::{Tree, TreeError};
use std::alloc::{AllocError, Global};

/// A refusal where a level's bytes would pass its limit.
pub fn past_quota() -> Refusal
    ensures { result ≡ record { gate = gates.Quota; status = NFS4ERR_DQUOT } }
{
    Refusal {
        gate: Gate::Quota,
        status: NFS4ERR_DQUOT,
    }
}

/// How many bytes a file has after others were written at an offset. None where it may not have so many.
fn size_after(file: &Content, offset: u64, content: &[u8]) -> Option<u64>
    ensures { result ≡ fitting_size (size_written offset content.now file.now) }
{
    if !file.takes(offset, content) {
        return None;
    }
    let size = file.len();
    if content.is_empty() {
        return Some(size);
    }
    Some(size.max(offset + content.len() as u64))
}

/// Writes bytes to a file that may be written. Refused by NFS4ERR_FBIG where the file may not have so many bytes, and by
/// NFS4ERR_DQUOT where it grows and its level's bytes would pass their limit.
///
/// # Errors
///
/// `AllocError` where there is no memory. Then nothing has changed.
fn put(
    alloc: Global,
    site: &Site<'_>,
    tree: &mut Tree,
    quota: &mut Quota,
    caller: &Caller,
    held: &Held,
    offset: u64,
    content: &[u8],
) -> Result<Result<u32, Refusal>, AllocError>
    requires held { IsHeld tree.old (held_in tree.old.nodes (option_map id_of caller.now.current))
        (Ok held.now) }
    requires file { kind_of held.now.facts.kind ≡ File }
    requires counts { AreTotals quota.old tree.old.nodes }
    ensures acts { IfOk result (λ told. (n : Node) (p : Place) (rest : World) (opens : Lists)
        (id : StateId) (stable : ℕ) → Holds tree.old n held.now →
        let at = placed p caller.now in
        let args : operation.Arguments = record
        { id = id; offset = offset; stable = stable; content = content.now } in
        Acts (λ count. count) at rest tree.old tree.new opens opens
        (write_on (site_of site.now) args at (with_files rest tree.old opens) n) told) }
    ensures counts { AreTotals quota.new tree.new.nodes }
    ensures levels { length quota.new ≡ length quota.old }
    ensures kept { OnErr result (tree.new ≡ tree.old) }
    ensures uncharged { OnErr result (quota.new ≡ quota.old) }
{
    // The calls say that the file's bytes are counted in its label, and what a change of them does to the totals.
    law_totals();
    law_numbered(held.id);
    let Ok(file) = tree.file(held.id) else {
        unreachable!();
    };
    let old = file.len();
    let Some(size) = size_after(file, offset, content) else {
        return Ok(Err(namespace(NFS4ERR_FBIG)));
    };
    let label = held.facts.label;
    if !byte_room(site, quota, label, old, size) {
        return Ok(Err(past_quota()));
    }
    match tree.write(alloc, held.id, offset, content, caller.moment) {
        Ok(()) => {
            quota.resize(label, old, size);
            Ok(Ok(content.len() as u32))
        }
        Err(error) => match error {
            TreeError::Memory => Err(AllocError),
            // The file is there and takes the bytes.
            _ => unreachable!(),
        },
    }
}

/// Writes bytes to the current file from an offset on, and answers how many: all. What is between its end and the offset is
/// zeros, and no bytes change nothing. What is written stands at once, however it was asked. `over` tells of clients whether
/// their leases are over.
///
/// Refused in this order: by NFS4ERR_INVAL of a way to write that there isn't, by those of `usable_file`, and by
/// NFS4ERR_FBIG and NFS4ERR_DQUOT of a file that grows too large.
///
/// # Errors
///
/// `AllocError` where there is no memory. Then nothing has changed.
pub fn write<F: Fn(ClientKey) -> bool>(
    alloc: Global,
    site: &Site<'_>,
    tree: &mut Tree,
    opens: &Opens,
    quota: &mut Quota,
    caller: &Caller,
    client: Option<u32>,
    id: &StateId,
    offset: u64,
    stable: u32,
    content: &[u8],
    over: &F,
) -> Result<Result<u32, Refusal>, AllocError>
    requires told { F.IsAlwaysCallable over.now }
    requires counts { AreTotals quota.old tree.old.nodes }
    ensures acts { IfOk result (λ told. (p : Place) (rest : World) →
        Leases (F.post over.now) rest caller.now.moment → p.client ≡ client →
        let at = placed p caller.now in
        let args : operation.Arguments = record
        { id = id.now; offset = offset; stable = stable; content = content.now } in
        Acts (λ count. count) at rest tree.old tree.new opens.now opens.now
        (operation.write (site_of site.now) args at (with_files rest tree.old opens.now))
        told) }
    ensures counts { AreTotals quota.new tree.new.nodes }
    ensures levels { length quota.new ≡ length quota.old }
    ensures kept { OnErr result (tree.new ≡ tree.old) }
    ensures uncharged { OnErr result (quota.new ≡ quota.old) }
{
    if stable > FILE_SYNC4 {
        return Ok(Err(argument(NFS4ERR_INVAL)));
    }
    match usable_file(site, tree, opens, caller, client, id, Way::Writing, over) {
        Ok(held) => put(alloc, site, tree, quota, caller, &held, offset, content),
        Err(why) => Ok(Err(why)),
    }
}
