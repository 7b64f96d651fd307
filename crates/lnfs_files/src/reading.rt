//! READ (RFC 8881 section 18.22).
ghost use Rattle.std.specs.Prelude.{◌≡◌, ◌++◌, ◌+◌, ◌≤◌, IfOk, OnOk, OnErr, min, length, nat_le, take};
ghost use Rattle.lnfs_results.specs.declared.types.OpResult.TheVariants as results;
ghost use Rattle.lnfs_results.specs.declared.limits.TheConstants.{MOST_DATA};
ghost use Rattle.lnfs_results.specs.Texts.{result_text};
ghost use Rattle.lnfs_xdr.specs.Format.{padding};
ghost use Rattle.lnfs_xdr.specs.Canon.{zeros};
ghost use Rattle.lnfs_world.specs.World.{World};
ghost use Rattle.lnfs_world.specs.Effects.{read_at};
ghost use Rattle.lnfs_world.specs.Outcome.{Place};
ghost use Rattle.lnfs_site.specs.Site.{site_of};
ghost use Rattle.lnfs_operations.specs.Read as operation;
ghost use Rattle.lnfs_nodes.specs.Acts.{placed};
ghost use Rattle.lnfs_nodes.specs.Writes.{Writes};
ghost use Rattle.lnfs_files.specs.Worlds.{with_files};
ghost use Rattle.lnfs_files.specs.Leases.{Leases};

use crate::files::usable_file;
use crate::state_ids::Way;
use lnfs_arguments::StateId;
use lnfs_arguments::numbers::OP_READ;
use lnfs_arguments::statuses::NFS4_OK;
use lnfs_content::Content;
use lnfs_nodes::{Caller, set_accessed};
use lnfs_open::{ClientKey, Opens};
use lnfs_operations::Refusal;
use lnfs_results::MOST_DATA;
use lnfs_site::Site;
use lnfs_tree::Tree;
use lnfs_xdr::XdrWriter;
use std::alloc::AllocError;

/// How many bytes an item is padded with (RFC 4506 section 4.10).
fn padding(size: u32) -> &'static [u8]
    ensures { result.now ≡ take (padding size) zeros }
{
    match size % 4 {
        1 => &[0; 3],
        2 => &[0; 2],
        3 => &[0; 1],
        _ => &[],
    }
}

/// Whether nothing is left behind so many bytes from an offset on.
fn is_end(content: &Content, offset: u64, size: u32) -> bool
    ensures { result ≡ nat_le (length content.now) (offset + size) }
{
    offset.saturating_add(u64::from(size)) >= content.len()
}

/// Appends the result of a success: the bytes stand behind their count, straight from where they are kept. Without memory
/// something may have been appended.
fn put_data(
    out: &mut XdrWriter,
    content: &Content,
    offset: u64,
    count: u32,
) -> Result<(), AllocError>
    requires { count ≤ MOST_DATA }
    ensures { OnOk result (out.new ≡ out.old ++ result_text
        (results.Read (nat_le (length content.now) (offset
        + length (read_at offset count content.now))) (read_at offset count content.now))) }
{
    let size = content.readable(offset, count) as u32;
    let eof = is_end(content, offset, size);
    out.u32(OP_READ)?;
    out.u32(NFS4_OK)?;
    out.boolean(eof)?;
    out.u32(size)?;
    content.append_to(offset, count, out)?;
    out.raw(padding(size))
}

/// Appends the result with the bytes of the current file from an offset on, so many or up to the most that a READ gives,
/// and sets its time of access. `over` tells of clients whether their leases are over. Refused by those of `usable_file`, and
/// then nothing is appended.
///
/// # Errors
///
/// `AllocError` where there is no memory. Then something may have been appended.
pub fn read<F: Fn(ClientKey) -> bool>(
    site: &Site<'_>,
    tree: &mut Tree,
    opens: &Opens,
    caller: &Caller,
    client: Option<u32>,
    id: &StateId,
    offset: u64,
    count: u32,
    over: &F,
    out: &mut XdrWriter,
) -> Result<Result<(), Refusal>, AllocError>
    requires { F.IsAlwaysCallable over.now }
    ensures writes { IfOk result (λ answer. (p : Place) (rest : World) →
        Leases (F.post over.now) rest caller.now.moment → p.client ≡ client →
        let at = placed p caller.now in
        Writes out.old out.new (λ d. results.Read d.eof d.content) at
        (with_files rest tree.old opens.now) (with_files rest tree.new opens.now)
        (operation.read (site_of site.now) (record { id = id.now; offset = offset; count = count })
        at (with_files rest tree.old opens.now)) answer) }
    ensures kept { OnErr result (tree.new ≡ tree.old) }
{
    let held = match usable_file(site, tree, opens, caller, client, id, Way::Reading, over) {
        Ok(held) => held,
        Err(why) => return Ok(Err(why)),
    };
    let Ok(content) = tree.file(held.id) else {
        unreachable!();
    };
    put_data(out, content, offset, count.min(MOST_DATA))?;
    set_accessed(tree, caller.subject, caller.moment, &held);
    Ok(Ok(()))
}
