//! The lock that stands in the way of another, and what is told of it (RFC 8881 sections 18.10.3 and 18.11.3).
ghost use Rattle.std.specs.Prelude.{◌≡◌, ◌≤◌, true, option_map, IfOk};
ghost use Rattle.lnfs_world.specs.World.{Node};
ghost use Rattle.lnfs_site.specs.Site.{site_of};
ghost use Rattle.lnfs_operations.specs.Extra.{place_at};
ghost use Rattle.lnfs_tree.specs.Rows.{id_of};
ghost use Rattle.lnfs_engine.specs.Further.{spot_of};
ghost use Rattle.lnfs_locks.specs.Denial.{is_rival, counts_at, denial, length_told, kind_told, denial_text};
ghost use Rattle.lnfs_locks.specs.Ranges.{is_range, for_write, last_asked};
ghost use Rattle.lnfs_locks.specs.Facts.{LockFacts};
ghost use Rattle.lnfs_locks.specs.Lock.{asker};
ghost use Rattle.lnfs_locking.specs.Asking.{denial_of};
ghost use Rattle.lnfs_lock_args.specs.Values.{asked_of};
ghost use Rattle.lnfs_byte_locks.specs.Answers.{IsToldOf, CanBeTold};

use crate::standing::Counting;
use lnfs_arguments::client_id;
use lnfs_engine::{Spot, Store};
use lnfs_files::node_key;
use lnfs_lock_args::Asked;
use lnfs_locking::{Denied, Locks, Rival, Wanted};
use lnfs_locks::numbers::{LAST_OFFSET, READ_LT, WRITE_LT};
use lnfs_open::ClientKey;
use lnfs_ranges::LockRange;
use lnfs_tree::NodeId;
use lnfs_types::Octets;
use lnfs_xdr::XdrWriter;
use std::alloc::{AllocError, Global};

/// The most bytes that are told of a lock beside those of its owner: where its range begins, how long it is, of which kind, its
/// client, and the length and the padding of the owner.
const BESIDE_OWNER: usize = 35;

/// The range that is asked for, as the locks are asked for it.
pub fn wanted_by(asked: &Asked) -> Wanted
    requires { is_range (asked_of asked.now) ≡ true }
    ensures first { result.first ≡ asked.now.offset }
    ensures last { result.last ≡ last_asked (asked_of asked.now) }
    ensures write { result.write ≡ for_write (asked_of asked.now) }
{
    Wanted {
        first: asked.offset,
        last: asked.last(),
        write: asked.for_write(),
    }
}

/// The first lock of a node that stands in the way of what a client and an owner ask for, with its first range that does.
pub fn first_in_way<'a>(
    store: &Store,
    locks: &'a Locks,
    at: &Spot<'_>,
    client: u32,
    owner: &[u8],
    node: NodeId,
    asked: &Asked,
) -> Option<Denied<'a>>
    requires facts { LockFacts store.now locks.now }
    requires range { is_range (asked_of asked.now) ≡ true }
    ensures told { CanBeTold result }
    ensures denial { (n : Node) → id_of node ≡ n.id → option_map denial_of result ≡ denial
        (is_rival (site_of at.now.site.now).dom (counts_at store.now at.now.moment)
        (asker (place_at (spot_of at.now)) client owner.now))
        n.id asked.now.offset (last_asked (asked_of asked.now)) (for_write (asked_of asked.now)) locks.now.locks }
{
    let rival = Rival {
        lattice: at.site.policy().lattice(),
        subject: at.subject,
        client: ClientKey {
            level: at.subject,
            number: client,
        },
        owner,
    };
    let counting = Counting {
        opens: store.opens(),
        clients: store.clients(),
        moment: at.moment,
    };
    locks.conflict(&rival, &counting, node_key(node), &wanted_by(asked))
}

/// How long a range is: all ones, where it has the last offset.
fn length_of(range: &LockRange) -> u64
    requires { range.now.first ≤ range.now.last }
    ensures { result ≡ length_told range.now }
{
    if range.last == LAST_OFFSET {
        LAST_OFFSET
    } else {
        range.last - range.first + 1
    }
}

/// The kind of a lock on a range.
fn kind_of(range: &LockRange) -> u32
    ensures { result ≡ kind_told range.now }
{
    if range.write { WRITE_LT } else { READ_LT }
}

/// What is told of a lock that stands in the way (`LOCK4denied`, RFC 8881 section 18.10.2).
#[tactic(auto, unfolding(lnfs_locks::specs::Denial::denial_text))]
pub fn denial_text(alloc: Global, denied: &Denied<'_>) -> Result<Octets, AllocError>
    requires { IsToldOf denied.now }
    ensures { IfOk result (λ bytes. bytes ≡ denial_text (denial_of denied.now)) }
{
    let owner = denied.row.owner.as_slice();
    let range = denied.range;
    let mut out = XdrWriter::with_capacity(alloc, BESIDE_OWNER + owner.len())?;
    out.u64(range.first)?;
    out.u64(length_of(&range))?;
    out.u32(kind_of(&range))?;
    out.u64(client_id(denied.id.level, denied.row.client.number))?;
    out.opaque(owner)?;
    Ok(Octets::new(out.into_bytes()))
}
