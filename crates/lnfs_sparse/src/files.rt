//! What is tested of a file, whichever operation asks.
ghost use Rattle.std.specs.Prelude.{◌≡◌, ◌≤◌, Ok, IfOk, OnOk};
ghost use Rattle.lnfs_world.specs.declared.numbers.TheConstants.{MOST_FILE};
ghost use Rattle.lnfs_world.specs.World.{File, Node};
ghost use Rattle.lnfs_world.specs.Outcome.{Place};
ghost use Rattle.lnfs_site.specs.Site.{site_of};
ghost use Rattle.lnfs_monitor.specs.Questions.{asked};
ghost use Rattle.lnfs_operations.specs.StateIds.{where_usable};
ghost use Rattle.lnfs_operations.specs.Files.{where_fitting};
ghost use Rattle.lnfs_operations.specs.Extra.{place_at};
ghost use Rattle.lnfs_tree.specs.Rows.{rows_of, id_of, kind_of};
ghost use Rattle.lnfs_nodes.specs.Trees.{held_in, IsHeld, Holds, denial};
ghost use Rattle.lnfs_nodes.specs.Acts.{failed};
ghost use Rattle.lnfs_files.specs.Tests.{passed, refused, refusal_in};
ghost use Rattle.lnfs_files.specs.Uses.{way_of, asks_of};
ghost use Rattle.lnfs_engine.specs.Further.{spot_of};
ghost use Rattle.lnfs_sparse_ops.specs.Regions.{where_ordinary};
ghost use Rattle.lnfs_sparse.specs.Deciding.{IsFileHeld};
ghost use Rattle.lnfs_sparse.specs.Files.{where_ready};

use lnfs_arguments::StateId;
use lnfs_arguments::statuses::{NFS4ERR_FBIG, NFS4ERR_WRONG_TYPE};
use lnfs_calipso::Level;
use lnfs_engine::{Spot, Store, is_lease_over};
use lnfs_files::{Way, byte_room, check_usable, past_quota};
use lnfs_monitor::Question;
use lnfs_nodes::{Held, check_allowed, namespace, node_held};
use lnfs_open::ClientKey;
use lnfs_operations::Refusal;
use lnfs_quota::law_totals;
use lnfs_tree::NodeKind;
use lnfs_world::numbers::MOST_FILE;

/// What refuses a node that has to be an ordinary file: NFS4ERR_WRONG_TYPE (RFC 8881 section 15.1.2.9).
pub fn check_ordinary(held: &Held) -> Result<(), Refusal>
    ensures { (p : Place) (n : Node) → kind_of held.now.facts.kind ≡ n.kind →
        failed result ≡ refusal_in (where_ordinary p n (passed p)) }
{
    match held.facts.kind {
        NodeKind::File => Ok(()),
        NodeKind::Dir | NodeKind::Link => Err(namespace(NFS4ERR_WRONG_TYPE)),
    }
}

/// What the rules of labels are asked of a use.
fn question(way: Way, label: Level) -> Question<'static>
    ensures { asked result ≡ asks_of (way_of way) label.0 }
{
    match way {
        Way::Reading => Question::Read { label },
        Way::Writing => Question::Write { label },
    }
}

/// What the rules of labels refuse of a use of a file.
pub fn check_rules(at: &Spot<'_>, held: &Held, way: Way) -> Result<(), Refusal>
    ensures { failed result ≡ denial (site_of at.now.site.now) (place_at (spot_of at.now)).subject
        (asks_of (way_of way) held.now.facts.label.0) }
{
    let question = question(way, held.facts.label);
    check_allowed(at.site, at.subject, &question)
}

/// What refuses a use of a file by a state id, with the errors of `check_usable` of `lnfs_files`.
pub fn check_state(
    store: &Store,
    at: &Spot<'_>,
    held: &Held,
    id: &StateId,
    way: Way,
) -> Result<(), Refusal>
    ensures { (n : Node) → id_of held.now.id ≡ n.id → failed result ≡ refusal_in
        (where_usable (site_of at.now.site.now) (place_at (spot_of at.now)) store.now n id.now
        (way_of way) (passed (place_at (spot_of at.now)))) }
{
    let clients = store.clients();
    let moment = at.moment;
    let over = |client: ClientKey| is_lease_over(clients, client, moment);
    let caller = at.caller();
    check_usable(
        at.site,
        store.opens(),
        &caller,
        at.client,
        held.id,
        id,
        way,
        &over,
    )
}

/// What refuses a size of a file: NFS4ERR_FBIG where a file may not have so many bytes, and NFS4ERR_DQUOT where it grows and its
/// level's bytes would pass their limit.
pub fn check_size(store: &Store, at: &Spot<'_>, held: &Held, size: u64) -> Result<(), Refusal>
    requires { IsFileHeld store.now held.now }
    ensures refused { (n : Node) → Holds (rows_of store.now) n held.now → failed result ≡ refusal_in
        (where_fitting (site_of at.now.site.now) (place_at (spot_of at.now)) store.now n size
        (passed (place_at (spot_of at.now)))) }
    ensures fits { OnOk result (size ≤ MOST_FILE) }
{
    // The call says that the file's bytes are counted in its label.
    law_totals();
    if size > MOST_FILE {
        return Err(namespace(NFS4ERR_FBIG));
    }
    if !byte_room(
        at.site,
        store.quota(),
        held.facts.label,
        held.facts.size,
        size,
    ) {
        return Err(past_quota());
    }
    Ok(())
}

/// The file that the current file handle names, where a state id lets it be used.
///
/// # Errors
///
/// In this order: NFS4ERR_NOFILEHANDLE and NFS4ERR_STALE of the current file handle, NFS4ERR_WRONG_TYPE where it is no ordinary
/// file, NFS4ERR_ACCESS by the rules of labels, and those of `check_state`.
pub fn ready_file(store: &Store, at: &Spot<'_>, id: &StateId, way: Way) -> Result<Held, Refusal>
    ensures refused { refused result ≡ refusal_in
        (where_ready (site_of at.now.site.now) (place_at (spot_of at.now)) store.now id.now
        (way_of way) (λ n. passed (place_at (spot_of at.now)))) }
    ensures held { IfOk result (λ held. IsHeld (rows_of store.now)
        (held_in store.now.nodes (place_at (spot_of at.now)).current) (Ok held)) }
    ensures file { IfOk result (λ held. kind_of held.facts.kind ≡ File) }
{
    let held = node_held(store.tree(), at.current)?;
    check_ordinary(&held)?;
    check_rules(at, &held, way)?;
    check_state(store, at, &held, id, way)?;
    Ok(held)
}
