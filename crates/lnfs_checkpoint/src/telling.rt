//! A server's state, told.
ghost use Rattle.std.specs.Prelude.{◌≡◌, ◌<◌, ◌≤◌, Some, true, false, IfOk, IsErr, length};
ghost use Rattle.sha2.specs.Sha256.{sha256};
ghost use Rattle.lnfs_site.specs.Site.{site_of};
ghost use Rattle.lnfs_operations.specs.Bounds.{IsSound};
ghost use Rattle.lnfs_rows.specs.World.{AreOf, world_of};
ghost use Rattle.lnfs_xdr.specs.Message.{Tells};
ghost use Rattle.lnfs_layout.specs.declared.numbers.TheConstants.{MOST_EVENTS};
ghost use Rattle.lnfs_lock_rows.specs.Bounds.{LocksFit};
ghost use Rattle.lnfs_lock_rows.specs.Told.{locks_told};
ghost use Rattle.lnfs_layout.specs.Lasts.{AreEach, AreOfLevels};
ghost use Rattle.lnfs_layout.specs.Whole.{Told};
ghost use Rattle.lnfs_checkpoint.specs.Checkpoint.{checkpoint, checkpoint_text, digest_of};
ghost use Rattle.lnfs_checkpoint.specs.Telling.{AreLastsOf};

use lnfs_engine::Store;
use lnfs_further::Further;
use lnfs_gss3::Mechanism;
use lnfs_layout::write_layout;
use lnfs_lock_rows::LockRows;
use lnfs_locking::Locks;
use lnfs_policy::{Policy, write_policy};
use lnfs_rows::{Lasts, Lists};
use lnfs_vault::Core;
use sha2::{Digest, Sha256};
use std::alloc::{AllocError, Global};

fn digest(text: &[u8]) -> [u8; 32]
    ensures { result ≡ sha256 text.now }
{
    Sha256::digest(text)
}

/// The digest of a policy's canonical text.
pub(crate) fn digest_of(alloc: Global, policy: &Policy) -> Result<[u8; 32], AllocError>
    ensures { IfOk result (λ digest. digest ≡ digest_of policy.now) }
{
    let text = write_policy(alloc, policy)?;
    Ok(digest(text.as_slice()))
}

/// How many levels a policy has.
pub(crate) fn levels_of(policy: &Policy) -> u32
    ensures value { result ≡ (site_of policy.now).levels }
    ensures some { 0 < result }
{
    policy.lattice().len()
}

/// The last numbers of so many levels.
fn lasts_of(alloc: Global, store: &Store, levels: u32) -> Result<Lasts, AllocError>
    ensures { IfOk result (λ lasts. AreLastsOf levels store.now.lasts lasts) }
{
    Ok(Lasts {
        clients: store.clients().last_clients(levels)?,
        sessions: store.clients().last_sessions(levels)?,
        contexts: store.contexts().last_numbers(alloc, levels)?,
        nodes: store.tree().last_numbers(alloc, levels)?,
        opens: store.opens().last_numbers(levels)?,
    })
}

/// The rows of a server's lists, which lend what they are long of. The last numbers are those of so many levels.
fn lists_of(alloc: Global, store: &Store, levels: u32) -> Result<Lists<'_>, AllocError>
    requires { AreOfLevels levels store.now.lasts }
    ensures world { IfOk result (λ lists. world_of lists ≡ store.now) }
    ensures each { IfOk result (λ lists. AreOf levels lists.lasts) }
{
    let lasts = lasts_of(alloc, store, levels)?;
    Ok(Lists {
        clients: store.clients().client_rows()?,
        sessions: store.clients().session_rows()?,
        contexts: store.contexts().rows(alloc)?,
        nodes: store.tree().node_rows(alloc)?,
        entries: store.tree().entry_rows(alloc)?,
        opens: store.opens().rows()?,
        lasts,
    })
}

/// The rows of all locks, which lend what they are long of. The last numbers are those of so many levels.
fn lock_rows_of(locks: &Locks, levels: u32) -> Result<LockRows<'_>, AllocError>
    requires { AreEach levels locks.now.lasts }
    ensures locks { IfOk result (λ rows. locks_told rows ≡ locks.now) }
    ensures each { IfOk result (λ rows. length rows.lasts.items ≡ levels) }
{
    Ok(LockRows {
        locks: locks.rows()?,
        lasts: locks.last_numbers(levels)?,
    })
}

/// A state after so many events, as bytes.
#[tactic(auto, unfolding(crate::specs::Checkpoint::checkpoint_text))]
fn bytes_of(
    alloc: Global,
    policy: &Policy,
    store: &Store,
    locks: &Locks,
    events: u64,
) -> Result<Vec<u8>, AllocError>
    requires events { events ≤ MOST_EVENTS }
    requires sound { IsSound (site_of policy.now) store.now }
    requires locks { LocksFit (site_of policy.now) store.now locks.now }
    ensures text { IfOk result (λ bytes. bytes.items
        ≡ checkpoint_text policy.now events store.now locks.now) }
    ensures again { IfOk result (λ bytes. Tells (checkpoint policy.now)
        (Some (record { events = events; world = store.now; locks = locks.now })) bytes.items) }
{
    let digest = digest_of(alloc, policy)?;
    let levels = levels_of(policy);
    let lists = lists_of(alloc, store, levels)?;
    let rows = lock_rows_of(locks, levels)?;
    write_layout(alloc, levels, &digest, events, &lists, &rows)
}

/// A server's state after so many events, as bytes.
///
/// # Errors
///
/// `AllocError` where there is no memory, and where want of memory has stopped the core.
pub fn write_checkpoint<M: Mechanism + Drop>(
    alloc: Global,
    core: &Core<M, Further>,
    events: u64,
) -> Result<Vec<u8>, AllocError>
    requires events { events ≤ MOST_EVENTS }
    requires kept { core.now.stopped ≡ false → IsSound (site_of core.now.policy) core.now.world }
    requires locks { core.now.stopped ≡ false →
        LocksFit (site_of core.now.policy) core.now.world core.now.extra.first }
    ensures text { IfOk result (λ bytes. bytes.items
        ≡ checkpoint_text core.now.policy events core.now.world core.now.extra.first) }
    // It is read again, as that state.
    ensures again { IfOk result (λ bytes. Tells (checkpoint core.now.policy)
        (Some (record { events = events; world = core.now.world; locks = core.now.extra.first }))
        bytes.items) }
    ensures stopped { core.now.stopped ≡ true → IsErr result }
{
    let Some(store) = core.store() else {
        return Err(AllocError);
    };
    bytes_of(
        alloc,
        core.policy(),
        store,
        core.extra().first().locks(),
        events,
    )
}
