//! Whether rows are those of a world and of locks that a server of a policy may have.
ghost use Rattle.std.specs.Prelude.{◌≡◌, ◌<◌, ◌≤◌, ◌==◌, ◌↔◌, ℕ, true, length, count_by, IfOk};
ghost use Rattle.std.specs.List.{AllByRecursion};
ghost use Rattle.lnfs_operations.specs.Bounds.{ContextBounds, IsSound};
ghost use Rattle.lnfs_site.specs.Site.{site_of};
ghost use Rattle.lnfs_step.specs.ContextBounds.{HasParent, ContextsFit};
ghost use Rattle.lnfs_gss3.specs.declared.numbers.TheConstants.{CONTEXTS_OF_A_LEVEL};
ghost use Rattle.lnfs_rows.specs.Told.{id_of, context_of};
ghost use Rattle.lnfs_rows.specs.World.{AreOf, world_of};
ghost use Rattle.lnfs_fit.specs.RowsOf.{AreIdsOf};
ghost use Rattle.lnfs_sound.specs.RowsOf.{contexts_of, nth_context};
ghost use Rattle.lnfs_lock_rows.specs.Told.{locks_told};
ghost use Rattle.lnfs_checkpoint.specs.Checkpoint.{IsFit};

use lnfs_fit::few_of_a_level;
use lnfs_format::Codecs;
use lnfs_gss3::numbers::CONTEXTS_OF_A_LEVEL;
use lnfs_lock_fit::locks_fit;
use lnfs_lock_rows::LockRows;
use lnfs_policy::Policy;
use lnfs_rows::{ContextRow, Id, Lists};
use lnfs_site::{Labels, Site};
use lnfs_sound::are_sound;
use std::alloc::{AllocError, Global};

fn row_at(rows: &[ContextRow], place: usize) -> ContextRow
    requires { place < length rows.now }
    ensures { context_of result ≡ nth_context (contexts_of rows.now) place }
{
    rows[place]
}

/// Whether a context is under a parent of the policy.
fn has_parent(policy: &Policy, row: ContextRow) -> bool
    ensures { (result ≡ true) ↔ HasParent policy.now (context_of row) }
{
    policy.law_policy();
    match u32::try_from(row.parent) {
        Ok(number) => policy.parent(number).is_some(),
        Err(_) => false,
    }
}

fn has_parent_at(policy: &Policy, rows: &[ContextRow], place: usize) -> bool
    requires { place < length rows.now }
    ensures { (result ≡ true) ↔ HasParent policy.now (nth_context (contexts_of rows.now) place) }
{
    has_parent(policy, row_at(rows, place))
}

fn each_has_parent(policy: &Policy, rows: &[ContextRow]) -> bool
    ensures { (result ≡ true) ↔ ((k : ℕ) → k < length rows.now →
        HasParent policy.now (nth_context (contexts_of rows.now) k)) }
{
    for place in 0..rows.len() {
        if !has_parent_at(policy, rows, place) {
            return false;
        }
    }
    true
}

fn have_parents(policy: &Policy, rows: &[ContextRow]) -> bool
    ensures { (result ≡ true) ↔ AllByRecursion (HasParent policy.now) (contexts_of rows.now) }
{
    each_has_parent(policy, rows)
}

fn id_at(rows: &[ContextRow], place: usize) -> Id
    requires { place < length rows.now }
    ensures { id_of result ≡ (nth_context (contexts_of rows.now) place).id }
{
    rows[place].id
}

fn ids_of(alloc: Global, rows: &[ContextRow]) -> Result<Vec<Id>, AllocError>
    ensures { IfOk result (λ ids. AreIdsOf (λ x. x.id) (contexts_of rows.now) ids.items) }
{
    let mut ids = Vec::with_capacity(alloc, rows.len())?;
    for place in 0..rows.len() {
        ids.push(id_at(rows, place))?;
    }
    Ok(ids)
}

/// Whether no level has more contexts than it may.
fn are_few(alloc: Global, site: &Site<'_>, rows: &[ContextRow]) -> Result<bool, AllocError>
    requires { AllByRecursion (ContextBounds (site_of site.now)) (contexts_of rows.now) }
    ensures { IfOk result (λ few. (few ≡ true) ↔ ((level : ℕ) →
        count_by (λ c. c.id.level == level) (contexts_of rows.now) ≤ CONTEXTS_OF_A_LEVEL)) }
{
    let ids = ids_of(alloc, rows)?;
    few_of_a_level(alloc, site, &ids, CONTEXTS_OF_A_LEVEL as usize)
}

/// Whether contexts, whose levels are those of the site, are within the bounds that a policy sets.
fn contexts_fit(
    alloc: Global,
    policy: &Policy,
    site: &Site<'_>,
    lists: &Lists<'_>,
) -> Result<bool, AllocError>
    requires { AllByRecursion (ContextBounds (site_of site.now)) (world_of lists.now).contexts }
    ensures { IfOk result (λ fit. (fit ≡ true) ↔ ContextsFit policy.now (world_of lists.now)) }
{
    if !have_parents(policy, &lists.contexts) {
        return Ok(false);
    }
    are_few(alloc, site, &lists.contexts)
}

fn fit_at(
    alloc: Global,
    policy: &Policy,
    site: &Site<'_>,
    lists: &Lists<'_>,
    locks: &LockRows<'_>,
) -> Result<bool, AllocError>
    requires { site.now ≡ policy.now }
    ensures { IfOk result (λ fit. (fit ≡ true) ↔ AreOf (site_of policy.now).levels lists.now.lasts
        × IsFit policy.now (world_of lists.now) (locks_told locks.now)) }
{
    let sound = are_sound(alloc, site, lists)?;
    if !sound {
        return Ok(false);
    }
    let contexts = contexts_fit(alloc, policy, site, lists)?;
    if !contexts {
        return Ok(false);
    }
    locks_fit(alloc, site, lists, locks)
}

/// Whether rows are those of a world and of locks that a server of a policy may have. The codecs write the labels of its levels.
pub(crate) fn are_fit(
    alloc: Global,
    policy: &Policy,
    codecs: &Codecs,
    lists: &Lists<'_>,
    locks: &LockRows<'_>,
) -> Result<bool, AllocError>
    ensures { IfOk result (λ fit. (fit ≡ true) ↔ AreOf (site_of policy.now).levels lists.now.lasts
        × IsFit policy.now (world_of lists.now) (locks_told locks.now)) }
{
    let labels = Labels::new(alloc, policy, codecs)?;
    let site = Site::new(policy, &labels);
    fit_at(alloc, policy, &site, lists, locks)
}
