//! Identifiers of rows: their order, their levels and numbers, and where one stands.
ghost use Rattle.std.specs.Prelude.{◌≡◌, ◌<◌, ◌≤◌, ◌==◌, ◌↔◌, ℕ, true, length, slice_index, count_by, IfOk, IfSome, IfNone};
ghost use Rattle.std.specs.List.{AllByRecursion};
ghost use Rattle.std.specs.Ordering.{is_lt};
ghost use Rattle.lnfs_world.specs.Rows.{Rising};
ghost use Rattle.lnfs_world.specs.World.{id_order, is_given};
ghost use Rattle.lnfs_site.specs.Site.{site_of};
ghost use Rattle.lnfs_operations.specs.Sizes.{is_level};
ghost use Rattle.lnfs_operations.specs.Bounds.{IsGivenBy};
ghost use Rattle.lnfs_rows.specs.Told.{id_of};
ghost use Rattle.lnfs_rows.specs.Lasts.{given_of};
ghost use Rattle.lnfs_fit.specs.Ids.{nth_id, is_fit_last, IsFitId, AreGiven};
ghost use Rattle.lnfs_fit.specs.RowsOf.{ids_of};

use lnfs_climb::stand_at_most;
use lnfs_rows::Id;
use lnfs_site::Site;
use lnfs_world::numbers::LAST_NUMBER;
use std::alloc::{AllocError, Global};

/// Whether an identifier lies before another.
pub(crate) fn is_before(a: Id, b: Id) -> bool
    ensures { result ≡ is_lt (id_order (id_of a) (id_of b)) }
{
    a.level < b.level || a.level == b.level && a.number < b.number
}

/// The identifier at a place.
pub fn id_at(ids: &[Id], place: usize) -> Id
    requires { place < length ids.now }
    ensures { id_of result ≡ nth_id (ids_of ids.now) place }
{
    ids[place]
}

fn rise(ids: &[Id]) -> bool
    ensures { (result ≡ true) ↔ Rising id_order (ids_of ids.now) }
{
    for place in 1..ids.len() {
        if !is_before(id_at(ids, place - 1), id_at(ids, place)) {
            return false;
        }
    }
    true
}

/// Where an identifier stands.
pub fn place_of(ids: &[Id], id: Id) -> Option<usize>
    requires { Rising id_order (ids_of ids.now) }
    ensures found { IfSome result (λ k. (k < length ids.now) × (nth_id (ids_of ids.now) k ≡ id_of id)) }
    ensures missing { IfNone result ((k : ℕ) → k < length ids.now → nth_id (ids_of ids.now) k ≡ id_of id → ⊥) }
{
    let mut low = 0;
    let mut high = ids.len();
    'halve: while low < high {
        let middle = low + (high - low) / 2;
        let here = id_at(ids, middle);
        if is_before(here, id) {
            low = middle + 1;
        } else if is_before(id, here) {
            high = middle;
        } else {
            return Some(middle);
        }
    }
    None
}

/// Whether a level is one of the site.
pub(crate) fn is_level(site: &Site<'_>, level: u64) -> bool
    ensures { result ≡ is_level (site_of site.now) level }
{
    if site.is_limited() {
        level == 0
    } else {
        level < site.levels() as u64
    }
}

fn is_of_site(site: &Site<'_>, id: Id) -> bool
    ensures { (result ≡ true) ↔ IsGivenBy (site_of site.now) (id_of id) }
{
    is_level(site, id.level as u64) && 1 <= id.number && id.number <= LAST_NUMBER as u64
}

fn was_given(last: &[u64], id: Id) -> bool
    ensures { result ≡ is_given (given_of last.now) (id_of id) }
{
    let level = id.level as usize;
    if level < last.len() {
        id.number <= last[level]
    } else {
        id.number == 0
    }
}

fn is_fit(site: &Site<'_>, last: &[u64], id: Id) -> bool
    ensures { (result ≡ true) ↔ IsFitId (site_of site.now) last.now (id_of id) }
{
    is_of_site(site, id) && was_given(last, id)
}

fn each_fits(site: &Site<'_>, last: &[u64], ids: &[Id]) -> bool
    ensures { (result ≡ true) ↔ ((k : ℕ) → k < length ids.now → IsFitId (site_of site.now) last.now (nth_id (ids_of ids.now) k)) }
{
    for place in 0..ids.len() {
        if !is_fit(site, last, id_at(ids, place)) {
            return false;
        }
    }
    true
}

/// Whether a level gave no number, or may have given this one last.
fn is_fit_last(site: &Site<'_>, level: u64, number: u64) -> bool
    ensures { result ≡ is_fit_last (site_of site.now) level number }
{
    number == 0 || is_level(site, level) && number <= LAST_NUMBER as u64
}

fn lasts_fit(site: &Site<'_>, last: &[u64]) -> bool
    ensures { (result ≡ true) ↔ ((k : ℕ) → k < length last.now → is_fit_last (site_of site.now) k (slice_index last.now k) ≡ true) }
{
    for level in 0..last.len() {
        if !is_fit_last(site, level as u64, last[level]) {
            return false;
        }
    }
    true
}

/// Whether identifiers rise, none of them is above the last number of its level, and all of them and the last numbers are of
/// levels of the site.
pub fn ids_fit(site: &Site<'_>, last: &[u64], ids: &[Id]) -> bool
    ensures { (result ≡ true) ↔ AreGiven (site_of site.now) last.now (ids_of ids.now) }
{
    if !lasts_fit(site, last) {
        return false;
    }
    if !rise(ids) {
        return false;
    }
    each_fits(site, last, ids)
}

fn levels_of(alloc: Global, ids: &[Id]) -> Result<Vec<usize>, AllocError>
    ensures len { IfOk result (λ levels. length levels.items ≡ length ids.now) }
    ensures value { IfOk result (λ levels. (k : ℕ) → k < length ids.now → slice_index levels.items k ≡ (nth_id (ids_of ids.now) k).level) }
{
    let mut levels = Vec::with_capacity(alloc, ids.len())?;
    for place in 0..ids.len() {
        levels.push(id_at(ids, place).level as usize)?;
    }
    Ok(levels)
}

/// Whether no level has more identifiers than it may.
pub fn few_of_a_level(
    alloc: Global,
    site: &Site<'_>,
    ids: &[Id],
    most: usize,
) -> Result<bool, AllocError>
    requires { AllByRecursion (IsGivenBy (site_of site.now)) (ids_of ids.now) }
    ensures { IfOk result (λ few. (few ≡ true) ↔ ((level : ℕ) → count_by (λ i. i.level == level) (ids_of ids.now) ≤ most)) }
{
    let levels = levels_of(alloc, ids)?;
    // Where labels are carried alone the levels of the site aren't looked at, and all rows are of level 0.
    let count = site.levels() as usize + 1;
    stand_at_most(alloc, count, &levels, most)
}
