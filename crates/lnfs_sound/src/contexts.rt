//! Rows of contexts.
ghost use Rattle.std.specs.Prelude.{◌≡◌, ◌<◌, ◌↔◌, true, length, IfOk};
ghost use Rattle.lnfs_site.specs.Site.{site_of};
ghost use Rattle.lnfs_rows.specs.Told.{id_of};
ghost use Rattle.lnfs_fit.specs.RowsOf.{AreIdsOf};
ghost use Rattle.lnfs_sound.specs.Parts.{AreContexts};
ghost use Rattle.lnfs_sound.specs.RowsOf.{contexts_of, nth_context};

use lnfs_fit::ids_fit;
use lnfs_rows::{ContextRow, Id};
use lnfs_site::Site;
use std::alloc::{AllocError, Global};

fn id_at(rows: &[ContextRow], place: usize) -> Id
    requires { place < length rows.now }
    ensures { id_of result ≡ (nth_context (contexts_of rows.now) place).id }
{
    rows[place].id
}

fn ids_of_contexts(alloc: Global, rows: &[ContextRow]) -> Result<Vec<Id>, AllocError>
    ensures { IfOk result (λ ids. AreIdsOf (λ x. x.id) (contexts_of rows.now) ids.items) }
{
    let mut ids = Vec::with_capacity(alloc, rows.len())?;
    for place in 0..rows.len() {
        ids.push(id_at(rows, place))?;
    }
    Ok(ids)
}

/// Whether contexts are those of a world that a server may have.
pub(crate) fn are_contexts(
    alloc: Global,
    site: &Site<'_>,
    last: &[u64],
    rows: &[ContextRow],
) -> Result<bool, AllocError>
    ensures { IfOk result (λ sound. (sound ≡ true) ↔ AreContexts (site_of site.now) last.now (contexts_of rows.now)) }
{
    let ids = ids_of_contexts(alloc, rows)?;
    Ok(ids_fit(site, last, &ids))
}
