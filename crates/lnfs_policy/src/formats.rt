//! The formats of a policy, each with its names.

ghost use Rattle.std.specs.Prelude.{◌≡◌, ◌<◌, IfOk, length, is_some};
ghost use Rattle.std.specs.List.{filter_map, list_all};
ghost use Rattle.lnfs_calipso.specs.Label.{label_at};
ghost use Rattle.lnfs_format.specs.Kinds.{writes};
ghost use Rattle.lnfs_policy.specs.Rows.{name_row, kind_of, entry_in, entries_of};
ghost use Rattle.lnfs_policy.specs.PolicyText.{spells_all};

use crate::fits::label_at;
use crate::rows::{FormatRow, LevelName, Spelling};
use lnfs_calipso::Label;
use lnfs_format::{Codecs, FormatEntry, Kind, NameRow, Pair};
use lnfs_types::{Items, Octets};
use std::alloc::{AllocError, Global};

/// The row of a name in the table of a format.
fn row_of(alloc: Global, labels: &[Label], name: &LevelName) -> Result<NameRow, AllocError>
    requires { 0 < length labels.now }
    ensures { IfOk result (λ row. row
        ≡ record { label = label_at labels.now name.now.level.0; bytes = name.now.bytes }) }
{
    Ok(NameRow {
        label: label_at(labels, name.level.0).clone()?,
        bytes: Octets::from_slice(alloc, name.bytes.as_slice())?,
    })
}

/// The table of a format.
fn table_of(
    alloc: Global,
    labels: &[Label],
    names: &[LevelName],
    pair: Pair,
) -> Result<Vec<NameRow>, AllocError>
    requires { 0 < length labels.now }
    ensures { IfOk result (λ rows. rows.items ≡ filter_map (name_row labels.now pair.lfs pair.pi)
        names.now) }
{
    let mut rows = Vec::new(alloc);
    for name in names {
        if name.pair == pair {
            rows.push(row_of(alloc, labels, name)?)?;
        }
    }
    Ok(rows)
}

/// The format of a line.
fn entry_of(
    alloc: Global,
    labels: &[Label],
    names: &[LevelName],
    row: &FormatRow,
) -> Result<FormatEntry, AllocError>
    requires { 0 < length labels.now }
    ensures { IfOk result (λ entry. entry ≡ entry_in labels.now names.now row.now) }
{
    let kind = match row.spelling {
        Spelling::Calipso => Kind::Calipso,
        Spelling::Text => Kind::Text { doi: row.pair.pi },
        Spelling::Name => Kind::Name {
            rows: Items::new(table_of(alloc, labels, names, row.pair)?),
        },
        Spelling::Long => Kind::Long,
    };
    Ok(FormatEntry {
        lfs: row.pair.lfs,
        pi: row.pair.pi,
        kind,
    })
}

/// The formats of the lines.
#[tactic(auto, unfolding(crate::specs::Rows::entries_of))]
pub fn entries_of(
    alloc: Global,
    labels: &[Label],
    names: &[LevelName],
    rows: &[FormatRow],
) -> Result<Vec<FormatEntry>, AllocError>
    requires { 0 < length labels.now }
    ensures { IfOk result (λ entries. entries.items ≡ entries_of labels.now names.now rows.now) }
{
    let mut entries = Vec::new(alloc);
    for row in rows {
        entries.push(entry_of(alloc, labels, names, row)?)?;
    }
    Ok(entries)
}

fn all_spelled(codecs: &Codecs, kind: &Kind, labels: &[Label]) -> Result<bool, AllocError>
    ensures { IfOk result (λ all. all ≡ list_all (λ label. is_some (writes kind.now label))
        labels.now) }
{
    for label in labels {
        if codecs.write(kind, label)?.is_none() {
            return Ok(false);
        }
    }
    Ok(true)
}

/// Whether the first format spells each label; where there is none, no.
pub fn spells_all(
    codecs: &Codecs,
    entries: &[FormatEntry],
    labels: &[Label],
) -> Result<bool, AllocError>
    ensures { IfOk result (λ all. all ≡ spells_all entries.now labels.now) }
{
    match entries.first() {
        Some(first) => all_spelled(codecs, &first.kind, labels),
        None => Ok(false),
    }
}
